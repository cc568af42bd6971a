//! What is learned of a system.

/// What is learned of a system, or asked of it.
#[derive(Clone, Copy, Debug, PartialEq, Eq)]
pub enum Goal {
    /// The machine that it is: it answers each letter by an output.
    Machine,
    /// The acceptor behind it: it is asked `?` too, and answers `yes`, `no` and `ok`.
    Acceptor,
}
