//! What kind of file says a system.

/// What kind of file a system is read of.
#[derive(Clone, Copy, Debug, PartialEq, Eq)]
pub enum Source {
    /// A setup, which names a table file, or says how a child is started.
    Setup,
    /// A table file: a machine file, or an acceptor file where an acceptor is asked for.
    Table,
}
