//! The state of a word in a cache.

/// The state of a word in a cache.
#[derive(Clone, Copy, Debug, PartialEq, Eq)]
pub enum Known {
    /// It is known: empty, or a prefix of a clear answer's word.
    Yes,
    /// It isn't known, but words that begin with it are claimed; this is the least number of their claims.
    Pending(u32),
    /// Neither.
    No,
}
