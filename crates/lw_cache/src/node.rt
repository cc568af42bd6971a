//! The nodes of the trie.

/// In place of an answer's number: there is none.
pub(crate) const NONE: u32 = u32::MAX;

/// In place of a claim's number, which is a `u32`: there is none.
pub(crate) const UNCLAIMED: u64 = 1 << 32;

/// A node: the word of its parent and one letter more. Node 0 is the empty word, and a parent's number is less than its
/// child's, since nodes are only appended.
#[derive(Clone, Copy)]
pub(crate) struct Node {
    pub(crate) letter: u16,
    /// The last output to the word, where there is an answer.
    pub(crate) output: u16,
    pub(crate) parent: u32,
    /// The newest child; 0 where there is none.
    pub(crate) first: u32,
    /// The parent's newest child that is older; 0 where there is none.
    pub(crate) next: u32,
    /// The earliest clear answer whose word begins with the node's.
    pub(crate) answer: u32,
    /// The least claim whose word begins with the node's.
    pub(crate) claim: u64,
    /// The claim of the node's word itself.
    pub(crate) ends: u64,
}

impl Node {
    pub(crate) const ROOT: Node = Node {
        letter: 0,
        output: 0,
        parent: 0,
        first: 0,
        next: 0,
        answer: NONE,
        claim: UNCLAIMED,
        ends: UNCLAIMED,
    };
}

/// A claim, and the node of its word.
#[derive(Clone, Copy, Drop)]
pub(crate) struct Held {
    pub(crate) number: u32,
    pub(crate) end: u32,
}
