//! The nodes of a discrimination tree.
ghost use Rattle.std.specs.Prelude.{◌≡◌};
ghost use Rattle.lw_tree.specs.Tree.{is_temporary};

use lw_words::Word;

/// What stands at a node.
#[derive(Drop)]
pub enum Content {
    /// The leaf of a state.
    State(u16),
    /// An inner node, which has a child for each output word that was met.
    Discriminator { word: Word, temporary: bool },
    /// Nothing any more.
    Gone,
}

/// A node, by its parent and the outputs on the parent's discriminator.
#[derive(Drop)]
pub struct Node {
    pub(crate) parent: u32,
    pub(crate) branch: Word,
    pub(crate) content: Content,
}

impl Node {
    /// Whether it has a discriminator that a settling has yet to replace.
    pub(crate) fn is_temporary(&self) -> bool
        ensures { result ≡ is_temporary self.now.content }
    {
        match &self.content {
            Content::Discriminator { temporary, .. } => *temporary,
            _ => false,
        }
    }
}
