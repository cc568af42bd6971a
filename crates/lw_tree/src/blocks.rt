//! The classes of a tree's states, by the nodes above their leaves.
ghost use Rattle.std.specs.Prelude.{◌≡◌, ◌<◌, length};
ghost use Rattle.lw_tree.specs.Blocks.{IsMember, IsFork};
ghost use Rattle.lw_tree.specs.Tree.{node_at, leaf_at, discriminator, is_temporary, IsLive, IsInner};

use crate::DiscriminationTree;
use crate::nodes::Content;
use lw_words::Word;

impl DiscriminationTree {
    /// The leaf of a state.
    pub fn leaf(&self, state: u16) -> u32
        requires { state < length self.now.access }
        ensures value { result ≡ leaf_at self.now.leaves state }
        ensures live { IsLive (node_at self.now.nodes result).content }
    {
        self.leaves[usize::from(state)]
    }

    /// The root of the class of a state.
    pub fn class_root(&self, state: u16) -> u32
        requires { state < length self.now.access }
        ensures { IsMember self.now result state }
    {
        let mut root = self.leaf(state);
        while root > 0 {
            let parent = self.nodes.get(root).parent;
            if !self.nodes.get(parent).is_temporary() {
                return root;
            }
            root = parent;
        }
        root
    }

    /// Whether a node has a temporary discriminator.
    pub fn is_temporary(&self, node: u32) -> bool
        requires { IsLive (node_at self.now.nodes node).content }
        ensures { result ≡ is_temporary (node_at self.now.nodes node).content }
    {
        self.nodes.get(node).is_temporary()
    }

    /// The lowest node above two nodes.
    pub fn fork(&self, one: u32, other: u32) -> u32
        requires one { IsLive (node_at self.now.nodes one).content }
        requires other { IsLive (node_at self.now.nodes other).content }
        ensures fork { IsFork (node_at self.now.nodes) one other result }
        ensures live { IsLive (node_at self.now.nodes result).content }
    {
        let mut here = one;
        let mut there = other;
        while here != there {
            if here < there {
                there = self.nodes.get(there).parent;
            } else {
                here = self.nodes.get(here).parent;
            }
        }
        here
    }

    /// The discriminator of an inner node.
    pub fn discriminator(&self, node: u32) -> &Word
        requires { IsInner (node_at self.now.nodes node).content }
        ensures { result.now ≡ discriminator (node_at self.now.nodes node).content }
    {
        let Content::Discriminator { word, .. } = &self.nodes.get(node).content else {
            unreachable!();
        };
        word
    }
}
