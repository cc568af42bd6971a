//! Lists of the names of outputs.
ghost use Rattle.std.specs.Prelude.{◌≡◌, ◌<◌, [], ◌∷◌, ◌++◌, length, slice_get, Some, IfOk, OnOk, OnErr};

use crate::OutName;
use lw_words::NoMemory;
use std::alloc::Global;
use std::marker::Model;

/// A list of names of outputs. Contracts see the list of their lists of bytes.
#[derive(Drop)]
pub struct Named {
    names: Vec<OutName>,
}

impl Model for Named {
    ghost use Rattle.std.specs.Prelude.{ℕ, List};

    ghost Value = { List (List ℕ) };

    ghost view = { λ list. list.names.items };
}

impl Named {
    /// The empty list. Takes no memory.
    pub fn new(alloc: Global) -> Named
        ensures { result ≡ [] }
    {
        Named {
            names: Vec::new(alloc),
        }
    }

    /// The empty list, with room for `n` names.
    pub fn with_room(alloc: Global, n: usize) -> Result<Named, NoMemory>
        ensures { IfOk result (λ list. list ≡ []) }
    {
        Ok(Named {
            names: Vec::with_capacity(alloc, n)?,
        })
    }

    /// The list of these names. Takes no memory.
    pub fn from_names(names: Vec<OutName>) -> Named
        ensures { result ≡ names.items }
    {
        Named { names }
    }

    /// Puts a name last. The list is unchanged where there is no memory.
    pub fn push(&mut self, name: OutName) -> Result<(), NoMemory>
        ensures ok { OnOk result (self.new ≡ self.old ++ name ∷ []) }
        ensures err { OnErr result (self.new ≡ self.old) }
    {
        self.names.push(name)?;
        Ok(())
    }

    pub fn len(&self) -> usize
        ensures { result ≡ length self.now }
    {
        self.names.len()
    }

    pub fn get(&self, i: usize) -> &OutName
        requires { i < length self.now }
        ensures { slice_get self.now i ≡ Some result.now }
    {
        &self.names[i]
    }
}
