//! What stands at the other ends of a spawner's links in memory.
ghost use Rattle.std.specs.Prelude.{◌≡◌, Some, None, IfOk, IfSome, option_map};
ghost use Rattle.lw_outside.specs.Memory.{speaker_at};
ghost use Rattle.lw_outside.specs.bodies.Child.{IsFresh, speaker_of};
ghost use Rattle.lw_outside.specs.bodies.Cast.{cast_of};

use crate::child::Child;
use crate::script::Script;
use crate::served::{Served, copy_machine};
use lw_json::Machine;
use lw_words::NoMemory;
use std::alloc::Global;

/// Each link is to a child that plays the machine, or the i-th link to one that says the i-th script.
#[derive(Drop)]
pub(crate) enum Cast {
    AllServe(Machine),
    EachReads(Vec<Vec<u8>>),
}

impl Cast {
    /// The child of a link by its number, where there is one.
    pub(crate) fn child(&self, alloc: Global, number: usize) -> Result<Option<Child>, NoMemory>
        ensures { IfOk result (λ child. (option_map speaker_of child ≡
            speaker_at (cast_of self.now) number) × IfSome child IsFresh) }
    {
        match self {
            Cast::AllServe(machine) => {
                Ok(Some(Child::Serves(Served::new(copy_machine(machine)?))))
            }
            Cast::EachReads(scripts) => {
                let Some(script) = scripts.get(number) else {
                    return Ok(None);
                };
                Ok(Some(Child::Reads(Script {
                    bytes: Vec::from_slice(alloc, script)?,
                    given: 0,
                })))
            }
        }
    }
}
