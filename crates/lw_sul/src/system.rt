//! Systems that can only be reset and stepped.
ghost use Rattle.std.specs.Prelude.{◌≡◌, ◌<◌, length, true, None};
ghost use Rattle.lw_names.specs.Names.{AreNamed};
ghost use Rattle.std.specs.List.{All};
ghost use Rattle.lw_words.specs.Word.{IsWord, name_at};
ghost use Rattle.lw_sul.specs.System.{SulState, SulReset, SulStep};

use lw_names::OutName;
use lw_words::{SulStop, Word};
use std::alloc::Global;

/// A system that can only be reset and stepped. It may be a table, or a program that runs elsewhere.
///
/// A refused call stops the system: no call may follow it. No call but `keep` takes memory.
pub trait Sul {
    ghost state: { Self → SulState };

    /// Whether a call may wait for something else, as for a program. Where none does, threads of their own would only cost: a
    /// pool asks such systems one after the other.
    const WAITS: bool = true;

    fn inputs(&self) -> u16
        ensures { result ≡ (state self.now).inputs };

    fn outputs(&self) -> u16
        ensures { result ≡ (state self.now).outputs };

    /// How many outputs have names so far.
    fn named(&self) -> u16
        ensures count { result ≡ length (state self.now).names }
        ensures lawful { AreNamed (state self.now).most (state self.now).names };

    fn most(&self) -> u16
        ensures { result ≡ (state self.now).most };

    /// The name of an output. Takes no memory.
    fn name(&self, y: u16) -> OutName
        requires { y < length (state self.now).names }
        ensures { result ≡ name_at (state self.now).names y };

    /// Goes back to the initial state.
    fn reset(&mut self) -> Result<(), SulStop>
        requires live { (state self.old).stop ≡ None }
        ensures { SulReset (state self.old) (state self.new) result };

    /// Sends a letter, and takes its output.
    fn step(&mut self, x: u16) -> Result<u16, SulStop>
        requires live { (state self.old).stop ≡ None }
        requires begun { (state self.old).started ≡ true }
        requires letter { x < (state self.old).inputs }
        ensures { SulStep x (state self.old) (state self.new) result };

    /// Hands on a finished run of a session, to be written where the system has a journal. Nothing that the system tells changes by
    /// it, and a line that can't be written is told by whom the journal is of.
    fn keep(&mut self, alloc: Global, instance: u32, run: u64, word: &Word, outs: &Word)
        requires letters { IsWord (state self.old).inputs word.now }
        requires named { All (λ y. y < length (state self.old).names) outs.now }
        ensures { state self.new ≡ state self.old }
    {
        let _ = alloc;
        let _ = instance;
        let _ = run;
        let _ = word;
        let _ = outs;
    }
}
