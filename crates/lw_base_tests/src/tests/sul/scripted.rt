//! A system for tests that tells its runs, answers or stops by a script, and names its outputs as they come.
ghost use Rattle.std.specs.Prelude.{◌≡◌, ◌<◌, ◌≤◌, [], length, take, true, None, Some, IfOk, vec_len, vec_capacity};
ghost use Rattle.lw_names.specs.Names.{Brings};
ghost use Rattle.lw_words.specs.Cause.{CountedFault};
ghost use Rattle.lw_words.specs.declared.stop.SulStop.TheVariants.{Failed};

use lw_names::{OutName, name_of};
use lw_sul::Sul;
use lw_words::{Names, SulStop};
use std::alloc::{AllocError, Global};

/// What a script has for a call.
#[derive(Clone, Copy)]
pub enum Reply {
    /// The reset is done.
    Ready,
    /// The step has this output.
    Output(u16),
    /// The call is refused.
    Refused,
}

/// A system of two inputs and three outputs, of whose names the first few came. A call for which the script has no
/// fitting reply is refused, and so is an output past the next one that has no name.
#[derive(Drop)]
pub struct Scripted {
    script: Vec<Reply>,
    made: usize,
    /// The calls that were answered Ok: None for a reset, the letter and the output for a step.
    log: Vec<Option<(u16, u16)>>,
    started: bool,
    stop: Option<SulStop>,
    cut: bool,
    faults: u64,
    names: Names,
    known: u16,
    ghost within: { known ≤ length names },
}

/// How many outputs have names after one.
#[tactic(auto, using(crate::proofs::TestScripts::naming_steps))]
fn known_after(names: &Names, known: u16, y: u16) -> u16
    requires known { known ≤ length names.now }
    requires next { (y ≤ known) × (y < length names.now) }
    ensures within { result ≤ length names.now }
    ensures brings { Brings (take known names.now) (take result names.now) y }
{
    let _count = names.len();
    if y == known { known + 1 } else { known }
}

impl Scripted {
    /// The system before its first call. So many of the names came already.
    pub fn new(
        alloc: Global,
        script: Vec<Reply>,
        names: Names,
        known: u16,
    ) -> Result<Scripted, AllocError>
        requires { known ≤ length names }
        ensures { IfOk result (λ s. (s.stop ≡ None) × (s.log.items ≡ [])) }
    {
        let log = Vec::with_capacity(alloc, script.len())?;
        Ok(Scripted {
            script,
            made: 0,
            log,
            started: false,
            stop: None,
            cut: false,
            faults: 0,
            names,
            known,
        })
    }

    /// The calls that were answered Ok.
    pub fn log(&self) -> &[Option<(u16, u16)>] {
        self.log.as_slice()
    }

    /// How many calls were made.
    pub fn made(&self) -> usize {
        self.made
    }

    /// The script's reply to the next call; past its end, a refusal.
    fn reply(&self) -> Reply {
        match self.script.get(self.made) {
            Some(reply) => *reply,
            None => Reply::Refused,
        }
    }

    /// Whether an output has a name or is the next to have one, and the log has room.
    fn takes(&self, y: u16) -> bool
        ensures { result ≡ true → (y ≤ self.now.known) × (y < length self.now.names) ×
            (vec_len self.now.log < vec_capacity self.now.log) }
    {
        y <= self.known && y < self.names.len() && self.log.len() < self.log.capacity()
    }

    /// Refuses a call: of a step, the run is cut off.
    fn refuse(&mut self, cut: bool) -> SulStop
        ensures stop { (result ≡ Failed) × (self.new.stop ≡ Some Failed) }
        ensures cut { self.new.cut ≡ cut }
        ensures log { self.new.log ≡ self.old.log }
        ensures names { (self.new.names ≡ self.old.names) × (self.new.known ≡ self.old.known) }
        ensures fault { CountedFault self.old.faults self.new.faults }
        ensures counts { self.old.faults ≤ self.new.faults }
    {
        self.made = self.made.saturating_add(1);
        self.faults = self.faults.saturating_add(1);
        self.stop = Some(SulStop::Failed);
        self.cut = cut;
        SulStop::Failed
    }
}

impl Sul for Scripted {
    ghost use Rattle.std.specs.Prelude.{length, take, Some, None};
    ghost use Rattle.lw_base_tests.specs.TestScript.{runs_of};

    ghost state = { λ s. record {
      inputs = 2;
      outputs = 3;
      origin = record { machine = None; link = None; letters = None };
      place = 0;
      started = s.started;
      faults = s.faults;
      stop = s.stop;
      cut = s.cut;
      runs = Some (runs_of s.log.items);
      names = take s.known s.names;
      most = length s.names;
    } };

    fn inputs(&self) -> u16 {
        2
    }

    fn outputs(&self) -> u16 {
        3
    }

    #[tactic(auto, using(crate::proofs::TestScripts::naming_steps))]
    fn named(&self) -> u16 {
        let _names = self.names.len();
        self.known
    }

    fn most(&self) -> u16 {
        self.names.len()
    }

    #[tactic(auto, using(crate::proofs::TestScripts::naming_steps))]
    fn name(&self, y: u16) -> OutName {
        name_of(&self.names, y)
    }

    #[tactic(auto, using(crate::proofs::TestScripts::script_steps))]
    fn reset(&mut self) -> Result<(), SulStop> {
        match self.reply() {
            Reply::Ready if self.log.len() < self.log.capacity() => {
                self.made = self.made.saturating_add(1);
                self.log.push_reserved(None);
                self.started = true;
                Ok(())
            }
            _ => Err(self.refuse(false)),
        }
    }

    #[tactic(auto, using(crate::proofs::TestScripts::script_steps))]
    fn step(&mut self, x: u16) -> Result<u16, SulStop> {
        match self.reply() {
            Reply::Output(y) if y < 3 && self.takes(y) => {
                self.made = self.made.saturating_add(1);
                self.known = known_after(&self.names, self.known, y);
                self.log.push_reserved(Some((x, y)));
                Ok(y)
            }
            _ => Err(self.refuse(true)),
        }
    }
}
