//! A system for tests whose outputs have names as they come.
ghost use Rattle.std.specs.Prelude.{◌≡◌, ◌<◌, ◌≤◌, length, take, true, None, Some};
ghost use Rattle.lw_names.specs.Names.{Brings};
ghost use Rattle.lw_words.specs.Cause.{CountedFault};
ghost use Rattle.lw_words.specs.declared.stop.SulStop.TheVariants.{Failed};

use lw_names::OutName;
use lw_sul::{Sul, TableSul};
use lw_words::SulStop;

/// A table that tells no machine, and of whose names the first few came. It refuses an output past the next one that has no
/// name.
#[derive(Drop)]
pub struct Growing {
    table: TableSul,
    known: u16,
    started: bool,
    stop: Option<SulStop>,
    cut: bool,
    faults: u64,
    ghost within: { known ≤ length table.names },
}

/// How many outputs have names after one.
#[tactic(auto, using(crate::proofs::FirstNames::naming_steps))]
fn known_after(table: &TableSul, known: u16, y: u16) -> u16
    requires known { known ≤ length table.now.names }
    requires next { (y ≤ known) × (y < length table.now.names) }
    ensures within { result ≤ length table.now.names }
    ensures brings { Brings (take known table.now.names) (take result table.now.names) y }
{
    // for the proof alone: how many names there are fits
    let _ = table.named();
    if y == known { known + 1 } else { known }
}

impl Growing {
    /// The system before its first call.
    pub fn new(table: TableSul) -> Growing
        ensures table { result.table ≡ table }
        ensures begun { (result.stop ≡ None) × (result.known ≡ 0) }
    {
        Growing {
            table,
            known: 0,
            started: false,
            stop: None,
            cut: false,
            faults: 0,
        }
    }

    /// Refuses a call: of a step, the run is cut off.
    fn refuse(&mut self, cut: bool) -> SulStop
        ensures stop { (result ≡ Failed) × (self.new.stop ≡ Some Failed) }
        ensures cut { self.new.cut ≡ cut }
        ensures names { (self.new.table ≡ self.old.table) × (self.new.known ≡ self.old.known) }
        ensures fault { CountedFault self.old.faults self.new.faults }
        ensures counts { self.old.faults ≤ self.new.faults }
    {
        self.faults = self.faults.saturating_add(1);
        self.stop = Some(SulStop::Failed);
        self.cut = cut;
        SulStop::Failed
    }
}

impl Sul for Growing {
    ghost use Rattle.std.specs.Prelude.{length, take, None};

    ghost state = { λ s. record {
      inputs = s.table.machine.inputs;
      outputs = 4096;
      origin = record { machine = None; link = None; letters = None };
      place = 0;
      started = s.started;
      faults = s.faults;
      stop = s.stop;
      cut = s.cut;
      runs = None;
      names = take s.known s.table.names;
      most = length s.table.names;
    } };

    fn inputs(&self) -> u16 {
        self.table.inputs()
    }

    fn outputs(&self) -> u16 {
        4096
    }

    #[tactic(auto, using(crate::proofs::FirstNames::naming_steps))]
    fn named(&self) -> u16 {
        // for the proof alone: they are names
        let _ = self.table.named();
        self.known
    }

    fn most(&self) -> u16 {
        self.table.most()
    }

    #[tactic(auto, using(crate::proofs::FirstNames::naming_steps))]
    fn name(&self, y: u16) -> OutName {
        self.table.name(y)
    }

    fn reset(&mut self) -> Result<(), SulStop> {
        let Ok(()) = self.table.reset() else {
            return Err(self.refuse(false));
        };
        self.started = true;
        self.stop = None;
        Ok(())
    }

    fn step(&mut self, x: u16) -> Result<u16, SulStop> {
        let Ok(y) = self.table.step(x) else {
            return Err(self.refuse(true));
        };
        if y > self.known || y >= self.table.named() || y >= 4096 {
            return Err(self.refuse(true));
        }
        self.known = known_after(&self.table, self.known, y);
        self.stop = None;
        Ok(y)
    }
}
