//! A system for tests: a table that may refuse one of its calls, and that may wait for another one.
ghost use Rattle.std.specs.Prelude.{◌≡◌, ◌≤◌, length, true, None, Some};
ghost use Rattle.lw_words.specs.Cause.{CountedFault};
ghost use Rattle.lw_words.specs.declared.stop.SulStop.TheVariants.{Failed};

use lw_names::OutName;
use lw_sul::{Sul, TableSul};
use lw_words::SulStop;
use std::alloc::Global;
use std::sync::Arc;
use std::sync::atomic::{AtomicU32, Ordering};
use std::thread;

/// Where two systems tell each other that they have begun a step.
#[derive(Drop)]
pub struct Meeting {
    pub here: Arc<AtomicU32, Global>,
    pub there: Arc<AtomicU32, Global>,
}

impl Meeting {
    /// Tells that this one has begun, and whether the other one begins in time.
    fn is_kept(&self) -> bool {
        self.here.store(1, Ordering::SeqCst);
        for _ in 0..10_000_000 {
            if self.there.load(Ordering::SeqCst) > 0 {
                return true;
            }
            thread::yield_now();
        }
        false
    }
}

/// A table that refuses its call with this number, counted from 0, and that keeps its meeting in its first step or refuses it.
#[derive(Drop)]
pub struct Acting {
    table: TableSul,
    refused: Option<u32>,
    calls: u32,
    meeting: Option<Meeting>,
    started: bool,
    stop: Option<SulStop>,
    cut: bool,
    faults: u64,
}

impl Acting {
    /// The system before its first call.
    pub fn new(table: TableSul, refused: Option<u32>, meeting: Option<Meeting>) -> Acting
        ensures table { result.table ≡ table }
        ensures live { result.stop ≡ None }
    {
        Acting {
            table,
            refused,
            calls: 0,
            meeting,
            started: false,
            stop: None,
            cut: false,
            faults: 0,
        }
    }

    /// Counts a call, and tells whether it is the one that is refused.
    fn is_refused(&mut self) -> bool
        ensures table { self.new.table ≡ self.old.table }
        ensures stop { self.new.stop ≡ self.old.stop }
        ensures faults { self.new.faults ≡ self.old.faults }
        ensures started { self.new.started ≡ self.old.started }
    {
        let refused = self.refused == Some(self.calls);
        self.calls = self.calls.saturating_add(1);
        refused
    }

    /// Whether it has no meeting, or keeps it now.
    fn has_met(&mut self) -> bool
        ensures table { self.new.table ≡ self.old.table }
        ensures stop { self.new.stop ≡ self.old.stop }
        ensures faults { self.new.faults ≡ self.old.faults }
        ensures started { self.new.started ≡ self.old.started }
    {
        let Some(meeting) = self.meeting.take() else {
            return true;
        };
        meeting.is_kept()
    }

    /// Refuses a call: of a step, the run is cut off.
    fn refuse(&mut self, cut: bool) -> SulStop
        ensures stop { (result ≡ Failed) × (self.new.stop ≡ Some Failed) }
        ensures cut { self.new.cut ≡ cut }
        ensures table { self.new.table ≡ self.old.table }
        ensures fault { CountedFault self.old.faults self.new.faults }
        ensures counts { self.old.faults ≤ self.new.faults }
    {
        self.faults = self.faults.saturating_add(1);
        self.stop = Some(SulStop::Failed);
        self.cut = cut;
        SulStop::Failed
    }
}

impl Sul for Acting {
    ghost use Rattle.std.specs.Prelude.{length, Some, None};

    ghost state = { λ s. record {
      inputs = s.table.machine.inputs;
      outputs = s.table.machine.outputs;
      origin = record { machine = Some s.table.machine.rows; link = None; letters = None };
      place = s.table.state;
      started = s.started;
      faults = s.faults;
      stop = s.stop;
      cut = s.cut;
      runs = None;
      names = s.table.names;
      most = length s.table.names;
    } };

    fn inputs(&self) -> u16 {
        self.table.inputs()
    }

    fn outputs(&self) -> u16 {
        self.table.outputs()
    }

    fn named(&self) -> u16 {
        self.table.named()
    }

    fn most(&self) -> u16 {
        self.table.most()
    }

    fn name(&self, y: u16) -> OutName {
        self.table.name(y)
    }

    fn reset(&mut self) -> Result<(), SulStop> {
        if self.is_refused() {
            return Err(self.refuse(false));
        }
        let Ok(()) = self.table.reset() else {
            return Err(self.refuse(false));
        };
        self.started = true;
        self.stop = None;
        Ok(())
    }

    fn step(&mut self, x: u16) -> Result<u16, SulStop> {
        if self.is_refused() || !self.has_met() {
            return Err(self.refuse(true));
        }
        let Ok(y) = self.table.step(x) else {
            return Err(self.refuse(true));
        };
        self.stop = None;
        Ok(y)
    }
}
