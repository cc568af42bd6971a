//! A system whose steps take a while.
ghost use Rattle.std.specs.Prelude.{◌≡◌, length};

use lw_names::OutName;
use lw_sul::{Sul, TableSul};
use lw_words::SulStop;

/// A table that counts this many turns of a loop in each step, as a system that is busy for a while.
#[derive(Drop)]
pub struct Paced {
    table: TableSul,
    turns: u64,
    noise: u64,
}

impl Paced {
    pub fn new(table: TableSul, turns: u64) -> Paced
        ensures { result.table ≡ table }
    {
        Paced {
            table,
            turns,
            noise: 1,
        }
    }
}

/// The number that comes of this many turns of a loop (xorshift, Marsaglia 2003).
pub fn spun(noise: u64, turns: u64) -> u64 {
    let mut noise = noise;
    for _ in 0..turns {
        noise ^= noise << 13;
        noise ^= noise >> 7;
        noise ^= noise << 17;
    }
    noise
}

impl Sul for Paced {
    ghost use Rattle.std.specs.Prelude.{length, true, false, Some, None};

    ghost state = { λ s. record {
      inputs = s.table.machine.inputs;
      outputs = s.table.machine.outputs;
      origin = record { machine = Some s.table.machine.rows; link = None; letters = None };
      place = s.table.state;
      started = true;
      faults = 0;
      stop = None;
      cut = false;
      runs = None;
      names = s.table.names;
      most = length s.table.names;
    } };

    fn inputs(&self) -> u16 {
        self.table.inputs()
    }

    fn outputs(&self) -> u16 {
        self.table.outputs()
    }

    fn named(&self) -> u16 {
        self.table.named()
    }

    fn most(&self) -> u16 {
        self.table.most()
    }

    fn name(&self, y: u16) -> OutName {
        self.table.name(y)
    }

    fn reset(&mut self) -> Result<(), SulStop> {
        self.table.reset()
    }

    fn step(&mut self, x: u16) -> Result<u16, SulStop> {
        self.noise = spun(self.noise, self.turns);
        self.table.step(x)
    }
}
