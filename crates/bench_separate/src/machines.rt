//! The machines that are measured.
ghost use Rattle.std.specs.Prelude.{◌<◌, ◌≤◌};

use lw_mealy::Mealy;
use lw_words::NoMemory;
use rand_core::SeedableRng;
use rand_core::utils::NextWord;
use rand_pcg::Lcg128Xsl64;
use std::alloc::Global;

#[derive(Clone, Copy)]
pub enum Kind {
    /// Targets and outputs are drawn.
    Drawn,
    /// Each letter leads to the next state, and from the last to the first; the last state alone has output 1.
    Counter,
    /// Letter 0 leads to the next state, letter 1 to the first, where the last state alone has output 1; all other
    /// letters stay. States p < q need a word of as many letters as there are states from q on.
    Ladder,
}

impl Kind {
    pub fn name(self) -> &'static str {
        match self {
            Kind::Drawn => "drawn",
            Kind::Counter => "counter",
            Kind::Ladder => "ladder",
        }
    }

    /// The target and the output of a state at a letter.
    fn cell(self, random: &mut Lcg128Xsl64, states: u16, q: u16, x: u16) -> (u16, u16)
        requires { q < states }
        ensures target { result.0 < states }
        ensures output { result.1 < 2 }
    {
        let last = q + 1 == states;
        let next = if last { 0 } else { q + 1 };
        match self {
            Kind::Drawn => (below(random, states), below(random, 2)),
            Kind::Counter => (next, u16::from(last)),
            Kind::Ladder => match x {
                0 => (if last { q } else { next }, 0),
                1 => (0, u16::from(last)),
                _ => (q, 0),
            },
        }
    }
}

/// A drawn number below a bound.
fn below(random: &mut Lcg128Xsl64, bound: u16) -> u16
    requires { 0 < bound }
    ensures { result < bound }
{
    (random.next_word() % u64::from(bound)) as u16
}

/// A machine of this kind with outputs below 2.
pub fn machine(alloc: Global, kind: Kind, states: u16, letters: u16) -> Result<Mealy, NoMemory>
    requires { (1 ≤ letters) × (letters ≤ 64) }
{
    let mut random = Lcg128Xsl64::seed_from_u64(7);
    let mut rows = Vec::with_capacity(alloc, usize::from(states))?;
    for q in 0..states {
        let mut row = Vec::with_capacity(alloc, usize::from(letters))?;
        for x in 0..letters {
            row.push(kind.cell(&mut random, states, q, x))?;
        }
        rows.push(row)?;
    }
    Mealy::new(alloc, letters, 2, rows).map_err(|_| NoMemory)
}
