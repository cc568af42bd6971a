//! The size that bounds a suite.
ghost use Rattle.std.specs.Prelude.{◌≡◌, ◌+◌, ◌*◌, ◌<◌, ◌≤◌, length, IfErr, OnOk};
ghost use Rattle.lw_chunks.specs.Size.{powers, suite_size, greatest_suite};
ghost use Rattle.lw_chunks.specs.declared.size.SuiteFault.{SuiteFault as Fault};

use lw_mealy::Mealy;
use lw_words::NoMemory;

/// The greatest size of a suite.
pub const GREATEST_SUITE: u64 = 8_388_608;

/// The number of words of at most `longest` letters over this many inputs.
#[tactic(auto, using(crate::proofs::SizeLemmas::size_steps))]
pub fn middle_count(inputs: u16, longest: u8) -> u64
    requires letters { inputs ≤ 64 }
    requires few { longest ≤ 5 }
    ensures { result ≡ powers inputs longest }
{
    let mut count = 1;
    let mut power = 1;
    for _ in 0..longest {
        power *= u64::from(inputs);
        count += power;
    }
    count
}

/// The size of the suite of a machine with this many states and inputs, for `extra` states more:
/// `n·n·(1 + a + .. + a^(k+1))`, which by the W- and the Wp-method is at least the number of its words.
pub fn suite_size(states: u16, inputs: u16, extra: u8) -> u64
    requires states { states ≤ 1024 }
    requires letters { inputs ≤ 64 }
    requires few { extra ≤ 4 }
    ensures { result ≡ suite_size states inputs extra }
{
    let square = u64::from(states) * u64::from(states);
    square * middle_count(inputs, extra + 1)
}

/// Why there is no suite.
#[derive(Clone, Copy, Debug, PartialEq, Eq, Drop)]
pub enum SuiteFault {
    /// The suite would have this size, which is above the greatest.
    TooLarge(u64),
    NoMemory,
}

impl From<NoMemory> for SuiteFault {
    ghost use Rattle.std.specs.Prelude.{◌≡◌};
    ghost use Rattle.lw_chunks.specs.declared.size.SuiteFault.TheVariants.{NoMemory as Wanted};

    ghost from_gives = { λ _ fault. fault ≡ Wanted };

    fn from(_: NoMemory) -> SuiteFault {
        SuiteFault::NoMemory
    }
}

/// Refuses a suite that is too large.
pub fn check_size(m: &Mealy, extra: u8) -> Result<(), SuiteFault>
    requires { extra ≤ 4 }
    ensures ok { OnOk result (suite_size (length m.now.rows) m.now.inputs extra ≤ greatest_suite) }
    ensures err { IfErr result (λ fault.
        (greatest_suite < suite_size (length m.now.rows) m.now.inputs extra) ×
        (fault ≡ Fault.TooLarge (suite_size (length m.now.rows) m.now.inputs extra))) }
{
    let size = suite_size(m.states(), m.inputs(), extra);
    if size > GREATEST_SUITE {
        return Err(SuiteFault::TooLarge(size));
    }
    Ok(())
}
