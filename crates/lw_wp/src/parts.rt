//! What a suite by a table is made of.
ghost use Rattle.std.specs.Prelude.{◌≡◌, ◌<◌, ◌≤◌, length, IfOk};
ghost use Rattle.lw_chunks.specs.Size.{suite_size, greatest_suite};
ghost use Rattle.lw_separate.specs.Canonical.{AreLeastAccess};
ghost use Rattle.lw_separate.specs.Separators.{IsSeparators};
ghost use Rattle.lw_wp.specs.bodies.Cursors.{AreParts, words_of};
ghost use Rattle.lw_wp.specs.Tables.{suite_by};
ghost use Rattle.lw_wp.specs.bodies.Tables.{IsTable, numbers_in};

use lw_chunks::middle_count;
use lw_mealy::Mealy;
use lw_words::{NoMemory, Words};

/// The machine, the access words and the separating words of a suite for `extra` states more, the numbers of its middle
/// words of at most `extra` and of one letter more, and what stands behind a prefix.
///
/// That is a table of numbers of separating words: for each state to which the prefix leads, and for each number of
/// letters that the middle word has fewer than the longest. Where a state has no such row, all separating words do.
#[derive(Drop)]
pub(crate) struct Parts {
    pub(crate) machine: Mealy,
    pub(crate) extra: u8,
    pub(crate) shorter: u64,
    pub(crate) longest: u64,
    pub(crate) access: Words,
    pub(crate) ends: Words,
    pub(crate) behind: Vec<Vec<Vec<u16>>>,
}

/// Which row of the table stands behind a prefix.
#[derive(Clone, Copy)]
pub(crate) struct Row {
    pub(crate) state: u16,
    pub(crate) left: usize,
}

/// The parts of a suite by this table.
pub(crate) fn parts_by(
    m: &Mealy,
    access: Words,
    extra: u8,
    ends: Words,
    behind: Vec<Vec<Vec<u16>>>,
) -> Result<Parts, NoMemory>
    requires few { extra ≤ 4 }
    requires least { AreLeastAccess m.now.inputs m.now.rows access }
    requires separating { IsSeparators m.now.inputs m.now.rows ends }
    requires short { length ends < length m.now.rows }
    requires table { IsTable m.now.rows ends (numbers_in behind) }
    requires size { suite_size (length m.now.rows) m.now.inputs extra ≤ greatest_suite }
    ensures parts { IfOk result AreParts }
    ensures machine { IfOk result (λ p. p.machine ≡ m.now) }
    ensures words { IfOk result (λ p. words_of p ≡
        suite_by m.now.inputs m.now.rows extra access ends (numbers_in behind)) }
{
    let shorter = middle_count(m.inputs(), extra);
    Ok(Parts {
        machine: m.copy()?,
        extra,
        shorter,
        longest: middle_count(m.inputs(), extra + 1) - shorter,
        access,
        ends,
        behind,
    })
}
