//! A round: the machine of a closed table is tested, and a difference refines the table.
ghost use Rattle.std.specs.Prelude.{◌≡◌, ℕ, ◌-◌, ◌<◌, ◌≤◌, List, length, None, Err, IfOk, OnOk};
ghost use Rattle.std.specs.List.{All};
ghost use Rattle.lw_words.specs.Word.{IsWord};
ghost use Rattle.lw_mealy.specs.Machine.{IsMinimal};
ghost use Rattle.lw_separate.specs.Canonical.{IsCanonical};
ghost use Rattle.lw_chunks.specs.Size.{suite_size, greatest_suite};
ghost use Rattle.lw_chunks.specs.declared.size.SuiteFault.{SuiteFault as Fault};
ghost use Rattle.lw_plain.specs.Table.{first_new, close, machine_of, search_word, split_by};
ghost use Rattle.lw_plain.specs.Rounds.{IsUnrefuted, IsSuiteFor};
ghost use Rattle.lw_plain_run.specs.Run.{task_of, IsAlike};
ghost use Rattle.lw_plain_run.specs.bodies.Rounds.{IsRound};
ghost use Rattle.lw_plain.specs.Over.{IsOver};

use crate::cut::split;
use crate::difference::least_revealed;
use crate::hypothesis::hypothesis_of;
use crate::suite::test_suite;
use crate::table::Table;
use lw_chunks::SuiteFault;
use lw_mealy::Mealy;
use lw_separate::canonical;
use lw_suite::{Suite, suite_is_of_words};
use lw_words::{NoMemory, Word};
use std::alloc::Global;

/// The result of a round.
#[derive(Drop)]
pub enum Round {
    /// The table was refined.
    Refined,
    /// Its machine's canonical form, which gives its suite.
    Sure(Mealy),
    /// The canonical form, and the size of its suite, which is too large.
    TooLarge(Mealy, u64),
}

/// Splits a table by a counterexample, and closes it again.
fn refine(
    alloc: Global,
    m: &Mealy,
    h: &Mealy,
    table: &mut Table,
    word: &Word,
    most: u16,
) -> Result<(), NoMemory>
    requires over { IsOver m.now.inputs table.old }
    requires access { length table.old.access ≡ length h.now.rows }
    requires few { length table.old.access ≤ most }
    requires letters { IsWord m.now.inputs word.now }
    requires same_letters { h.now.inputs ≡ m.now.inputs }
    requires some { 0 < length word.now }
    ensures refined { OnOk result (table.new ≡
        close m.now.inputs m.now.rows (most - length table.old.access)
        (split_by m.now.inputs h.now.rows table.old word.now
        (search_word m.now.rows h.now.rows table.old.access (length word.now) word.now))) }
    ensures over { OnOk result (IsOver m.now.inputs table.new) }
    ensures few { OnOk result (length table.new.access ≤ most) }
{
    split(alloc, m, h, table, word)?;
    table.close(alloc, m, most)?;
    Ok(())
}

/// The result of a machine without a suite.
fn without_suite(model: Mealy, fault: SuiteFault) -> Result<Round, NoMemory>
    ensures { IfOk result (λ round. (number : ℕ) × (fault ≡ Fault.TooLarge number) ×
        (round ≡ Round.TooLarge model number)) }
{
    match fault {
        SuiteFault::TooLarge(number) => Ok(Round::TooLarge(model, number)),
        SuiteFault::NoMemory => Err(NoMemory),
    }
}

/// How many states more than its model a machine may have, and how many a model has at most.
#[derive(Clone, Copy)]
struct Limits {
    extra: u8,
    most: u16,
}

/// The end of a round: the suite of a machine's canonical form is tested.
fn test(
    alloc: Global,
    m: &Mealy,
    h: &Mealy,
    model: Mealy,
    suite: &mut Suite,
    limits: Limits,
    table: &mut Table,
) -> Result<Round, NoMemory>
    requires over { IsOver m.now.inputs table.old }
    requires few { length table.old.access ≤ limits.most }
    requires rows { h.now.rows ≡ machine_of m.now.inputs m.now.rows table.old }
    requires same_letters { h.now.inputs ≡ m.now.inputs }
    requires ready { IsUnrefuted (task_of m.now limits.extra limits.most) table.old }
    requires made { IsSuiteFor (task_of m.now limits.extra limits.most) h.now.rows model.rows
        suite.old }
    requires alike { IsAlike m.now model }
    ensures round { IfOk result
        (IsRound (task_of m.now limits.extra limits.most) m.now table.old table.new) }
    ensures over { OnOk result (IsOver m.now.inputs table.new) }
    ensures few { OnOk result (length table.new.access ≤ limits.most) }
{
    suite_is_of_words();
    match test_suite(alloc, m, h, suite, table)? {
        Some(word) => {
            refine(alloc, m, h, table, &word, limits.most)?;
            Ok(Round::Refined)
        }
        None => Ok(Round::Sure(model)),
    }
}

/// A round with the machine of the table.
fn round_with(
    alloc: Global,
    m: &Mealy,
    h: &Mealy,
    extra: u8,
    most: u16,
    table: &mut Table,
) -> Result<Round, NoMemory>
    requires over { IsOver m.now.inputs table.old }
    requires few { length table.old.access ≤ most }
    requires extra { extra ≤ 4 }
    requires closed { first_new m.now.inputs m.now.rows table.old ≡ None }
    requires rows { h.now.rows ≡ machine_of m.now.inputs m.now.rows table.old }
    requires alike { IsAlike m.now h.now }
    ensures round { IfOk result (IsRound (task_of m.now extra most) m.now table.old table.new) }
    ensures over { OnOk result (IsOver m.now.inputs table.new) }
    ensures few { OnOk result (length table.new.access ≤ most) }
{
    if let Some(word) = least_revealed(alloc, m, h, table.batches())? {
        refine(alloc, m, h, table, &word, most)?;
        return Ok(Round::Refined);
    }
    let model = canonical(alloc, h)?;
    match Suite::new(alloc, &model, extra) {
        Ok(mut suite) => {
            let limits = Limits { extra, most };
            test(alloc, m, h, model, &mut suite, limits, table)
        }
        Err(fault) => without_suite(model, fault),
    }
}

/// A round of a closed table.
pub fn one_round(
    alloc: Global,
    m: &Mealy,
    extra: u8,
    most: u16,
    table: &mut Table,
) -> Result<Round, NoMemory>
    requires over { IsOver m.now.inputs table.old }
    requires few { length table.old.access ≤ most }
    requires most { most ≤ 1024 }
    requires extra { extra ≤ 4 }
    requires closed { first_new m.now.inputs m.now.rows table.old ≡ None }
    ensures round { IfOk result (IsRound (task_of m.now extra most) m.now table.old table.new) }
    ensures over { OnOk result (IsOver m.now.inputs table.new) }
    ensures few { OnOk result (length table.new.access ≤ most) }
{
    let h = hypothesis_of(alloc, m, table)?;
    round_with(alloc, m, &h, extra, most, table)
}
