//! The learner: a closed table, and rounds until a model passes its suite.
ghost use Rattle.std.specs.Prelude.{◌≡◌, ℕ, ◌<◌, ◌≤◌, List, length, IfOk, OnOk};
ghost use Rattle.std.specs.List.{All};
ghost use Rattle.lw_words.specs.Word.{IsWord};
ghost use Rattle.lw_plain.specs.Table.{first_table};
ghost use Rattle.lw_plain.specs.Rounds.{closed_by};
ghost use Rattle.lw_plain_run.specs.Run.{task_of, IsPlainRun};
ghost use Rattle.lw_plain_run.specs.bodies.Rounds.{IsEnded, told_run};
ghost use Rattle.lw_plain.specs.Over.{IsOver};

use crate::PlainRun;
use crate::rounds::{Round, one_round};
use crate::table::Table;
use lw_mealy::Mealy;
use lw_words::{NoMemory, Word};
use std::alloc::Global;

/// How rounds end.
#[derive(Drop)]
enum Ended {
    /// The model, and the number of refinements.
    Learned(Mealy, u32),
    /// This row is new, and there may be no further state.
    Crowd(Word),
    /// The model, and the size of its suite.
    OfSize(Mealy, u64),
}

/// Rounds until a model passes its suite.
fn rounds(
    alloc: Global,
    m: &Mealy,
    extra: u8,
    most: u16,
    table: &mut Table,
) -> Result<Ended, NoMemory>
    requires over { IsOver m.now.inputs table.old }
    requires few { length table.old.access ≤ most }
    requires most { most ≤ 1024 }
    requires extra { extra ≤ 4 }
    ensures { IfOk result (IsEnded (task_of m.now extra most) m.now table.old table.new) }
{
    for refinements in 0..u32::MAX {
        if let Some(word) = table.first_new(alloc, m)? {
            return Ok(Ended::Crowd(word));
        }
        match one_round(alloc, m, extra, most, table)? {
            Round::Refined => {}
            Round::Sure(model) => return Ok(Ended::Learned(model, refinements)),
            Round::TooLarge(model, number) => return Ok(Ended::OfSize(model, number)),
        }
    }
    Err(NoMemory)
}

/// What is told of a table and how its rounds ended.
fn told(table: Table, ended: Ended) -> Result<PlainRun, NoMemory>
    ensures { IfOk result (λ run. run ≡ told_run table ended) }
{
    let (mut words, batches) = table.into_parts();
    match ended {
        Ended::Learned(model, refinements) => Ok(PlainRun::Learned {
            model,
            refinements,
            batches,
        }),
        Ended::Crowd(word) => {
            words.push(word)?;
            Ok(PlainRun::Crowd { words, batches })
        }
        Ended::OfSize(model, number) => Ok(PlainRun::TooLarge {
            model,
            number,
            batches,
        }),
    }
}

/// The first table, closed.
fn closed_table(alloc: Global, m: &Mealy, most: u16, given: &[Word]) -> Result<Table, NoMemory>
    requires most { 1 ≤ most }
    requires given { All (IsWord m.now.inputs) given.now }
    ensures closed { IfOk result (λ t. (extra : ℕ) →
        t ≡ closed_by (task_of m.now extra most) (first_table m.now.inputs given.now)) }
    ensures over { IfOk result (IsOver m.now.inputs) }
    ensures few { IfOk result (λ t. length t.access ≤ most) }
{
    let mut table = Table::first(alloc, m.inputs(), given)?;
    table.close(alloc, m, most)?;
    Ok(table)
}

/// Learns a machine as the definition says, on one list of batches, with suites for `extra` states more and at most
/// `max_states` states. Words that are given are asked first, as one batch.
///
/// It computes each output from the machine as often as it needs it, and looks through all words that were asked in each round.
///
/// # Errors
/// Only where memory runs out.
pub fn plain(
    alloc: Global,
    m: &Mealy,
    extra: u8,
    max_states: u16,
    given: &[Word],
) -> Result<PlainRun, NoMemory>
    requires extra { extra ≤ 4 }
    requires max_states { (1 ≤ max_states) × (max_states ≤ 1024) }
    requires given { All (IsWord m.now.inputs) given.now }
    ensures { IfOk result (IsPlainRun m.now extra max_states given.now) }
{
    let mut table = closed_table(alloc, m, max_states, given)?;
    let ended = rounds(alloc, m, extra, max_states, &mut table)?;
    told(table, ended)
}
