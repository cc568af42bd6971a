//! The words of a suite are asked until a machine answers otherwise.
ghost use Rattle.std.specs.Prelude.{◌≡◌, ℕ, List, length, IfOk, OnOk};
ghost use Rattle.std.specs.List.{All};
ghost use Rattle.lw_words.specs.Word.{IsWord};
ghost use Rattle.lw_plain.specs.Tested.{TestsWords};
ghost use Rattle.lw_plain.specs.Over.{IsOver};

use crate::difference::first_difference;
use crate::table::{Table, copy_words};
use lw_mealy::Mealy;
use lw_suite::Suite;
use lw_words::{NoMemory, Word};
use std::alloc::Global;

/// Asks what is left of a suite, chunk by chunk, until a machine answers otherwise.
pub fn test_suite(
    alloc: Global,
    m: &Mealy,
    h: &Mealy,
    suite: &mut Suite,
    table: &mut Table,
) -> Result<Option<Word>, NoMemory>
    requires over { IsOver m.now.inputs table.old }
    requires letters { All (IsWord m.now.inputs) suite.old }
    requires same_letters { h.now.inputs ≡ m.now.inputs }
    ensures tests { IfOk result
        (TestsWords m.now.rows h.now.rows suite.old table.old table.new) }
    ensures over { OnOk result (IsOver m.now.inputs table.new) }
{
    let mut chunk = Vec::new(alloc);
    while suite.next_chunk(&mut chunk)? {
        table.add_batch(copy_words(alloc, chunk.as_slice())?)?;
        if let Some(front) = first_difference(m, h, chunk.as_slice())? {
            return Ok(Some(front));
        }
    }
    Ok(None)
}
