//! The line of a finished run in a journal.
ghost use Rattle.std.specs.Prelude.{◌≡◌, ◌<◌, ◌++◌, length, IfOk, OnOk, string_bytes};
ghost use Rattle.std.specs.List.{All};
ghost use Rattle.lw_words.specs.Word.{name_at, word_text};
ghost use Rattle.lw_json.specs.AnswersText.{run_data};
ghost use Rattle.lw_json.specs.Journal.{IsJournalLine};

use crate::outputs::OutputNames;
use lw_json::journal_line;
use lw_words::{Names, NoMemory, Word, put_word};
use std::alloc::Global;

/// Puts the name of an output behind a text.
fn put_output(text: &mut String, outputs: &OutputNames, y: u16) -> Result<(), NoMemory>
    requires { y < length outputs.now.names }
    ensures { OnOk result (string_bytes text.new ≡
        string_bytes text.old ++ name_at outputs.now.names y) }
{
    let name = outputs.name(y);
    match str::from_utf8(name.as_slice()) {
        Ok(name) => text.push_str(name)?,
        Err(_) => unreachable!(),
    }
    Ok(())
}

/// Puts a word of outputs behind a text: their names, joined by one blank each.
fn put_outputs(text: &mut String, outputs: &OutputNames, outs: &[u16]) -> Result<(), NoMemory>
    requires { All (λ y. y < length outputs.now.names) outs.now }
    ensures { OnOk result (string_bytes text.new ≡
        string_bytes text.old ++ word_text outputs.now.names outs.now) }
{
    let Some((first, rest)) = outs.split_first() else {
        return Ok(());
    };
    put_output(text, outputs, *first)?;
    for y in rest {
        text.push_str(" ")?;
        put_output(text, outputs, *y)?;
    }
    Ok(())
}

/// The line of a run, with the names of its letters and of its outputs.
pub(crate) fn run_line(
    alloc: Global,
    instance: u32,
    run: u64,
    letters: &Names,
    word: &Word,
    outputs: &OutputNames,
    outs: &Word,
) -> Result<Vec<u8>, NoMemory>
    requires { All (λ y. y < length outputs.now.names) outs.now }
    ensures { IfOk result (λ line. IsJournalLine (run_data instance run
        (word_text letters.now word.now) (word_text outputs.now.names outs.now)) line.items) }
{
    let mut word_text = String::new(alloc);
    put_word(&mut word_text, letters, word.as_slice())?;
    let mut outs_text = String::new(alloc);
    put_outputs(&mut outs_text, outputs, outs.as_slice())?;
    journal_line(alloc, instance, run, word_text.as_str(), outs_text.as_str())
}
