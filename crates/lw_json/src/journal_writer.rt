//! Writes the lines of a journal: its head, and a run for each answer.

ghost use Rattle.std.specs.Prelude.{IfOk, OnOk};
ghost use Rattle.lw_json.specs.AnswersText.{run_data};
ghost use Rattle.lw_json.specs.Journal.{IsJournalLine, head_data};
ghost use Rattle.lw_json.specs.bodies.Tokens.{IsLineOf, Puts};

use crate::answers_tokens::put_names;
use json::Writer;
use lw_words::{Names, NoMemory};
use std::alloc::Global;

/// Puts the head of a journal: its format and its inputs.
fn put_head(out: &mut Writer, inputs: &Names) -> Result<(), NoMemory>
    ensures { OnOk result (Puts (head_data inputs.now) out.old out.new) }
{
    out.begin_object()?;
    out.key("format")?;
    out.u64(3)?;
    out.key("inputs")?;
    put_names(out, inputs)?;
    out.end_object()?;
    Ok(())
}

/// Puts a run as a list of its instance, its number and its two texts.
fn put_run(
    out: &mut Writer,
    instance: u32,
    run: u64,
    word: &str,
    outs: &str,
) -> Result<(), NoMemory>
    ensures { OnOk result (Puts (run_data instance run word.now outs.now) out.old out.new) }
{
    out.begin_array()?;
    out.u64(u64::from(instance))?;
    out.u64(run)?;
    out.string(word)?;
    out.string(outs)?;
    out.end_array()?;
    Ok(())
}

/// What was put, as a line.
fn line(out: Writer) -> Result<Vec<u8>, NoMemory>
    ensures { IfOk result (λ text. IsLineOf out text.items) }
{
    let mut text = out.into_inner();
    text.push(b'\n')?;
    Ok(text)
}

/// The first line of what one call appends to a journal: the compact JSON text of the format and the inputs, and a
/// line feed.
pub fn journal_header(alloc: Global, inputs: &Names) -> Result<Vec<u8>, NoMemory>
    ensures { IfOk result (λ text. IsJournalLine (head_data inputs.now) text.items) }
{
    let mut out = Writer::new(Vec::new(alloc));
    put_head(&mut out, inputs)?;
    line(out)
}

/// The line of a run in a journal: the compact JSON text of its instance, its number and its two texts, and a line
/// feed.
pub fn journal_line(
    alloc: Global,
    instance: u32,
    run: u64,
    word: &str,
    outs: &str,
) -> Result<Vec<u8>, NoMemory>
    ensures { IfOk result
        (λ text. IsJournalLine (run_data instance run word.now outs.now) text.items) }
{
    let mut out = Writer::new(Vec::new(alloc));
    put_run(&mut out, instance, run, word, outs)?;
    line(out)
}
