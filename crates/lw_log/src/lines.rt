//! The lines of a log, each of which ends in a line feed.
ghost use Rattle.std.specs.Prelude.{◌≡◌, ◌++◌, codes, length, IfOk, OnOk, string_bytes};
ghost use Rattle.lw_words.specs.Word.{word_text};
ghost use Rattle.lw_log.specs.Lines.{counts_text, cut_line, phase_name, place_line, received_line, rest_line, step_line};

use crate::escaped::put_escaped;
use lw_rounds::{Phase, Step};
use lw_words::{Names, NoMemory, put_word};
use std::alloc::Global;

pub(crate) fn phase_name(phase: Phase) -> &'static str
    ensures { result.now ≡ phase_name phase }
{
    match phase {
        Phase::Words => "words",
        Phase::Table => "table",
        Phase::Suite => "suite",
        Phase::Walks => "walks",
        Phase::Analysis => "analysis",
        Phase::Settling => "settling",
    }
}

pub(crate) fn counts_text(
    alloc: Global,
    states: u16,
    asked: usize,
    known: usize,
    refinements: u32,
) -> Result<String, NoMemory>
    ensures { IfOk result (λ text. string_bytes text ≡
        counts_text states asked known refinements) }
{
    Ok(format!(in alloc;
        "states {states}, asked {asked}, known {known}, refinements {refinements}"
    )?)
}

/// The line about a step.
pub(crate) fn step_line(alloc: Global, step: Step) -> Result<String, NoMemory>
    ensures { IfOk result (λ line. string_bytes line ≡ step_line step) }
{
    let (round, phase) = (step.round, phase_name(step.phase));
    let counts = counts_text(alloc, step.states, step.asked, step.known, step.refinements)?;
    Ok(format!(in alloc; "round {round} {phase}: {counts}\n")?)
}

/// A word as its names.
fn names_text(alloc: Global, letters: &Names, word: &[u16]) -> Result<String, NoMemory>
    ensures { IfOk result (λ text. string_bytes text ≡
        word_text letters.now word.now) }
{
    let mut text = String::new(alloc);
    put_word(&mut text, letters, word)?;
    Ok(text)
}

/// The line about a run that was cut behind a letter.
fn place_line(alloc: Global, instance: u32, place: usize, names: &str) -> Result<String, NoMemory>
    ensures { IfOk result (λ line. string_bytes line ≡ place_line instance place names.now) }
{
    Ok(format!(in alloc; "instance {instance}: cut at place {place} of: {names}\n")?)
}

/// The line about a run that was cut, by the letters that it was asked.
pub(crate) fn cut_line(
    alloc: Global,
    instance: u32,
    letters: &Names,
    asked: &[u16],
) -> Result<String, NoMemory>
    ensures { IfOk result (λ line. string_bytes line ≡ cut_line instance letters.now asked.now) }
{
    if asked.is_empty() {
        return Ok(format!(in alloc; "instance {instance}: cut in a reset\n")?);
    }
    let names = names_text(alloc, letters, asked)?;
    place_line(alloc, instance, asked.len(), names.as_str())
}

/// The line about the last line that was received.
pub(crate) fn received_line(alloc: Global, received: &[u8]) -> Result<String, NoMemory>
    ensures { IfOk result (λ line. string_bytes line ≡ received_line received.now) }
{
    let mut line = String::from_str(alloc, "received: ")?;
    put_escaped(alloc, &mut line, received)?;
    line.push_str("\n")?;
    Ok(line)
}

/// The line about bytes after the last line.
pub(crate) fn rest_line(alloc: Global, rest: &[u8]) -> Result<String, NoMemory>
    ensures { IfOk result (λ line. string_bytes line ≡ rest_line rest.now) }
{
    let mut line = String::from_str(alloc, "rest: ")?;
    put_escaped(alloc, &mut line, rest)?;
    line.push_str("\n")?;
    Ok(line)
}
