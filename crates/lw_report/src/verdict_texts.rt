//! The texts about a model and recorded answers.
ghost use Rattle.std.specs.Prelude.{◌≡◌, ◌++◌, length, codes, IfOk, OnOk, Some, option_map, slice_get, string_bytes};
ghost use Rattle.lw_report.specs.Text.{alike_line, clash_lines, differs_line, names_of, no_line, run_line, suite_line, unreached_line, yes_line};

use crate::texts::put_names;
use lw_cache::Clash;
use lw_certify::Verdict;
use lw_words::{Kept, KeptAnswer, Names, NoMemory, Word};
use std::alloc::Global;

/// The line about a model that the answers fix.
pub(crate) fn yes_text(
    alloc: Global,
    states: u16,
    extra: u8,
    answers: usize,
) -> Result<String, NoMemory>
    ensures { IfOk result (λ text. string_bytes text ≡ yes_line states extra answers) }
{
    Ok(format!(in alloc; "yes: states {states}, extra {extra}, answers {answers}\n")?)
}

/// The line about a word that is missing.
fn missing_text(alloc: Global, word: &Word, names: Option<&Names>) -> Result<String, NoMemory>
    ensures { IfOk result (λ text. string_bytes text ≡
        no_line (names_of (option_map (λ n. n.now) names.entry)) (Verdict.Missing word.now)) }
{
    let mut text = String::from_str(alloc, "no: word \"")?;
    put_names(&mut text, word.as_slice(), names)?;
    text.push_str("\" is missing\n")?;
    Ok(text)
}

/// The line about an answer that the model disagrees with.
fn differs_text(alloc: Global, answer: usize, place: usize) -> Result<String, NoMemory>
    ensures { IfOk result (λ text. string_bytes text ≡ differs_line answer place) }
{
    Ok(format!(in alloc; "no: answer {answer} differs at place {place}\n")?)
}

/// The line about a state that no word reaches.
fn unreached_text(alloc: Global, state: u16) -> Result<String, NoMemory>
    ensures { IfOk result (λ text. string_bytes text ≡ unreached_line state) }
{
    Ok(format!(in alloc; "no: state {state} is unreached\n")?)
}

/// The line about two states that no word tells apart.
fn alike_text(alloc: Global, p: u16, q: u16) -> Result<String, NoMemory>
    ensures { IfOk result (λ text. string_bytes text ≡ alike_line p q) }
{
    Ok(format!(in alloc; "no: states {p} and {q} are alike\n")?)
}

/// The line about a model that the answers don't fix.
pub(crate) fn no_text(
    alloc: Global,
    verdict: &Verdict,
    names: Option<&Names>,
) -> Result<String, NoMemory>
    ensures { IfOk result (λ text. string_bytes text ≡
        no_line (names_of (option_map (λ n. n.now) names.entry)) verdict.now) }
{
    match verdict {
        Verdict::Unreached(state) => unreached_text(alloc, *state),
        Verdict::Alike(p, q) => alike_text(alloc, *p, *q),
        Verdict::Differs { answer, place } => differs_text(alloc, *answer, *place),
        Verdict::Missing(word) => missing_text(alloc, word, names),
        Verdict::TooLarge(_) | Verdict::Sure => Ok(String::from_str(alloc, "no\n")?),
    }
}

/// Appends the line about a run.
fn put_run(
    alloc: Global,
    text: &mut String,
    run: &KeptAnswer,
    inputs: Option<&Names>,
    outputs: Option<&Names>,
) -> Result<(), NoMemory>
    ensures { OnOk result (string_bytes text.new ≡ string_bytes text.old ++
        run_line (names_of (option_map (λ n. n.now) inputs.entry))
        (names_of (option_map (λ n. n.now) outputs.entry)) (Some run.now)) }
{
    let (instance, number) = (run.instance, run.run);
    text.push_str(format!(in alloc; "instance {instance} run {number}: ")?.as_str())?;
    put_names(text, run.word.as_slice(), inputs)?;
    text.push_str(" / ")?;
    put_names(text, run.outs.as_slice(), outputs)?;
    text.push_str("\n")?;
    Ok(())
}

/// Appends the line about the answer with a number, where there is one.
fn put_answer(
    alloc: Global,
    text: &mut String,
    kept: &Kept,
    number: usize,
    inputs: Option<&Names>,
    outputs: Option<&Names>,
) -> Result<(), NoMemory>
    ensures { OnOk result (string_bytes text.new ≡ string_bytes text.old ++
        run_line (names_of (option_map (λ n. n.now) inputs.entry))
        (names_of (option_map (λ n. n.now) outputs.entry)) (slice_get kept.now.answers number)) }
{
    if number < kept.len() {
        put_run(alloc, text, kept.get(number), inputs, outputs)?;
    }
    Ok(())
}

/// The lines about two answers that no one machine agrees with.
pub(crate) fn clash_text(
    alloc: Global,
    clash: Clash,
    inputs: Option<&Names>,
    outputs: Option<&Names>,
    kept: &Kept,
) -> Result<String, NoMemory>
    ensures { IfOk result (λ text. string_bytes text ≡
        clash_lines (names_of (option_map (λ n. n.now) inputs.entry))
        (names_of (option_map (λ n. n.now) outputs.entry)) kept.now.answers clash) }
{
    let place = clash.place;
    let mut text = format!(in alloc; "nondeterministic at place {place}\n")?;
    put_answer(alloc, &mut text, kept, clash.first, inputs, outputs)?;
    put_answer(alloc, &mut text, kept, clash.second, inputs, outputs)?;
    Ok(text)
}

/// The line about a suite that would be too large.
pub(crate) fn suite_text(
    alloc: Global,
    states: u16,
    extra: u8,
    number: u64,
) -> Result<String, NoMemory>
    ensures { IfOk result (λ text. string_bytes text ≡ suite_line states extra number) }
{
    Ok(format!(in alloc; "suite too large: states {states}, extra {extra}, number {number}\n")?)
}
