//! The text of a trial.
ghost use Rattle.std.specs.Prelude.{◌≡◌, IfOk, string_bytes};
ghost use Rattle.lw_report.specs.Text.{drawn_line, equal_line, found_line, trial_lines};

use crate::Tried;
use lw_words::NoMemory;
use std::alloc::Global;

fn drawn_text(alloc: Global, states: u16, inputs: u16, seed: u64) -> Result<String, NoMemory>
    ensures { IfOk result (λ text. string_bytes text ≡ drawn_line states inputs seed) }
{
    Ok(format!(in alloc; "trial: states {states}, inputs {inputs}, seed {seed}\n")?)
}

fn found_text(
    alloc: Global,
    states: u16,
    refinements: u32,
    answers: u64,
) -> Result<String, NoMemory>
    ensures { IfOk result (λ text. string_bytes text ≡ found_line states refinements answers) }
{
    Ok(format!(in alloc;
        "learned: states {states}, refinements {refinements}, answers {answers}\n"
    )?)
}

fn equal_text(equal: bool) -> &'static str
    ensures { result.now ≡ equal_line equal }
{
    if equal { "equal: yes\n" } else { "equal: no\n" }
}

/// The three lines about a trial.
pub(crate) fn trial_text(alloc: Global, tried: Tried) -> Result<String, NoMemory>
    ensures { IfOk result (λ text. string_bytes text ≡ trial_lines tried) }
{
    let mut text = drawn_text(alloc, tried.states, tried.inputs, tried.seed)?;
    let found = found_text(alloc, tried.learned, tried.refinements, tried.answers)?;
    text.push_str(found.as_str())?;
    text.push_str(equal_text(tried.equal))?;
    Ok(text)
}
