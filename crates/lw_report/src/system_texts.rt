//! The texts about systems that stopped, and about what is asked of a child.
ghost use Rattle.std.specs.Prelude.{◌≡◌, IfOk, string_bytes};
ghost use Rattle.lw_report.specs.Text.{bad_ask_line, bad_line, cause_text, failed_line, gone_line, letter_line, rechecked_line, unstarted_line};

use lw_outside::StartFailure;
use lw_words::{Line, NoMemory};
use std::alloc::Global;

/// The line about a system that failed.
pub(crate) fn failed_text(alloc: Global, instance: u32) -> Result<String, NoMemory>
    ensures { IfOk result (λ text. string_bytes text ≡ failed_line instance) }
{
    Ok(format!(in alloc; "system failed: instance {instance}\n")?)
}

/// The line about a system that ended.
pub(crate) fn gone_text(alloc: Global, instance: u32) -> Result<String, NoMemory>
    ensures { IfOk result (λ text. string_bytes text ≡ gone_line instance) }
{
    Ok(format!(in alloc; "system ended: instance {instance}\n")?)
}

/// The line about a line of a system.
pub(crate) fn bad_line_text(alloc: Global, instance: u32, line: &Line) -> Result<String, NoMemory>
    ensures { IfOk result (λ text. string_bytes text ≡ bad_line instance line.now) }
{
    let digits = hex::encode(alloc, line.as_slice())?;
    Ok(format!(in alloc; "bad line: instance {instance}: {digits}\n")?)
}

/// The line about a line that was asked of a child.
pub(crate) fn bad_ask_text(alloc: Global, number: u32) -> Result<String, NoMemory>
    ensures { IfOk result (λ text. string_bytes text ≡ bad_ask_line number) }
{
    Ok(format!(in alloc; "bad line: {number}\n")?)
}

/// Why no child was started.
fn cause(alloc: Global, cause: StartFailure) -> Result<String, NoMemory>
    ensures { IfOk result (λ text. string_bytes text ≡ cause_text cause) }
{
    match cause {
        StartFailure::NotFound => Ok(String::from_str(alloc, "no such program")?),
        StartFailure::NotExecutable => Ok(String::from_str(alloc, "the program may not be run")?),
        StartFailure::Folder => Ok(String::from_str(alloc, "the program is a folder")?),
        StartFailure::System(code) => Ok(format!(in alloc; "error {code} of the system")?),
        StartFailure::Unknown => Ok(String::from_str(alloc, "unknown cause")?),
    }
}

/// The line about a child that was not started.
pub(crate) fn unstarted_text(alloc: Global, failure: StartFailure) -> Result<String, NoMemory>
    ensures { IfOk result (λ text. string_bytes text ≡ unstarted_line failure) }
{
    let cause = cause(alloc, failure)?;
    Ok(format!(in alloc; "system not started: {cause}\n")?)
}

/// The line about a letter that is no input.
pub(crate) fn letter_text(alloc: Global, word: u64, place: u64) -> Result<String, NoMemory>
    ensures { IfOk result (λ text. string_bytes text ≡ letter_line word place) }
{
    Ok(format!(in alloc; "bad word {word}: letter {place} is no input\n")?)
}

/// The line about answers that were given again.
pub(crate) fn rechecked_text(alloc: Global, answers: u64) -> Result<String, NoMemory>
    ensures { IfOk result (λ text. string_bytes text ≡ rechecked_line answers) }
{
    Ok(format!(in alloc; "same: answers {answers}\n")?)
}
