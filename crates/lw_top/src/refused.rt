//! What a log gets of arguments of `learn` or `accept` that aren't taken: which option's value is out of its range.
ghost use Rattle.std.specs.Prelude.{◌≡◌, None, false};
ghost use Rattle.lw_top.specs.CommandLine.{may_log, texts};

use crate::ArgumentStop;
use crate::arguments::accept::accept_syntax;
use crate::arguments::learn::learn_syntax;
use crate::matching::is_command;
use crate::options::Syntax;
use crate::ranges::Range;
use crate::reasons::{is_within, range_text};
use lw_log::Log;
use lw_outside::{LogFile, Sink};
use lw_report::{Outcome, outcome_text};
use lw_words::{Kept, NoMemory};
use std::alloc::Global;

/// The value of an option in one argument, behind a `=`.
fn value_in<'a>(argument: &'a str, option: &str) -> Option<&'a str> {
    argument
        .strip_prefix("--")?
        .strip_prefix(option)?
        .strip_prefix("=")
}

/// Whether an argument names an option.
fn names_option(argument: &str, option: &str) -> bool {
    match argument.strip_prefix("--") {
        Some(name) => name == option,
        None => false,
    }
}

/// The value of an option: behind a `=`, or in the next argument, which begins no other option. What is behind `--` is no
/// option's.
fn value_of<'a>(arguments: &'a [String], option: &str) -> Option<&'a str> {
    let mut is_next = false;
    for argument in arguments {
        let argument = argument.as_str();
        if is_next && !argument.starts_with("-") {
            return Some(argument);
        }
        if argument == "--" {
            return None;
        }
        if let Some(value) = value_in(argument, option) {
            return Some(value);
        }
        is_next = names_option(argument, option);
    }
    None
}

/// The line about the value of an option that is out of its range.
fn range_line(alloc: Global, option: &str, range: Range) -> Result<String, NoMemory> {
    let mut line = range_text(alloc, option, range)?;
    line.push_str("\n")?;
    Ok(line)
}

/// Puts a line for each value that is out of its range.
fn log_ranges<L: LogFile, N: Sink>(
    alloc: Global,
    syntax: &Syntax,
    arguments: &[String],
    log: &mut Log<L, N>,
) {
    for entry in syntax.entries {
        let Some((option, range)) = entry.argument.number() else {
            continue;
        };
        let Some(text) = value_of(arguments, option) else {
            continue;
        };
        if !is_within(text, range) {
            log.line(range_line(alloc, option, range));
        }
    }
}

/// The arguments of the command that is named, where it may write a log.
fn logged_syntax(arguments: &[String]) -> Option<&'static Syntax>
    ensures { may_log (texts arguments.now) ≡ false → result ≡ None }
{
    if is_command("learn", arguments) {
        return Some(learn_syntax());
    }
    if is_command("accept", arguments) {
        return Some(accept_syntax());
    }
    None
}

/// Puts why arguments of `learn` or `accept` aren't taken to the log that they name, if they name one: the values that are out of
/// their ranges, and the outcome's text.
pub(crate) fn log_refused<L: LogFile, N: Sink>(
    alloc: Global,
    arguments: &[String],
    stop: ArgumentStop,
    log: &mut Log<L, N>,
)
    ensures { may_log (texts arguments.now) ≡ false → log.new ≡ log.old }
{
    let Some(syntax) = logged_syntax(arguments) else {
        return;
    };
    let Some(name) = value_of(arguments, "log") else {
        return;
    };
    log.open(name);
    log_ranges(alloc, syntax, arguments, log);
    let outcome = Outcome::from(stop);
    log.line(outcome_text(alloc, &outcome, None, None, &Kept::new(alloc), 0));
}
