//! What clap finds in the arguments of a command.
ghost use Rattle.std.specs.Prelude.{◌≡◌, Err, IfOk, OnOk, false, true};
ghost use Rattle.clap.specs.Faults.{is_simple_and_free};
ghost use Rattle.clap.specs.Words.{found_of, kind_of, matches_of, rows_of};
ghost use Rattle.lw_top.specs.CommandLine.{are_taken, is_command, refusal_of, texts, app_for};
ghost use Rattle.lw_top.specs.declared.values.ArgumentStop.{ArgumentStop as Stop};

use crate::ArgumentStop;
use crate::options::{Syntax, command_of};
use clap::error::ErrorKind;
use clap::{ArgMatches, Error};
use std::alloc::Global;

/// Whether the first argument is the command of this name.
pub(crate) fn is_command(name: &str, arguments: &[String]) -> bool
    ensures { result ≡ is_command name.now (texts arguments.now) }
{
    match arguments.first() {
        Some(command) => command.as_str() == name,
        None => false,
    }
}

/// Why a parse failed.
fn stop_of(error: &Error) -> ArgumentStop
    ensures { result ≡ refusal_of (kind_of error.now) }
{
    match error.kind() {
        ErrorKind::OutOfMemory => ArgumentStop::NoMemory,
        _ => ArgumentStop::Usage,
    }
}

/// What clap finds in the arguments, of which the first is the command.
pub(crate) fn read_matches<'a>(
    alloc: Global,
    syntax: &Syntax,
    arguments: &'a [String],
) -> Result<ArgMatches<'a>, ArgumentStop>
    requires { is_simple_and_free (app_for syntax.now) ≡ true }
    ensures found { IfOk result (λ m. rows_of (found_of m) ≡
        matches_of (app_for syntax.now) (texts arguments.entry.now)) }
    ensures taken { OnOk result (are_taken (app_for syntax.now) (texts arguments.entry.now) ≡
        true) }
    ensures refused { result ≡ Err Stop.Usage →
        are_taken (app_for syntax.now) (texts arguments.entry.now) ≡ false }
{
    if !is_command(syntax.command, arguments) {
        return Err(ArgumentStop::Usage);
    }
    let command = command_of(alloc, syntax)?;
    match command.try_get_matches_from(arguments) {
        Ok(matches) => Ok(matches),
        Err(error) => Err(stop_of(&error)),
    }
}
