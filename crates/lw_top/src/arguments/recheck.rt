//! The arguments of `recheck`.
ghost use Rattle.std.specs.Prelude.{◌≡◌, Some, None, Err, IfOk};
ghost use Rattle.clap.specs.Words.{found_of, rows_of};
ghost use Rattle.lw_top.specs.CommandLine.{texts, app_for};
ghost use Rattle.lw_top.specs.RecheckCommand.{recheck_app, recheck_found, recheck_syntax, recheck_values};
ghost use Rattle.lw_top.specs.Syntaxes.{syntax_values};
ghost use Rattle.lw_top.specs.declared.values.ArgumentStop.{ArgumentStop as Stop};

use crate::ArgumentStop;
use crate::matching::read_matches;
use crate::options::{Argument, Entry, Syntax};
use crate::values::required_text_at;
use clap::ArgMatches;
use lw_recheck::RecheckArguments;
use std::alloc::Global;

static RECHECK: Syntax = Syntax {
    command: "recheck",
    about: "asks a program the words of recorded answers again",
    entries: &[
        Entry {
            argument: Argument::Required("setup"),
            value: "SETUP",
            about: "the setup file of the program",
        },
        Entry {
            argument: Argument::Required("answers"),
            value: "ANSWERS",
            about: "the file of the answers",
        },
    ],
    texts: &["SETUP", "ANSWERS"],
    takes_more: false,
    in_place: &[],
    together: &[],
    instead: &[],
    either: &[],
};

/// The arguments that `recheck` takes.
pub(crate) fn recheck_syntax() -> &'static Syntax
    ensures app { app_for result.now ≡ recheck_app }
    ensures values { syntax_values result.now ≡ recheck_syntax }
{
    &RECHECK
}

/// The values that clap found.
fn values_of(alloc: Global, matches: &ArgMatches) -> Result<RecheckArguments, ArgumentStop>
    ensures ok { IfOk result (λ v. recheck_found (rows_of (found_of matches.now)) ≡ Some v) }
    ensures refused { result ≡ Err Stop.Usage →
        recheck_found (rows_of (found_of matches.now)) ≡ None }
{
    let setup = required_text_at(alloc, matches, "setup")?;
    let answers = required_text_at(alloc, matches, "answers")?;
    Ok(RecheckArguments::new(setup, answers))
}

/// Reads the arguments of `recheck`, of which the first is the command.
pub fn recheck_arguments(
    alloc: Global,
    arguments: &[String],
) -> Result<RecheckArguments, ArgumentStop>
    ensures ok { IfOk result (λ v. recheck_values (texts arguments.now) ≡ Some v) }
    ensures refused { result ≡ Err Stop.Usage → recheck_values (texts arguments.now) ≡ None }
{
    let matches = read_matches(alloc, recheck_syntax(), arguments)?;
    values_of(alloc, &matches)
}
