//! The arguments of `check`.
ghost use Rattle.std.specs.Prelude.{◌≡◌, ◌≤◌, Some, None, Err, IfOk, option_map, string_bytes};
ghost use Rattle.clap.specs.Words.{found_of, rows_of};
ghost use Rattle.lw_top.specs.CommandLine.{texts, app_for};
ghost use Rattle.lw_top.specs.CheckCommand.{check_app, check_found, check_read, check_syntax, check_values, checked_files, checked_in};
ghost use Rattle.lw_top.specs.Syntaxes.{syntax_values};
ghost use Rattle.lw_top.specs.declared.values.ArgumentStop.{ArgumentStop as Stop};

use crate::ArgumentStop;
use crate::entries::{EXTRA_ENTRY, SUITE};
use crate::matching::read_matches;
use crate::options::{Argument, Entry, Syntax};
use crate::ranges::EXTRA;
use crate::values::{method_at, number_at, text_at};
use clap::ArgMatches;
use lw_check::CheckArguments;
use lw_system::Goal;
use std::alloc::{AllocError, Global};
use std::marker::Model;

static CHECK: Syntax = Syntax {
    command: "check",
    about: "says whether answers fix a model, or why not",
    entries: &[
        Entry {
            argument: Argument::Optional("first"),
            value: "(MODEL | --acceptor FILE)",
            about: "the file of the model",
        },
        Entry {
            argument: Argument::Optional("second"),
            value: "ANSWERS",
            about: "the file of the answers",
        },
        Entry {
            argument: Argument::Text("acceptor"),
            value: "FILE",
            about: "the file of an acceptor in place of the model",
        },
        EXTRA_ENTRY,
        SUITE,
    ],
    texts: &["MODEL", "ANSWERS"],
    takes_more: false,
    in_place: &["acceptor"],
    together: &[],
    instead: &[],
    either: &[],
};

/// The arguments that `check` takes.
pub(crate) fn check_syntax() -> &'static Syntax
    ensures app { app_for result.now ≡ check_app }
    ensures values { syntax_values result.now ≡ check_syntax }
{
    &CHECK
}

/// The two files, and whether the first is an acceptor's.
#[derive(Drop)]
struct CheckedFiles {
    goal: Goal,
    model: String,
    answers: String,
}

impl Model for CheckedFiles {
    ghost use Rattle.std.specs.Prelude.{string_bytes};
    ghost use Rattle.lw_top.specs.CheckCommand.{CheckedFiles as Checked, check_syntax};

    ghost Value = { Checked };

    ghost view = { λ f. record { goal = f.goal; model = string_bytes f.model; answers = string_bytes f.answers } };
}

/// A model and answers, or an acceptor by its option and answers.
fn checked_files(
    acceptor: Option<String>,
    first: Option<String>,
    second: Option<String>,
) -> Option<CheckedFiles>
    ensures { result ≡ checked_files (option_map (λ s. string_bytes s) acceptor)
        (option_map (λ s. string_bytes s) first) (option_map (λ s. string_bytes s) second) }
{
    match (acceptor, first, second) {
        (None, Some(model), Some(answers)) => Some(CheckedFiles {
            goal: Goal::Machine,
            model,
            answers,
        }),
        (Some(model), Some(answers), None) => Some(CheckedFiles {
            goal: Goal::Acceptor,
            model,
            answers,
        }),
        _ => None,
    }
}

/// The two files in what clap found.
fn checked_at(alloc: Global, matches: &ArgMatches) -> Result<Option<CheckedFiles>, AllocError>
    ensures { IfOk result (λ files. files ≡ checked_in (rows_of (found_of matches.now))) }
{
    let acceptor = text_at(alloc, matches, "acceptor")?;
    let first = text_at(alloc, matches, "first")?;
    let second = text_at(alloc, matches, "second")?;
    Ok(checked_files(acceptor, first, second))
}

/// The values that clap found.
fn values_of(alloc: Global, matches: &ArgMatches) -> Result<CheckArguments, ArgumentStop>
    ensures ok { IfOk result (λ a.
        check_found (rows_of (found_of matches.now)) ≡ Some (check_read a)) }
    ensures refused { result ≡ Err Stop.Usage →
        check_found (rows_of (found_of matches.now)) ≡ None }
{
    let Some(files) = checked_at(alloc, matches)? else {
        return Err(ArgumentStop::Usage);
    };
    let Some(extra) = number_at(matches, "extra", EXTRA) else {
        return Err(ArgumentStop::Usage);
    };
    let Some(suite) = method_at(matches, "suite") else {
        return Err(ArgumentStop::Usage);
    };
    Ok(CheckArguments {
        goal: files.goal,
        model: files.model,
        answers: files.answers,
        extra: extra as u8,
        suite,
    })
}

/// Reads the arguments of `check`, of which the first is the command.
pub fn check_arguments(alloc: Global, arguments: &[String]) -> Result<CheckArguments, ArgumentStop>
    ensures ok { IfOk result (λ a. check_values (texts arguments.now) ≡ Some (check_read a)) }
    ensures refused { result ≡ Err Stop.Usage → check_values (texts arguments.now) ≡ None }
{
    let matches = read_matches(alloc, check_syntax(), arguments)?;
    values_of(alloc, &matches)
}
