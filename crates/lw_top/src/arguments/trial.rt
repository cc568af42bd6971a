//! The arguments of `trial`.
ghost use Rattle.std.specs.Prelude.{◌≡◌, Some, None, Err, IfOk};
ghost use Rattle.clap.specs.Words.{found_of, rows_of};
ghost use Rattle.lw_top.specs.CommandLine.{texts, app_for};
ghost use Rattle.lw_top.specs.TrialCommand.{trial_app, trial_found, trial_syntax, trial_values};
ghost use Rattle.lw_top.specs.Syntaxes.{syntax_values};
ghost use Rattle.lw_top.specs.declared.values.ArgumentStop.{ArgumentStop as Stop};

use crate::ArgumentStop;
use crate::entries::{LEARNER, SUITE, WORKERS_ENTRY};
use crate::matching::read_matches;
use crate::options::{Argument, Entry, Syntax};
use crate::ranges::{INPUTS, SEED, STATES, WORKERS};
use crate::values::{kind_at, method_at, number_at};
use clap::ArgMatches;
use lw_trial::TrialArguments;
use std::alloc::Global;

static TRIAL: Syntax = Syntax {
    command: "trial",
    about: "draws a machine by a number, and learns it",
    entries: &[
        Entry {
            argument: Argument::RequiredNumber("states", STATES),
            value: "N",
            about: "how many states the machine has",
        },
        Entry {
            argument: Argument::RequiredNumber("inputs", INPUTS),
            value: "A",
            about: "how many inputs it has",
        },
        Entry {
            argument: Argument::RequiredNumber("seed", SEED),
            value: "S",
            about: "what its drawing begins with",
        },
        WORKERS_ENTRY,
        LEARNER,
        SUITE,
    ],
    texts: &[],
    takes_more: false,
    in_place: &[],
    together: &[],
    instead: &[],
    either: &[],
};

/// The arguments that `trial` takes.
pub(crate) fn trial_syntax() -> &'static Syntax
    ensures app { app_for result.now ≡ trial_app }
    ensures values { syntax_values result.now ≡ trial_syntax }
{
    &TRIAL
}

/// The values that clap found.
fn values_of(matches: &ArgMatches) -> Result<TrialArguments, ArgumentStop>
    ensures ok { IfOk result (λ a. trial_found (rows_of (found_of matches.now)) ≡ Some a) }
    ensures refused { result ≡ Err Stop.Usage →
        trial_found (rows_of (found_of matches.now)) ≡ None }
{
    let Some(states) = number_at(matches, "states", STATES) else {
        return Err(ArgumentStop::Usage);
    };
    let Some(inputs) = number_at(matches, "inputs", INPUTS) else {
        return Err(ArgumentStop::Usage);
    };
    let Some(seed) = number_at(matches, "seed", SEED) else {
        return Err(ArgumentStop::Usage);
    };
    let Some(workers) = number_at(matches, "workers", WORKERS) else {
        return Err(ArgumentStop::Usage);
    };
    let Some(learner) = kind_at(matches, "learner") else {
        return Err(ArgumentStop::Usage);
    };
    let Some(suite) = method_at(matches, "suite") else {
        return Err(ArgumentStop::Usage);
    };
    let (states, inputs, workers) = (states as u16, inputs as u16, workers as u8);
    Ok(TrialArguments::new(states, inputs, seed, workers, learner, suite))
}

/// Reads the arguments of `trial`, of which the first is the command.
pub fn trial_arguments(alloc: Global, arguments: &[String]) -> Result<TrialArguments, ArgumentStop>
    ensures ok { IfOk result (λ a. trial_values (texts arguments.now) ≡ Some a) }
    ensures refused { result ≡ Err Stop.Usage → trial_values (texts arguments.now) ≡ None }
{
    let matches = read_matches(alloc, trial_syntax(), arguments)?;
    values_of(&matches)
}
