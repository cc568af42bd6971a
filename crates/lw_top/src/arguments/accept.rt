//! The arguments of `accept`.
ghost use Rattle.std.specs.Prelude.{◌≡◌, Some, None, Err, IfOk};
ghost use Rattle.clap.specs.Words.{found_of, rows_of};
ghost use Rattle.lw_top.specs.AcceptCommand.{accept_app, accept_files_in, accept_found, accept_syntax, accept_values};
ghost use Rattle.lw_top.specs.CommandLine.{texts, app_for};
ghost use Rattle.lw_top.specs.LearnCommand.{file_names};
ghost use Rattle.lw_top.specs.Syntaxes.{syntax_values};
ghost use Rattle.lw_top.specs.declared.values.ArgumentStop.{ArgumentStop as Stop};

use crate::ArgumentStop;
use crate::arguments::learn::values_for;
use crate::entries::{
    EXTRA_ENTRY, JOURNAL, KEPT, LAST, LEARNER, LENGTH_ENTRY, LOG, MAX_STATES, RANDOM_ENTRY,
    SEED_ENTRY, SETUP, VERBOSE, WALKS, WORDS, WORKERS_ENTRY,
};
use crate::matching::read_matches;
use crate::options::{Argument, Entry, Syntax};
use crate::values::text_at;
use clap::ArgMatches;
use lw_chunks::Method;
use lw_learn::{LearnArguments, LearnFiles};
use lw_system::Goal;
use std::alloc::{AllocError, Global};

static ACCEPT: Syntax = Syntax {
    command: "accept",
    about: "learns which words a program accepts, or the acceptor of a file",
    entries: &[
        SETUP,
        Entry {
            argument: Argument::Text("table"),
            value: "FILE",
            about: "the file of an acceptor in place of the setup",
        },
        WORKERS_ENTRY,
        EXTRA_ENTRY,
        LEARNER,
        MAX_STATES,
        Entry {
            argument: Argument::Text("model"),
            value: "FILE",
            about: "where the acceptor is written",
        },
        KEPT,
        WORDS,
        RANDOM_ENTRY,
        WALKS,
        LENGTH_ENTRY,
        SEED_ENTRY,
        LOG,
        LAST,
        JOURNAL,
        VERBOSE,
    ],
    texts: &["SETUP"],
    takes_more: false,
    in_place: &["table"],
    together: &["random", "length", "seed"],
    instead: &["walks", "length", "seed"],
    either: &["random or --walks", "length", "seed"],
};

/// The arguments that `accept` takes.
pub(crate) fn accept_syntax() -> &'static Syntax
    ensures app { app_for result.now ≡ accept_app }
    ensures values { syntax_values result.now ≡ accept_syntax }
{
    &ACCEPT
}

/// The names of the other files: none of earlier answers, and none for answers.
fn files_at(alloc: Global, matches: &ArgMatches) -> Result<LearnFiles, AllocError>
    ensures { IfOk result (λ f. file_names f ≡ accept_files_in (rows_of (found_of matches.now))) }
{
    Ok(LearnFiles {
        model: text_at(alloc, matches, "model")?,
        answers: None,
        prior: None,
        kept: text_at(alloc, matches, "kept")?,
        last: text_at(alloc, matches, "last")?,
        words: text_at(alloc, matches, "words")?,
        log: text_at(alloc, matches, "log")?,
        journal: text_at(alloc, matches, "journal")?,
    })
}

/// The values that clap found, where the file of the system is named.
fn values_of(alloc: Global, matches: &ArgMatches) -> Result<LearnArguments, ArgumentStop>
    ensures ok { IfOk result (λ a. accept_found (rows_of (found_of matches.now)) ≡ Some a) }
    ensures refused { result ≡ Err Stop.Usage →
        accept_found (rows_of (found_of matches.now)) ≡ None }
{
    let files = files_at(alloc, matches)?;
    values_for(alloc, Goal::Acceptor, matches, Some(Method::W), files)
}

/// Reads the arguments of `accept`, of which the first is the command.
pub fn accept_arguments(alloc: Global, arguments: &[String]) -> Result<LearnArguments, ArgumentStop>
    ensures ok { IfOk result (λ a. accept_values (texts arguments.now) ≡ Some a) }
    ensures refused { result ≡ Err Stop.Usage → accept_values (texts arguments.now) ≡ None }
{
    let matches = read_matches(alloc, accept_syntax(), arguments)?;
    values_of(alloc, &matches)
}
