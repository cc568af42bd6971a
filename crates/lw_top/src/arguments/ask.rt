//! The arguments of `ask`.
ghost use Rattle.std.specs.Prelude.{◌≡◌, [], string_bytes, map, Some, None, Err, IfOk, option_map};
ghost use Rattle.clap.specs.Words.{found_of, rows_of};
ghost use Rattle.lw_top.specs.CommandLine.{texts, app_for};
ghost use Rattle.lw_top.specs.AskCommand.{ask_app, ask_found, ask_syntax, ask_values, ask_values_from, named_by, named_in};
ghost use Rattle.lw_top.specs.Syntaxes.{syntax_values};
ghost use Rattle.lw_top.specs.declared.values.ArgumentStop.{ArgumentStop as Stop};

use crate::ArgumentStop;
use crate::matching::read_matches;
use crate::options::{Argument, Entry, Syntax};
use crate::values::{text_at, texts_at};
use clap::ArgMatches;
use lw_ask::AskArguments;
use lw_system::{Goal, Source};
use std::alloc::{AllocError, Global};
use std::marker::Model;

static ASK: Syntax = Syntax {
    command: "ask",
    about: "asks a program, a machine or an acceptor words",
    entries: &[
        Entry {
            argument: Argument::Text("table"),
            value: "FILE",
            about: "the file of a machine in place of the setup",
        },
        Entry {
            argument: Argument::Text("accept"),
            value: "SETUP",
            about: "the setup of a program that is asked as acceptors are",
        },
        Entry {
            argument: Argument::Text("acceptor"),
            value: "FILE",
            about: "the file of an acceptor in place of the setup",
        },
        Entry {
            argument: Argument::Many("words"),
            value: "(SETUP | --table FILE | --accept SETUP | --acceptor FILE) WORD...",
            about: "the setup, where no option is in its place, and words",
        },
    ],
    texts: &["SETUP", "WORD"],
    takes_more: true,
    in_place: &["table", "accept", "acceptor"],
    together: &[],
    instead: &[],
    either: &[],
};

/// The arguments that `ask` takes.
pub(crate) fn ask_syntax() -> &'static Syntax
    ensures app { app_for result.now ≡ ask_app }
    ensures values { syntax_values result.now ≡ ask_syntax }
{
    &ASK
}

/// A system that an option names: whether a machine is asked or an acceptor, the kind of its file, and the file.
#[derive(Drop)]
struct NamedSystem {
    goal: Goal,
    source: Source,
    file: String,
}

impl Model for NamedSystem {
    ghost use Rattle.std.specs.Prelude.{string_bytes};
    ghost use Rattle.lw_top.specs.AskCommand.{NamedSystem as Named, ask_syntax};

    ghost Value = { Named };

    ghost view = { λ s. record { goal = s.goal; source = s.source; file = string_bytes s.file } };
}

/// The system that an option names, or none; nothing where two do.
fn named_by(
    table: Option<String>,
    accept: Option<String>,
    acceptor: Option<String>,
) -> Option<Option<NamedSystem>>
    ensures { result ≡ named_by (option_map (λ s. string_bytes s) table)
        (option_map (λ s. string_bytes s) accept) (option_map (λ s. string_bytes s) acceptor) }
{
    match (table, accept, acceptor) {
        (None, None, None) => Some(None),
        (Some(file), None, None) => Some(Some(NamedSystem {
            goal: Goal::Machine,
            source: Source::Table,
            file,
        })),
        (None, Some(file), None) => Some(Some(NamedSystem {
            goal: Goal::Acceptor,
            source: Source::Setup,
            file,
        })),
        (None, None, Some(file)) => Some(Some(NamedSystem {
            goal: Goal::Acceptor,
            source: Source::Table,
            file,
        })),
        _ => None,
    }
}

/// The system that an option names in what clap found, or none; nothing where two do.
fn named_at(alloc: Global, matches: &ArgMatches) -> Result<Option<Option<NamedSystem>>, AllocError>
    ensures { IfOk result (λ named. named ≡ named_in (rows_of (found_of matches.now))) }
{
    let table = text_at(alloc, matches, "table")?;
    let accept = text_at(alloc, matches, "accept")?;
    let acceptor = text_at(alloc, matches, "acceptor")?;
    Ok(named_by(table, accept, acceptor))
}

/// The system and its words: where no option names one, the first of the words is the setup of a machine.
fn ask_of(named: Option<NamedSystem>, words: Vec<String>) -> Option<AskArguments>
    ensures { result ≡ ask_values_from (Some named) (map (λ s. string_bytes s) words.items) }
{
    let mut words = words;
    if words.is_empty() {
        return None;
    }
    if let Some(system) = named {
        return Some(AskArguments::new(system.goal, system.source, system.file, words));
    }
    let setup = words.remove(0);
    if words.is_empty() {
        return None;
    }
    Some(AskArguments::new(Goal::Machine, Source::Setup, setup, words))
}

/// The values that clap found.
fn values_of(alloc: Global, matches: &ArgMatches) -> Result<AskArguments, ArgumentStop>
    ensures ok { IfOk result (λ a. ask_found (rows_of (found_of matches.now)) ≡ Some a) }
    ensures refused { result ≡ Err Stop.Usage → ask_found (rows_of (found_of matches.now)) ≡ None }
{
    let Some(named) = named_at(alloc, matches)? else {
        return Err(ArgumentStop::Usage);
    };
    let words = texts_at(alloc, matches, "words")?;
    match ask_of(named, words) {
        Some(values) => Ok(values),
        None => Err(ArgumentStop::Usage),
    }
}

/// Reads the arguments of `ask`, of which the first is the command.
pub fn ask_arguments(alloc: Global, arguments: &[String]) -> Result<AskArguments, ArgumentStop>
    ensures ok { IfOk result (λ a. ask_values (texts arguments.now) ≡ Some a) }
    ensures refused { result ≡ Err Stop.Usage → ask_values (texts arguments.now) ≡ None }
{
    let matches = read_matches(alloc, ask_syntax(), arguments)?;
    values_of(alloc, &matches)
}
