//! The arguments of `help`.
ghost use Rattle.std.specs.Prelude.{◌≡◌, Some, None, Err, IfOk, find, map, option_map};
ghost use Rattle.std.specs.Str.{bytes_eq};
ghost use Rattle.clap.specs.Words.{found_of, rows_of};
ghost use Rattle.lw_top.specs.CommandLine.{texts, app_for};
ghost use Rattle.lw_top.specs.HelpCommand.{commands, help_app, help_found, help_syntax, help_values, syntax_named, topic_text};
ghost use Rattle.lw_top.specs.Syntaxes.{syntax_values};
ghost use Rattle.lw_top.specs.declared.values.ArgumentStop.{ArgumentStop as Stop};

use crate::ArgumentStop;
use crate::arguments::accept::accept_syntax;
use crate::arguments::ask::ask_syntax;
use crate::arguments::check::check_syntax;
use crate::arguments::compare::compare_syntax;
use crate::arguments::learn::learn_syntax;
use crate::arguments::recheck::recheck_syntax;
use crate::arguments::serve::serve_syntax;
use crate::arguments::trial::trial_syntax;
use crate::matching::read_matches;
use crate::options::{Argument, Entry, Syntax};
use crate::values::str_at;
use clap::ArgMatches;
use std::alloc::Global;

static HELP: Syntax = Syntax {
    command: "help",
    about: "lists the commands, or the arguments of one",
    entries: &[Entry {
        argument: Argument::Optional("command"),
        value: "[COMMAND]",
        about: "the command whose arguments are listed",
    }],
    texts: &["COMMAND"],
    takes_more: false,
    in_place: &[],
    together: &[],
    instead: &[],
    either: &[],
};

/// The arguments that `help` takes.
pub(crate) fn help_syntax() -> &'static Syntax
    ensures app { app_for result.now ≡ help_app }
    ensures values { syntax_values result.now ≡ help_syntax }
{
    &HELP
}

/// All commands, as they are listed.
pub(crate) fn commands() -> [&'static Syntax; 9]
    ensures { map (λ s. syntax_values s.now) result ≡ commands }
{
    [
        learn_syntax(),
        accept_syntax(),
        ask_syntax(),
        recheck_syntax(),
        check_syntax(),
        compare_syntax(),
        serve_syntax(),
        trial_syntax(),
        help_syntax(),
    ]
}

/// The command of this name, of a list.
fn find_named(list: &[&'static Syntax], name: &str) -> Option<&'static Syntax>
    ensures { option_map (λ s. syntax_values s.now) result ≡ find
        (λ s. bytes_eq s.command name.now) (map (λ s. syntax_values s.now) list.now) }
{
    for syntax in list {
        if syntax.command == name {
            return Some(syntax);
        }
    }
    None
}

/// The command of this name.
pub(crate) fn syntax_named(name: &str) -> Option<&'static Syntax>
    ensures { option_map (λ s. syntax_values s.now) result ≡ syntax_named name.now }
{
    find_named(&commands(), name)
}

/// What help is asked for.
#[derive(Clone, Copy)]
pub(crate) enum Topic {
    /// The commands.
    All,
    /// One command, and its arguments.
    One(&'static Syntax),
}

/// What clap found.
fn values_of(matches: &ArgMatches) -> Result<Topic, ArgumentStop>
    ensures ok { IfOk result (λ t. help_found (rows_of (found_of matches.now)) ≡
        Some (topic_text t)) }
    ensures refused { result ≡ Err Stop.Usage → help_found (rows_of (found_of matches.now)) ≡ None }
{
    let Some(name) = str_at(matches, "command") else {
        return Ok(Topic::All);
    };
    match syntax_named(name) {
        Some(syntax) => Ok(Topic::One(syntax)),
        None => Err(ArgumentStop::Usage),
    }
}

/// Reads the arguments of `help`, of which the first is the command.
pub(crate) fn help_arguments(alloc: Global, arguments: &[String]) -> Result<Topic, ArgumentStop>
    ensures ok { IfOk result (λ t. help_values (texts arguments.now) ≡ Some (topic_text t)) }
    ensures refused { result ≡ Err Stop.Usage → help_values (texts arguments.now) ≡ None }
{
    let matches = read_matches(alloc, help_syntax(), arguments)?;
    values_of(&matches)
}
