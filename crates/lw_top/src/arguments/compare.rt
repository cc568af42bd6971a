//! The arguments of `compare`.
ghost use Rattle.std.specs.Prelude.{◌≡◌, Some, None, Err, IfOk};
ghost use Rattle.lw_top.specs.CommandLine.{texts, app_for};
ghost use Rattle.lw_top.specs.CompareCommand.{compare_app, compare_syntax, compare_values};
ghost use Rattle.lw_top.specs.Syntaxes.{syntax_values};
ghost use Rattle.lw_top.specs.declared.values.ArgumentStop.{ArgumentStop as Stop};

use crate::ArgumentStop;
use crate::file_pair::{FilePair, pair_at};
use crate::matching::read_matches;
use crate::options::{Argument, Entry, Syntax};
use std::alloc::Global;

static COMPARE: Syntax = Syntax {
    command: "compare",
    about: "reports the least word on which two models differ",
    entries: &[
        Entry {
            argument: Argument::Required("first"),
            value: "MODEL",
            about: "the file of the first model",
        },
        Entry {
            argument: Argument::Required("second"),
            value: "MODEL",
            about: "the file of the second model",
        },
    ],
    texts: &["MODEL", "MODEL"],
    takes_more: false,
    in_place: &[],
    together: &[],
    instead: &[],
    either: &[],
};

/// The arguments that `compare` takes.
pub(crate) fn compare_syntax() -> &'static Syntax
    ensures app { app_for result.now ≡ compare_app }
    ensures values { syntax_values result.now ≡ compare_syntax }
{
    &COMPARE
}

/// Reads the arguments of `compare`, of which the first is the command.
pub fn compare_arguments(alloc: Global, arguments: &[String]) -> Result<FilePair, ArgumentStop>
    ensures ok { IfOk result (λ p. compare_values (texts arguments.now) ≡ Some p) }
    ensures refused { result ≡ Err Stop.Usage → compare_values (texts arguments.now) ≡ None }
{
    let matches = read_matches(alloc, compare_syntax(), arguments)?;
    pair_at(alloc, &matches, "first", "second")
}
