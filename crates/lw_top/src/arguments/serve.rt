//! The arguments of `serve`.
ghost use Rattle.std.specs.Prelude.{◌≡◌, string_bytes, Some, None, Err, IfOk};
ghost use Rattle.lw_top.specs.CommandLine.{texts, app_for};
ghost use Rattle.lw_top.specs.ServeCommand.{serve_app, serve_syntax, serve_values};
ghost use Rattle.lw_top.specs.Syntaxes.{syntax_values};
ghost use Rattle.lw_top.specs.declared.values.ArgumentStop.{ArgumentStop as Stop};

use crate::ArgumentStop;
use crate::matching::read_matches;
use crate::options::{Argument, Entry, Syntax};
use crate::values::required_text_at;
use std::alloc::Global;

static SERVE: Syntax = Syntax {
    command: "serve",
    about: "plays a machine as a program that answers lines",
    entries: &[Entry {
        argument: Argument::Required("model"),
        value: "MODEL",
        about: "the file of the machine",
    }],
    texts: &["MODEL"],
    takes_more: false,
    in_place: &[],
    together: &[],
    instead: &[],
    either: &[],
};

/// The arguments that `serve` takes.
pub(crate) fn serve_syntax() -> &'static Syntax
    ensures app { app_for result.now ≡ serve_app }
    ensures values { syntax_values result.now ≡ serve_syntax }
{
    &SERVE
}

/// Reads the arguments of `serve`, of which the first is the command: the name of the model file.
pub fn serve_arguments(alloc: Global, arguments: &[String]) -> Result<String, ArgumentStop>
    ensures ok { IfOk result (λ s. serve_values (texts arguments.now) ≡ Some (string_bytes s)) }
    ensures refused { result ≡ Err Stop.Usage → serve_values (texts arguments.now) ≡ None }
{
    let matches = read_matches(alloc, serve_syntax(), arguments)?;
    required_text_at(alloc, &matches, "model")
}
