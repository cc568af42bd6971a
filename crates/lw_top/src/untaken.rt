//! Why no command takes arguments.
ghost use Rattle.std.specs.Prelude.{◌≡◌, IfOk, string_bytes};
ghost use Rattle.lw_top.specs.CommandLine.{texts};
ghost use Rattle.lw_top.specs.Reasons.{unknown_command};
ghost use Rattle.lw_top.specs.Untaken.{told_reason};

use crate::arguments::help::syntax_named;
use crate::given::givens;
use crate::reasons::{is_help_flag, with_word};
use crate::text_reasons::reason_by;
use std::alloc::{AllocError, Global};

/// What is told of the name of no command.
fn unknown_command(alloc: Global, name: &str) -> Result<String, AllocError>
    ensures { IfOk result (λ t. string_bytes t ≡ unknown_command name.now) }
{
    if name == "--help" || name == "--version" || is_help_flag(name) {
        return String::from_str(alloc, "try help");
    }
    with_word(alloc, "unknown command", " ", name)
}

/// Why no command takes the arguments.
pub(crate) fn told_reason(alloc: Global, arguments: &[String]) -> Result<String, AllocError>
    ensures { IfOk result (λ t. string_bytes t ≡ told_reason (texts arguments.now)) }
{
    let Some((command, words)) = arguments.split_first() else {
        return String::from_str(alloc, "no command, or an argument that is no text");
    };
    let name = command.as_str();
    match syntax_named(name) {
        Some(syntax) => reason_by(alloc, syntax, &givens(alloc, syntax.entries, words)?),
        None => unknown_command(alloc, name),
    }
}
