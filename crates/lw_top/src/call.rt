//! Which command takes the arguments.
ghost use Rattle.std.specs.Prelude.{◌≡◌, Err, IfOk, None, Some};
ghost use Rattle.lw_top.specs.Call.{call_of, values_of};
ghost use Rattle.lw_top.specs.CommandLine.{texts};
ghost use Rattle.lw_top.specs.declared.values.ArgumentStop.{ArgumentStop as Stop};

use crate::arguments::accept::accept_arguments;
use crate::arguments::ask::ask_arguments;
use crate::arguments::check::check_arguments;
use crate::arguments::compare::compare_arguments;
use crate::arguments::help::{Topic, help_arguments};
use crate::arguments::learn::learn_arguments;
use crate::arguments::recheck::recheck_arguments;
use crate::arguments::serve::serve_arguments;
use crate::arguments::trial::trial_arguments;
use crate::file_pair::FilePair;
use crate::values::ArgumentStop;
use lw_ask::AskArguments;
use lw_check::CheckArguments;
use lw_learn::LearnArguments;
use lw_recheck::RecheckArguments;
use lw_trial::TrialArguments;
use std::alloc::Global;

/// A command with the values of its arguments.
#[derive(Drop)]
pub(crate) enum Call {
    /// Of a machine, or of an acceptor.
    Learn(LearnArguments),
    Check(CheckArguments),
    Trial(TrialArguments),
    /// The name of the model file.
    Serve(String),
    Ask(AskArguments),
    /// The model files.
    Compare(FilePair),
    Recheck(RecheckArguments),
    Help(Topic),
}

/// The command that takes the arguments.
pub(crate) fn read_call(alloc: Global, arguments: &[String]) -> Result<Call, ArgumentStop>
    ensures ok { IfOk result (λ call. call_of (texts arguments.now) ≡ Some (values_of call)) }
    ensures refused { result ≡ Err Stop.Usage → call_of (texts arguments.now) ≡ None }
{
    let Some(command) = arguments.first() else {
        return Err(ArgumentStop::Usage);
    };
    match command.as_str() {
        "learn" => Ok(Call::Learn(learn_arguments(alloc, arguments)?)),
        "accept" => Ok(Call::Learn(accept_arguments(alloc, arguments)?)),
        "check" => Ok(Call::Check(check_arguments(alloc, arguments)?)),
        "trial" => Ok(Call::Trial(trial_arguments(alloc, arguments)?)),
        "serve" => Ok(Call::Serve(serve_arguments(alloc, arguments)?)),
        "ask" => Ok(Call::Ask(ask_arguments(alloc, arguments)?)),
        "compare" => Ok(Call::Compare(compare_arguments(alloc, arguments)?)),
        "recheck" => Ok(Call::Recheck(recheck_arguments(alloc, arguments)?)),
        "help" => Ok(Call::Help(help_arguments(alloc, arguments)?)),
        _ => Err(ArgumentStop::Usage),
    }
}
