//! The two files of the command.
ghost use Rattle.std.specs.Prelude.{◌≡◌, ◌≤◌, IfOk, IfErr};
ghost use Rattle.lw_compare.specs.Reading.{ReadsModels};
ghost use Rattle.lw_compare.specs.bodies.Unread.{IsStopped};

use lw_json::Machine;
use lw_outside::Files;
use lw_report::{Outcome, Role, read_outcome};
use lw_system::read_machine_file;
use std::alloc::Global;

/// Two models, each with its names.
#[derive(Drop)]
pub(crate) struct Models {
    pub(crate) first: Machine,
    pub(crate) second: Machine,
}

/// Reads the file of the first model, then that of the second.
pub(crate) fn read_models<F: Files>(
    alloc: Global,
    files: &mut F,
    first: &str,
    second: &str,
) -> Result<Models, Outcome>
    ensures ok { IfOk result (λ models. ReadsModels first.now second.now (F.state files.old)
        (F.state files.new) models.first models.second) }
    ensures err { IfErr result (IsStopped first.now second.now (F.state files.old)
        (F.state files.new)) }
    ensures counts { (F.state files.old).faults ≤ (F.state files.new).faults }
    ensures same { (F.state files.new).holds ≡ (F.state files.old).holds }
{
    let one = match read_machine_file(alloc, files, first) {
        Ok(machine) => machine,
        Err(stop) => return Err(read_outcome(stop, Role::Model)),
    };
    match read_machine_file(alloc, files, second) {
        Ok(machine) => Ok(Models {
            first: one,
            second: machine,
        }),
        Err(stop) => Err(read_outcome(stop, Role::Second)),
    }
}
