//! Files that are read, each of its kind.
ghost use Rattle.std.specs.Prelude.{IfOk};
ghost use Rattle.lw_json.specs.AnswersFault.{IsAnswersFault};
ghost use Rattle.lw_json.specs.Formats.{IsAnswersFile, IsMachineFile};
ghost use Rattle.lw_json.specs.MachineFault.{IsMachineFault};
ghost use Rattle.lw_json.specs.SetupFile.{IsSetupFault, IsSetupFile};
ghost use Rattle.lw_system.specs.Reading.{HasRead};
ghost use Rattle.lw_system.specs.SetupHint.{TellsHint, setup_in};

use crate::ReadStop;
use lw_json::{
    Answers, JsonFault, Machine, Setup, SetupFile, read_answers, read_machine, read_setup_with_hint,
};
use lw_outside::Files;
use std::alloc::Global;

/// Reads a machine file.
pub fn read_machine_file<F: Files>(
    alloc: Global,
    files: &mut F,
    name: &str,
) -> Result<Machine, ReadStop<JsonFault>>
    ensures { HasRead IsMachineFile IsMachineFault name.now (F.state files.old)
        (F.state files.new) result }
{
    let bytes = match files.read(name) {
        Ok(bytes) => bytes,
        Err(refusal) => return Err(ReadStop::from(refusal)),
    };
    match read_machine(alloc, &bytes) {
        Ok(machine) => Ok(machine),
        Err(fault) => Err(ReadStop::from(fault)),
    }
}

/// Reads an answers file, in either format.
pub fn read_answers_file<F: Files>(
    alloc: Global,
    files: &mut F,
    name: &str,
) -> Result<Answers, ReadStop<JsonFault>>
    ensures { HasRead IsAnswersFile IsAnswersFault name.now (F.state files.old)
        (F.state files.new) result }
{
    let bytes = match files.read(name) {
        Ok(bytes) => bytes,
        Err(refusal) => return Err(ReadStop::from(refusal)),
    };
    match read_answers(alloc, &bytes) {
        Ok(answers) => Ok(answers),
        Err(fault) => Err(ReadStop::from(fault)),
    }
}

/// Reads a setup file, and tells the first of its members that a setup doesn't know, as `read_setup_with_hint` does.
pub fn read_setup_with<F: Files>(
    alloc: Global,
    files: &mut F,
    name: &str,
) -> Result<SetupFile, ReadStop<JsonFault>>
    ensures read { HasRead IsSetupFile IsSetupFault name.now (F.state files.old)
        (F.state files.new) (setup_in result) }
    ensures hint { IfOk result (λ file. TellsHint name.now (F.state files.old).reads
        (F.state files.new).reads file.hint.items) }
{
    let bytes = match files.read(name) {
        Ok(bytes) => bytes,
        Err(refusal) => return Err(ReadStop::from(refusal)),
    };
    match read_setup_with_hint(alloc, &bytes) {
        Ok(file) => Ok(file),
        Err(fault) => Err(ReadStop::from(fault)),
    }
}

/// Reads a setup file.
pub fn read_setup_file<F: Files>(
    alloc: Global,
    files: &mut F,
    name: &str,
) -> Result<Setup, ReadStop<JsonFault>>
    ensures { HasRead IsSetupFile IsSetupFault name.now (F.state files.old) (F.state files.new)
        result }
{
    match read_setup_with(alloc, files, name) {
        Ok(file) => Ok(file.setup),
        Err(stop) => Err(stop),
    }
}
