//! The file that says a system, and the table file that a setup names.
ghost use Rattle.std.specs.Prelude.{ℕ, ◌≤◌, List, length, IfOk};
ghost use Rattle.lw_json.specs.SetupFile.{IsSetupFile};
ghost use Rattle.lw_system.specs.Finding.{HasFound, HasReadSystem};
ghost use Rattle.lw_system.specs.Systems.{HasWords, letters_of};
ghost use Rattle.lw_system.specs.bodies.Found.{HasReadMachine, HasReadSaid};
ghost use Rattle.lw_system.specs.declared.source.Source.{Source as Kind};

use crate::reading::{read_machine_file, read_setup_with};
use crate::{Source, System, SystemStop};
use lw_json::Setup;
use lw_outside::Files;
use std::alloc::Global;

/// A system that a file says, or why there is none; and the hint at a member that its setup doesn't know, or nothing.
#[derive(Drop)]
pub struct Found<S> {
    pub system: Result<System, S>,
    pub hint: Vec<u8>,
}

/// Reads a table file.
fn read_table<F: Files>(alloc: Global, name: &str, files: &mut F) -> Result<System, SystemStop>
    ensures read { HasReadMachine name.now (F.state files.old) (F.state files.new) result }
    ensures letters { IfOk result (λ s. length (letters_of s) ≤ 64) }
    ensures words { IfOk result HasWords }
{
    match read_machine_file(alloc, files, name) {
        Ok(machine) => Ok(System::Table(machine)),
        Err(stop) => Err(SystemStop {
            file: Source::Table,
            stop,
        }),
    }
}

/// The system that a setup says. The table file that it names is read, if it names one.
fn read_said<F: Files>(alloc: Global, setup: Setup, files: &mut F) -> Result<System, SystemStop>
    requires file { (bytes : List ℕ) × IsSetupFile bytes setup }
    ensures read { HasReadSaid setup (F.state files.old) (F.state files.new) result }
    ensures letters { IfOk result (λ s. length (letters_of s) ≤ 64) }
    ensures words { IfOk result HasWords }
{
    match setup {
        Setup::Table(table) => read_table(alloc, table.get().as_str(), files),
        Setup::Command(command) => Ok(System::Children(command)),
    }
}

/// Finds the system that a setup file says.
fn find_setup<F: Files>(alloc: Global, name: &str, files: &mut F) -> Found<SystemStop>
    ensures found { HasFound Kind.Setup name.now (F.state files.old) (F.state files.new)
        result.system result.hint.items }
    ensures letters { IfOk result.system (λ s. length (letters_of s) ≤ 64) }
    ensures words { IfOk result.system HasWords }
{
    match read_setup_with(alloc, files, name) {
        Ok(file) => Found {
            system: read_said(alloc, file.setup, files),
            hint: file.hint,
        },
        Err(stop) => Found {
            system: Err(SystemStop {
                file: Source::Setup,
                stop,
            }),
            hint: Vec::new(alloc),
        },
    }
}

/// Finds the system that the file of this kind says: reads it, and the table file that a setup names.
pub fn find_system<F: Files>(
    alloc: Global,
    source: Source,
    name: &str,
    files: &mut F,
) -> Found<SystemStop>
    ensures found { HasFound source name.now (F.state files.old) (F.state files.new) result.system
        result.hint.items }
    ensures letters { IfOk result.system (λ s. length (letters_of s) ≤ 64) }
    ensures words { IfOk result.system HasWords }
{
    match source {
        Source::Setup => find_setup(alloc, name, files),
        Source::Table => Found {
            system: read_table(alloc, name, files),
            hint: Vec::new(alloc),
        },
    }
}

/// Reads the system that the file of this kind says.
pub fn read_system<F: Files>(
    alloc: Global,
    source: Source,
    name: &str,
    files: &mut F,
) -> Result<System, SystemStop>
    ensures read { HasReadSystem source name.now (F.state files.old) (F.state files.new) result }
    ensures letters { IfOk result (λ s. length (letters_of s) ≤ 64) }
    ensures words { IfOk result HasWords }
{
    let found = find_system(alloc, source, name, files);
    found.system
}
