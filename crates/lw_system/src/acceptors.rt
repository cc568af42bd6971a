//! The file that says a system that is asked for an acceptor, and the acceptor file that a setup names.
ghost use Rattle.std.specs.Prelude.{◌≡◌, ◌≤◌, ℕ, List, Some, IfErr, IfOk, length};
ghost use Rattle.lw_accept.specs.AcceptorFile.{IsAcceptorFault, IsAcceptorFile};
ghost use Rattle.lw_json.specs.SetupFile.{IsSetupFile};
ghost use Rattle.lw_system.specs.AcceptorFinding.{HasFoundAcceptor};
ghost use Rattle.lw_system.specs.AcceptorSystems.{IsAskedFor, IsViewFile};
ghost use Rattle.lw_system.specs.Reading.{HasRead};
ghost use Rattle.lw_system.specs.Systems.{HasWords, letters_of};
ghost use Rattle.lw_system.specs.bodies.FoundAcceptor.{HasAskedCommand, HasReadAcceptor, HasSaidAcceptor, HasSaidTable, HasViewed, letters_stop};
ghost use Rattle.lw_system.specs.declared.source.Source.{Source as Kind};

use crate::reading::read_setup_with;
use crate::{AcceptorStop, Found, ReadStop, Source, System};
use lw_accept::{Acceptor, AcceptorFault, answer_names, asked_names, read_acceptor, view};
use lw_json::{Command, JsonFault, Machine, Setup};
use lw_outside::Files;
use lw_words::NoMemory;
use std::alloc::Global;

/// Reads an acceptor file.
pub fn read_acceptor_file<F: Files>(
    alloc: Global,
    files: &mut F,
    name: &str,
) -> Result<Acceptor, ReadStop<AcceptorFault>>
    ensures { HasRead IsAcceptorFile IsAcceptorFault name.now (F.state files.old)
        (F.state files.new) result }
{
    let bytes = match files.read(name) {
        Ok(bytes) => bytes,
        Err(refusal) => return Err(ReadStop::from(refusal)),
    };
    match read_acceptor(alloc, &bytes) {
        Ok(acceptor) => Ok(acceptor),
        Err(fault) => Err(ReadStop::from(fault)),
    }
}

/// Reads an acceptor file, for the machine that is asked in the acceptor's place.
pub fn read_view_file<F: Files>(
    alloc: Global,
    files: &mut F,
    name: &str,
) -> Result<Machine, ReadStop<AcceptorFault>>
    ensures { HasRead IsViewFile IsAcceptorFault name.now (F.state files.old)
        (F.state files.new) result }
{
    let acceptor = match read_acceptor_file(alloc, files, name) {
        Ok(acceptor) => acceptor,
        Err(stop) => return Err(stop),
    };
    match view(alloc, &acceptor) {
        Ok(machine) => Ok(machine),
        Err(NoMemory) => Err(ReadStop::NoMemory),
    }
}

/// The machine that is asked in an acceptor's place.
fn asked_machine(alloc: Global, acceptor: &Acceptor) -> Result<System, NoMemory>
    ensures { IfOk result (HasViewed acceptor.now) }
{
    Ok(System::Table(view(alloc, acceptor)?))
}

/// Reads an acceptor file, for the machine that is asked in the acceptor's place.
fn read_asked<F: Files>(
    alloc: Global,
    name: &str,
    files: &mut F,
) -> Result<System, ReadStop<AcceptorFault>>
    ensures { HasReadAcceptor name.now (F.state files.old) (F.state files.new) result }
{
    let acceptor = match read_acceptor_file(alloc, files, name) {
        Ok(acceptor) => acceptor,
        Err(stop) => return Err(stop),
    };
    match asked_machine(alloc, &acceptor) {
        Ok(system) => Ok(system),
        Err(NoMemory) => Err(ReadStop::NoMemory),
    }
}

/// Reads an acceptor file, for the machine that is asked in the acceptor's place.
fn table_system<F: Files>(alloc: Global, name: &str, files: &mut F) -> Result<System, AcceptorStop>
    ensures { HasSaidTable name.now (F.state files.old) (F.state files.new) result }
{
    match read_asked(alloc, name, files) {
        Ok(system) => Ok(system),
        Err(stop) => Err(AcceptorStop::Table(stop)),
    }
}

/// Children that are asked for an acceptor.
fn ask_command(alloc: Global, command: Command) -> Result<System, AcceptorFault>
    ensures { HasAskedCommand command result }
{
    let inputs = asked_names(alloc, &command.inputs)?;
    let outputs = answer_names(alloc)?;
    Ok(System::Children(Command {
        words: command.words,
        inputs,
        outputs: Some(outputs),
    }))
}

/// Why children of a command aren't asked for an acceptor.
fn letters_stop(fault: AcceptorFault) -> AcceptorStop
    ensures { result ≡ letters_stop fault }
{
    match fault {
        AcceptorFault::NoMemory => AcceptorStop::NoMemory,
        _ => AcceptorStop::Letters(fault),
    }
}

/// The system that a setup says. The acceptor file that it names is read, if it names one.
fn read_said<F: Files>(alloc: Global, setup: Setup, files: &mut F) -> Result<System, AcceptorStop>
    requires file { (bytes : List ℕ) × IsSetupFile bytes setup }
    ensures { HasSaidAcceptor setup (F.state files.old) (F.state files.new) result }
{
    match setup {
        Setup::Table(table) => table_system(alloc, table.get().as_str(), files),
        Setup::Command(command) => match ask_command(alloc, command) {
            Ok(system) => Ok(system),
            Err(fault) => Err(letters_stop(fault)),
        },
    }
}

/// Finds the system that a setup file says.
fn find_setup<F: Files>(alloc: Global, name: &str, files: &mut F) -> Found<AcceptorStop>
    ensures found { HasFoundAcceptor Kind.Setup name.now (F.state files.old) (F.state files.new)
        result.system result.hint.items }
    ensures words { IfOk result.system HasWords }
{
    match read_setup_with(alloc, files, name) {
        Ok(file) => Found {
            system: read_said(alloc, file.setup, files),
            hint: file.hint,
        },
        Err(stop) => Found {
            system: Err(AcceptorStop::Setup(stop)),
            hint: Vec::new(alloc),
        },
    }
}

/// Finds the system that is asked for an acceptor and that the file of this kind says: reads it, and the acceptor file that a
/// setup names.
pub fn find_acceptor<F: Files>(
    alloc: Global,
    source: Source,
    name: &str,
    files: &mut F,
) -> Found<AcceptorStop>
    ensures found { HasFoundAcceptor source name.now (F.state files.old) (F.state files.new)
        result.system result.hint.items }
    ensures asked { IfOk result.system (λ s. (letters : List (List ℕ)) × IsAskedFor letters s) }
    ensures words { IfOk result.system HasWords }
{
    match source {
        Source::Setup => find_setup(alloc, name, files),
        Source::Table => Found {
            system: table_system(alloc, name, files),
            hint: Vec::new(alloc),
        },
    }
}
