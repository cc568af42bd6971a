//! The file that says a system, by what is to be learned of it.
ghost use Rattle.std.specs.Prelude.{◌≤◌, IfOk, length};
ghost use Rattle.lw_system.specs.Goals.{HasFoundFor, IsSystemFor};
ghost use Rattle.lw_system.specs.Systems.{HasWords, letters_of};
ghost use Rattle.lw_system.specs.declared.goal.Goal.TheVariants as Aim;

use crate::acceptors::find_acceptor;
use crate::finding::find_system;
use crate::{AcceptorStop, Found, Goal, NoSystem, Source, System, SystemStop};
use lw_outside::Files;
use std::alloc::Global;

/// Finds the system that the file of this kind says, of which a machine is to be learned.
fn find_machine<F: Files>(
    alloc: Global,
    source: Source,
    name: &str,
    files: &mut F,
) -> Found<NoSystem>
    ensures found { HasFoundFor Aim.Machine source name.now (F.state files.old)
        (F.state files.new) result.system result.hint.items }
    ensures letters { IfOk result.system (λ s. length (letters_of s) ≤ 64) }
    ensures words { IfOk result.system HasWords }
{
    let Found { system, hint } = find_system(alloc, source, name, files);
    match system {
        Ok(system) => Found {
            system: Ok(system),
            hint,
        },
        Err(stop) => Found {
            system: Err(NoSystem::Machine(stop)),
            hint,
        },
    }
}

/// Finds the system that the file of this kind says, of which an acceptor is to be learned.
fn find_asked<F: Files>(alloc: Global, source: Source, name: &str, files: &mut F) -> Found<NoSystem>
    ensures found { HasFoundFor Aim.Acceptor source name.now (F.state files.old)
        (F.state files.new) result.system result.hint.items }
    ensures fits { IfOk result.system (IsSystemFor Aim.Acceptor) }
    ensures words { IfOk result.system HasWords }
{
    let Found { system, hint } = find_acceptor(alloc, source, name, files);
    match system {
        Ok(system) => Found {
            system: Ok(system),
            hint,
        },
        Err(stop) => Found {
            system: Err(NoSystem::Acceptor(stop)),
            hint,
        },
    }
}

/// Finds the system that the file of this kind says, by what is to be learned of it: reads it, and the table file that a setup
/// names, which is a machine's or an acceptor's.
pub fn find_for<F: Files>(
    alloc: Global,
    goal: Goal,
    source: Source,
    name: &str,
    files: &mut F,
) -> Found<NoSystem>
    ensures found { HasFoundFor goal source name.now (F.state files.old) (F.state files.new)
        result.system result.hint.items }
    ensures letters { IfOk result.system (λ s. length (letters_of s) ≤ 64) }
    ensures words { IfOk result.system HasWords }
    ensures fits { IfOk result.system (IsSystemFor goal) }
{
    match goal {
        Goal::Machine => find_machine(alloc, source, name, files),
        Goal::Acceptor => find_asked(alloc, source, name, files),
    }
}
