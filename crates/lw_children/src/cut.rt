//! The run in which a child stopped.
ghost use Rattle.std.specs.Prelude.{◌≡◌, IfSome};
ghost use Rattle.lw_children.specs.Cuts.{IsStopOfInstance};

use lw_cache::AskStop;
use lw_line::LineSul;
use lw_outside::Link;
use lw_rounds::{LearnStop, Learned};
use lw_sul::Session;
use lw_workers::CutRun;
use std::alloc::Global;

/// The session whose system ended a learning.
fn stopped_instance(learned: &Result<Learned, LearnStop>) -> Option<u32>
    ensures { IfSome result (λ instance. IsStopOfInstance instance learned.now) }
{
    match learned {
        Err(LearnStop::Ask(AskStop::Sul { instance, .. })) => Some(*instance),
        _ => None,
    }
}

/// The run that a system noted, where it noted one and there is memory to tell it.
fn noted<L: Link>(alloc: Global, instance: u32, sul: &LineSul<L>) -> Option<CutRun>
    ensures { IfSome result (λ run. run.instance ≡ instance) }
{
    let asked = Vec::from_slice(alloc, sul.asked()?).ok()?;
    Some(CutRun {
        instance,
        asked,
        received: sul.last_line(),
        rest: sul.rest(),
    })
}

/// The run that was cut off, where a learning over these sessions ended because the system of one stopped.
pub(crate) fn cut_off<L: Link>(
    alloc: Global,
    sessions: &[Session<LineSul<L>>],
    learned: &Result<Learned, LearnStop>,
) -> Option<CutRun>
    ensures { IfSome result (λ run. IsStopOfInstance run.instance learned.now) }
{
    let instance = stopped_instance(learned)?;
    let session = sessions.get(instance as usize)?;
    noted(alloc, instance, session.sul())
}
