//! Asking systems in tests.
ghost use Rattle.std.specs.Prelude.{◌≡◌, ◌<◌, None};

use super::scripted::{Script, ScriptedLink};
use crate::tests::names;
use lw_line::LineSul;
use lw_sul::Sul;
use lw_words::SulStop;
use std::alloc::Global;
use std::process::Abort;

/// How asking ends.
#[derive(Clone, Copy)]
pub enum Ending {
    /// All outputs came.
    Answered,
    /// Another output came.
    Otherwise,
    /// The line with these bytes is none of the protocol there.
    Bad(&'static [u8]),
    Gone,
    Failed,
}

/// A system with the letter `t` and the outputs `0` and `1`.
pub fn declared(rt: &impl Abort, alloc: Global, script: Script<'_>) -> LineSul<ScriptedLink>
    ensures { result.stop ≡ None }
{
    let inputs = names(rt, alloc, &["t"]);
    let outputs = names(rt, alloc, &["0", "1"]);
    LineSul::new(ScriptedLink::new(rt, alloc, script), inputs, outputs)
}

/// A system with the letter `t` and free outputs.
pub fn free(rt: &impl Abort, alloc: Global, script: Script<'_>) -> LineSul<ScriptedLink>
    ensures { result.stop ≡ None }
{
    let inputs = names(rt, alloc, &["t"]);
    match LineSul::free(alloc, ScriptedLink::new(rt, alloc, script), inputs) {
        Ok(sul) => sul,
        Err(_) => rt.panic("memory"),
    }
}

/// Whether these outputs come to the first letter, one after another, from a reset on.
pub fn comes<S: Sul>(sul: &mut S, outs: &[u16]) -> Result<bool, SulStop>
    requires live { (S.state sul.old).stop ≡ None }
    requires letter { 0 < (S.state sul.old).inputs }
{
    sul.reset()?;
    for y in outs {
        if sul.step(0)? != *y {
            return Ok(false);
        }
    }
    Ok(true)
}

/// Whether asking ended so.
pub fn ended_so(end: &Result<bool, SulStop>, want: Ending) -> bool {
    match (end, want) {
        (Ok(true), Ending::Answered) => true,
        (Ok(false), Ending::Otherwise) => true,
        (Err(SulStop::Failed), Ending::Failed) => true,
        (Err(SulStop::Gone), Ending::Gone) => true,
        (Err(SulStop::BadLine(line)), Ending::Bad(bytes)) => line.as_slice() == bytes,
        _ => false,
    }
}

/// Whether a system over this script answers these outputs to the first letter, or ends so.
pub fn ends<S: Sul>(sul: &mut S, outs: &[u16], want: Ending) -> bool
    requires live { (S.state sul.old).stop ≡ None }
{
    if sul.inputs() == 0 {
        return false;
    }
    ended_so(&comes(sul, outs), want)
}

/// The same over this script, with declared outputs.
pub fn declared_ends(
    rt: &impl Abort,
    alloc: Global,
    script: Script<'_>,
    outs: &[u16],
    want: Ending,
) -> bool {
    let mut sul = declared(rt, alloc, script);
    ends(&mut sul, outs, want)
}

/// The same over this script, with free outputs.
pub fn free_ends(
    rt: &impl Abort,
    alloc: Global,
    script: Script<'_>,
    outs: &[u16],
    want: Ending,
) -> bool {
    let mut sul = free(rt, alloc, script);
    ends(&mut sul, outs, want)
}
