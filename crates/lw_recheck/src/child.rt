//! A child that is started, asked the words of answers again, and retired.
ghost use Rattle.std.specs.Prelude.{◌≡◌, ◌<◌, length, map, IfErr, IfOk, string_bytes};
ghost use Rattle.lw_json.specs.KeptOver.{AreKeptOver};
ghost use Rattle.lw_system.specs.Spawners.{HasNotStarted};
ghost use Rattle.lw_recheck.specs.Child.{RechecksChild};

use crate::keeping::{RecheckEnd, recheck_session};
use lw_outside::{Spawner, StartStop};
use lw_sul::Session;
use lw_system::{link_of, start_line};
use lw_words::{Kept, Names};
use std::alloc::Global;

/// Starts a child by these words, asks it the words of answers again, and retires it. May wait for the child.
pub(crate) fn recheck_child<P: Spawner>(
    alloc: Global,
    spawner: &mut P,
    command: &[String],
    letters: &Names,
    declared: Option<Names>,
    outputs: Names,
    kept: Kept,
) -> Result<RecheckEnd, StartStop>
    requires command { 0 < length command.now }
    requires over { AreKeptOver (length letters.now) (length outputs) kept.answers }
    ensures ok { IfOk result (λ a. RechecksChild (map (λ w. string_bytes w) command.now)
        letters.now declared outputs kept.answers (P.state spawner.old) (P.state spawner.new)
        a.names a.kept.answers a.came) }
    ensures err { IfErr result (HasNotStarted (map (λ w. string_bytes w) command.now)
        (P.state spawner.old) (P.state spawner.new)) }
{
    let Ok(names) = letters.copy() else {
        return Err(StartStop::NoMemory);
    };
    let line = match start_line(alloc, spawner, command, names, declared) {
        Ok(line) => line,
        Err(stop) => return Err(stop),
    };
    let mut session = Session::new(alloc, 0, line);
    let asked = recheck_session(alloc, &mut session, outputs, kept);
    spawner.retire(link_of(session));
    Ok(asked)
}
