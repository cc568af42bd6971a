//! A child that is started, asked words, and retired.
ghost use Rattle.std.specs.Prelude.{◌≡◌, ◌<◌, ◌≤◌, length, map, IfErr, IfOk, OnErr, string_bytes};
ghost use Rattle.std.specs.List.{All};
ghost use Rattle.lw_words.specs.Word.{IsWord};
ghost use Rattle.lw_system.specs.Spawners.{HasNotStarted};
ghost use Rattle.lw_ask.specs.Child.{AsksChild};

use crate::asking::{AskingEnd, ask_session};
use lw_outside::{Sink, Spawner, StartStop};
use lw_sul::Session;
use lw_system::{link_of, start_line};
use lw_words::{Names, Words};
use std::alloc::Global;

/// Starts a child by these words, asks it, and retires it. May wait for the child.
pub(crate) fn ask_child<P: Spawner, O: Sink>(
    alloc: Global,
    spawner: &mut P,
    command: &[String],
    letters: &Names,
    outputs: Option<Names>,
    words: &Words,
    out: &mut O,
) -> Result<AskingEnd, StartStop>
    requires command { 0 < length command.now }
    requires words { All (IsWord (length letters.now)) words.now }
    ensures ok { IfOk result (λ a. AsksChild (map (λ w. string_bytes w) command.now) letters.now
        outputs words.now (P.state spawner.old) (P.state spawner.new) (O.state out.old)
        (O.state out.new) a.kept.answers a.came) }
    ensures err { IfErr result (HasNotStarted (map (λ w. string_bytes w) command.now)
        (P.state spawner.old) (P.state spawner.new)) }
    ensures unput { OnErr result (((O.state out.new).taken ≡ (O.state out.old).taken) ×
        ((O.state out.new).faults ≡ (O.state out.old).faults)) }
    ensures counts { (O.state out.old).faults ≤ (O.state out.new).faults }
{
    let Ok(names) = letters.copy() else {
        return Err(StartStop::NoMemory);
    };
    let line = match start_line(alloc, spawner, command, names, outputs) {
        Ok(line) => line,
        Err(stop) => return Err(stop),
    };
    let mut session = Session::new(alloc, 0, line);
    let asked = ask_session(alloc, &mut session, letters, words, out);
    spawner.retire(link_of(session));
    Ok(asked)
}
