//! Children: how one is started, and the link that is left of its session.
ghost use Rattle.std.specs.Prelude.{◌≡◌, ◌<◌, length, map, IfErr, IfOk, OnOk, string_bytes};
ghost use Rattle.std.specs.List.{All};
ghost use Rattle.lw_outside.specs.Links.{IsUntouched};
ghost use Rattle.lw_sul.specs.SessionState.{NoRuns};
ghost use Rattle.lw_line.specs.LineState.{told_runs};
ghost use Rattle.lw_system.specs.Ends.{IsBorneOut};
ghost use Rattle.lw_system.specs.NewLines.{new_line};
ghost use Rattle.lw_system.specs.Spawners.{HasNotStarted, StartsLinks};

use lw_line::LineSul;
use lw_outside::{Link, Spawner, StartStop};
use lw_sul::{Session, Sul};
use lw_words::{Names, NoMemory};
use std::alloc::Global;

/// The system over a link. Where there is no memory for it, the link is handed back.
pub fn line_over<L: Link>(
    alloc: Global,
    link: L,
    letters: Names,
    outputs: Option<Names>,
) -> Result<LineSul<L>, L>
    requires { IsUntouched (L.state link).transcript }
    ensures ok { IfOk result (λ s. s ≡ new_line link letters outputs) }
    ensures fresh { IfOk result
        (λ s. NoRuns (told_runs s.letters s.names (L.state s.link).transcript)) }
    ensures back { IfErr result (λ l. l ≡ link) }
{
    match outputs {
        Some(outputs) => Ok(LineSul::new(link, letters, outputs)),
        None => match LineSul::free(alloc, link, letters) {
            Ok(system) => Ok(system),
            Err((link, NoMemory)) => Err(link),
        },
    }
}

/// Starts a child. A link for whose system there is no memory is retired.
pub fn start_line<P: Spawner>(
    alloc: Global,
    spawner: &mut P,
    words: &[String],
    letters: Names,
    outputs: Option<Names>,
) -> Result<LineSul<P::Link>, StartStop>
    requires words { 0 < length words.now }
    ensures ok { IfOk result (λ s. s ≡ new_line s.link letters outputs) }
    ensures fresh { IfOk result
        (λ s. NoRuns (told_runs s.letters s.names (P.Link.state s.link).transcript)) }
    ensures number { IfOk result (λ s. (P.Link.state s.link).number ≡
        (P.state spawner.old).started) }
    ensures one { OnOk result
        (StartsLinks (map (λ w. string_bytes w) words.now) (P.state spawner.old)
        (P.state spawner.new) 1) }
    ensures earlier { OnOk result (All (λ r. r.number < (P.state spawner.old).started)
        (P.state spawner.old).retired) }
    ensures err { IfErr result (HasNotStarted (map (λ w. string_bytes w) words.now)
        (P.state spawner.old) (P.state spawner.new)) }
{
    let link = match spawner.start(words) {
        Ok(link) => link,
        Err(stop) => return Err(stop),
    };
    match line_over(alloc, link, letters, outputs) {
        Ok(system) => Ok(system),
        Err(link) => {
            spawner.retire(link);
            Err(StartStop::NoMemory)
        }
    }
}

/// The link of a session that is at its end.
pub fn link_of<L: Link + Drop>(session: Session<LineSul<L>>) -> L
    ensures link { result ≡ session.sul.link }
    ensures bears { IsBorneOut session.sul.letters session.sul.names session.sul.most
        session.sul.outputs session.sul.stop session.sul.cut session.journal (L.state result) }
{
    // for the proof alone: what the system's runs are, and that its names are few
    let _runs = session.runs();
    let _named = session.sul().named();
    session.into_sul().into_link()
}
