//! A session that is asked the words of answers again, up to the first that comes out otherwise.
ghost use Rattle.std.specs.Prelude.{◌≡◌, ◌≢◌, ◌↔◌, ◌<◌, [], length, map, take, None, Some, Err, IfErr, IfOk, IfNone, IfSome, IsTrue, OnOk, OnErr};
ghost use Rattle.std.specs.List.{All};
ghost use Rattle.lw_words.specs.Word.{IsWord, IsWholeKept, name_at, named};
ghost use Rattle.lw_words.specs.declared.stop.RunStop.{RunStop as Stopped};
ghost use Rattle.lw_words.specs.declared.stop.SulStop.{SulStop as Reason};
ghost use Rattle.lw_json.specs.KeptOver.{AreKeptOver};
ghost use Rattle.lw_names.specs.Names.{IsGrown};
ghost use Rattle.lw_sul.specs.System.{IsSameSul};
ghost use Rattle.lw_recheck.specs.Again.{NamesDifferAt};
ghost use Rattle.lw_recheck.specs.bodies.Step.{GainsOne, GainsRun, HasFound};

use lw_sul::{NamedAnswer, Session, Sul};
use lw_words::{Kept, KeptAnswer, Names, RunStop, Word};

/// A run that came out otherwise: the number of the answer whose word was asked, the first place at which its outputs differ,
/// and its outputs.
#[derive(Drop)]
pub(crate) struct Other {
    pub(crate) number: usize,
    pub(crate) place: usize,
    pub(crate) outs: Word,
}

/// Whether an output of an answer and one of a system have the same name.
fn same_name<S: Sul>(outputs: &Names, sul: &S, known: u16, given: u16) -> bool
    requires known { known < length outputs.now }
    requires given { given < length (S.state sul.now).names }
    ensures { IsTrue result ↔ (name_at outputs.now known ≡ name_at (S.state sul.now).names
        given) }
{
    outputs.name(known).as_bytes() == sul.name(given).as_slice()
}

/// The first place at which the outputs of an answer and those of a system differ, by their names.
fn first_difference<S: Sul>(outputs: &Names, sul: &S, known: &[u16], given: &[u16]) -> Option<usize>
    requires known { All (λ y. y < length outputs.now) known.now }
    requires given { All (λ y. y < length (S.state sul.now).names) given.now }
    requires even { length given.now ≡ length known.now }
    ensures none { IfNone result (named (S.state sul.now).names given.now ≡
        named outputs.now known.now) }
    ensures some { IfSome result (NamesDifferAt (named outputs.now known.now)
        (named (S.state sul.now).names given.now)) }
{
    for place in 0..known.len() {
        if !same_name(outputs, sul, known[place], given[place]) {
            return Some(place);
        }
    }
    None
}

/// Asks a word.
fn run_again<S: Sul>(session: &mut Session<S>, word: &Word) -> Result<Word, RunStop>
    requires { IsWord (S.state session.old.sul).inputs word.now }
    ensures gains { IfOk result (λ outs. GainsRun (S.state session.old.sul).origin.machine
        word.now outs (S.state session.old.sul).names (S.state session.new.sul).names
        session.old.journal session.new.journal) }
    ensures live { OnOk result ((S.state session.new.sul).stop ≡ None) }
    ensures left { OnErr result (session.new.journal ≡ session.old.journal) }
    ensures stopped { (why : Reason) → result ≡ Err (Stopped.Sul why) →
        (S.state session.new.sul).stop ≡ Some why }
    ensures grown { IsGrown (S.state session.old.sul).names (S.state session.new.sul).names }
    ensures same { IsSameSul (S.state session.old.sul) (S.state session.new.sul) }
{
    let NamedAnswer { outs, names: _ } = session.ask_named(word)?;
    Ok(outs)
}

/// Asks the word of the answer of this number again.
fn ask_again<S: Sul>(
    session: &mut Session<S>,
    outputs: &Names,
    number: usize,
    answer: &KeptAnswer,
) -> Result<Option<Other>, RunStop>
    requires word { IsWord (S.state session.old.sul).inputs answer.now.word }
    requires outs { All (λ y. y < length outputs.now) answer.now.outs }
    requires even { IsWholeKept answer.now }
    ensures ok { IfOk result (GainsOne (S.state session.old.sul).origin.machine outputs.now number
        answer.now (S.state session.old.sul).names (S.state session.new.sul).names
        session.old.journal session.new.journal) }
    ensures live { OnOk result ((S.state session.new.sul).stop ≡ None) }
    ensures left { OnErr result (session.new.journal ≡ session.old.journal) }
    ensures stopped { (why : Reason) → result ≡ Err (Stopped.Sul why) →
        (S.state session.new.sul).stop ≡ Some why }
    ensures grown { IsGrown (S.state session.old.sul).names (S.state session.new.sul).names }
    ensures same { IsSameSul (S.state session.old.sul) (S.state session.new.sul) }
{
    let outs = run_again(session, &answer.word)?;
    let found = first_difference(
        outputs,
        session.sul(),
        answer.outs.as_slice(),
        outs.as_slice(),
    );
    match found {
        Some(place) => Ok(Some(Other {
            number,
            place,
            outs,
        })),
        None => Ok(None),
    }
}

/// Asks the words of answers again, in their order, of a session that was asked nothing before, up to the first that comes out
/// otherwise.
pub(crate) fn ask_answers<S: Sul>(
    session: &mut Session<S>,
    outputs: &Names,
    kept: &Kept,
) -> Result<Option<Other>, RunStop>
    requires fresh { session.old.journal ≡ [] }
    requires live { (S.state session.old.sul).stop ≡ None }
    requires over { AreKeptOver (S.state session.old.sul).inputs (length outputs.now)
        kept.now.answers }
    ensures found { HasFound (S.state session.old.sul).origin.machine outputs.now kept.now.answers
        (S.state session.new.sul).names session.new.journal result }
    ensures live { OnOk result ((S.state session.new.sul).stop ≡ None) }
    ensures stopped { (why : Reason) → result ≡ Err (Stopped.Sul why) →
        (S.state session.new.sul).stop ≡ Some why }
    ensures grown { IsGrown (S.state session.old.sul).names (S.state session.new.sul).names }
    ensures same { IsSameSul (S.state session.old.sul) (S.state session.new.sul) }
{
    for number in 0..kept.len() {
        let found = ask_again(session, outputs, number, kept.get(number))?;
        if found.is_some() {
            return Ok(found);
        }
    }
    Ok(None)
}
