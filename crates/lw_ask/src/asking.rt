//! A session that is asked words, and puts each answer to a stream as a line.
ghost use Rattle.std.specs.Prelude.{◌≡◌, ◌<◌, ◌≤◌, [], ◌∷◌, ◌++◌, length, None, Err, IfErr, IfOk, OnOk, OnErr, Some};
ghost use Rattle.std.specs.List.{All};
ghost use Rattle.lw_words.specs.Cause.{CountedFault};
ghost use Rattle.lw_words.specs.Word.{IsWord};
ghost use Rattle.lw_words.specs.declared.stop.SulStop.{SulStop as Reason};
ghost use Rattle.lw_outside.specs.Streams.{TakesAll, TakesSome};
ghost use Rattle.lw_names.specs.Names.{IsGrown};
ghost use Rattle.lw_sul.specs.SessionState.{run_of};
ghost use Rattle.lw_sul.specs.System.{IsSameSul};
ghost use Rattle.lw_sul.specs.Told.{Answers};
ghost use Rattle.lw_ask.specs.Asking.{HasAsked, HasPut, HasStopped, kept_run};
ghost use Rattle.lw_ask.specs.Lines.{answer_line as line_said};
ghost use Rattle.lw_ask.specs.bodies.Step.{GainsLine, StopsOne};
ghost use Rattle.lw_ask.specs.declared.stop.AskingStop.{AskingStop as Stop};

use crate::lines::answer_line;
use crate::stop::AskingStop;
use lw_outside::{Sink, put_all};
use lw_sul::{NamedAnswer, Session, Sul};
use lw_words::{Kept, KeptAnswer, Names, NoMemory, Word, Words};
use std::alloc::Global;

/// Asks a word. The memory for its answer is taken before.
fn ask_one<S: Sul>(
    session: &mut Session<S>,
    word: &Word,
    kept: &mut Kept,
) -> Result<KeptAnswer, AskingStop>
    requires instance { session.old.instance ≡ 0 }
    requires letters { IsWord (S.state session.old.sul).inputs word.now }
    ensures answer { IfOk result (λ k.
        k ≡ kept_run (length session.old.journal) (run_of word.now k.outs)) }
    ensures journal { IfOk result (λ k.
        session.new.journal ≡ session.old.journal ++ run_of word.now k.outs ∷ []) }
    ensures below { IfOk result (λ k. All (λ y. y < length (S.state session.new.sul).names)
        k.outs) }
    ensures given { IfOk result (λ k. Answers (S.state session.old.sul).origin.machine word.now
        k.outs) }
    ensures live { OnOk result ((S.state session.new.sul).stop ≡ None) }
    ensures left { OnErr result (session.new.journal ≡ session.old.journal) }
    ensures stopped { (why : Reason) → result ≡ Err (Stop.Sul why) →
        (S.state session.new.sul).stop ≡ Some why }
    ensures unput { ¬ (result ≡ Err Stop.Sink) }
    ensures grown { IsGrown (S.state session.old.sul).names (S.state session.new.sul).names }
    ensures kept { kept.new.answers ≡ kept.old.answers }
    ensures room { OnOk result (1 ≤ kept.new.room) }
    ensures instance { session.new.instance ≡ session.old.instance }
    ensures same { IsSameSul (S.state session.old.sul) (S.state session.new.sul) }
{
    let asked = word.copy()?;
    kept.reserve(1)?;
    let (instance, run) = (session.instance(), session.runs());
    let NamedAnswer { outs, names: _ } = session.ask_named(word)?;
    Ok(KeptAnswer {
        instance,
        run,
        word: asked,
        outs,
    })
}

/// Puts an answer last, for which there is room.
fn keep(kept: &mut Kept, answer: KeptAnswer)
    requires room { 1 ≤ kept.old.room }
    ensures { kept.new.answers ≡ kept.old.answers ++ answer ∷ [] }
{
    let pushed = kept.push(answer);
    let _pushed = pushed.is_ok();
}

/// Puts the line of an answer.
fn put_line<S: Sul, O: Sink>(
    alloc: Global,
    letters: &Names,
    sul: &S,
    answer: &KeptAnswer,
    out: &mut O,
) -> Result<(), AskingStop>
    requires letters { IsWord (length letters.now) answer.now.word }
    requires outputs { All (λ y. y < length (S.state sul.now).names) answer.now.outs }
    ensures ok { OnOk result (TakesAll (line_said letters.now (S.state sul.now).names answer.now)
        (O.state out.old).taken (O.state out.new).taken) }
    ensures part { TakesSome (line_said letters.now (S.state sul.now).names answer.now)
        (O.state out.old).taken (O.state out.new).taken }
    ensures own { (why : Reason) → ¬ (result ≡ Err (Stop.Sul why)) }
    ensures failed { result ≡ Err Stop.Sink → CountedFault (O.state out.old).faults
        (O.state out.new).faults }
    ensures quiet { ¬ (result ≡ Err Stop.Sink) → (O.state out.new).faults ≡
        (O.state out.old).faults }
    ensures counts { (O.state out.old).faults ≤ (O.state out.new).faults }
{
    let line = answer_line(
        alloc,
        letters,
        sul,
        answer.word.as_slice(),
        answer.outs.as_slice(),
    )?;
    put_all(out, &line)?;
    Ok(())
}

/// Asks a word, keeps the answer, and puts its line.
fn ask_word<S: Sul, O: Sink>(
    alloc: Global,
    session: &mut Session<S>,
    letters: &Names,
    word: &Word,
    kept: &mut Kept,
    out: &mut O,
) -> Result<(), AskingStop>
    requires instance { session.old.instance ≡ 0 }
    requires letters { IsWord (length letters.now) word.now }
    requires inputs { (S.state session.old.sul).inputs ≡ length letters.now }
    ensures ok { OnOk result (GainsLine (S.state session.old.sul).origin.machine letters.now
        word.now (S.state session.old.sul).names (S.state session.new.sul).names
        session.old.journal session.new.journal kept.old.answers kept.new.answers
        (O.state out.old).taken (O.state out.new).taken) }
    ensures live { OnOk result ((S.state session.new.sul).stop ≡ None) }
    ensures err { IfErr result (StopsOne (S.state session.old.sul).origin.machine letters.now
        word.now (S.state session.old.sul).names (S.state session.new.sul).names
        session.old.journal session.new.journal kept.old.answers kept.new.answers
        (O.state out.old).taken (O.state out.new).taken) }
    ensures stopped { (why : Reason) → result ≡ Err (Stop.Sul why) →
        (S.state session.new.sul).stop ≡ Some why }
    ensures failed { result ≡ Err Stop.Sink → CountedFault (O.state out.old).faults
        (O.state out.new).faults }
    ensures quiet { ¬ (result ≡ Err Stop.Sink) → (O.state out.new).faults ≡
        (O.state out.old).faults }
    ensures grown { IsGrown (S.state session.old.sul).names (S.state session.new.sul).names }
    ensures counts { (O.state out.old).faults ≤ (O.state out.new).faults }
    ensures instance { session.new.instance ≡ session.old.instance }
    ensures same { IsSameSul (S.state session.old.sul) (S.state session.new.sul) }
{
    let answer = ask_one(session, word, kept)?;
    let told = put_line(alloc, letters, session.sul(), &answer, out);
    keep(kept, answer);
    told
}

/// Asks words in their order of a session that was asked nothing before. Each answer is kept, and its line put, before the next
/// word is asked.
pub fn ask_words<S: Sul, O: Sink>(
    alloc: Global,
    session: &mut Session<S>,
    letters: &Names,
    words: &Words,
    kept: &mut Kept,
    out: &mut O,
) -> Result<(), AskingStop>
    requires instance { session.old.instance ≡ 0 }
    requires fresh { (session.old.journal ≡ []) × (kept.old.answers ≡ []) }
    requires live { (S.state session.old.sul).stop ≡ None }
    requires letters { All (IsWord (length letters.now)) words.now }
    requires inputs { (S.state session.old.sul).inputs ≡ length letters.now }
    ensures ok { OnOk result (HasAsked (S.state session.old.sul).origin.machine letters.now
        words.now (S.state session.new.sul).names session.new.journal kept.new.answers
        (O.state out.old).taken (O.state out.new).taken) }
    ensures live { OnOk result ((S.state session.new.sul).stop ≡ None) }
    ensures err { IfErr result (HasStopped (S.state session.old.sul).origin.machine letters.now
        words.now (S.state session.new.sul).names session.new.journal kept.new.answers
        (O.state out.old).taken (O.state out.new).taken) }
    ensures stopped { (why : Reason) → result ≡ Err (Stop.Sul why) →
        (S.state session.new.sul).stop ≡ Some why }
    ensures failed { result ≡ Err Stop.Sink → CountedFault (O.state out.old).faults
        (O.state out.new).faults }
    ensures quiet { ¬ (result ≡ Err Stop.Sink) → (O.state out.new).faults ≡
        (O.state out.old).faults }
    ensures grown { IsGrown (S.state session.old.sul).names (S.state session.new.sul).names }
    ensures counts { (O.state out.old).faults ≤ (O.state out.new).faults }
    ensures instance { session.new.instance ≡ session.old.instance }
    ensures same { IsSameSul (S.state session.old.sul) (S.state session.new.sul) }
{
    for word in words.as_slice() {
        ask_word(alloc, session, letters, word, kept, out)?;
    }
    Ok(())
}

/// What came of asking: the answers that are kept, and why no more words were asked, where that was not the end of them.
#[derive(Drop)]
pub(crate) struct AskingEnd {
    pub(crate) kept: Kept,
    pub(crate) came: Result<(), AskingStop>,
}

/// Asks words of a session that was asked nothing before.
pub(crate) fn ask_session<S: Sul, O: Sink>(
    alloc: Global,
    session: &mut Session<S>,
    letters: &Names,
    words: &Words,
    out: &mut O,
) -> AskingEnd
    requires instance { session.old.instance ≡ 0 }
    requires fresh { session.old.journal ≡ [] }
    requires live { (S.state session.old.sul).stop ≡ None }
    requires letters { All (IsWord (length letters.now)) words.now }
    requires inputs { (S.state session.old.sul).inputs ≡ length letters.now }
    ensures put { HasPut (S.state session.old.sul).origin.machine letters.now words.now
        (S.state session.new.sul).names session.new.journal result.kept.answers (O.state out.old)
        (O.state out.new) result.came }
    ensures live { OnOk result.came ((S.state session.new.sul).stop ≡ None) }
    ensures stopped { (why : Reason) → result.came ≡ Err (Stop.Sul why) →
        (S.state session.new.sul).stop ≡ Some why }
    ensures grown { IsGrown (S.state session.old.sul).names (S.state session.new.sul).names }
    ensures counts { (O.state out.old).faults ≤ (O.state out.new).faults }
    ensures instance { session.new.instance ≡ session.old.instance }
    ensures same { IsSameSul (S.state session.old.sul) (S.state session.new.sul) }
{
    let mut kept = Kept::new(alloc);
    let came = ask_words(alloc, session, letters, words, &mut kept, out);
    AskingEnd { kept, came }
}
