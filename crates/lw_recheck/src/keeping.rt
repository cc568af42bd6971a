//! The run that came out otherwise, kept behind the answers.
ghost use Rattle.std.specs.Prelude.{◌≡◌, ◌<◌, ◌∷◌, ◌++◌, [], length, map, string_bytes, None, Some, Err, IfErr, IfOk, OnOk, OnErr};
ghost use Rattle.std.specs.List.{All};
ghost use Rattle.lw_words.specs.Word.{answer_at, answers_of, AllDiffer, IsNames, number_of, name_at, named};
ghost use Rattle.lw_words.specs.declared.stop.RunStop.{RunStop as Stopped};
ghost use Rattle.lw_words.specs.declared.stop.SulStop.{SulStop as Reason};
ghost use Rattle.lw_json.specs.KeptOver.{AreKeptOver};
ghost use Rattle.lw_names.specs.Names.{IsGrown};
ghost use Rattle.lw_sul.specs.System.{IsSameSul};
ghost use Rattle.lw_recheck.specs.Again.{HasRechecked};
ghost use Rattle.lw_recheck.specs.bodies.Step.{KeepsOther};

use crate::asking::{Other, ask_answers};
use lw_cache::Clash;
use lw_names::OutName;
use lw_sul::{Session, Sul};
use lw_words::{Kept, KeptAnswer, Names, NoMemory, RunStop, Word};
use std::alloc::Global;
use std::str;

/// A name as a text.
fn text_of(alloc: Global, name: &OutName) -> Result<String, NoMemory>
    ensures { IfOk result (λ text. string_bytes text ≡ name.now) }
{
    match str::from_utf8(name.as_slice()) {
        Ok(text) => Ok(String::from_str(alloc, text)?),
        Err(_) => unreachable!(),
    }
}

/// Names as texts, in their order.
fn texts_of(alloc: Global, names: &Names) -> Result<Vec<String>, NoMemory>
    ensures { IfOk result (λ texts. map (λ s. string_bytes s) texts.items ≡ names.now) }
{
    let mut texts = Vec::new(alloc);
    for n in 0..names.len() {
        texts.push(String::from_str(alloc, names.name(n))?)?;
    }
    Ok(texts)
}

/// Puts a text last, where it isn't there.
fn put_text(texts: &mut Vec<String>, text: String) -> Result<(), NoMemory>
    ensures { OnOk result (IsGrown (map (λ s. string_bytes s) texts.old.items)
        (map (λ s. string_bytes s) texts.new.items)) }
{
    if texts.iter().any(|other| other.as_str() == text.as_str()) {
        return Ok(());
    }
    texts.push(text)?;
    Ok(())
}

/// Names, and behind them those of a system's outputs that aren't among them. More than a list of names may have is
/// reported as out of memory.
fn joined<S: Sul>(alloc: Global, names: &Names, sul: &S, outs: &[u16]) -> Result<Names, NoMemory>
    requires { All (λ y. y < length (S.state sul.now).names) outs.now }
    ensures grown { IfOk result (IsGrown names.now) }
    ensures names { IfOk result IsNames }
{
    let mut texts = texts_of(alloc, names)?;
    for y in outs {
        put_text(&mut texts, text_of(alloc, &sul.name(*y))?)?;
    }
    match Names::from_list(alloc, &texts) {
        Ok(names) => Ok(names),
        Err(_) => Err(NoMemory),
    }
}

/// The number of a name that is among others.
fn number_among(names: &Names, name: &OutName) -> Result<u16, NoMemory>
    ensures below { IfOk result (λ n. n < length names.now) }
    ensures named { IfOk result (λ n. name_at names.now n ≡ name.now) }
{
    match str::from_utf8(name.as_slice()) {
        Ok(text) => match names.number(text) {
            Some(number) => Ok(number),
            None => Err(NoMemory),
        },
        Err(_) => unreachable!(),
    }
}

/// A system's outputs by the numbers that their names have among others.
fn renamed<S: Sul>(alloc: Global, names: &Names, sul: &S, outs: &[u16]) -> Result<Word, NoMemory>
    requires { All (λ y. y < length (S.state sul.now).names) outs.now }
    ensures below { IfOk result (All (λ y. y < length names.now)) }
    ensures named { IfOk result (λ w. named names.now w ≡ named (S.state sul.now).names
        outs.now) }
{
    let mut word = Word::new(alloc);
    for y in outs {
        word.push(number_among(names, &sul.name(*y))?)?;
    }
    Ok(word)
}

/// Puts an answer last.
fn push_answer(kept: &mut Kept, answer: KeptAnswer) -> Result<(), NoMemory>
    ensures ok { OnOk result (kept.new.answers ≡ kept.old.answers ++ answer ∷ []) }
    ensures err { OnErr result (kept.new.answers ≡ kept.old.answers) }
{
    match kept.push(answer) {
        Ok(()) => Ok(()),
        Err((_, NoMemory)) => Err(NoMemory),
    }
}

/// The word of the answer of this number, once more.
fn word_of(kept: &Kept, number: usize) -> Result<Word, NoMemory>
    requires { number < length kept.now.answers }
    ensures { IfOk result (λ w. w ≡ (answer_at (answers_of kept.now.answers) number).word) }
{
    kept.get(number).word.copy()
}

/// Keeps a run that came out otherwise behind the answers, as one of the instance 0, and answers the names of all.
fn keep_other<S: Sul>(
    alloc: Global,
    outputs: &Names,
    sul: &S,
    kept: &mut Kept,
    other: &Other,
) -> Result<Names, NoMemory>
    requires within { other.now.number < length kept.old.answers }
    requires below { All (λ y. y < length (S.state sul.now).names) other.now.outs }
    ensures ok { IfOk result (λ shown. KeepsOther outputs.now (S.state sul.now).names
        kept.old.answers other.now shown kept.new.answers) }
    ensures names { IfOk result IsNames }
    ensures err { OnErr result (kept.new.answers ≡ kept.old.answers) }
{
    let names = joined(alloc, outputs, sul, other.outs.as_slice())?;
    let outs = renamed(alloc, &names, sul, other.outs.as_slice())?;
    let word = word_of(kept, other.number)?;
    let answer = KeptAnswer {
        instance: 0,
        run: other.number as u64,
        word,
        outs,
    };
    push_answer(kept, answer)?;
    Ok(names)
}

/// What came of asking words again: the answers that are kept, with the names of their outputs, and the run that came out
/// otherwise, if one did, or why no more words were asked.
#[derive(Drop)]
pub(crate) struct RecheckEnd {
    pub(crate) kept: Kept,
    pub(crate) names: Names,
    pub(crate) came: Result<Option<Clash>, RunStop>,
}

/// What comes of a run that came out otherwise.
fn come_otherwise<S: Sul>(
    alloc: Global,
    outputs: Names,
    sul: &S,
    kept: Kept,
    other: Other,
) -> RecheckEnd
    requires within { other.number < length kept.answers }
    requires below { All (λ y. y < length (S.state sul.now).names) other.outs }
    ensures kept { IfOk result.came (λ found. (found ≡ Some (record {
      first = other.number;
      second = length kept.answers;
      place = other.place;
    })) × IsNames result.names ×
        KeepsOther outputs (S.state sul.now).names kept.answers other result.names
        result.kept.answers) }
    ensures same { OnErr result.came (result.kept.answers ≡ kept.answers) }
    ensures memory { IfErr result.came (λ why. why ≡ Stopped.NoMemory) }
{
    let mut kept = kept;
    let clash = Clash {
        first: other.number,
        second: kept.len(),
        place: other.place,
    };
    match keep_other(alloc, &outputs, sul, &mut kept, &other) {
        Ok(names) => RecheckEnd {
            kept,
            names,
            came: Ok(Some(clash)),
        },
        Err(NoMemory) => RecheckEnd {
            kept,
            names: outputs,
            came: Err(RunStop::NoMemory),
        },
    }
}

/// Asks the words of answers again of a session that was asked nothing before.
pub(crate) fn recheck_session<S: Sul>(
    alloc: Global,
    session: &mut Session<S>,
    outputs: Names,
    kept: Kept,
) -> RecheckEnd
    requires fresh { session.old.journal ≡ [] }
    requires live { (S.state session.old.sul).stop ≡ None }
    requires over { AreKeptOver (S.state session.old.sul).inputs (length outputs) kept.answers }
    ensures has { HasRechecked (S.state session.old.sul).origin.machine outputs kept.answers
        (S.state session.new.sul).names session.new.journal result.names result.kept.answers
        result.came }
    ensures live { OnOk result.came ((S.state session.new.sul).stop ≡ None) }
    ensures stopped { (why : Reason) → result.came ≡ Err (Stopped.Sul why) →
        (S.state session.new.sul).stop ≡ Some why }
    ensures grown { IsGrown (S.state session.old.sul).names (S.state session.new.sul).names }
    ensures same { IsSameSul (S.state session.old.sul) (S.state session.new.sul) }
{
    match ask_answers(session, &outputs, &kept) {
        Ok(None) => RecheckEnd {
            kept,
            names: outputs,
            came: Ok(None),
        },
        Ok(Some(other)) => come_otherwise(alloc, outputs, session.sul(), kept, other),
        Err(stop) => RecheckEnd {
            kept,
            names: outputs,
            came: Err(stop),
        },
    }
}
