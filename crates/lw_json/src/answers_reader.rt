//! Reads answers files: the shapes of what they say, then the names, then the words.

ghost use Rattle.std.specs.Prelude.{◌≡◌, true, false, IfOk, IfErr, IfSome, IfNone, Some, map};
ghost use Rattle.std.specs.List.{All};
ghost use Rattle.serde_json.specs.View.{view};
ghost use Rattle.lw_words.specs.First.{FailsFirst};
ghost use Rattle.lw_words.specs.Word.{IsNames, IsWholeKept};
ghost use Rattle.lw_json.specs.Formats.{numbered_answer, SaysAnswers, SpellsAnswers, IsAnswersFile, SameAnswers, each_of, whole, AreInputs};
ghost use Rattle.lw_json.specs.Journal.{is_journal};
ghost use Rattle.lw_json.specs.AnswersFault.{answers_tests, AnswerHasWords, SaysAnswersFault, HasAnswersFault};
ghost use Rattle.lw_json.specs.Fault.{first_failing};
ghost use Rattle.lw_json.specs.bodies.AnswersParts.{said_answer, said_answers, written};
ghost use Rattle.lw_json.specs.bodies.Told.{Told, IsMisshapen};
ghost use Rattle.lw_json.specs.declared.files.Answers.{Answers as Read};
ghost use Rattle.lw_json.specs.declared.fault.JsonFault.{JsonFault as Fault};

use crate::answer_shapes::{answers_member, format};
use crate::journal::is_journal;
use crate::journal_reader::{journal_said, journal_values};
use crate::members::{inputs_of, outputs_of, texts_member, value_of};
use crate::said_answer::{Said, SaidAnswer};
use crate::word_reader::read_word;
use crate::{Answers, Field, JsonFault};
use lw_words::{Kept, KeptAnswer, Names, NoMemory};
use serde_json::Value;
use std::alloc::Global;

/// What the members say, where they have their shapes.
fn members_of<'a>(alloc: Global, root: &'a Value) -> Result<Said<'a>, JsonFault>
    ensures ok { IfOk result (λ s. SaysAnswers (whole (view root.now)) (said_answers s)) }
    ensures err { IfErr result (IsMisshapen (answers_tests (whole (view root.now)))) }
{
    if !root.is_object() {
        return Err(JsonFault::Shape(Field::Root));
    }
    let Some(format) = format(root) else {
        return Err(JsonFault::Shape(Field::Format));
    };
    let Some(inputs) = texts_member(alloc, root, "inputs")? else {
        return Err(JsonFault::Shape(Field::Inputs));
    };
    let Some(outputs) = texts_member(alloc, root, "outputs")? else {
        return Err(JsonFault::Shape(Field::Outputs));
    };
    let Some(answers) = answers_member(alloc, root, format)? else {
        return Err(JsonFault::Shape(Field::Answers));
    };
    Ok(Said {
        inputs,
        outputs,
        answers,
    })
}

/// The answer with the words of its texts, or None where one is no word.
fn kept_one(
    alloc: Global,
    said: &SaidAnswer<'_>,
    inputs: &Names,
    outputs: &Names,
) -> Result<Option<KeptAnswer>, NoMemory>
    ensures { IfOk result (λ r. r ≡ numbered_answer inputs.now outputs.now (said_answer said.now)) }
{
    let Some(word) = read_word(alloc, inputs, said.word)? else {
        return Ok(None);
    };
    let Some(outs) = read_word(alloc, outputs, said.outs)? else {
        return Ok(None);
    };
    Ok(Some(KeptAnswer {
        instance: said.instance,
        run: said.run,
        word,
        outs,
    }))
}

/// The answers with the words of their texts.
fn kept_all(
    alloc: Global,
    answers: &[SaidAnswer<'_>],
    inputs: &Names,
    outputs: &Names,
) -> Result<Kept, JsonFault>
    ensures ok { IfOk result
        (λ kept. each_of (numbered_answer inputs.now outputs.now) (map said_answer answers.now)
        ≡ Some kept.answers) }
    ensures err { IfErr result
        (Told Fault.BadWord (FailsFirst (AnswerHasWords inputs.now outputs.now)
        (map said_answer answers.now))) }
{
    let mut kept = Kept::new(alloc);
    for (place, said) in answers.iter().enumerate() {
        let Some(answer) = kept_one(alloc, said, inputs, outputs)? else {
            return Err(JsonFault::BadWord(place));
        };
        let Ok(()) = kept.push(answer) else {
            return Err(JsonFault::NoMemory);
        };
    }
    Ok(kept)
}

/// The first answer whose two words have different lengths.
fn first_uneven(kept: &Kept) -> Option<usize>
    ensures none { IfNone result (All IsWholeKept kept.now.answers) }
    ensures some { IfSome result (FailsFirst IsWholeKept kept.now.answers) }
{
    for place in 0..kept.len() {
        let answer = kept.get(place);
        if answer.outs.len() != answer.word.len() {
            return Some(place);
        }
    }
    None
}

/// The answers with the words of their texts, which are of one length in each.
fn kept_even(
    alloc: Global,
    answers: &[SaidAnswer<'_>],
    inputs: &Names,
    outputs: &Names,
) -> Result<Kept, JsonFault>
    requires inputs { AreInputs inputs.now }
    requires outputs { IsNames outputs.now }
    ensures ok { IfOk result
        (λ kept. each_of (numbered_answer inputs.now outputs.now) (map said_answer answers.now)
        ≡ Some kept.answers) }
    ensures even { IfOk result (λ kept. All IsWholeKept kept.answers) }
    ensures err { IfErr result
        (SaysAnswersFault (written inputs.now outputs.now (map said_answer answers.now))) }
{
    let kept = kept_all(alloc, answers, inputs, outputs)?;
    match first_uneven(&kept) {
        Some(place) => Err(JsonFault::Lengths(place)),
        None => Ok(kept),
    }
}

/// The answers that are said.
fn answers_of(alloc: Global, said: &Said<'_>) -> Result<Answers, JsonFault>
    ensures ok { IfOk result (SpellsAnswers (said_answers said.now)) }
    ensures err { IfErr result (SaysAnswersFault (said_answers said.now)) }
{
    let inputs = inputs_of(alloc, &said.inputs)?;
    let outputs = outputs_of(alloc, &said.outputs)?;
    let kept = kept_even(alloc, &said.answers, &inputs, &outputs)?;
    Ok(Answers {
        inputs,
        outputs,
        kept,
    })
}

/// Reads an answers file in format 1 or 2: an object with `format`, `inputs` and `outputs`, lists of names, and
/// `answers`, a list that has for each answer its two texts, in format 2 after its instance and its run.
fn read_whole(alloc: Global, bytes: &[u8]) -> Result<Answers, JsonFault>
    requires { is_journal bytes.now ≡ false }
    ensures ok { IfOk result (IsAnswersFile bytes.now) }
    ensures err { IfErr result (HasAnswersFault bytes.now) }
{
    let root = value_of(alloc, bytes)?;
    let said = members_of(alloc, &root)?;
    answers_of(alloc, &said)
}

/// Reads a journal: lines of JSON, of which the objects are heads with the `inputs` and the others runs, each an
/// answer as in format 2.
fn read_lines(alloc: Global, bytes: &[u8]) -> Result<Answers, JsonFault>
    requires { is_journal bytes.now ≡ true }
    ensures ok { IfOk result (IsAnswersFile bytes.now) }
    ensures err { IfErr result (HasAnswersFault bytes.now) }
{
    let values = journal_values(alloc, bytes)?;
    let said = journal_said(alloc, &values)?;
    answers_of(alloc, &said)
}

/// Reads an answers file, in format 1 or 2 or as a journal.
pub fn read_answers(alloc: Global, bytes: &[u8]) -> Result<Answers, JsonFault>
    ensures ok { IfOk result (IsAnswersFile bytes.now) }
    ensures only { IfOk result (λ a. (b : Read) → IsAnswersFile bytes.now b → SameAnswers b a) }
    ensures err { IfErr result (HasAnswersFault bytes.now) }
{
    if is_journal(bytes) {
        read_lines(alloc, bytes)
    } else {
        read_whole(alloc, bytes)
    }
}
