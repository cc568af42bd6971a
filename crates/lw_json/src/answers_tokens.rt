//! What is put to a writer of JSON for an answers file, a token at a time: no value of the file is made.
ghost use Rattle.std.specs.Prelude.{◌≡◌, [], ◌∷◌, ◌++◌, map, IfOk, OnOk};
ghost use Rattle.json.specs.Token.{string};
ghost use Rattle.lw_words.specs.Word.{IsNames, word_text};
ghost use Rattle.lw_json.specs.AnswersText.{answer_data, answers_data, list_data};
ghost use Rattle.lw_json.specs.MachineText.{texts_data};
ghost use Rattle.lw_json.specs.bodies.Tokens.{IsTextOf, Puts};

use json::Writer;
use lw_words::{KeptAnswer, Names, NoMemory, put_word};
use std::alloc::Global;

/// Puts the text of a word, which is made in room that serves for the next one again.
fn put_text(
    out: &mut Writer,
    room: &mut String,
    names: &Names,
    word: &[u16],
) -> Result<(), NoMemory>
    ensures before { OnOk result (out.new.before ≡ out.old.before) }
    ensures tokens { OnOk result (out.new.tokens ≡
        out.old.tokens ++ string (word_text names.now word.now) ∷ []) }
{
    room.clear();
    put_word(room, names, word)?;
    out.string(room.as_str())?;
    Ok(())
}

/// Puts an answer as a list of its instance, its run and its two texts.
fn put_answer(
    out: &mut Writer,
    room: &mut String,
    answer: &KeptAnswer,
    inputs: &Names,
    outputs: &Names,
) -> Result<(), NoMemory>
    ensures { OnOk result (Puts (answer_data inputs.now outputs.now answer.now) out.old out.new) }
{
    out.begin_array()?;
    out.u64(u64::from(answer.instance))?;
    out.u64(answer.run)?;
    put_text(out, room, inputs, answer.word.as_slice())?;
    put_text(out, room, outputs, answer.outs.as_slice())?;
    out.end_array()?;
    Ok(())
}

/// Puts the answers as a list.
fn put_list(
    alloc: Global,
    out: &mut Writer,
    answers: &[&KeptAnswer],
    inputs: &Names,
    outputs: &Names,
) -> Result<(), NoMemory>
    ensures { OnOk result (Puts (list_data inputs.now outputs.now (map (λ k. k.now) answers.now))
        out.old out.new) }
{
    let mut room = String::new(alloc);
    out.begin_array()?;
    for answer in answers {
        put_answer(out, &mut room, *answer, inputs, outputs)?;
    }
    out.end_array()?;
    Ok(())
}

/// Puts the names as a list of texts.
pub(crate) fn put_names(out: &mut Writer, names: &Names) -> Result<(), NoMemory>
    ensures value { OnOk result (Puts (texts_data names.now) out.old out.new) }
    ensures names { OnOk result (IsNames names.now) }
{
    out.begin_array()?;
    for n in 0..names.len() {
        out.string(names.name(n))?;
    }
    out.end_array()?;
    Ok(())
}

/// Puts the members of an answers file.
fn put_file(
    alloc: Global,
    out: &mut Writer,
    answers: &[&KeptAnswer],
    inputs: &Names,
    outputs: &Names,
) -> Result<(), NoMemory>
    ensures value { OnOk result
        (Puts (answers_data inputs.now outputs.now (map (λ k. k.now) answers.now))
        out.old out.new) }
    ensures inputs { OnOk result (IsNames inputs.now) }
    ensures outputs { OnOk result (IsNames outputs.now) }
{
    out.begin_object()?;
    out.key("answers")?;
    put_list(alloc, out, answers, inputs, outputs)?;
    out.key("format")?;
    out.u64(2)?;
    out.key("inputs")?;
    put_names(out, inputs)?;
    out.key("outputs")?;
    put_names(out, outputs)?;
    out.end_object()?;
    Ok(())
}

/// The text of an answers file, with its answers in the order of the list.
pub(crate) fn text_of(
    alloc: Global,
    answers: &[&KeptAnswer],
    inputs: &Names,
    outputs: &Names,
) -> Result<Vec<u8>, NoMemory>
    ensures text { IfOk result (λ text. IsTextOf
        (answers_data inputs.now outputs.now (map (λ k. k.now) answers.now)) text.items) }
    ensures inputs { OnOk result (IsNames inputs.now) }
    ensures outputs { OnOk result (IsNames outputs.now) }
{
    let mut out = Writer::new(Vec::new(alloc));
    put_file(alloc, &mut out, answers, inputs, outputs)?;
    Ok(out.into_inner())
}
