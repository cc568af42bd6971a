//! Reads the lines of a journal: the last head and the runs.

ghost use Rattle.std.specs.Prelude.{◌≡◌, ◌==◌, not, None, IfOk, IfErr, map, option_map};
ghost use Rattle.std.specs.List.{filter, filter_map, last_or, slice_split};
ghost use Rattle.serde_json.specs.View.{view};
ghost use Rattle.lw_json.specs.AnswersFault.{answers_tests};
ghost use Rattle.lw_json.specs.Formats.{SaysAnswers, is_object, json_in, last_inputs, line_values, run_answers, lines as values_of_lines};
ghost use Rattle.lw_json.specs.Members.{FindsTexts};
ghost use Rattle.lw_json.specs.bodies.AnswersParts.{said_answers};
ghost use Rattle.lw_json.specs.bodies.Found.{FindsAnswers};
ghost use Rattle.lw_json.specs.bodies.Told.{IsMisshapen};

use crate::answer_shapes::answer;
use crate::members::texts_member;
use crate::output_names::outputs_in_order;
use crate::said_answer::{Said, SaidAnswer};
use crate::{Field, JsonFault};
use lw_words::NoMemory;
use serde_json::Value;
use std::alloc::{AllocError, Global};

/// The value of a line, or None where the line is no JSON text.
fn line_value(alloc: Global, line: &[u8]) -> Result<Option<Value>, NoMemory>
    ensures { IfOk result (λ value. option_map view value ≡ json_in line.now) }
{
    match Value::from_slice(alloc, line) {
        Ok(value) => Ok(Some(value)),
        Err(fault) if fault.is_memory() => Err(NoMemory),
        Err(_) => Ok(None),
    }
}

/// The values of the lines that are JSON texts.
fn values_in(alloc: Global, lines: &[&[u8]]) -> Result<Vec<Value>, NoMemory>
    ensures { IfOk result (λ values. map view values.items
        ≡ filter_map json_in (map (λ l. l.now) lines.now)) }
{
    let mut values = Vec::new(alloc);
    for line in lines {
        let Some(value) = line_value(alloc, line)? else {
            continue;
        };
        values.push(value)?;
    }
    Ok(values)
}

/// The lines: what stands between the line feeds.
fn lines_of(alloc: Global, bytes: &[u8]) -> Result<Vec<&[u8]>, AllocError>
    ensures { IfOk result (λ lines. map (λ l. l.now) lines.items
        ≡ slice_split (λ b. b == 10) bytes.now) }
{
    bytes.split(|b| *b == b'\n').collect(alloc)
}

/// The values of a journal's lines. A line that is no JSON text is passed over: it was cut off, or is empty.
pub fn journal_values(alloc: Global, bytes: &[u8]) -> Result<Vec<Value>, NoMemory>
    ensures { IfOk result (λ values. map view values.items ≡ line_values bytes.now) }
{
    let lines = lines_of(alloc, bytes)?;
    values_in(alloc, &lines)
}

/// The last head.
fn last_head<'a>(values: &'a [Value]) -> Option<&'a Value>
    ensures { option_map (λ v. view v.now) result
        ≡ last_or None (filter is_object (map view values.now)) }
{
    let mut head = None;
    for value in values {
        if value.is_object() {
            head = Some(value);
        }
    }
    head
}

/// The inputs of the last head, or None where there is no head or its inputs have not their shape.
fn head_inputs(alloc: Global, values: &[Value]) -> Result<Option<Vec<String>>, NoMemory>
    ensures { IfOk result (FindsTexts (last_inputs (map view values.now))) }
{
    match last_head(values) {
        Some(head) => texts_member(alloc, head, "inputs"),
        None => Ok(None),
    }
}

/// The answers of the runs, or None where one has not its shape.
fn runs<'a>(alloc: Global, values: &'a [Value]) -> Result<Option<Vec<SaidAnswer<'a>>>, NoMemory>
    ensures { IfOk result (FindsAnswers (run_answers (map view values.now))) }
{
    let mut answers = Vec::new(alloc);
    for value in values {
        if value.is_object() {
            continue;
        }
        let Some(one) = answer(value) else {
            return Ok(None);
        };
        answers.push(one)?;
    }
    Ok(Some(answers))
}

/// What the values of a journal's lines say, where they have their shapes.
pub fn journal_said<'a>(alloc: Global, values: &'a [Value]) -> Result<Said<'a>, JsonFault>
    ensures ok { IfOk result
        (λ s. SaysAnswers (values_of_lines (map view values.now)) (said_answers s)) }
    ensures err { IfErr result
        (IsMisshapen (answers_tests (values_of_lines (map view values.now)))) }
{
    let Some(inputs) = head_inputs(alloc, values)? else {
        return Err(JsonFault::Shape(Field::Inputs));
    };
    let Some(answers) = runs(alloc, values)? else {
        return Err(JsonFault::Shape(Field::Answers));
    };
    let outputs = outputs_in_order(alloc, &answers)?;
    Ok(Said {
        inputs,
        outputs,
        answers,
    })
}
