//! Reads the shapes of the answers of a file, in formats 1 and 2.

ghost use Rattle.std.specs.Prelude.{◌≡◌, ◌≤◌, IfOk, IfSome, Some, map, option_map};
ghost use Rattle.serde_json.specs.View.{view};
ghost use Rattle.lw_json.specs.Formats.{pair_of_texts, pairs_from, written_answer_of, instance_of, format_at, answers_at, each_of};
ghost use Rattle.lw_json.specs.bodies.Found.{FindsAnswers};
ghost use Rattle.lw_json.specs.bodies.AnswersParts.{said_answer};

use crate::members::{list, list_member};
use crate::said_answer::SaidAnswer;
use lw_words::NoMemory;
use serde_json::Value;
use std::alloc::Global;

/// The greatest number of an instance, which is that of an earlier run's answers.
const LAST_INSTANCE: u64 = 16;

/// The two texts of an answer in format 1.
fn pair<'a>(value: &'a Value) -> Option<(&'a str, &'a str)>
    ensures { option_map (λ p. (p.0.now, p.1.now)) result ≡ pair_of_texts (view value.now) }
{
    let [word, outs] = list(value)?.as_slice() else {
        return None;
    };
    Some((word.as_str()?, outs.as_str()?))
}

/// The answers in format 1, or None where one hasn't its shape.
fn pairs<'a>(alloc: Global, items: &'a [Value]) -> Result<Option<Vec<SaidAnswer<'a>>>, NoMemory>
    ensures { IfOk result (FindsAnswers (pairs_from 0 (map view items.now))) }
{
    let mut answers = Vec::with_capacity(alloc, items.len())?;
    for (place, item) in items.iter().enumerate() {
        let Some((word, outs)) = pair(item) else {
            return Ok(None);
        };
        answers.push(SaidAnswer {
            instance: 0,
            run: place as u64,
            word,
            outs,
        })?;
    }
    Ok(Some(answers))
}

/// The number of an instance.
fn instance(value: &Value) -> Option<u32>
    ensures value { result ≡ instance_of (view value.now) }
    ensures known { IfSome result (λ n. n ≤ 16) }
{
    let number = value.as_u64()?;
    if number <= LAST_INSTANCE {
        Some(number as u32)
    } else {
        None
    }
}

/// An answer in format 2, which is a run of a journal.
pub fn answer<'a>(value: &'a Value) -> Option<SaidAnswer<'a>>
    ensures { option_map said_answer result ≡ written_answer_of (view value.now) }
{
    let [origin, run, word, outs] = list(value)?.as_slice() else {
        return None;
    };
    Some(SaidAnswer {
        instance: instance(origin)?,
        run: run.as_u64()?,
        word: word.as_str()?,
        outs: outs.as_str()?,
    })
}

/// The answers in format 2, or None where one hasn't its shape.
fn answers<'a>(alloc: Global, items: &'a [Value]) -> Result<Option<Vec<SaidAnswer<'a>>>, NoMemory>
    ensures { IfOk result (FindsAnswers (each_of written_answer_of (map view items.now))) }
{
    let mut all = Vec::with_capacity(alloc, items.len())?;
    for item in items {
        let Some(one) = answer(item) else {
            return Ok(None);
        };
        all.push(one)?;
    }
    Ok(Some(all))
}

/// The format, 1 or 2, or None where there is none.
pub fn format(root: &Value) -> Option<u64>
    ensures { result ≡ format_at (view root.now) }
{
    match root.get("format")?.as_u64()? {
        1 => Some(1),
        2 => Some(2),
        _ => None,
    }
}

/// The answers in a format, or None where there is no such member.
pub fn answers_member<'a>(
    alloc: Global,
    root: &'a Value,
    format: u64,
) -> Result<Option<Vec<SaidAnswer<'a>>>, NoMemory>
    requires { format_at (view root.now) ≡ Some format }
    ensures { IfOk result (FindsAnswers (answers_at (view root.now))) }
{
    let Some(items) = list_member(root, "answers") else {
        return Ok(None);
    };
    if format == 1 {
        pairs(alloc, items)
    } else {
        answers(alloc, items)
    }
}
