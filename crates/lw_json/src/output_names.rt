//! The names in the outputs of answers, in the order in which they first appear.

ghost use Rattle.std.specs.Prelude.{◌≡◌, [], map, IfOk, OnOk, string_bytes};
ghost use Rattle.indexmap.specs.IndexSet.{insert_all};
ghost use Rattle.std.specs.Str.{bytes_eq};
ghost use Rattle.lw_json.specs.Formats.{journal_outputs, names_of_text};
ghost use Rattle.lw_json.specs.bodies.AnswersParts.{said_answer};

use crate::said_answer::SaidAnswer;
use indexmap::IndexSet;
use lw_words::NoMemory;
use std::alloc::{AllocError, Global};

/// Puts the names of a text behind those that are there, each once.
fn put_names<'a>(names: &mut IndexSet<&'a str>, text: &'a str) -> Result<(), AllocError>
    ensures { OnOk result (map (λ n. n.now) names.new.keys
        ≡ insert_all bytes_eq (map (λ n. n.now) names.old.keys) (names_of_text text.now)) }
{
    if text.is_empty() {
        return Ok(());
    }
    names.extend(text.split(' '))
}

/// The names in the outputs of answers, each once.
fn distinct_names<'a>(
    alloc: Global,
    answers: &[SaidAnswer<'a>],
) -> Result<IndexSet<&'a str>, AllocError>
    ensures { IfOk result (λ names. map (λ n. n.now) names.keys
        ≡ journal_outputs (map said_answer answers.now)) }
{
    let mut names = IndexSet::new(alloc);
    for answer in answers {
        put_names(&mut names, answer.outs)?;
    }
    Ok(names)
}

/// The texts, owned.
fn owned(alloc: Global, texts: &[&str]) -> Result<Vec<String>, AllocError>
    ensures { IfOk result (λ owned. map (λ s. string_bytes s) owned.items
        ≡ map (λ t. t.now) texts.now) }
{
    let mut owned = Vec::with_capacity(alloc, texts.len())?;
    for text in texts {
        owned.push(String::from_str(alloc, text)?)?;
    }
    Ok(owned)
}

/// The names in the outputs of answers, each once, in the order in which they first appear.
pub fn outputs_in_order(alloc: Global, answers: &[SaidAnswer<'_>]) -> Result<Vec<String>, NoMemory>
    ensures { IfOk result (λ names. map (λ s. string_bytes s) names.items
        ≡ journal_outputs (map said_answer answers.now)) }
{
    let names = distinct_names(alloc, answers)?;
    let names = owned(alloc, names.as_slice())?;
    Ok(names)
}
