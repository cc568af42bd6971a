//! How two models compare, and the text of it.
ghost use Rattle.std.specs.Prelude.{◌≡◌, ◌++◌, codes, IfOk, OnOk, string_bytes};
ghost use Rattle.std.specs.List.{join_by};
ghost use Rattle.lw_report.specs.Text.{comparison_lines, given_line, joined_names, only_line};

use lw_json::Texts;
use lw_words::NoMemory;
use std::alloc::Global;

/// A word, and what each of two models gives for it, all by their names.
#[derive(Drop)]
pub struct Difference {
    pub word: Texts,
    pub first: Texts,
    pub second: Texts,
}

/// How two models compare.
#[derive(Drop)]
pub enum Comparison {
    /// They give the same outputs for every word.
    Equal,
    /// They differ on a word.
    Differ(Difference),
    /// These are inputs of the first one alone, and of the second one alone.
    OtherInputs { first: Texts, second: Texts },
}

/// Appends names, joined by one blank.
fn put_joined(text: &mut String, names: &[String]) -> Result<(), NoMemory>
    ensures { OnOk result (string_bytes text.new ≡ string_bytes text.old ++
        join_by (λ n. string_bytes n) (codes " ") names.now) }
{
    let Some((first, rest)) = names.split_first() else {
        return Ok(());
    };
    text.push_str(first.as_str())?;
    for name in rest {
        text.push_str(" ")?;
        text.push_str(name.as_str())?;
    }
    Ok(())
}

/// Appends a list of names, joined by one blank.
fn put_list(text: &mut String, names: &Texts) -> Result<(), NoMemory>
    ensures { OnOk result
        (string_bytes text.new ≡ string_bytes text.old ++ joined_names names.now) }
{
    put_joined(text, names.get().as_slice())
}

/// Appends the line about what a model gives for a word.
fn put_given(text: &mut String, which: &str, word: &Texts, outs: &Texts) -> Result<(), NoMemory>
    ensures { OnOk result (string_bytes text.new ≡ string_bytes text.old ++
        given_line which.now word.now outs.now) }
{
    text.push_str(which)?;
    text.push_str(": ")?;
    put_list(text, word)?;
    text.push_str(" / ")?;
    put_list(text, outs)?;
    text.push_str("\n")?;
    Ok(())
}

/// Appends the line about inputs of a model alone.
fn put_only(text: &mut String, which: &str, names: &Texts) -> Result<(), NoMemory>
    ensures { OnOk result (string_bytes text.new ≡ string_bytes text.old ++
        only_line which.now names.now) }
{
    text.push_str(which)?;
    text.push_str(" only: ")?;
    put_list(text, names)?;
    text.push_str("\n")?;
    Ok(())
}

/// The lines about two models that differ on a word.
fn difference_text(alloc: Global, difference: &Difference) -> Result<String, NoMemory>
    ensures { IfOk result (λ text. string_bytes text ≡ codes "differ\n" ++
        (given_line (codes "first") difference.now.word difference.now.first ++
        given_line (codes "second") difference.now.word difference.now.second)) }
{
    let mut text = String::from_str(alloc, "differ\n")?;
    put_given(&mut text, "first", &difference.word, &difference.first)?;
    put_given(&mut text, "second", &difference.word, &difference.second)?;
    Ok(text)
}

/// The lines about two models whose inputs have other names.
fn inputs_text(alloc: Global, first: &Texts, second: &Texts) -> Result<String, NoMemory>
    ensures { IfOk result (λ text. string_bytes text ≡ codes "inputs differ\n" ++
        (only_line (codes "first") first.now ++ only_line (codes "second") second.now)) }
{
    let mut text = String::from_str(alloc, "inputs differ\n")?;
    put_only(&mut text, "first", first)?;
    put_only(&mut text, "second", second)?;
    Ok(text)
}

/// The lines about how two models compare.
pub(crate) fn comparison_text(alloc: Global, comparison: &Comparison) -> Result<String, NoMemory>
    ensures { IfOk result (λ text. string_bytes text ≡ comparison_lines comparison.now) }
{
    match comparison {
        Comparison::Equal => Ok(String::from_str(alloc, "equal\n")?),
        Comparison::Differ(difference) => difference_text(alloc, difference),
        Comparison::OtherInputs { first, second } => inputs_text(alloc, first, second),
    }
}
