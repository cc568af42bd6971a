//! Why a command doesn't take the texts and the options that are given together.
ghost use Rattle.std.specs.Prelude.{◌≡◌, ◌++◌, codes, drop, filter, find, IfOk, OnOk, Some, length, map, not, option_map, string_bytes};
ghost use Rattle.std.specs.List.{flat_map};
ghost use Rattle.lw_top.specs.Given.{given_values};
ghost use Rattle.lw_top.specs.Reasons.{is_given, is_unsettled, left_reason, missing_text, more_text, needs, reason_by, starts, text_reason, texts_given, together_of, together_reason, unknown_topic, wanted_by};
ghost use Rattle.lw_top.specs.Syntaxes.{syntax_values};

use crate::given::Given;
use crate::options::Syntax;
use crate::reasons::{around, first_entry_reason, first_given_reason, is_given, with_word};
use std::alloc::{AllocError, Global};

/// The texts that are given.
pub(crate) fn texts_given<'a>(
    alloc: Global,
    given: &[Given<'a>],
) -> Result<Vec<&'a str>, AllocError>
    ensures { IfOk result (λ list. map (λ t. t.now) list.items ≡
        texts_given (map given_values given.now)) }
{
    let mut list = Vec::new(alloc);
    for one in given {
        if let Given::Text(text) = *one {
            list.push(text)?;
        }
    }
    Ok(list)
}

/// How many of these options are given.
fn count_given(given: &[Given], names: &[&str]) -> usize
    ensures { result ≡
        length (filter (is_given (map given_values given.now)) (map (λ n. n.now) names.now)) }
{
    let mut count = 0;
    for name in names {
        if is_given(given, name) {
            count += 1;
        }
    }
    count
}

/// Appends options, each behind an `and`.
fn push_more(text: &mut String, names: &[&str]) -> Result<(), AllocError>
    ensures { OnOk result (string_bytes text.new ≡ string_bytes text.old ++
        flat_map (λ n. codes " and --" ++ n.now) names.now) }
{
    for name in names {
        text.push_str(" and --")?;
        text.push_str(name)?;
    }
    Ok(())
}

/// That one of a text and the options in its place is wanted.
fn wanted_text(alloc: Global, first: &str, options: &[&str]) -> Result<String, AllocError>
    ensures { IfOk result (λ t. string_bytes t ≡ codes "one of " ++ (first.now ++
        (flat_map (λ p. codes " and --" ++ p) (map (λ o. o.now) options.now) ++
        codes " is wanted"))) }
{
    let mut text = around(alloc, "one of ", first, "")?;
    push_more(&mut text, options)?;
    text.push_str(" is wanted")?;
    Ok(text)
}

/// That one of the first text and the options in its place is wanted.
fn wanted_by(alloc: Global, texts: &[&str], options: &[&str]) -> Result<Option<String>, AllocError>
    ensures { IfOk result (λ r. option_map (λ t. string_bytes t) r ≡
        wanted_by (map (λ t. t.now) texts.now) (map (λ o. o.now) options.now)) }
{
    if options.is_empty() {
        return Ok(None);
    }
    match texts.first() {
        Some(first) => Ok(Some(wanted_text(alloc, first, options)?)),
        None => Ok(None),
    }
}

/// Whether two options are given in place of the first text, or that text too, or neither.
fn is_unsettled(takes_more: bool, options: usize, texts: usize, wanted: usize) -> bool
    ensures { result ≡ is_unsettled takes_more options texts wanted }
{
    match options {
        0 => texts == 0,
        1 => !takes_more && texts > wanted,
        _ => true,
    }
}

/// That a text is missing.
fn missing_label(alloc: Global, label: &str) -> Result<String, AllocError>
    ensures { IfOk result (λ t. string_bytes t ≡ label.now ++ codes " is missing") }
{
    around(alloc, "", label, " is missing")
}

/// What is told of a text that is missing.
fn missing_text(alloc: Global, labels: &[&str]) -> Result<Option<String>, AllocError>
    ensures { IfOk result (λ r. option_map (λ t. string_bytes t) r ≡
        missing_text (map (λ t. t.now) labels.now)) }
{
    match labels.first() {
        Some(label) => Ok(Some(missing_label(alloc, label)?)),
        None => Ok(None),
    }
}

/// What is told of a text too many.
fn more_text(alloc: Global, texts: &[&str]) -> Result<Option<String>, AllocError>
    ensures { IfOk result (λ r. option_map (λ t. string_bytes t) r ≡
        more_text (map (λ t. t.now) texts.now)) }
{
    match texts.first() {
        Some(text) => Ok(Some(with_word(alloc, "too many arguments", ": ", text)?)),
        None => Ok(None),
    }
}

/// The texts behind the first ones, this many.
fn behind<'a>(texts: &'a [&'a str], count: usize) -> &'a [&'a str]
    ensures { map (λ t. t.now) result.now ≡ drop count (map (λ t. t.now) texts.now) }
{
    if count >= texts.len() {
        return &[];
    }
    &texts[count..]
}

/// What is told of texts, where this many options are given in place of the first one.
pub(crate) fn text_reason(
    alloc: Global,
    syntax: &Syntax,
    options: usize,
    given: &[&str],
) -> Result<Option<String>, AllocError>
    ensures { IfOk result (λ r. option_map (λ t. string_bytes t) r ≡
        text_reason (syntax_values syntax.now) options (map (λ t. t.now) given.now)) }
{
    let wanted = behind(syntax.texts, options);
    if is_unsettled(syntax.takes_more, options, given.len(), wanted.len()) {
        if let Some(reason) = wanted_by(alloc, syntax.texts, syntax.in_place)? {
            return Ok(Some(reason));
        }
    }
    if let Some(reason) = missing_text(alloc, behind(wanted, given.len()))? {
        return Ok(Some(reason));
    }
    if syntax.takes_more {
        return Ok(None);
    }
    more_text(alloc, behind(given, wanted.len()))
}

/// The first of some options that is given.
fn first_given(names: &[&'static str], given: &[Given]) -> Option<&'static str>
    ensures { option_map (λ n. n.now) result ≡
        find (is_given (map given_values given.now)) (map (λ n. n.now) names.now) }
{
    for name in names {
        if is_given(given, name) {
            return Some(name);
        }
    }
    None
}

/// The options that aren't given.
fn not_given(
    alloc: Global,
    names: &[&'static str],
    given: &[Given],
) -> Result<Vec<&'static str>, AllocError>
    ensures { IfOk result (λ list. map (λ n. n.now) list.items ≡
        filter (λ o. not (is_given (map given_values given.now) o)) (map (λ n. n.now) names.now)) }
{
    let mut list = Vec::new(alloc);
    for name in names {
        if !is_given(given, name) {
            list.push(*name)?;
        }
    }
    Ok(list)
}

/// That an option needs others.
fn needs_text(
    alloc: Global,
    first: &str,
    missing: &str,
    more: &[&str],
) -> Result<String, AllocError>
    ensures { IfOk result (λ t. string_bytes t ≡ codes "--" ++ (first.now ++ (codes " needs --" ++
        (missing.now ++ flat_map (λ p. codes " and --" ++ p) (map (λ o. o.now) more.now))))) }
{
    let mut text = around(alloc, "--", first, " needs --")?;
    text.push_str(missing)?;
    push_more(&mut text, more)?;
    Ok(text)
}

/// What is told of an option that needs others, where some are missing.
fn needs(alloc: Global, first: &str, missing: &[&str]) -> Result<Option<String>, AllocError>
    ensures { IfOk result (λ r. option_map (λ t. string_bytes t) r ≡
        needs (Some first.now) (map (λ o. o.now) missing.now)) }
{
    match missing.split_first() {
        Some((one, more)) => Ok(Some(needs_text(alloc, first, one, more)?)),
        None => Ok(None),
    }
}

/// What is told of options that are given all or none.
pub(crate) fn together_reason(
    alloc: Global,
    together: &[&'static str],
    given: &[Given],
) -> Result<Option<String>, AllocError>
    ensures { IfOk result (λ r. option_map (λ t. string_bytes t) r ≡
        together_reason (map (λ o. o.now) together.now) (map given_values given.now)) }
{
    let Some(first) = first_given(together, given) else {
        return Ok(None);
    };
    let missing = not_given(alloc, together, given)?;
    needs(alloc, first, &missing)
}

/// Whether the first of some options is given.
fn starts(given: &[Given], names: &[&str]) -> bool
    ensures { result ≡ starts (map given_values given.now) (map (λ n. n.now) names.now) }
{
    match names.first() {
        Some(name) => is_given(given, name),
        None => false,
    }
}

/// The options that are given all or none.
fn together_of(syntax: &Syntax, given: &[Given]) -> &'static [&'static str]
    ensures { map (λ o. o.now) result.now ≡
        together_of (syntax_values syntax.now) (map given_values given.now) }
{
    if starts(given, syntax.instead) {
        return syntax.instead;
    }
    if starts(given, syntax.together) {
        return syntax.together;
    }
    syntax.either
}

/// That a command doesn't take the arguments.
fn untaken(alloc: Global, syntax: &Syntax) -> Result<String, AllocError>
    ensures { IfOk result (λ t. string_bytes t ≡
        syntax.now.command.now ++ codes " doesn't take these arguments") }
{
    around(alloc, "", syntax.command, " doesn't take these arguments")
}

/// What is told of the name of no command.
fn unknown_topic(alloc: Global, syntax: &Syntax, texts: &[&str]) -> Result<String, AllocError>
    ensures { IfOk result (λ t. string_bytes t ≡
        unknown_topic (syntax_values syntax.now) (map (λ t. t.now) texts.now)) }
{
    match texts.first() {
        Some(text) => with_word(alloc, "unknown command", " ", text),
        None => untaken(alloc, syntax),
    }
}

/// What else it may be.
fn left_reason(alloc: Global, syntax: &Syntax, texts: &[&str]) -> Result<String, AllocError>
    ensures { IfOk result (λ t. string_bytes t ≡
        left_reason (syntax_values syntax.now) (map (λ t. t.now) texts.now)) }
{
    if syntax.command == "help" {
        return unknown_topic(alloc, syntax, texts);
    }
    untaken(alloc, syntax)
}

/// Why a command doesn't take what is given.
pub(crate) fn reason_by(
    alloc: Global,
    syntax: &Syntax,
    given: &[Given],
) -> Result<String, AllocError>
    ensures { IfOk result (λ t. string_bytes t ≡
        reason_by (syntax_values syntax.now) (map given_values given.now)) }
{
    if let Some(reason) = first_given_reason(alloc, syntax, given)? {
        return Ok(reason);
    }
    if let Some(reason) = first_entry_reason(alloc, given, syntax.entries)? {
        return Ok(reason);
    }
    let texts = texts_given(alloc, given)?;
    if let Some(reason) = text_reason(alloc, syntax, count_given(given, syntax.in_place), &texts)? {
        return Ok(reason);
    }
    if let Some(reason) = together_reason(alloc, together_of(syntax, given), given)? {
        return Ok(reason);
    }
    left_reason(alloc, syntax, &texts)
}
