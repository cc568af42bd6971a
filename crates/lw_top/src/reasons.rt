//! Why a command doesn't take arguments, by what words give to it.
ghost use Rattle.std.specs.Prelude.{◌≡◌, ◌++◌, ◌&&◌, nat_le, codes, filter, IfOk, length, map, option_map, string_bytes};
ghost use Rattle.std.specs.List.{list_all, list_any};
ghost use Rattle.clap.specs.ValueTests.{is_unsigned_in};
ghost use Rattle.lw_top.specs.Given.{given_values};
ghost use Rattle.lw_top.specs.HelpTexts.{listed, numbers};
ghost use Rattle.lw_top.specs.Reasons.{choice_reason, entry_reason, first_told, given_reason, has_value, is_given, is_help_flag, is_named, is_option, is_printed, lacks_value, option_reason, range_reason, shown, unknown_flag, unknown_option, value_of, value_reason};
ghost use Rattle.lw_top.specs.Syntaxes.{argument_values, entry_values, syntax_values};

use crate::given::Given;
use crate::options::{Argument, Entry, Syntax, has_flag};
use crate::pages::{is_among, push_listed, push_numbers};
use crate::ranges::Range;
use std::alloc::{AllocError, Global};

/// Whether each byte is printed by ASCII.
fn are_printed(bytes: &[u8]) -> bool
    ensures { result ≡ list_all is_printed bytes.now }
{
    for byte in bytes {
        if *byte < 32 || *byte > 126 {
            return false;
        }
    }
    true
}

/// A text and, where it is shown, a word of the arguments behind it.
pub(crate) fn with_word(
    alloc: Global,
    text: &str,
    before: &str,
    word: &str,
) -> Result<String, AllocError>
    ensures { IfOk result (λ t. string_bytes t ≡ text.now ++ shown before.now word.now) }
{
    let mut told = String::from_str(alloc, text)?;
    if word.len() <= 64 && are_printed(word.as_bytes()) {
        told.push_str(before)?;
        told.push_str(word)?;
    }
    Ok(told)
}

/// A name between two texts.
pub(crate) fn around(
    alloc: Global,
    before: &str,
    name: &str,
    behind: &str,
) -> Result<String, AllocError>
    ensures { IfOk result (λ t. string_bytes t ≡ before.now ++ (name.now ++ behind.now)) }
{
    format!(in alloc; "{before}{name}{behind}")
}

/// Whether a thing that is given is the option of this name.
fn is_named(name: &str, given: &Given) -> bool
    ensures { result ≡ is_named name.now (given_values given.now) }
{
    match *given {
        Given::Named(own, _) => own == name,
        _ => false,
    }
}

/// Whether the option of this name is given.
pub(crate) fn is_given(given: &[Given], name: &str) -> bool
    ensures { result ≡ is_given (map given_values given.now) name.now }
{
    for one in given {
        if is_named(name, one) {
            return true;
        }
    }
    false
}

/// How often the option of this name is given.
fn times(given: &[Given], name: &str) -> usize
    ensures { result ≡ length (filter (is_named name.now) (map given_values given.now)) }
{
    let mut count = 0;
    for one in given {
        if is_named(name, one) {
            count += 1;
        }
    }
    count
}

/// The value of an option in one thing that is given.
fn value_of<'a>(name: &str, given: &Given<'a>) -> Option<&'a str>
    ensures { option_map (λ v. v.now) result ≡ value_of name.now (given_values given.now) }
{
    match *given {
        Given::Named(own, value) if own == name => value,
        _ => None,
    }
}

/// The first value of an option.
fn first_value<'a>(given: &[Given<'a>], name: &str) -> Option<&'a str>
    ensures { option_map (λ v. v.now) result ≡
        first_told (value_of name.now) (map given_values given.now) }
{
    for one in given {
        if let Some(value) = value_of(name, one) {
            return Some(value);
        }
    }
    None
}

/// Whether an argument is the option of this name.
fn is_option(name: &str, entry: &Entry) -> bool
    ensures { result ≡ is_option name.now (entry_values entry.now) }
{
    match entry.argument.option() {
        Some(own) => own == name,
        None => false,
    }
}

/// Whether a command has the option of this name.
fn has_option(entries: &[Entry], name: &str) -> bool
    ensures { result ≡ list_any (is_option name.now) (map entry_values entries.now) }
{
    for entry in entries {
        if is_option(name, entry) {
            return true;
        }
    }
    false
}

/// Where help can be had of a command.
fn try_help(alloc: Global, syntax: &Syntax) -> Result<String, AllocError>
    ensures { IfOk result (λ t. string_bytes t ≡ codes "try help " ++ syntax.now.command.now) }
{
    around(alloc, "try help ", syntax.command, "")
}

/// What is told of an option that the command doesn't have.
fn unknown_option(alloc: Global, syntax: &Syntax, name: &str) -> Result<String, AllocError>
    ensures { IfOk result (λ t. string_bytes t ≡
        unknown_option (syntax_values syntax.now) name.now) }
{
    if name == "help" || name == "version" {
        return try_help(alloc, syntax);
    }
    with_word(alloc, "unknown option", " --", name)
}

/// Whether a word of one letter asks for help.
pub(crate) fn is_help_flag(word: &str) -> bool
    ensures { result ≡ is_help_flag word.now }
{
    word == "-h" || word == "-V"
}

/// What is told of a word of an option of one letter.
fn unknown_flag(alloc: Global, syntax: &Syntax, word: &str) -> Result<String, AllocError>
    ensures { IfOk result (λ t. string_bytes t ≡
        unknown_flag (syntax_values syntax.now) word.now) }
{
    if is_help_flag(word) {
        return try_help(alloc, syntax);
    }
    with_word(alloc, "unknown option", " ", word)
}

/// What is told of an option without a value.
fn lacks_value(alloc: Global, name: &str, value: Option<&str>) -> Result<Option<String>, AllocError>
    ensures { IfOk result (λ r. option_map (λ t. string_bytes t) r ≡
        lacks_value name.now (option_map (λ v. v.now) value.entry)) }
{
    if value.is_some() {
        return Ok(None);
    }
    Ok(Some(around(alloc, "--", name, " needs a value")?))
}

/// What is told of a flag with a value.
fn has_value(alloc: Global, name: &str, value: Option<&str>) -> Result<Option<String>, AllocError>
    ensures { IfOk result (λ r. option_map (λ t. string_bytes t) r ≡
        has_value name.now (option_map (λ v. v.now) value.entry)) }
{
    if value.is_none() {
        return Ok(None);
    }
    Ok(Some(around(alloc, "--", name, " takes no value")?))
}

/// What is told of a thing that is given: an option that the command doesn't have, one without a value, or a flag with one.
fn given_reason(alloc: Global, syntax: &Syntax, given: &Given) -> Result<Option<String>, AllocError>
    ensures { IfOk result (λ r. option_map (λ t. string_bytes t) r ≡
        given_reason (syntax_values syntax.now) (given_values given.now)) }
{
    match *given {
        Given::Named(name, value) => {
            if has_flag(syntax.entries, name) {
                return has_value(alloc, name, value);
            }
            if has_option(syntax.entries, name) {
                return lacks_value(alloc, name, value);
            }
            Ok(Some(unknown_option(alloc, syntax, name)?))
        }
        Given::Flag(word) => Ok(Some(unknown_flag(alloc, syntax, word)?)),
        Given::Text(_) => Ok(None),
    }
}

/// What is told of the first thing that is given that anything is told of.
pub(crate) fn first_given_reason(
    alloc: Global,
    syntax: &Syntax,
    given: &[Given],
) -> Result<Option<String>, AllocError>
    ensures { IfOk result (λ r. option_map (λ t. string_bytes t) r ≡
        first_told (given_reason (syntax_values syntax.now)) (map given_values given.now)) }
{
    for one in given {
        if let Some(reason) = given_reason(alloc, syntax, one)? {
            return Ok(Some(reason));
        }
    }
    Ok(None)
}

/// Whether a number is one of the range.
fn is_in(number: u64, range: Range) -> bool
    ensures { result ≡ (nat_le range.low number && nat_le number range.high) }
{
    range.low <= number && number <= range.high
}

/// Whether a text is a whole number of the range.
pub(crate) fn is_within(text: &str, range: Range) -> bool
    ensures { result ≡ is_unsigned_in range.low range.high text.now }
{
    match text.parse::<u64>() {
        Ok(number) => is_in(number, range),
        Err(_) => false,
    }
}

/// What is told of an option whose value is out of its range.
pub(crate) fn range_text(alloc: Global, name: &str, range: Range) -> Result<String, AllocError>
    ensures { IfOk result (λ t. string_bytes t ≡
        codes "--" ++ (name.now ++ (codes " is out of range: " ++ numbers range))) }
{
    let mut text = around(alloc, "--", name, " is out of range: ")?;
    push_numbers(&mut text, range)?;
    Ok(text)
}

/// What is told of the value of an option that takes a number.
fn range_reason(
    alloc: Global,
    name: &str,
    range: Range,
    value: &str,
) -> Result<Option<String>, AllocError>
    ensures { IfOk result (λ r. option_map (λ t. string_bytes t) r ≡
        range_reason name.now range value.now) }
{
    if is_within(value, range) {
        return Ok(None);
    }
    Ok(Some(range_text(alloc, name, range)?))
}

/// What is told of an option whose value is none of some names.
fn choice_text(alloc: Global, name: &str, choices: &[&str]) -> Result<String, AllocError>
    ensures { IfOk result (λ t. string_bytes t ≡ codes "--" ++
        (name.now ++ (codes " is none of " ++ listed (map (λ n. n.now) choices.now)))) }
{
    let mut text = around(alloc, "--", name, " is none of ")?;
    push_listed(&mut text, choices)?;
    Ok(text)
}

/// What is told of the value of an option that takes one of some names.
fn choice_reason(
    alloc: Global,
    name: &str,
    choices: &[&str],
    value: &str,
) -> Result<Option<String>, AllocError>
    ensures { IfOk result (λ r. option_map (λ t. string_bytes t) r ≡
        choice_reason name.now (map (λ n. n.now) choices.now) value.now) }
{
    if is_among(value, choices) {
        return Ok(None);
    }
    Ok(Some(choice_text(alloc, name, choices)?))
}

/// What is told of the value of an option, or of its absence.
fn value_reason(
    alloc: Global,
    argument: &Argument,
    value: Option<&str>,
) -> Result<Option<String>, AllocError>
    ensures { IfOk result (λ r. option_map (λ t. string_bytes t) r ≡
        value_reason (argument_values argument.now) (option_map (λ v. v.now) value.entry)) }
{
    let Some(value) = value else {
        return match *argument {
            Argument::RequiredNumber(name, _) => {
                Ok(Some(around(alloc, "--", name, " is missing")?))
            }
            _ => Ok(None),
        };
    };
    match *argument {
        Argument::OneOf(name, choices, _) => choice_reason(alloc, name, choices, value),
        Argument::Number(name, range) => range_reason(alloc, name, range, value),
        Argument::NumberOr(name, range, _) => range_reason(alloc, name, range, value),
        Argument::RequiredNumber(name, range) => range_reason(alloc, name, range, value),
        _ => Ok(None),
    }
}

/// What is told of an argument by what is given.
fn entry_reason(alloc: Global, given: &[Given], entry: &Entry) -> Result<Option<String>, AllocError>
    ensures { IfOk result (λ r. option_map (λ t. string_bytes t) r ≡
        entry_reason (map given_values given.now) (entry_values entry.now)) }
{
    let Some(name) = entry.argument.option() else {
        return Ok(None);
    };
    if times(given, name) > 1 {
        return Ok(Some(around(alloc, "--", name, " is given twice")?));
    }
    value_reason(alloc, &entry.argument, first_value(given, name))
}

/// What is told of the first argument that anything is told of.
pub(crate) fn first_entry_reason(
    alloc: Global,
    given: &[Given],
    entries: &[Entry],
) -> Result<Option<String>, AllocError>
    ensures { IfOk result (λ r. option_map (λ t. string_bytes t) r ≡
        first_told (entry_reason (map given_values given.now)) (map entry_values entries.now)) }
{
    for entry in entries {
        if let Some(reason) = entry_reason(alloc, given, entry)? {
            return Ok(Some(reason));
        }
    }
    Ok(None)
}
