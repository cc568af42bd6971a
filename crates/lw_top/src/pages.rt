//! What `help` prints of one command, made from the command's data.
ghost use Rattle.std.specs.Prelude.{◌≡◌, ◌++◌, codes, IfOk, OnOk, map, string_bytes};
ghost use Rattle.std.specs.List.{flat_map, join_by, list_any};
ghost use Rattle.std.specs.Str.{bytes_eq};
ghost use Rattle.lw_top.specs.HelpTexts.{argument_line, command_line, help_text, is_free_option, is_in_place, label, listed, numbers, takes_text, usage_line, usage_word};
ghost use Rattle.lw_top.specs.Syntaxes.{argument_values, entry_values, option_name, syntax_values};

use crate::options::{Argument, Entry, Syntax};
use crate::ranges::Range;
use std::alloc::{AllocError, Global};

/// Appends names, joined by a comma.
fn push_joined(text: &mut String, names: &[&str]) -> Result<(), AllocError>
    ensures { OnOk result (string_bytes text.new ≡ string_bytes text.old ++
        join_by (λ n. n.now) (codes ", ") names.now) }
{
    let Some((first, rest)) = names.split_first() else {
        return Ok(());
    };
    text.push_str(first)?;
    for name in rest {
        text.push_str(", ")?;
        text.push_str(name)?;
    }
    Ok(())
}

/// Appends a list of names.
pub(crate) fn push_listed(text: &mut String, names: &[&str]) -> Result<(), AllocError>
    ensures { OnOk result (string_bytes text.new ≡ string_bytes text.old ++
        listed (map (λ n. n.now) names.now)) }
{
    push_joined(text, names)
}

/// Appends the least and the greatest number of a range.
pub(crate) fn push_numbers(text: &mut String, range: Range) -> Result<(), AllocError>
    ensures { OnOk result (string_bytes text.new ≡ string_bytes text.old ++ numbers range) }
{
    let Range { low, high } = range;
    write!(text, "{low} to {high}")
}

/// Appends names, and which of them is the default.
fn push_choices(text: &mut String, choices: &[&str], default: &str) -> Result<(), AllocError>
    ensures { OnOk result (string_bytes text.new ≡ string_bytes text.old ++ (codes "one of " ++
        (listed (map (λ n. n.now) choices.now) ++ (codes ", by default " ++ default.now)))) }
{
    text.push_str("one of ")?;
    push_listed(text, choices)?;
    text.push_str(", by default ")?;
    text.push_str(default)?;
    Ok(())
}

/// Appends a range, and what is so where the number is left out.
fn push_number(
    text: &mut String,
    range: Range,
    else_text: &str,
    default: &str,
) -> Result<(), AllocError>
    ensures { OnOk result (string_bytes text.new ≡ string_bytes text.old ++ (numbers range ++
        (else_text.now ++ default.now))) }
{
    push_numbers(text, range)?;
    text.push_str(else_text)?;
    text.push_str(default)
}

/// Appends what an argument takes.
fn push_takes(text: &mut String, argument: &Argument) -> Result<(), AllocError>
    ensures { OnOk result (string_bytes text.new ≡ string_bytes text.old ++
        takes_text (argument_values argument.now)) }
{
    match *argument {
        Argument::Text(_) => text.push_str("a text, or left out"),
        Argument::Optional(_) | Argument::Required(_) => text.push_str("a text"),
        Argument::Many(_) => text.push_str("texts"),
        Argument::OneOf(_, choices, default) => push_choices(text, choices, default),
        Argument::Number(_, range) => push_number(text, range, ", or left out", ""),
        Argument::NumberOr(_, range, default) => push_number(text, range, ", by default ", default),
        Argument::RequiredNumber(_, range) => push_number(text, range, ", required", ""),
        Argument::Flag(_) => text.push_str("a flag"),
    }
}

/// Appends an argument as the usage has it.
fn push_label(text: &mut String, entry: &Entry) -> Result<(), AllocError>
    ensures { OnOk result (string_bytes text.new ≡ string_bytes text.old ++
        label (entry_values entry.now)) }
{
    let Some(name) = entry.argument.option() else {
        return text.push_str(entry.value);
    };
    text.push_str("--")?;
    text.push_str(name)?;
    if entry.argument.is_flag() {
        return Ok(());
    }
    text.push_str(" ")?;
    text.push_str(entry.value)
}

/// Whether an argument is an option that may be left out.
fn is_free_option(argument: &Argument) -> bool
    ensures { result ≡ is_free_option (argument_values argument.now) }
{
    match *argument {
        Argument::Text(_) | Argument::OneOf(_, _, _) => true,
        Argument::Number(_, _) | Argument::NumberOr(_, _, _) | Argument::Flag(_) => true,
        _ => false,
    }
}

/// Whether a text is among names.
pub(crate) fn is_among(value: &str, names: &[&str]) -> bool
    ensures { result ≡ list_any (bytes_eq value.now) (map (λ n. n.now) names.now) }
{
    for name in names {
        if value == *name {
            return true;
        }
    }
    false
}

/// Whether an argument is one of the options in place of the first text.
fn is_in_place(in_place: &[&str], entry: &Entry) -> bool
    ensures { result ≡ is_in_place (map (λ n. n.now) in_place.now)
        (option_name (argument_values entry.now.argument)) }
{
    match entry.argument.option() {
        Some(name) => is_among(name, in_place),
        None => false,
    }
}

/// Appends an argument to a usage.
fn push_usage_word(text: &mut String, in_place: &[&str], entry: &Entry) -> Result<(), AllocError>
    ensures { OnOk result (string_bytes text.new ≡ string_bytes text.old ++
        usage_word (map (λ n. n.now) in_place.now) (entry_values entry.now)) }
{
    if is_in_place(in_place, entry) {
        return Ok(());
    }
    if is_free_option(&entry.argument) {
        text.push_str(" [")?;
        push_label(text, entry)?;
        return text.push_str("]");
    }
    text.push_str(" ")?;
    push_label(text, entry)
}

/// Appends each argument to a usage.
fn push_usage_words(
    text: &mut String,
    in_place: &[&str],
    entries: &[Entry],
) -> Result<(), AllocError>
    ensures { OnOk result (string_bytes text.new ≡ string_bytes text.old ++
        flat_map (usage_word (map (λ n. n.now) in_place.now)) (map entry_values entries.now)) }
{
    for entry in entries {
        push_usage_word(text, in_place, entry)?;
    }
    Ok(())
}

/// Appends the usage of a command, as a line.
fn push_usage(text: &mut String, syntax: &Syntax) -> Result<(), AllocError>
    ensures { OnOk result (string_bytes text.new ≡ string_bytes text.old ++
        usage_line (syntax_values syntax.now)) }
{
    text.push_str("usage: ")?;
    text.push_str(syntax.command)?;
    push_usage_words(text, syntax.in_place, syntax.entries)?;
    text.push_str("\n")
}

/// Appends a command, as a line.
pub(crate) fn push_command(text: &mut String, syntax: &Syntax) -> Result<(), AllocError>
    ensures { OnOk result (string_bytes text.new ≡ string_bytes text.old ++
        command_line (syntax_values syntax.now)) }
{
    text.push_str(syntax.command)?;
    text.push_str(": ")?;
    text.push_str(syntax.about)?;
    text.push_str("\n")
}

/// Appends an argument, as a line.
fn push_argument(text: &mut String, entry: &Entry) -> Result<(), AllocError>
    ensures { OnOk result (string_bytes text.new ≡ string_bytes text.old ++
        argument_line (entry_values entry.now)) }
{
    text.push_str("  ")?;
    push_label(text, entry)?;
    text.push_str(": ")?;
    push_takes(text, &entry.argument)?;
    text.push_str("; ")?;
    text.push_str(entry.about)?;
    text.push_str("\n")
}

/// Appends each argument, as a line.
fn push_arguments(text: &mut String, entries: &[Entry]) -> Result<(), AllocError>
    ensures { OnOk result (string_bytes text.new ≡ string_bytes text.old ++
        flat_map argument_line (map entry_values entries.now)) }
{
    for entry in entries {
        push_argument(text, entry)?;
    }
    Ok(())
}

/// All that is told of a command.
pub(crate) fn page(alloc: Global, syntax: &Syntax) -> Result<String, AllocError>
    ensures { IfOk result (λ text. string_bytes text ≡ help_text (syntax_values syntax.now)) }
{
    let mut text = String::new(alloc);
    push_command(&mut text, syntax)?;
    push_usage(&mut text, syntax)?;
    push_arguments(&mut text, syntax.entries)?;
    Ok(text)
}
