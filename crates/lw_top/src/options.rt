//! The arguments of a command as data, and as clap takes them.
ghost use Rattle.std.specs.Prelude.{◌≡◌, IfOk, false, map, option_map};
ghost use Rattle.clap.specs.Words.{app_of, rule_of};
ghost use Rattle.lw_top.specs.CommandLine.{app_for, rule_of_argument};
ghost use Rattle.lw_top.specs.Syntaxes.{argument_values, entry_values, has_flag, is_flag, is_flag_of, option_name};

use crate::ranges::Range;
use clap::builder::ValueParser;
use clap::{Arg, ArgAction, Command};
use std::alloc::{AllocError, Global};

/// An argument: its name, and what it takes.
#[derive(Clone, Copy)]
pub(crate) enum Argument {
    /// An option that takes a text.
    Text(&'static str),
    /// An option that takes one of some names, with a default.
    OneOf(&'static str, &'static [&'static str], &'static str),
    /// An option that takes a number, which may be left out.
    Number(&'static str, Range),
    /// An option that takes a number, with a default.
    NumberOr(&'static str, Range, &'static str),
    /// An option that takes a number, which has to be there.
    RequiredNumber(&'static str, Range),
    /// An option that takes no value.
    Flag(&'static str),
    /// A text without a name of an option, which has to be there.
    Required(&'static str),
    /// A text without a name of an option, which may be left out.
    Optional(&'static str),
    /// Texts without a name of an option, as many as are given.
    Many(&'static str),
}

impl Argument {
    /// The name and the range of an option that takes a number.
    pub(crate) fn number(&self) -> Option<(&'static str, Range)> {
        match *self {
            Argument::Number(name, range)
            | Argument::NumberOr(name, range, _)
            | Argument::RequiredNumber(name, range) => Some((name, range)),
            _ => None,
        }
    }

    /// The name of an option.
    pub(crate) fn option(&self) -> Option<&'static str>
        ensures { option_map (λ n. n.now) result ≡ option_name (argument_values self.now) }
    {
        match *self {
            Argument::Text(name)
            | Argument::OneOf(name, _, _)
            | Argument::Number(name, _)
            | Argument::NumberOr(name, _, _)
            | Argument::RequiredNumber(name, _)
            | Argument::Flag(name) => Some(name),
            _ => None,
        }
    }

    /// Whether it is an option that takes no value.
    pub(crate) fn is_flag(&self) -> bool
        ensures { result ≡ is_flag (argument_values self.now) }
    {
        matches!(self, Argument::Flag(_))
    }

    /// Whether it is the option of this name, which takes no value.
    fn is_flag_of(&self, name: &str) -> bool
        ensures { result ≡ is_flag_of name.now (argument_values self.now) }
    {
        match *self {
            Argument::Flag(own) => own == name,
            _ => false,
        }
    }
}

/// An argument, and what people are told of it.
#[derive(Clone, Copy)]
pub(crate) struct Entry {
    pub(crate) argument: Argument,
    /// What is in its place in the usage, or behind its name; nothing of a flag.
    pub(crate) value: &'static str,
    /// What it is for.
    pub(crate) about: &'static str,
}

/// Whether a command has the option of this name, which takes no value.
pub(crate) fn has_flag(entries: &[Entry], name: &str) -> bool
    ensures { result ≡ has_flag (map entry_values entries.now) name.now }
{
    for entry in entries {
        if entry.argument.is_flag_of(name) {
            return true;
        }
    }
    false
}

/// A command: its name, what it does, and the arguments that it takes, in their order.
pub(crate) struct Syntax {
    pub(crate) command: &'static str,
    pub(crate) about: &'static str,
    pub(crate) entries: &'static [Entry],
    /// What the texts without a name of an option are, each by the word of the usage.
    pub(crate) texts: &'static [&'static str],
    /// Whether more texts may follow.
    pub(crate) takes_more: bool,
    /// The options of which one may be in place of the first text.
    pub(crate) in_place: &'static [&'static str],
    /// The options that are given all or none.
    pub(crate) together: &'static [&'static str],
    /// The same for another first option, where that one is given.
    pub(crate) instead: &'static [&'static str],
    /// The same where neither first option is given: in place of their names what is told of them.
    pub(crate) either: &'static [&'static str],
}

/// An argument as clap takes it.
fn arg_of<'a>(alloc: Global, argument: &Argument) -> Arg<'a>
    ensures rule { rule_of result ≡ rule_of_argument argument.now }
    ensures local { result.global ≡ false }
{
    match *argument {
        Argument::Text(name) => Arg::new(alloc, name).long(name),
        Argument::OneOf(name, _, default) => Arg::new(alloc, name)
            .long(name)
            .default_value(default),
        Argument::Number(name, range) => Arg::new(alloc, name)
            .long(name)
            .value_parser(ValueParser::Unsigned(range.low, range.high)),
        Argument::NumberOr(name, range, default) => Arg::new(alloc, name)
            .long(name)
            .value_parser(ValueParser::Unsigned(range.low, range.high))
            .default_value(default),
        Argument::RequiredNumber(name, range) => Arg::new(alloc, name)
            .long(name)
            .required(true)
            .value_parser(ValueParser::Unsigned(range.low, range.high)),
        Argument::Flag(name) => Arg::new(alloc, name).long(name).action(ArgAction::SetTrue),
        Argument::Required(name) => Arg::new(alloc, name).required(true).action(ArgAction::Set),
        Argument::Optional(name) => Arg::new(alloc, name).action(ArgAction::Set),
        Argument::Many(name) => Arg::new(alloc, name).action(ArgAction::Append),
    }
}

/// A command as clap takes it.
pub(crate) fn command_of<'a>(alloc: Global, syntax: &Syntax) -> Result<Command<'a>, AllocError>
    ensures { IfOk result (λ c. app_of c ≡ app_for syntax.now) }
{
    let mut command = Command::new(alloc, syntax.command);
    for entry in syntax.entries {
        command = command.arg(arg_of(alloc, &entry.argument))?;
    }
    Ok(command)
}
