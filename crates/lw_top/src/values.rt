//! The values of arguments that clap has read.
ghost use Rattle.std.specs.Prelude.{◌≡◌, ◌≤◌, ◌&&◌, [], Err, map, unwrap_or, Some, None, nat_le, if◌then◌else◌, option_and_then, option_map, IfOk, IfSome, string_bytes};
ghost use Rattle.clap.specs.Words.{all_of, first_of, found_of, rows_of};
ghost use Rattle.lw_top.specs.declared.values.ArgumentStop.{ArgumentStop as Stop};
ghost use Rattle.lw_top.specs.CommandLine.{flag_given, kind_named, method_named, number_given};

use crate::ranges::Range;
use clap::ArgMatches;
use lw_chunks::Method;
use lw_report::Outcome;
use lw_rounds::Kind;
use std::alloc::{AllocError, Global};

/// Why the arguments weren't taken.
#[derive(Clone, Copy, Debug, PartialEq, Eq)]
pub enum ArgumentStop {
    /// The command doesn't take them.
    Usage,
    NoMemory,
}

impl From<AllocError> for ArgumentStop {
    ghost use Rattle.std.specs.Prelude.{◌≡◌};
    ghost use Rattle.lw_top.specs.declared.values.ArgumentStop.TheVariants.{NoMemory};

    ghost from_gives = { λ _ stop. stop ≡ NoMemory };

    fn from(_: AllocError) -> ArgumentStop {
        ArgumentStop::NoMemory
    }
}

impl From<ArgumentStop> for Outcome {
    ghost use Rattle.std.specs.Prelude.{◌≡◌};
    ghost use Rattle.lw_top.specs.Run.{argument_outcome};

    ghost from_gives = { λ stop outcome. outcome ≡ argument_outcome stop };

    fn from(stop: ArgumentStop) -> Outcome {
        match stop {
            ArgumentStop::Usage => Outcome::Usage,
            ArgumentStop::NoMemory => Outcome::NoMemory,
        }
    }
}

/// The text of an argument, where it was given, as it stands in the arguments.
pub(crate) fn str_at<'a>(matches: &ArgMatches<'a>, id: &str) -> Option<&'a str>
    ensures { option_map (λ s. s.now) result ≡ first_of id.now (rows_of (found_of matches.now)) }
{
    matches.get_str(id)
}

/// The text of an argument, where it was given.
pub(crate) fn text_at(
    alloc: Global,
    matches: &ArgMatches,
    id: &str,
) -> Result<Option<String>, AllocError>
    ensures { IfOk result (λ text. option_map (λ s. string_bytes s) text ≡
        first_of id.now (rows_of (found_of matches.now))) }
{
    match str_at(matches, id) {
        Some(text) => Ok(Some(String::from_str(alloc, text)?)),
        None => Ok(None),
    }
}

/// The text of an argument that has to be there.
pub(crate) fn required_text_at(
    alloc: Global,
    matches: &ArgMatches,
    id: &str,
) -> Result<String, ArgumentStop>
    ensures ok { IfOk result (λ text. first_of id.now (rows_of (found_of matches.now)) ≡
        Some (string_bytes text)) }
    ensures refused { result ≡ Err Stop.Usage →
        first_of id.now (rows_of (found_of matches.now)) ≡ None }
{
    match str_at(matches, id) {
        Some(text) => Ok(String::from_str(alloc, text)?),
        None => Err(ArgumentStop::Usage),
    }
}

/// The same texts once more.
fn copies(alloc: Global, texts: &[&str]) -> Result<Vec<String>, AllocError>
    ensures { IfOk result (λ copies. map (λ s. string_bytes s) copies.items ≡
        map (λ t. t.now) texts.now) }
{
    let mut copies = Vec::with_capacity(alloc, texts.len())?;
    for text in texts {
        copies.push(String::from_str(alloc, text)?)?;
    }
    Ok(copies)
}

/// The texts of an argument that may be given several times.
pub(crate) fn texts_at(
    alloc: Global,
    matches: &ArgMatches,
    id: &str,
) -> Result<Vec<String>, AllocError>
    ensures { IfOk result (λ texts. map (λ s. string_bytes s) texts.items ≡
        unwrap_or (all_of id.now (rows_of (found_of matches.now))) []) }
{
    match matches.get_strs(id) {
        Some(texts) => copies(alloc, texts),
        None => Ok(Vec::new(alloc)),
    }
}

/// The number, where it is in the range.
fn within(number: Option<u64>, range: Range) -> Option<u64>
    ensures same { result ≡ option_and_then
        (λ n. if nat_le range.low n && nat_le n range.high then Some n else None) number }
    ensures bounds { IfSome result (λ n. (range.low ≤ n) × (n ≤ range.high)) }
{
    match number {
        Some(number) if range.low <= number && number <= range.high => Some(number),
        _ => None,
    }
}

/// The number of an argument, where it is in the range.
pub(crate) fn number_at(matches: &ArgMatches, id: &str, range: Range) -> Option<u64>
    ensures given { result ≡ number_given id.now range (rows_of (found_of matches.now)) }
    ensures bounds { IfSome result (λ n. (range.low ≤ n) × (n ≤ range.high)) }
{
    within(matches.get_one::<u64>(id), range)
}

/// Whether a flag is given: clap keeps a text for it, `true` or `false`.
pub(crate) fn flag_at(matches: &ArgMatches, id: &str) -> bool
    ensures { result ≡ flag_given id.now (rows_of (found_of matches.now)) }
{
    match str_at(matches, id) {
        Some(text) => text == "true",
        None => false,
    }
}

/// The kind of learner of this name.
fn kind_named(name: &str) -> Option<Kind>
    ensures { result ≡ kind_named name.now }
{
    if name == "table" {
        return Some(Kind::Table);
    }
    if name == "ttt" {
        return Some(Kind::Ttt);
    }
    None
}

/// The kind of learner that an argument names.
pub(crate) fn kind_at(matches: &ArgMatches, id: &str) -> Option<Kind>
    ensures { result ≡ option_and_then kind_named
        (first_of id.now (rows_of (found_of matches.now))) }
{
    match str_at(matches, id) {
        Some(name) => kind_named(name),
        None => None,
    }
}

/// How suites are made, by this name.
fn method_named(name: &str) -> Option<Method>
    ensures { result ≡ method_named name.now }
{
    if name == "w" {
        return Some(Method::W);
    }
    if name == "wp" {
        return Some(Method::Wp);
    }
    if name == "h" {
        return Some(Method::H);
    }
    None
}

/// How suites are made, as an argument says.
pub(crate) fn method_at(matches: &ArgMatches, id: &str) -> Option<Method>
    ensures { result ≡ option_and_then method_named
        (first_of id.now (rows_of (found_of matches.now))) }
{
    match str_at(matches, id) {
        Some(name) => method_named(name),
        None => None,
    }
}
