//! The texts of outcomes, each of which ends in a line feed.
ghost use Rattle.std.specs.Prelude.{◌≡◌, ℕ, List, [], ◌++◌, codes, IfNone, IfOk, IfSome, OnOk, option_map, length, string_bytes};
ghost use Rattle.lw_words.specs.declared.kept.KeptAnswer.{KeptAnswer as Answer};
ghost use Rattle.lw_report.specs.Outcomes.{HasOwnText};
ghost use Rattle.lw_report.specs.Reasons.{reason_of, role_name};
ghost use Rattle.lw_report.specs.Text.{crowd_line, crowd_lines, learned_line, names_line, names_of, text_of, word_line};
ghost use Rattle.lw_words.specs.Word.{word_text};

use crate::acceptor_texts::{accepted_text, bad_acceptor_text, not_acceptor_text};
use crate::comparison::comparison_text;
use crate::reasons::reason;
use crate::system_texts::{
    bad_ask_text, bad_line_text, failed_text, gone_text, letter_text, rechecked_text,
    unstarted_text,
};
use crate::tried_text::trial_text;
use crate::verdict_texts::{clash_text, no_text, suite_text, yes_text};
use crate::{Outcome, Role};
use lw_json::JsonFault;
use lw_words::{Kept, Names, NoMemory, Words, put_word};
use std::alloc::Global;

const USAGE: &str =
    "usage: learn (SETUP | --table FILE) [--workers N] [--extra K] [--learner table|ttt] [--max-states N] [--model FILE] [--answers FILE] [--prior FILE] [--suite w|wp]
       accept (SETUP | --table FILE) [--workers N] [--extra K] [--learner table|ttt] [--max-states N] [--model FILE]
       check MODEL ANSWERS [--extra K] [--suite w|wp]
       serve MODEL
       trial --states N --inputs A --seed S [--workers N] [--learner table|ttt]
added: learn .. [--kept FILE] [--words FILE] [[--random R] [--walks N] --length L --seed S] [--log FILE] [--suite w|wp|h] [--last FILE] [--journal FILE] [--verbose]
       accept .. [--kept FILE] [--words FILE] [[--random R] [--walks N] --length L --seed S] [--log FILE] [--last FILE] [--journal FILE] [--verbose]
       check (MODEL | --acceptor FILE) ANSWERS [--extra K] [--suite w|wp|h]
       ask (SETUP | --table FILE | --accept SETUP | --acceptor FILE) WORD...
       recheck SETUP ANSWERS
       compare MODEL MODEL
       trial .. [--suite w|wp|h]
       help [COMMAND]
";

/// What is written where memory runs out. Takes no memory itself.
pub(crate) const NO_MEMORY: &str = "no memory\n";

/// The blanks between a word's letters, which have no names.
fn put_blanks(text: &mut String, word: &[u16]) -> Result<(), NoMemory>
    ensures { OnOk result (string_bytes text.new ≡ string_bytes text.old ++
        word_text [] word.now) }
{
    let Some((_, rest)) = word.split_first() else {
        return Ok(());
    };
    for _letter in rest {
        text.push_str(" ")?;
    }
    Ok(())
}

/// The names of a word's letters, joined by one blank, where a file has said the names.
pub(crate) fn put_names(
    text: &mut String,
    word: &[u16],
    names: Option<&Names>,
) -> Result<(), NoMemory>
    ensures { OnOk result (string_bytes text.new ≡ string_bytes text.old ++
        word_text (names_of (option_map (λ n. n.now) names.entry)) word.now) }
{
    match names {
        Some(names) => put_word(text, names, word),
        None => put_blanks(text, word),
    }
}

/// A word as its names, in quotes, as a line.
fn put_word_line(text: &mut String, word: &[u16], names: Option<&Names>) -> Result<(), NoMemory>
    ensures { OnOk result (string_bytes text.new ≡ string_bytes text.old ++
        word_line (names_of (option_map (λ n. n.now) names.entry)) word.now) }
{
    text.push_str("\"")?;
    put_names(text, word, names)?;
    text.push_str("\"\n")?;
    Ok(())
}

/// The line about this many pairwise apart words.
fn count_text(alloc: Global, count: usize) -> Result<String, NoMemory>
    ensures { IfOk result (λ text. string_bytes text ≡ crowd_line count) }
{
    Ok(format!(in alloc; "too many states: {count} words are pairwise apart\n")?)
}

/// Pairwise apart words, a line each, below their number.
fn crowd_text(alloc: Global, words: &Words, names: Option<&Names>) -> Result<String, NoMemory>
    ensures { IfOk result (λ text. string_bytes text ≡
        crowd_lines (names_of (option_map (λ n. n.now) names.entry)) words.now) }
{
    let count = words.len();
    let mut text = count_text(alloc, count)?;
    for word in words.as_slice() {
        put_word_line(&mut text, word.as_slice(), names)?;
    }
    Ok(text)
}

/// The line about a model that was learned.
fn learned_text(
    alloc: Global,
    states: u16,
    refinements: u32,
    extra: u8,
    answers: usize,
) -> Result<String, NoMemory>
    ensures { IfOk result (λ text. string_bytes text ≡
        learned_line states refinements extra answers) }
{
    Ok(format!(in alloc;
        "learned: states {states}, refinements {refinements}, extra {extra}, answers {answers}\n"
    )?)
}

/// The line about a file that is none of its kind.
fn bad_file_text(alloc: Global, role: Role, fault: JsonFault) -> Result<String, NoMemory>
    ensures { IfOk result (λ text. string_bytes text ≡ codes "bad file " ++ (role_name role ++
        (codes ": " ++ (reason_of fault ++ codes "\n")))) }
{
    let name = role.name();
    let reason = reason(alloc, fault)?;
    Ok(format!(in alloc; "bad file {name}: {reason}\n")?)
}

fn too_long_text(role: Role) -> &'static str
    ensures { result.now ≡ codes "file too long: " ++ (role_name role ++ codes "\n") }
{
    match role {
        Role::Setup => "file too long: setup\n",
        Role::Table => "file too long: table\n",
        Role::Model => "file too long: model\n",
        Role::Answers => "file too long: answers\n",
        Role::Prior => "file too long: prior\n",
        Role::Second => "file too long: second model\n",
        Role::Words => "file too long: words\n",
        Role::Kept => "file too long: kept\n",
        Role::Last => "file too long: last\n",
    }
}

fn file_fault_text(role: Role) -> &'static str
    ensures { result.now ≡ codes "file fault: " ++ (role_name role ++ codes "\n") }
{
    match role {
        Role::Setup => "file fault: setup\n",
        Role::Table => "file fault: table\n",
        Role::Model => "file fault: model\n",
        Role::Answers => "file fault: answers\n",
        Role::Prior => "file fault: prior\n",
        Role::Second => "file fault: second model\n",
        Role::Words => "file fault: words\n",
        Role::Kept => "file fault: kept\n",
        Role::Last => "file fault: last\n",
    }
}

/// The line about a file whose names differ from those that it goes with.
fn names_text(role: Role) -> &'static str
    ensures { result.now ≡ names_line role }
{
    match role {
        Role::Prior => "bad file prior: names differ from the setup\n",
        _ => "bad file answers: names differ from the model\n",
    }
}

/// The text of an outcome that takes no memory.
pub(crate) fn fixed_text(outcome: &Outcome) -> Option<&'static str>
    ensures none { IfNone result (HasOwnText outcome.now) }
    ensures some { IfSome result (λ text.
        (inputs outputs : List (List ℕ)) (kept : List Answer) (extra : ℕ) →
        text.now ≡ text_of inputs outputs kept extra outcome.now) }
{
    match outcome {
        Outcome::Learned { .. } | Outcome::BadFile { .. } | Outcome::TooManyStates(_) => None,
        Outcome::Trial(_) => None,
        Outcome::Yes { .. } | Outcome::No(_) => None,
        Outcome::Nondeterministic(_) | Outcome::SuiteTooLarge { .. } => None,
        Outcome::SulFailed(_) | Outcome::Gone(_) => None,
        Outcome::BadLine(_, _) | Outcome::BadAsk(_) | Outcome::Unstarted(_) => None,
        Outcome::Compared(_) | Outcome::Rechecked { .. } => None,
        Outcome::UnknownLetter { .. } | Outcome::Accepted { .. } => None,
        Outcome::BadAcceptor(_) | Outcome::NotAcceptor { .. } => None,
        Outcome::Served(_) | Outcome::Asked | Outcome::Helped => Some(""),
        Outcome::Alphabets(role) => Some(names_text(*role)),
        Outcome::Usage => Some(USAGE),
        Outcome::FileTooLong(role) => Some(too_long_text(*role)),
        Outcome::NoMemory => Some(NO_MEMORY),
        Outcome::FileFault(role) => Some(file_fault_text(*role)),
        Outcome::SourceFault => Some("source fault\n"),
        Outcome::SinkFault => Some("sink fault\n"),
    }
}

/// The text of an outcome, with the names that a file has said, if any.
pub fn outcome_text(
    alloc: Global,
    outcome: &Outcome,
    inputs: Option<&Names>,
    outputs: Option<&Names>,
    kept: &Kept,
    extra: u8,
) -> Result<String, NoMemory>
    ensures { IfOk result (λ text. string_bytes text ≡
        text_of (names_of (option_map (λ n. n.now) inputs.entry))
        (names_of (option_map (λ n. n.now) outputs.entry)) kept.now.answers extra outcome.now) }
{
    match outcome {
        Outcome::Learned { model, refinements } => {
            learned_text(alloc, model.states(), *refinements, extra, kept.len())
        }
        Outcome::Trial(tried) => trial_text(alloc, *tried),
        Outcome::BadFile { role, fault } => bad_file_text(alloc, *role, *fault),
        Outcome::TooManyStates(words) => crowd_text(alloc, words, inputs),
        Outcome::Yes { states } => yes_text(alloc, *states, extra, kept.len()),
        Outcome::No(verdict) => no_text(alloc, verdict, inputs),
        Outcome::Nondeterministic(clash) => clash_text(alloc, *clash, inputs, outputs, kept),
        Outcome::SuiteTooLarge { states, number } => suite_text(alloc, *states, extra, *number),
        Outcome::SulFailed(instance) => failed_text(alloc, *instance),
        Outcome::Gone(instance) => gone_text(alloc, *instance),
        Outcome::BadLine(instance, line) => bad_line_text(alloc, *instance, line),
        Outcome::BadAsk(number) => bad_ask_text(alloc, *number),
        Outcome::Unstarted(cause) => unstarted_text(alloc, *cause),
        Outcome::Compared(comparison) => comparison_text(alloc, comparison),
        Outcome::Rechecked { answers } => rechecked_text(alloc, *answers),
        Outcome::UnknownLetter { word, place } => letter_text(alloc, *word, *place),
        Outcome::Accepted {
            states,
            refinements,
        } => accepted_text(alloc, *states, *refinements, extra, kept.len()),
        Outcome::BadAcceptor(fault) => bad_acceptor_text(alloc, *fault),
        Outcome::NotAcceptor { state, letter } => not_acceptor_text(alloc, *state, *letter),
        _ => Ok(String::from_str(alloc, fixed_text(outcome).unwrap_or(NO_MEMORY))?),
    }
}

/// The text of an outcome, where the letters and outputs have these names, these answers are kept, and a model is sure up to
/// this many extra states.
pub fn text(
    alloc: Global,
    outcome: &Outcome,
    inputs: &Names,
    outputs: &Names,
    kept: &Kept,
    extra: u8,
) -> Result<Vec<u8>, NoMemory>
    ensures { IfOk result (λ text. text.items ≡
        text_of inputs.now outputs.now kept.now.answers extra outcome.now) }
{
    let text = outcome_text(alloc, outcome, Some(inputs), Some(outputs), kept, extra)?;
    Ok(text.into_bytes())
}
