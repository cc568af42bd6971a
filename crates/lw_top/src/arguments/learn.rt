//! The arguments of `learn`.
ghost use Rattle.std.specs.Prelude.{◌≡◌, ◌≤◌, Some, None, Err, IfOk, IfSome, option_map, string_bytes};
ghost use Rattle.clap.specs.Words.{found_of, rows_of};
ghost use Rattle.lw_learn.specs.Arguments.{AreFewDrawn};
ghost use Rattle.lw_top.specs.CommandLine.{texts, app_for};
ghost use Rattle.lw_top.specs.LearnCommand.{draw_values, drawn_by, drawn_in, file_names, files_in, learn_app, learn_found, learn_syntax, learn_values, learn_values_from, setting_values, settings_by, source_from, source_in, verbose_in};
ghost use Rattle.lw_top.specs.Syntaxes.{syntax_values};
ghost use Rattle.lw_top.specs.declared.values.ArgumentStop.{ArgumentStop as Stop};

use crate::ArgumentStop;
use crate::entries::{
    EXTRA_ENTRY, JOURNAL, KEPT, LAST, LEARNER, LENGTH_ENTRY, LOG, MAX_STATES, MODEL, RANDOM_ENTRY,
    SEED_ENTRY, SETUP, SUITE, TABLE, VERBOSE, WALKS, WORDS, WORKERS_ENTRY,
};
use crate::matching::read_matches;
use crate::options::{Argument, Entry, Syntax};
use crate::ranges::{EXTRA, LENGTH, RANDOM, SEED, STATES, WORKERS};
use crate::values::{flag_at, kind_at, method_at, number_at, str_at, text_at};
use clap::ArgMatches;
use lw_chunks::Method;
use lw_draw::Drawn;
use lw_learn::{LearnArguments, LearnFiles};
use lw_rounds::{Settings, Testing};
use lw_system::{Goal, Source};
use std::alloc::{AllocError, Global};

static LEARN: Syntax = Syntax {
    command: "learn",
    about: "learns a program, or the machine of a file",
    entries: &[
        SETUP,
        TABLE,
        WORKERS_ENTRY,
        EXTRA_ENTRY,
        LEARNER,
        MAX_STATES,
        MODEL,
        Entry {
            argument: Argument::Text("answers"),
            value: "FILE",
            about: "where the recorded answers are written with the model",
        },
        Entry {
            argument: Argument::Text("prior"),
            value: "FILE",
            about: "recorded answers of an earlier call, to begin with",
        },
        KEPT,
        WORDS,
        RANDOM_ENTRY,
        WALKS,
        LENGTH_ENTRY,
        SEED_ENTRY,
        LOG,
        SUITE,
        LAST,
        JOURNAL,
        VERBOSE,
    ],
    texts: &["SETUP"],
    takes_more: false,
    in_place: &["table"],
    together: &["random", "length", "seed"],
    instead: &["walks", "length", "seed"],
    either: &["random or --walks", "length", "seed"],
};

/// The arguments that `learn` takes.
pub(crate) fn learn_syntax() -> &'static Syntax
    ensures app { app_for result.now ≡ learn_app }
    ensures values { syntax_values result.now ≡ learn_syntax }
{
    &LEARN
}

/// The file of the system and its kind, where one of the two is named.
fn source_of<'a>(setup: Option<&'a str>, table: Option<&'a str>) -> Option<(Source, &'a str)>
    ensures { option_map (λ s. (s.0, s.1.now)) result ≡ source_from
        (option_map (λ s. s.now) setup.entry) (option_map (λ s. s.now) table.entry) }
{
    match (setup, table) {
        (Some(setup), None) => Some((Source::Setup, setup)),
        (None, Some(table)) => Some((Source::Table, table)),
        _ => None,
    }
}

/// The file of the system and its kind.
pub(crate) fn source_at(
    alloc: Global,
    matches: &ArgMatches,
) -> Result<(Source, String), ArgumentStop>
    ensures ok { IfOk result (λ s. source_in (rows_of (found_of matches.now)) ≡
        Some (s.0, string_bytes s.1)) }
    ensures refused { result ≡ Err Stop.Usage → source_in (rows_of (found_of matches.now)) ≡ None }
{
    match source_of(str_at(matches, "setup"), str_at(matches, "table")) {
        Some((source, name)) => Ok((source, String::from_str(alloc, name)?)),
        None => Err(ArgumentStop::Usage),
    }
}

/// The settings of the learning with these walks, where each number is in its range, the learner is of a kind, and suites are
/// made by a method.
pub(crate) fn settings_at(
    matches: &ArgMatches,
    suite: Option<Method>,
    walks: Option<Drawn>,
) -> Option<Settings>
    ensures values { option_map setting_values result ≡
        settings_by suite (rows_of (found_of matches.now)) }
    ensures walks { IfSome result (λ s. s.testing.walks ≡ walks) }
{
    let workers = number_at(matches, "workers", WORKERS)?;
    let extra = number_at(matches, "extra", EXTRA)?;
    let kind = kind_at(matches, "learner")?;
    let max_states = number_at(matches, "max-states", STATES)?;
    let suite = suite?;
    Some(Settings {
        workers: workers as u8,
        kind,
        extra: extra as u8,
        max_states: max_states as u16,
        testing: Testing { suite, walks },
    })
}

/// What is drawn: words that are asked first, and walks behind the suites.
#[derive(Clone, Copy)]
pub(crate) struct Draws {
    pub(crate) words: Option<Drawn>,
    pub(crate) walks: Option<Drawn>,
}

/// So many words, if some are to be drawn.
fn drawn(count: Option<u64>, length: u64, seed: u64) -> Option<Drawn>
    requires { IfSome count (λ n. n ≤ 1000000) × (length ≤ 65536) }
    ensures value { result ≡ drawn_by length seed count }
    ensures few { IfSome result AreFewDrawn }
{
    let count = count?;
    Some(Drawn {
        count: count as u32,
        length: length as u32,
        seed,
    })
}

/// The words and the walks that are to be drawn: neither, or some, with how many letters are drawn for each and a seed; else the
/// arguments aren't taken.
pub(crate) fn draws_at(matches: &ArgMatches) -> Option<Draws>
    ensures value { option_map draw_values result ≡ drawn_in (rows_of (found_of matches.now)) }
    ensures few { IfSome result (λ d. IfSome d.words AreFewDrawn) }
{
    let words = number_at(matches, "random", RANDOM);
    let walks = number_at(matches, "walks", RANDOM);
    let length = number_at(matches, "length", LENGTH);
    let seed = number_at(matches, "seed", SEED);
    let is_asked = words.is_some() || walks.is_some();
    match (length, seed) {
        (Some(length), Some(seed)) if is_asked => Some(Draws {
            words: drawn(words, length, seed),
            walks: drawn(walks, length, seed),
        }),
        (None, None) if !is_asked => Some(Draws {
            words: None,
            walks: None,
        }),
        _ => None,
    }
}

/// The names of the other files.
fn files_at(alloc: Global, matches: &ArgMatches) -> Result<LearnFiles, AllocError>
    ensures { IfOk result (λ f. file_names f ≡ files_in (rows_of (found_of matches.now))) }
{
    Ok(LearnFiles {
        model: text_at(alloc, matches, "model")?,
        answers: text_at(alloc, matches, "answers")?,
        prior: text_at(alloc, matches, "prior")?,
        kept: text_at(alloc, matches, "kept")?,
        last: text_at(alloc, matches, "last")?,
        words: text_at(alloc, matches, "words")?,
        log: text_at(alloc, matches, "log")?,
        journal: text_at(alloc, matches, "journal")?,
    })
}

/// The values of what is learned, with these files, where the file of the system is named in what clap found.
pub(crate) fn values_for(
    alloc: Global,
    goal: Goal,
    matches: &ArgMatches,
    suite: Option<Method>,
    files: LearnFiles,
) -> Result<LearnArguments, ArgumentStop>
    ensures ok { IfOk result (λ a. learn_values_from goal
        (source_in (rows_of (found_of matches.now)))
        (settings_by suite (rows_of (found_of matches.now)))
        (drawn_in (rows_of (found_of matches.now))) (file_names files)
        (verbose_in (rows_of (found_of matches.now))) ≡ Some a) }
    ensures refused { result ≡ Err Stop.Usage →
        learn_values_from goal (source_in (rows_of (found_of matches.now)))
        (settings_by suite (rows_of (found_of matches.now)))
        (drawn_in (rows_of (found_of matches.now))) (file_names files)
        (verbose_in (rows_of (found_of matches.now))) ≡ None }
{
    let Some(draws) = draws_at(matches) else {
        return Err(ArgumentStop::Usage);
    };
    let Some(settings) = settings_at(matches, suite, draws.walks) else {
        return Err(ArgumentStop::Usage);
    };
    let (source, system) = source_at(alloc, matches)?;
    let verbose = flag_at(matches, "verbose");
    Ok(LearnArguments::new(goal, source, system, settings, draws.words, files, verbose))
}

/// The values that clap found, where the file of the system is named.
fn values_of(alloc: Global, matches: &ArgMatches) -> Result<LearnArguments, ArgumentStop>
    ensures ok { IfOk result (λ a. learn_found (rows_of (found_of matches.now)) ≡ Some a) }
    ensures refused { result ≡ Err Stop.Usage →
        learn_found (rows_of (found_of matches.now)) ≡ None }
{
    let files = files_at(alloc, matches)?;
    let suite = method_at(matches, "suite");
    values_for(alloc, Goal::Machine, matches, suite, files)
}

/// Reads the arguments of `learn`, of which the first is the command.
pub fn learn_arguments(alloc: Global, arguments: &[String]) -> Result<LearnArguments, ArgumentStop>
    ensures ok { IfOk result (λ a. learn_values (texts arguments.now) ≡ Some a) }
    ensures refused { result ≡ Err Stop.Usage → learn_values (texts arguments.now) ≡ None }
{
    let matches = read_matches(alloc, learn_syntax(), arguments)?;
    values_of(alloc, &matches)
}
