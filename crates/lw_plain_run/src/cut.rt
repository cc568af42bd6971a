//! Where a counterexample is cut, and the table that it leaves.
ghost use Rattle.std.specs.Prelude.{◌≡◌, ℕ, ◌+◌, ◌<◌, ◌≤◌, List, [], ◌∷◌, ◌++◌, length, map, take, drop, IfOk, OnOk};
ghost use Rattle.std.specs.List.{All};
ghost use Rattle.lw_words.specs.Word.{IsWord};
ghost use Rattle.lw_plain.specs.Table.{agrees_on, agrees_at, halved, search_word, probe, probe_batch, with_batches, split_by};
ghost use Rattle.lw_plain.specs.Over.{IsOver};
ghost use Rattle.lw_plain_run.specs.bodies.Tables.{search_of};

use crate::rows::have_same_outputs;
use crate::table::{Table, one_word};
use lw_mealy::Mealy;
use lw_words::{NoMemory, Word, Words};
use std::alloc::Global;

/// The places of a word between which the search goes on, and those that it tried.
#[derive(Drop)]
struct Search {
    low: usize,
    high: usize,
    tried: Vec<usize>,
}

/// Whether a machine has the outputs of another one on a word.
fn agrees_on(m: &Mealy, h: &Mealy, word: &Word) -> bool
    requires letters { IsWord m.now.inputs word.now }
    requires same_letters { h.now.inputs ≡ m.now.inputs }
    ensures { result ≡ agrees_on m.now.rows h.now.rows word.now }
{
    have_same_outputs(h, h.initial(), m, m.initial(), word.as_slice())
}

/// The probe at a place.
fn probe_at(h: &Mealy, access: &Words, word: &Word, place: usize) -> Result<Word, NoMemory>
    requires access { length access.now ≡ length h.now.rows }
    requires letters { IsWord h.now.inputs word.now }
    requires place { place ≤ length word.now }
    ensures { IfOk result (λ w. w ≡ probe h.now.rows access.now word.now place) }
{
    let state = h.after(h.initial(), &word.prefix(place)?);
    let mut replaced = access.get(usize::from(state)).copy()?;
    replaced.extend(&word.as_slice()[place..])?;
    Ok(replaced)
}

/// Tries the middle.
fn halve(
    m: &Mealy,
    h: &Mealy,
    access: &Words,
    word: &Word,
    search: &mut Search,
) -> Result<(), NoMemory>
    requires access { length access.now ≡ length h.now.rows }
    requires words { All (IsWord m.now.inputs) access.now }
    requires letters { IsWord m.now.inputs word.now }
    requires same_letters { h.now.inputs ≡ m.now.inputs }
    requires wide { search.old.low + 1 < search.old.high }
    requires within { search.old.high ≤ length word.now }
    ensures halved { OnOk result (search_of search.new ≡ halved
        (agrees_at m.now.rows h.now.rows access.now word.now) (search_of search.old)) }
    ensures order { OnOk result (search.new.low < search.new.high) }
    ensures within { OnOk result (search.new.high ≤ length word.now) }
{
    let middle = search.low + (search.high - search.low) / 2;
    let asked = probe_at(h, access, word, middle)?;
    search.tried.push(middle)?;
    if agrees_on(m, h, &asked) {
        search.high = middle;
    } else {
        search.low = middle;
    }
    Ok(())
}

/// Tries places until two neighbours are left.
fn search_word(
    alloc: Global,
    m: &Mealy,
    h: &Mealy,
    access: &Words,
    word: &Word,
) -> Result<Search, NoMemory>
    requires access { length access.now ≡ length h.now.rows }
    requires words { All (IsWord m.now.inputs) access.now }
    requires letters { IsWord m.now.inputs word.now }
    requires same_letters { h.now.inputs ≡ m.now.inputs }
    requires some { 0 < length word.now }
    ensures found { IfOk result (λ search. search_of search ≡ search_word m.now.rows h.now.rows
        access.now (length word.now) word.now) }
    ensures within { IfOk result (λ search. search.low < length word.now) }
    ensures tried { IfOk result (λ search. All (λ i. i ≤ length word.now) search.tried.items) }
{
    let mut search = Search {
        low: 0,
        high: word.len(),
        tried: Vec::new(alloc),
    };
    for turn in 0..word.len() {
        if search.high - search.low < 2 {
            return Ok(search);
        }
        halve(m, h, access, word, &mut search)?;
    }
    Ok(search)
}

/// Asks the probes at some places.
fn ask_probes(
    alloc: Global,
    h: &Mealy,
    table: &mut Table,
    word: &Word,
    places: &[usize],
) -> Result<(), NoMemory>
    requires access { length table.old.access ≡ length h.now.rows }
    requires letters { IsWord h.now.inputs word.now }
    requires places { All (λ i. i ≤ length word.now) places.now }
    ensures { OnOk result (table.new ≡ with_batches table.old
        (map (probe_batch h.now.rows table.old.access word.now) places.now)) }
{
    for place in places {
        let asked = probe_at(h, table.access(), word, *place)?;
        table.add_batch(one_word(alloc, asked)?)?;
    }
    Ok(())
}

/// The letters of a word behind a place.
fn behind(alloc: Global, word: &Word, place: usize) -> Result<Word, NoMemory>
    requires { place < length word.now }
    ensures { IfOk result (λ suffix. suffix ≡ drop (place + 1) word.now) }
{
    let mut suffix = Word::new(alloc);
    suffix.extend(&word.as_slice()[place + 1..])?;
    Ok(suffix)
}

/// Searches for the cut of a word, and makes what is behind it a suffix.
pub fn split(
    alloc: Global,
    m: &Mealy,
    h: &Mealy,
    table: &mut Table,
    word: &Word,
) -> Result<(), NoMemory>
    requires over { IsOver m.now.inputs table.old }
    requires access { length table.old.access ≡ length h.now.rows }
    requires letters { IsWord m.now.inputs word.now }
    requires same_letters { h.now.inputs ≡ m.now.inputs }
    requires some { 0 < length word.now }
    ensures { OnOk result (table.new ≡ split_by m.now.inputs h.now.rows table.old word.now
        (search_word m.now.rows h.now.rows table.old.access (length word.now) word.now)) }
{
    let found = search_word(alloc, m, h, table.access(), word)?;
    ask_probes(alloc, h, table, word, found.tried.as_slice())?;
    let suffix = behind(alloc, word, found.low)?;
    table.add_suffix(alloc, m.inputs(), suffix)
}
