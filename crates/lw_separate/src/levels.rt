//! The classes of states by the words of at most 0, 1, 2 letters and so on (Moore 1956).
ghost use Rattle.std.specs.Prelude.{◌≡◌, ℕ, ◌<◌, [], length, map, slice_index_or};
ghost use Rattle.std.specs.Prelude.{MatchOption, IfOk, OnOk};
ghost use Rattle.std.specs.Bool.{MatchBool};
ghost use Rattle.lw_mealy.specs.Machine.{IsMachine};
ghost use Rattle.lw_separate.specs.bodies.Levelled.{LevelsOf};
ghost use Rattle.lw_separate.specs.bodies.Levels.{MeetsAt, PartsAt, NoLetter, IsFirstLetter};
ghost use Rattle.lw_separate.specs.bodies.Levels.{StayTogether, GoApart, IsLeastTogether};
ghost use Rattle.lw_separate.specs.bodies.Levels.{AreNamed, AreRefined, AreClassesOf};

use lw_mealy::Mealy;
use lw_words::NoMemory;
use std::alloc::Global;

/// The classes of states by the words of at most this many letters: each is named by its least state.
#[derive(Drop)]
pub struct Levels {
    /// By the words of at most 0, 1, 2 letters and so on, as long as one letter more splits a class.
    pub below: Vec<Vec<u16>>,
    /// By all words.
    pub names: Vec<u16>,
}

/// Whether a letter parts two states: their outputs differ on it, or it leads to two classes.
fn parts_at(m: &Mealy, classes: &[u16], p: u16, q: u16, x: u16) -> bool
    requires long { length classes.now ≡ length m.now.rows }
    requires first { p < length m.now.rows }
    requires second { q < length m.now.rows }
    requires letter { x < m.now.inputs }
    ensures { MatchBool result (PartsAt m.now.rows classes.now p q x)
        (MeetsAt m.now.rows classes.now p q x) }
{
    let (r, y) = m.step(p, x);
    let (s, z) = m.step(q, x);
    if y != z {
        return true;
    }
    classes[usize::from(r)] != classes[usize::from(s)]
}

/// The least letter that parts two states.
pub fn first_letter(m: &Mealy, classes: &[u16], p: u16, q: u16) -> Option<u16>
    requires long { length classes.now ≡ length m.now.rows }
    requires first { p < length m.now.rows }
    requires second { q < length m.now.rows }
    ensures { MatchOption result (NoLetter m.now.inputs m.now.rows classes.now p q)
        (IsFirstLetter m.now.inputs m.now.rows classes.now p q) }
{
    for x in 0..m.inputs() {
        if parts_at(m, classes, p, q, x) {
            return Some(x);
        }
    }
    None
}

/// Whether two states are of one class and no letter parts them.
fn stay_together(m: &Mealy, classes: &[u16], p: u16, q: u16) -> bool
    requires long { length classes.now ≡ length m.now.rows }
    requires first { p < length m.now.rows }
    requires second { q < length m.now.rows }
    ensures { MatchBool result (StayTogether m.now.inputs m.now.rows classes.now p q)
        (GoApart m.now.inputs m.now.rows classes.now p q) }
{
    if classes[usize::from(p)] != classes[usize::from(q)] {
        return false;
    }
    match first_letter(m, classes, p, q) {
        Some(_) => false,
        None => true,
    }
}

/// The least state of the class of q from which no letter parts it. All before its class are apart already.
fn least_together(m: &Mealy, classes: &[u16], q: u16) -> u16
    requires named { AreNamed m.now.rows classes.now }
    requires state { q < length m.now.rows }
    ensures { IsLeastTogether m.now.inputs m.now.rows classes.now q result }
{
    for p in classes[usize::from(q)]..q {
        if stay_together(m, classes, p, q) {
            return p;
        }
    }
    q
}

/// The classes by the words of one letter more.
fn refined(alloc: Global, m: &Mealy, classes: &[u16]) -> Result<Vec<u16>, NoMemory>
    requires named { AreNamed m.now.rows classes.now }
    ensures { IfOk result (λ finer. AreRefined m.now.inputs m.now.rows classes.now finer.items) }
{
    let mut finer = Vec::with_capacity(alloc, usize::from(m.states()))?;
    for q in 0..m.states() {
        finer.push(least_together(m, classes, q))?;
    }
    Ok(finer)
}

/// One class of all states, which no word of no letter separates.
fn one_level(alloc: Global, m: &Mealy) -> Result<Vec<u16>, NoMemory>
    ensures classes { IfOk result (λ cs. AreClassesOf m.now.inputs m.now.rows 0 cs.items) }
    ensures machine { OnOk result (IsMachine m.now.inputs m.now.rows) }
{
    Ok(vec![in alloc; 0u16; usize::from(m.states())]?)
}

/// The classes of states by the words of at most 0, 1, 2 letters and so on, until one letter more splits none (Moore
/// 1956). The class of a state rises, and what was passed isn't looked at again: all levels together take a step for
/// each state, level and letter, and at most one for each two states and letter.
pub fn fill_levels(alloc: Global, m: &Mealy) -> Result<Levels, NoMemory>
    ensures { IfOk result (LevelsOf m.now) }
{
    let mut below = Vec::new(alloc);
    let mut names = one_level(alloc, m)?;
    let mut finer = refined(alloc, m, names.as_slice())?;
    while names.as_slice() != finer.as_slice() {
        below.push(names)?;
        names = finer;
        finer = refined(alloc, m, names.as_slice())?;
    }
    Ok(Levels { below, names })
}

/// The classes by the words of at most this many letters.
pub fn classes_at(levels: &Levels, letters: usize) -> &[u16]
    requires { letters < length levels.now.below.items }
    ensures { result.now ≡ slice_index_or (map (λ r. r.items) levels.now.below.items) letters [] }
{
    levels.below[letters].as_slice()
}
