//! A breadth-first walk over the pairs of states of two models.
ghost use Rattle.std.specs.Prelude.{◌≡◌, ◌*◌, ◌+◌, ◌<◌, ◌≤◌, [], ◌∷◌, ◌++◌, true, false, length, slice_index_or, IfOk, OnOk, MatchOption};
ghost use Rattle.lw_compare.specs.Comparing.{Agree, IsLeastDifference};
ghost use Rattle.lw_compare.specs.bodies.Joint.{AgreeAt, IsDictionary, joint_next};
ghost use Rattle.lw_compare.specs.bodies.Walk.{AreBack, Parts, Walked, words_of};

use crate::dictionary::Dictionary;
use lw_json::Machine;
use lw_words::{NoMemory, Word};
use std::alloc::Global;

/// A step of the walk: from the pair at an earlier place, by a letter.
#[derive(Clone, Copy)]
pub struct Step {
    pub parent: usize,
    pub letter: u16,
}

/// The pairs of states that a walk has found, in the order of their least words; the step to each of them but the first; and the
/// place of each pair, where it is found.
#[derive(Drop)]
pub struct Walk {
    pub nodes: Vec<usize>,
    pub steps: Vec<Step>,
    pub places: Vec<Option<usize>>,
}

/// Where a letter leads from a pair of states, and whether both outputs have one name.
#[derive(Clone, Copy)]
struct Joint {
    target: usize,
    agrees: bool,
}

/// What both models do at a letter of the first one, from a pair of states.
fn joint_step(first: &Machine, second: &Machine, by: &Dictionary, node: usize, x: u16) -> Joint
    requires by { IsDictionary first.now second.now by.now.letters.items by.now.outputs.items }
    requires node { node < length first.now.mealy.rows * length second.now.mealy.rows }
    requires letter { x < first.now.mealy.inputs }
    ensures target { result.target ≡ joint_next first.now second.now node x }
    ensures yes { result.agrees ≡ true → AgreeAt first.now second.now node x }
    ensures no { result.agrees ≡ false → ¬ AgreeAt first.now second.now node x }
{
    let states = usize::from(second.mealy.states());
    let (p, y) = first.mealy.step((node / states) as u16, x);
    let (q, z) = second
        .mealy
        .step((node % states) as u16, by.letters[usize::from(x)]);
    Joint {
        target: usize::from(p) * states + usize::from(q),
        agrees: by.outputs[usize::from(y)] == Some(z),
    }
}

/// The walk that has found the pair of the initial states.
fn start(
    alloc: Global,
    first: &Machine,
    second: &Machine,
    by: &Dictionary,
) -> Result<Walk, NoMemory>
    requires by { IsDictionary first.now second.now by.now.letters.items by.now.outputs.items }
    ensures { IfOk result (λ walk. Walked first.now second.now walk 0 0) }
{
    let pairs = usize::from(first.mealy.states()) * usize::from(second.mealy.states());
    let mut places = vec![in alloc; None; pairs]?;
    places[0] = Some(0);
    Ok(Walk {
        nodes: vec![in alloc; 0usize]?,
        steps: Vec::new(alloc),
        places,
    })
}

/// Goes by a letter on which the pair at the place i agrees. A target that is new gets the next place.
fn reach(
    first: &Machine,
    second: &Machine,
    by: &Dictionary,
    walk: &mut Walk,
    i: usize,
    x: u16,
    target: usize,
) -> Result<(), NoMemory>
    requires by { IsDictionary first.now second.now by.now.letters.items by.now.outputs.items }
    requires walked { Walked first.now second.now walk.old i x }
    requires found { i < length walk.old.nodes.items }
    requires letter { x < first.now.mealy.inputs }
    requires agrees { AgreeAt first.now second.now (slice_index_or walk.old.nodes.items i 0) x }
    requires target { target ≡ joint_next first.now second.now
        (slice_index_or walk.old.nodes.items i 0) x }
    ensures walked { OnOk result (Walked first.now second.now walk.new i (x + 1)) }
    ensures found { OnOk result (i < length walk.new.nodes.items) }
{
    if walk.places[target].is_some() {
        return Ok(());
    }
    let place = walk.nodes.len();
    walk.steps.push(Step {
        parent: i,
        letter: x,
    })?;
    walk.nodes.push(target)?;
    walk.places[target] = Some(place);
    Ok(())
}

/// Goes by all letters from the pair at the place i, up to the first on which it doesn't agree.
fn expand(
    first: &Machine,
    second: &Machine,
    by: &Dictionary,
    walk: &mut Walk,
    i: usize,
) -> Result<Option<u16>, NoMemory>
    requires by { IsDictionary first.now second.now by.now.letters.items by.now.outputs.items }
    requires walked { Walked first.now second.now walk.old i 0 }
    requires found { i < length walk.old.nodes.items }
    ensures letter { IfOk result (λ letter. MatchOption letter
        (Walked first.now second.now walk.new (i + 1) 0)
        (Parts first.now second.now walk.new i)) }
    ensures found { OnOk result (i < length walk.new.nodes.items) }
{
    for x in 0..first.mealy.inputs() {
        let step = joint_step(first, second, by, walk.nodes[i], x);
        if !step.agrees {
            return Ok(Some(x));
        }
        reach(first, second, by, walk, i, x, step.target)?;
    }
    Ok(None)
}

/// The word of the pair at a place, and a letter behind it, read back over the steps.
fn word_to(alloc: Global, walk: &Walk, place: usize, last: u16) -> Result<Word, NoMemory>
    requires back { AreBack walk.now.steps.items }
    requires place { place ≤ length walk.now.steps.items }
    ensures { IfOk result (λ word. word ≡
        slice_index_or (words_of walk.now.steps.items) place [] ++ last ∷ []) }
{
    let mut letters = Vec::new(alloc);
    letters.push(last)?;
    let mut at = place;
    while at > 0 {
        let step = walk.steps[at - 1];
        letters.push(step.letter)?;
        at = step.parent;
    }
    letters.reverse();
    Ok(Word::from_letters(alloc, letters))
}

/// The shortlex-least word on which two models differ, and None exactly where they agree on all words. Goes breadth first over
/// the pairs of their states, each once, in the order of the first one's letters.
pub fn least_difference(
    alloc: Global,
    first: &Machine,
    second: &Machine,
    by: &Dictionary,
) -> Result<Option<Word>, NoMemory>
    requires by { IsDictionary first.now second.now by.now.letters.items by.now.outputs.items }
    ensures { IfOk result (λ word. MatchOption word (Agree first.now second.now)
        (IsLeastDifference first.now second.now)) }
{
    let mut walk = start(alloc, first, second, by)?;
    let mut i = 0;
    while i < walk.nodes.len() {
        if let Some(letter) = expand(first, second, by, &mut walk, i)? {
            let word = word_to(alloc, &walk, i, letter)?;
            return Ok(Some(word));
        }
        i += 1;
    }
    Ok(None)
}
