//! Which letter parts a block, and the word that takes the place of its root.
ghost use Rattle.std.specs.Prelude.{◌≡◌, ◌≢◌, ◌⊎◌, ℕ, ◌<◌, ◌≤◌, Contains, length, true, false, Some, IfOk, MatchOption};
ghost use Rattle.std.specs.List.{All};
ghost use Rattle.lw_words.specs.Word.{IsWord};
ghost use Rattle.lw_mealy.specs.Machine.{Rows, output};
ghost use Rattle.lw_tree.specs.Tree.{IsClosed, IsMachineOf, node_at, IsLive};
ghost use Rattle.lw_settle.specs.bodies.Parting.{AreRoots, AreLeast, AreAlike, ArePartedBy, AreAllAlike, IsParting, IsPartingOf, AreMembers, IsForkOf, IsChosen, AreWordsOf, number_at};

use lw_tree::DiscriminationTree;
use lw_words::{NoMemory, Word, Words, join};
use std::alloc::Global;

/// Two states of one class, and a letter that parts them. The first one is the least of the class.
#[derive(Clone, Copy)]
pub(crate) struct Parting {
    pub(crate) one: u16,
    pub(crate) other: u16,
    pub(crate) letter: u16,
}

/// Whether two states have different outputs at a letter, or go on to states of different classes.
fn parts(tree: &DiscriminationTree, roots: &[u32], one: u16, other: u16, letter: u16) -> bool
    requires closed { IsClosed tree.now }
    requires roots { AreRoots tree.now roots.now }
    requires one { one < length tree.now.access }
    requires other { other < length tree.now.access }
    requires letter { letter < tree.now.inputs }
    ensures parted { result ≡ true → (m : Rows) → IsMachineOf tree.now m →
        ArePartedBy roots.now m one other letter }
    ensures alike { result ≡ false → (m : Rows) → IsMachineOf tree.now m →
        AreAlike roots.now m one other letter }
{
    let (here, first) = tree.step(one, letter);
    let (there, second) = tree.step(other, letter);
    first != second || roots[usize::from(here)] != roots[usize::from(there)]
}

/// The least letter that parts two states.
fn parting_letter(tree: &DiscriminationTree, roots: &[u32], one: u16, other: u16) -> Option<u16>
    requires closed { IsClosed tree.now }
    requires roots { AreRoots tree.now roots.now }
    requires one { one < length tree.now.access }
    requires other { other < length tree.now.access }
    ensures { MatchOption result (AreAllAlike tree.now roots.now one other)
        (λ x. (x < tree.now.inputs) × ((m : Rows) → IsMachineOf tree.now m →
        ArePartedBy roots.now m one other x)) }
{
    for letter in 0..tree.inputs() {
        if parts(tree, roots, one, other, letter) {
            return Some(letter);
        }
    }
    None
}

/// The earlier one: by its block, and then by letter.
fn earlier(found: Option<Parting>, new: Parting) -> Parting
    ensures { (result ≡ new) ⊎ (found ≡ Some result) }
{
    let Some(old) = found else { return new };
    if (new.one, new.letter) < (old.one, old.letter) {
        new
    } else {
        old
    }
}

/// The first block that a letter parts, by its least state and then by letter.
pub(crate) fn find_parting(
    tree: &DiscriminationTree,
    roots: &[u32],
    least: &[u16],
) -> Option<Parting>
    requires closed { IsClosed tree.now }
    requires roots { AreRoots tree.now roots.now }
    requires least { AreLeast roots.now least.now }
    ensures { MatchOption result ((q : ℕ) → q < length tree.now.access →
        AreAllAlike tree.now roots.now (number_at least.now q) q) (IsParting tree.now roots.now) }
{
    let mut found = None;
    for state in 0..tree.states() {
        let one = least[usize::from(state)];
        if let Some(letter) = parting_letter(tree, roots, one, state) {
            found = Some(earlier(
                found,
                Parting {
                    one,
                    other: state,
                    letter,
                },
            ));
        }
    }
    found
}

/// Whether one of these states has another output at a letter than this one.
fn answers_differ(tree: &DiscriminationTree, members: &[u16], one: u16, letter: u16) -> bool
    requires closed { IsClosed tree.now }
    requires members { All (λ q. q < length tree.now.access) members.now }
    requires one { one < length tree.now.access }
    requires letter { letter < tree.now.inputs }
    ensures differ { result ≡ true → (q : ℕ) × Contains members.now q × ((m : Rows) →
        IsMachineOf tree.now m → output m one letter ≢ output m q letter) }
    ensures same { result ≡ false → (m : Rows) → IsMachineOf tree.now m →
        All (λ q. output m one letter ≡ output m q letter) members.now }
{
    let (_, output) = tree.step(one, letter);
    for member in members {
        if tree.step(*member, letter).1 != output {
            return true;
        }
    }
    false
}

/// The lowest node above the leaves of the targets of these states, of which this one is one.
fn fork_of_targets(tree: &DiscriminationTree, members: &[u16], one: u16, letter: u16) -> u32
    requires closed { IsClosed tree.now }
    requires members { All (λ q. q < length tree.now.access) members.now }
    requires one { Contains members.now one }
    requires letter { letter < tree.now.inputs }
    ensures fork { (m : Rows) → IsMachineOf tree.now m → IsForkOf tree.now m members.now letter
        result }
    ensures live { IsLive (node_at tree.now.nodes result).content }
{
    // The tree tells that it is one.
    let _ = tree.access();
    let mut fork = tree.leaf(tree.step(one, letter).0);
    for member in members {
        fork = tree.fork(fork, tree.leaf(tree.step(*member, letter).0));
    }
    fork
}

/// The letter, where two states of a block answer it differently; else the letter, followed by the discriminator of the lowest
/// node above their targets.
pub(crate) fn parting_word(
    alloc: Global,
    tree: &DiscriminationTree,
    members: &[u16],
    parting: Parting,
) -> Result<Word, NoMemory>
    requires closed { IsClosed tree.now }
    requires members { (r : ℕ) × AreMembers tree.now r members.now }
    requires parting { IsPartingOf tree.now members.now parting }
    ensures { IfOk result (λ word. (r : ℕ) → AreMembers tree.now r members.now →
        IsChosen tree.now r word) }
{
    // The tree tells that it is one.
    let _ = tree.access();
    let Parting { one, letter, .. } = parting;
    let mut word = Word::new(alloc);
    word.push(letter)?;
    if answers_differ(tree, members, one, letter) {
        return Ok(word);
    }
    let fork = fork_of_targets(tree, members, one, letter);
    word.extend(tree.discriminator(fork).as_slice())?;
    Ok(word)
}

/// The access words of these states, each followed by a word.
pub(crate) fn member_words(
    alloc: Global,
    tree: &DiscriminationTree,
    members: &[u16],
    suffix: &Word,
) -> Result<Words, NoMemory>
    requires members { All (λ q. q < length tree.now.access) members.now }
    requires suffix { IsWord tree.now.inputs suffix.now }
    ensures { IfOk result (AreWordsOf tree.now members.now suffix.now) }
{
    let mut words = Words::new(alloc);
    for member in members {
        let access = tree.access().get(usize::from(*member));
        words.push(join(access, suffix)?)?;
    }
    Ok(words)
}
