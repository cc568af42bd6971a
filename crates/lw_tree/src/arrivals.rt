//! The transitions by the state that they lead to, in lists over their numbers.
ghost use Rattle.std.specs.Prelude.{◌≡◌, ◌≢◌, ℕ, zero, ◌+◌, ◌*◌, ◌^◌, ◌<◌, ◌≤◌, length, IfOk, Some, None, true, false, ◌==◌, if◌then◌else◌};
ghost use Rattle.lw_links.specs.Owners.{owner_of};
ghost use Rattle.lw_tree.specs.Tree.{node_at, place_at};
ghost use Rattle.lw_tree.specs.bodies.Arrivals.{Filed, HasSplitList, HasSplitState, HasState, HasFilled, Added, IsListing, list_of_content, list_of_place};

use crate::linked::Nodes;
use crate::nodes::Content;
use crate::transitions::Place;
use lw_links::Lists;
use lw_words::NoMemory;
use std::alloc::Global;
use std::marker::Model;

/// The list of the transitions that have no target. That of those that lead to a state has the state's number, and one more.
const OPEN: u32 = 0;

/// A list of the transitions that have no target, and for each state one of those that lead to it.
#[derive(Drop)]
pub struct Arrivals {
    lists: Lists,
}

impl Model for Arrivals {
    ghost use Rattle.lw_links.specs.Owners.{ListsByOwner};

    ghost Value = { ListsByOwner };

    ghost view = { λ a. a.lists };
}

/// The list where a transition at this place belongs.
fn list_of(nodes: &Nodes, place: Place) -> u32
    requires { place.node < length nodes.now.items }
    ensures { result ≡ list_of_place (node_at nodes.now.items) place }
{
    if place.output.is_none() {
        return OPEN;
    }
    match &nodes.get(place.node).content {
        Content::State(state) => u32::from(*state) + 1,
        _ => OPEN,
    }
}

impl Arrivals {
    /// Empty lists, for this many states with a transition by each letter.
    pub(crate) fn new(alloc: Global, states: u16, letters: u16) -> Result<Arrivals, NoMemory>
        ensures owners { IfOk result (λ a. length a.lists ≡ states + 1) }
        ensures cells { IfOk result (λ a. a.cells ≡ states * letters) }
        ensures free { IfOk result (λ a. (k : ℕ) → owner_of a k ≡ None) }
    {
        let transitions = u32::from(states) * u32::from(letters);
        Ok(Arrivals {
            lists: Lists::new(alloc, u32::from(states) + 1, transitions)?,
        })
    }

    /// Adds transitions with these numbers, which have no target.
    pub(crate) fn add(&mut self, first: usize, count: usize)
        requires lists { 0 < length self.old.lists }
        requires cells { first + count ≤ self.old.cells }
        requires few { first + count < 2 ^ 32 }
        requires free { (k : ℕ) → first ≤ k → k < first + count → owner_of self.old k ≡ None }
        ensures { Added self.old self.new first (first + count) }
    {
        for number in first..first + count {
            self.lists.push(OPEN, number as u32);
        }
    }

    /// Lets a transition that had no target lead to a state.
    fn lead(&mut self, number: usize, state: u16)
        requires was { owner_of self.old number ≡ Some 0 }
        requires few { self.old.cells < 2 ^ 32 }
        requires within { number < self.old.cells }
        requires list { state + 1 < length self.old.lists }
        ensures { Filed self.old self.new number (state + 1) }
    {
        self.lists.unlink(number as u32);
        self.lists.push(u32::from(state) + 1, number as u32);
    }

    /// Puts a transition that had no target, and that stands at such a node now, into the list where it belongs.
    pub(crate) fn arrive(&mut self, number: usize, content: &Content)
        requires was { owner_of self.old number ≡ Some 0 }
        requires few { self.old.cells < 2 ^ 32 }
        requires within { number < self.old.cells }
        requires list { list_of_content content.now < length self.old.lists }
        ensures { Filed self.old self.new number (list_of_content content.now) }
    {
        let Content::State(state) = content else {
            return;
        };
        self.lead(number, *state);
    }

    /// Lets a transition that had no target lead to a new state, whose own ones, with these numbers, have none yet.
    pub(crate) fn push_state(&mut self, number: usize, state: u16, first: usize, count: usize)
        requires was { owner_of self.old number ≡ Some 0 }
        requires few { self.old.cells < 2 ^ 32 }
        requires before { number < first }
        requires cells { first + count ≤ self.old.cells }
        requires list { state + 1 < length self.old.lists }
        requires free { (k : ℕ) → first ≤ k → k < first + count → owner_of self.old k ≡ None }
        ensures { HasState self.old self.new number (state + 1) first (first + count) }
    {
        self.lead(number, state);
        self.add(first, count);
    }

    /// Takes their target from all transitions that lead to a state, but for that by which it was reached. State 0 was reached
    /// by none.
    fn split(&mut self, state: u16, edge: usize)
        requires few { self.old.cells < 2 ^ 32 }
        requires list { state + 1 < length self.old.lists }
        requires edge { 0 < state →
            (edge < self.old.cells) × (owner_of self.old edge ≡ Some (state + 1)) }
        ensures { HasSplitList self.old self.new state edge }
    {
        self.lists.move_all(u32::from(state) + 1, OPEN);
        if state > 0 {
            self.lead(edge, state);
        }
    }

    /// Lets all transitions that lead to a state have no target, but for that by which it was reached, and one that leads to a
    /// new state now, whose own ones, with these numbers, have none yet.
    pub(crate) fn push_split(
        &mut self,
        state: u16,
        edge: usize,
        number: usize,
        new: u16,
        first: usize,
        count: usize,
    )
        requires few { self.old.cells < 2 ^ 32 }
        requires list { state + 1 < length self.old.lists }
        requires edge { 0 < state →
            (edge < self.old.cells) × (owner_of self.old edge ≡ Some (state + 1)) }
        requires was { owner_of self.old number ≡ Some (state + 1) }
        requires apart { 0 < state → number ≢ edge }
        requires before { number < first }
        requires cells { first + count ≤ self.old.cells }
        requires new { new + 1 < length self.old.lists }
        requires free { (k : ℕ) → first ≤ k → k < first + count → owner_of self.old k ≡ None }
        requires inside { 0 < state → edge < first }
        ensures { HasSplitState self.old self.new state edge number (new + 1) first
            (first + count) }
    {
        self.split(state, edge);
        self.push_state(number, new, first, count);
    }

    /// Puts each transition into the list where it belongs, by its place. All lists are empty.
    pub(crate) fn fill(&mut self, nodes: &Nodes, places: &[Place])
        requires free { (k : ℕ) → owner_of self.old k ≡ None }
        requires few { self.old.cells < 2 ^ 32 }
        requires cells { length places.now ≤ self.old.cells }
        requires nodes { (k : ℕ) → k < length places.now →
            (place_at places.now k).node < length nodes.now.items }
        requires lists { (k : ℕ) → k < length places.now →
            list_of_place (node_at nodes.now.items) (place_at places.now k) <
            length self.old.lists }
        ensures { HasFilled self.old self.new (node_at nodes.now.items) places.now
            (length places.now) }
    {
        for number in 0..places.len() {
            let list = list_of(nodes, places[number]);
            self.lists.push(list, number as u32);
        }
    }

    /// Whether some transition has no target.
    pub(crate) fn has_open(&self) -> bool
        requires list { 0 < length self.now.lists }
        ensures some { result ≡ true → (k : ℕ) × (owner_of self.now k ≡ Some 0) }
        ensures none { result ≡ false → (k : ℕ) → owner_of self.now k ≡ Some 0 → ⊥ }
    {
        self.lists.has_each_once();
        self.lists.first(OPEN).is_some()
    }

    /// The transitions that have no target, by their numbers.
    pub(crate) fn open_numbers(&self, alloc: Global) -> Result<Vec<u32>, NoMemory>
        requires list { 0 < length self.now.lists }
        ensures { IfOk result (λ numbers. IsListing self.now numbers.items) }
    {
        self.lists.has_each_once();
        let mut numbers = self.lists.list(alloc, OPEN)?;
        numbers.sort_unstable();
        Ok(numbers)
    }
}
