//! What a pass knows. It exists in proofs alone: no value of these types is made.
use crate::shared::Entry;
use std::collections::LinkedList;

/// A pass that was joined: its number, its own entries and the history that it had seen.
pub struct Ended<A, B> {
    pub number: u32,
    pub mine: LinkedList<Entry<A, B>>,
    pub seen: LinkedList<Entry<A, B>>,
}

/// What a pass knows: its number, the core's opening, its own entries, the history that it has seen,
/// and, for pass 0, how many passes were made and which of them were joined.
pub struct View<O, A, B> {
    pub number: u32,
    pub opening: O,
    pub mine: LinkedList<Entry<A, B>>,
    pub seen: LinkedList<Entry<A, B>>,
    pub made: u32,
    pub ended: LinkedList<Ended<A, B>>,
}

/// What a pass is about: nothing, waiting with a ticket, in its turn with a ticket, or it was joined.
pub enum Stage {
    Idle,
    Waiting(u64),
    Turning(u64),
    Spent,
}

/// What a seat at the table knows.
pub struct Doing<O, A, B> {
    pub stage: Stage,
    pub view: View<O, A, B>,
}
