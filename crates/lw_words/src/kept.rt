//! Recorded answers: words with their outputs, and the run that each came from.
ghost use Rattle.std.specs.Prelude.{◌≡◌, ℕ, ◌+◌, ◌<◌, ◌≤◌, List, [], ◌∷◌, ◌++◌, length, OnOk, OnErr, IfErr, IsOk, slice_get, Some};
ghost use Rattle.std.specs.List.{All};
ghost use Rattle.lw_words.specs.Renumbering.{renumbered_answers};

use crate::{NoMemory, Word};
use std::alloc::Global;
use std::marker::Model;

/// The answer of an instance to a word, in the instance's run of this number.
#[derive(Drop)]
pub struct KeptAnswer {
    pub instance: u32,
    pub run: u64,
    pub word: Word,
    pub outs: Word,
}

/// A list of recorded answers. Contracts see the answers in order, and beside them the room:
/// this many more can be put in without memory.
#[derive(Drop)]
pub struct Kept {
    answers: Vec<KeptAnswer>,
}

impl Model for Kept {
    ghost use Rattle.std.specs.Prelude.{◌-◌, vec_len, vec_capacity};
    ghost use Rattle.lw_words.specs.Keeping.{Keeping};

    ghost Value = { Keeping };

    ghost view = { λ kept. record { answers = kept.answers.items; room = vec_capacity kept.answers - vec_len kept.answers } };
}

/// Puts `to[y]` in place of each output `y`.
fn renumber(answers: &mut [KeptAnswer], to: &[u16])
    requires { All (λ k. All (λ y. y < length to.now) k.outs) answers.old }
    ensures { answers.new ≡ renumbered_answers to.now answers.old }
{
    for answer in answers.iter_mut() {
        answer.outs.renumber(to);
    }
}

impl Kept {
    /// The empty list. Takes no memory.
    pub fn new(alloc: Global) -> Self
        ensures { result.answers ≡ [] }
    {
        Kept {
            answers: Vec::new(alloc),
        }
    }

    /// Makes room for `more` answers. Where there is no memory nothing changes.
    pub fn reserve(&mut self, more: usize) -> Result<(), NoMemory>
        ensures answers { self.new.answers ≡ self.old.answers }
        ensures room { OnOk result (more ≤ self.new.room) }
        ensures kept { OnOk result (self.old.room ≤ self.new.room) }
        ensures err { OnErr result (self.new ≡ self.old) }
    {
        self.answers.reserve(more)?;
        Ok(())
    }

    /// Puts an answer last, or hands it back.
    pub fn push(&mut self, answer: KeptAnswer) -> Result<(), (KeptAnswer, NoMemory)>
        ensures ok { OnOk result (self.new.answers ≡ self.old.answers ++ answer ∷ []) }
        ensures err { OnErr result (self.new.answers ≡ self.old.answers) }
        ensures back { IfErr result (λ refusal. refusal.0 ≡ answer) }
        ensures succeeds { 1 ≤ self.old.room → IsOk result }
        ensures room { self.old.room ≤ self.new.room + 1 }
    {
        match self.answers.push(answer) {
            Ok(()) => Ok(()),
            Err(refused) => Err((refused.value, NoMemory)),
        }
    }

    /// Puts `to[y]` in place of each output `y`. Takes no memory.
    pub fn renumber(&mut self, to: &[u16])
        requires { All (λ k. All (λ y. y < length to.now) k.outs) self.old.answers }
        ensures answers { self.new.answers ≡ renumbered_answers to.now self.old.answers }
        ensures room { self.new.room ≡ self.old.room }
    {
        renumber(self.answers.as_mut_slice(), to);
    }

    /// The answers, taken out of the list. Takes no memory.
    pub fn into_answers(self) -> Vec<KeptAnswer>
        ensures { result.items ≡ self.answers }
    {
        let Kept { answers } = self;
        answers
    }

    pub fn len(&self) -> usize
        ensures { result ≡ length self.now.answers }
    {
        self.answers.len()
    }

    pub fn get(&self, i: usize) -> &KeptAnswer
        requires { i < length self.now.answers }
        ensures { slice_get self.now.answers i ≡ Some result.now }
    {
        &self.answers[i]
    }
}
