//! The cache: what was answered, what is being asked, and the state of any word.
ghost use Rattle.std.specs.Prelude.{◌≡◌, ℕ, ◌+◌, ◌<◌, ◌≤◌, List, [], ◌∷◌, ◌++◌, length, IfOk, OnOk, OnErr, IfErr, MatchOption, IfNone, IfSome, IsOk, Err, vec_len, vec_capacity};
ghost use Rattle.std.specs.List.{All};
ghost use Rattle.lw_words.specs.Word.{answer_of, answers_of, IsWhole, IsWord};
ghost use Rattle.lw_cache.specs.Against.{DiffersFirst};
ghost use Rattle.lw_cache.specs.Caching.{Caching, kept_answer, claim_of, IsClaimOf, IsUnused, without_claim};
ghost use Rattle.lw_cache.specs.Clash.{IsClearAfter};
ghost use Rattle.lw_cache.specs.FirstClash.{ClashesFirst, SameKnown, StopsKeeping};
ghost use Rattle.lw_cache.specs.Known.{IsKnown, Reads};
ghost use Rattle.lw_cache.specs.Standing.{Stands, CountsNoted};
ghost use Rattle.lw_cache.specs.bodies.Trie.{root};
ghost use Rattle.lw_cache.specs.declared.known.Known.TheVariants as Known;

use crate::filling::{tell, tell_at};
use crate::node::{Held, NONE, Node, UNCLAIMED};
use crate::reckoning::{end_of, let_go, reclaim};
use crate::scanning::{count_live, first_difference};
use crate::trie::{find, place};
use crate::{Clash, KeepStop, Known};
use lw_mealy::Mealy;
use lw_words::{Kept, KeptAnswer, NoMemory, Word};
use std::alloc::Global;
use std::marker::Model;

/// The greatest number of nodes, and of answers.
const MOST: usize = NONE as usize;

/// Recorded answers, and claims on words that are being asked; [`Known`] says the state of a word.
/// Contracts see the answers and the claims in order, and beside them the room: this many more words, with this many
/// letters together, can be claimed and answered without memory.
///
/// A call takes time in proportion to its word, times the siblings that are passed at each letter, and where it ends a claim
/// also to the number of claims. [`Cache::nodes`] and [`Cache::against`] look at each node once; the second goes up from some
/// of them too, in all at most a step for each letter of the recorded answers.
#[derive(Drop)]
pub struct Cache {
    nodes: Vec<Node>,
    held: Vec<Held>,
    kept: Kept,
    words: usize,
    letters: usize,
    alloc: Global,
}

impl Model for Cache {
    ghost use Rattle.std.specs.Prelude.{length, vec_len, vec_capacity};
    ghost use Rattle.lw_cache.specs.Caching.{Caching};

    ghost Value = { Caching };

    ghost use Rattle.lw_cache.specs.bodies.Trie.{node_at, claims_of, IsStored};
    ghost use Rattle.lw_cache.specs.bodies.Room.{HasRoom};

    ghost view = { λ a. record { kept = a.kept.answers; claims = claims_of (node_at a.nodes.items) a.held.items; words = a.words; letters = a.letters } };

    ghost invariant = { λ a. IsStored (node_at a.nodes.items) (length a.nodes.items) a.held.items a.kept.answers × HasRoom a.words a.letters (vec_len a.nodes) (vec_capacity a.nodes) (vec_len a.held) (vec_capacity a.held) (length a.kept.answers) a.kept.room };
}

impl Cache {
    /// Nothing kept, nothing claimed, no room. Takes no memory.
    pub fn new(alloc: Global) -> Cache
        ensures kept { result.kept ≡ [] }
        ensures claims { result.claims ≡ [] }
    {
        Cache {
            nodes: Vec::new(alloc),
            held: Vec::new(alloc),
            kept: Kept::new(alloc),
            words: 0,
            letters: 0,
            alloc,
        }
    }

    /// The state of a word. Takes no memory.
    pub fn known(&self, w: &Word) -> Known
        ensures { Stands (answers_of self.now.kept) self.now.claims w.now result }
    {
        if w.len() == 0 {
            return Known::Yes;
        }
        let node = find(&self.nodes, w.as_slice());
        if node == 0 {
            return Known::No;
        }
        let found = &self.nodes[node as usize];
        if found.answer != NONE {
            return Known::Yes;
        }
        if found.claim != UNCLAIMED {
            return Known::Pending(found.claim as u32);
        }
        Known::No
    }

    /// The outputs of a word, or None where it isn't known.
    pub fn read(&self, w: &Word) -> Result<Option<Word>, NoMemory>
        ensures { IfOk result (λ found. MatchOption found
            (¬ IsKnown (answers_of self.now.kept) w.now)
            (λ outs. Reads (answers_of self.now.kept) w.now outs)) }
    {
        if w.len() == 0 {
            return Ok(Some(Word::new(self.alloc)));
        }
        let node = find(&self.nodes, w.as_slice());
        if node == 0 {
            return Ok(None);
        }
        let answer = self.nodes[node as usize].answer;
        if answer == NONE {
            return Ok(None);
        }
        let outs = self.kept.get(answer as usize).outs.prefix(w.len())?;
        Ok(Some(outs))
    }

    /// Makes room for this many words with this many letters together. Nothing else changes, also where memory runs
    /// out.
    pub fn reserve(&mut self, words: usize, letters: usize) -> Result<(), NoMemory>
        ensures kept { self.new.kept ≡ self.old.kept }
        ensures claims { self.new.claims ≡ self.old.claims }
        ensures room { OnOk result ((words ≤ self.new.words) × (letters ≤ self.new.letters)) }
        ensures more { OnOk result ((self.old.words ≤ self.new.words) ×
            (self.old.letters ≤ self.new.letters)) }
        ensures err { OnErr result (self.new ≡ self.old) }
    {
        let held = self.held.len();
        if words > MOST - (self.kept.len() + held) || letters >= MOST - self.nodes.len() {
            return Err(NoMemory);
        }
        self.kept.reserve(held + words)?;
        self.held.reserve(words)?;
        self.nodes.reserve(letters + 1)?;
        plant(&mut self.nodes);
        self.words = self.words.max(words);
        self.letters = self.letters.max(letters);
        Ok(())
    }

    /// Claims a word, which is going to be asked, with a number. Takes no memory.
    pub fn claim(&mut self, w: &Word, number: u32)
        requires unclaimed { Stands (answers_of self.old.kept) self.old.claims w.now Known.No }
        requires unused { IsUnused self.old.claims number }
        requires words { 1 ≤ self.old.words }
        requires letters { length w.now ≤ self.old.letters }
        ensures kept { self.new.kept ≡ self.old.kept }
        ensures claims { self.new.claims ≡ self.old.claims ++ claim_of number w.now ∷ [] }
        ensures words { self.new.words + 1 ≡ self.old.words }
        ensures letters { self.new.letters + length w.now ≡ self.old.letters }
    {
        let end = place(&mut self.nodes, w.as_slice());
        reclaim(&mut self.nodes, end, number as u64);
        self.held.push_reserved(Held { number, end });
        self.words -= 1;
        self.letters -= w.len();
    }

    /// Keeps the answer to a claimed word, which is no longer claimed then. Takes no memory.
    ///
    /// # Errors
    /// Exactly where the answer clashes with a clear one. It is kept all the same, and nothing more is known.
    pub fn fill(
        &mut self,
        number: u32,
        word: Word,
        outs: Word,
        instance: u32,
        run: u64,
    ) -> Result<(), Clash>
        requires pending { IsClaimOf self.old.claims number word }
        requires lengths { length outs ≡ length word }
        ensures kept { self.new.kept ≡ self.old.kept ++ kept_answer instance run word outs ∷ [] }
        ensures claims { self.new.claims ≡ without_claim number self.old.claims }
        ensures room { (self.new.words ≡ self.old.words) × (self.new.letters ≡ self.old.letters) }
        ensures ok { OnOk result (IsClearAfter (answers_of self.old.kept) (length self.old.kept)
            (answer_of (kept_answer instance run word outs))) }
        ensures err { IfErr result (ClashesFirst (answers_of self.old.kept)
            (answer_of (kept_answer instance run word outs))) }
        ensures known { OnErr result (SameKnown (answers_of self.old.kept)
            (answers_of self.new.kept)) }
    {
        let end = end_of(&self.held, number);
        let second = self.kept.len();
        let found = tell_at(&mut self.nodes, end, outs.as_slice(), second as u32);
        reclaim(&mut self.nodes, end, UNCLAIMED);
        let_go(&mut self.held, number);
        put(
            &mut self.kept,
            KeptAnswer {
                instance,
                run,
                word,
                outs,
            },
        );
        clash_of(found, second)
    }

    /// Gives a claim up. Takes no memory.
    pub fn release(&mut self, number: u32)
        requires { ¬ IsUnused self.old.claims number }
        ensures kept { self.new.kept ≡ self.old.kept }
        ensures claims { self.new.claims ≡ without_claim number self.old.claims }
        ensures room { (self.new.words ≡ self.old.words) × (self.new.letters ≡ self.old.letters) }
    {
        let end = end_of(&self.held, number);
        reclaim(&mut self.nodes, end, UNCLAIMED);
        let_go(&mut self.held, number);
    }

    /// Keeps an answer to a word that was not claimed.
    ///
    /// # Errors
    /// `Clash` exactly where the answer clashes with a clear one. It is kept all the same, and nothing more is known; room for the
    /// other answers is as it was. `NoMemory` where memory ran out; nothing changed then.
    pub fn keep(&mut self, word: Word, outs: Word, instance: u32, run: u64) -> Result<(), KeepStop>
        requires lengths { length outs ≡ length word }
        requires unclaimed { self.old.claims ≡ [] }
        ensures ok { OnOk result (IsClearAfter (answers_of self.old.kept) (length self.old.kept)
            (answer_of (kept_answer instance run word outs))) }
        ensures kept { OnOk result (self.new.kept ≡
            self.old.kept ++ kept_answer instance run word outs ∷ []) }
        ensures err { IfErr result (StopsKeeping self.old self.new
            (kept_answer instance run word outs)) }
        ensures claims { self.new.claims ≡ [] }
        ensures room { (self.old.words ≤ self.new.words + 1) ×
            (self.old.letters ≤ self.new.letters + length word) }
    {
        if self.reserve(1, word.len()).is_err() {
            return Err(KeepStop::NoMemory);
        }
        match self.keep_reserved(word, outs, instance, run) {
            Ok(()) => Ok(()),
            Err(clash) => Err(KeepStop::Clash(clash)),
        }
    }

    /// Keeps an answer for which there is room.
    fn keep_reserved(
        &mut self,
        word: Word,
        outs: Word,
        instance: u32,
        run: u64,
    ) -> Result<(), Clash>
        requires lengths { length outs ≡ length word }
        requires words { 1 ≤ self.old.words }
        requires letters { length word ≤ self.old.letters }
        ensures kept { self.new.kept ≡ self.old.kept ++ kept_answer instance run word outs ∷ [] }
        ensures claims { self.new.claims ≡ self.old.claims }
        ensures words { self.new.words + 1 ≡ self.old.words }
        ensures letters { self.new.letters + length word ≡ self.old.letters }
        ensures ok { OnOk result (IsClearAfter (answers_of self.old.kept) (length self.old.kept)
            (answer_of (kept_answer instance run word outs))) }
        ensures err { IfErr result (ClashesFirst (answers_of self.old.kept)
            (answer_of (kept_answer instance run word outs))) }
        ensures known { OnErr result (SameKnown (answers_of self.old.kept)
            (answers_of self.new.kept)) }
    {
        let number = self.kept.len();
        let found = tell(
            &mut self.nodes,
            word.as_slice(),
            outs.as_slice(),
            number as u32,
        );
        self.words -= 1;
        self.letters -= word.len();
        put(
            &mut self.kept,
            KeptAnswer {
                instance,
                run,
                word,
                outs,
            },
        );
        clash_of(found, number)
    }

    /// The recorded answers.
    pub fn kept(&self) -> &Kept
        ensures value { result.now.answers ≡ self.now.kept }
        ensures whole { All IsWhole (answers_of self.now.kept) }
    {
        &self.kept
    }

    /// The recorded answers, taken out of the cache. Takes no memory.
    pub fn into_kept(self) -> Kept
        ensures { result.answers ≡ self.kept }
    {
        let Cache {
            nodes: _,
            held: _,
            kept,
            words: _,
            letters: _,
            alloc: _,
        } = self;
        kept
    }

    /// How many different words, the empty one aside, are known or begin a claimed word. Looks at each node that was ever
    /// made. Takes no memory.
    pub fn nodes(&self) -> usize
        ensures { CountsNoted (answers_of self.now.kept) self.now.claims result }
    {
        count_live(&self.nodes)
    }

    /// The first known word in shortlex order on which the machine's answer isn't what is read, or None where there is
    /// none. Looks at each node once.
    pub fn against(&self, m: &Mealy) -> Result<Option<Word>, NoMemory>
        requires { All (λ k. IsWord m.now.inputs k.word) (answers_of self.now.kept) }
        ensures { IfOk result (DiffersFirst m.now.rows (answers_of self.now.kept)) }
    {
        first_difference(self.alloc, &self.nodes, m)
    }
}

/// Puts the root into nodes that have none yet.
fn plant(nodes: &mut Vec<Node>)
    requires room { vec_len nodes.old < vec_capacity nodes.old }
    ensures first { nodes.old.items ≡ [] → nodes.new.items ≡ root ∷ [] }
    ensures later { 0 < length nodes.old.items → nodes.new.items ≡ nodes.old.items }
    ensures some { 0 < vec_len nodes.new }
    ensures len { vec_len nodes.new ≤ vec_len nodes.old + 1 }
    ensures capacity { vec_capacity nodes.new ≡ vec_capacity nodes.old }
{
    if nodes.is_empty() {
        nodes.push_reserved(Node::ROOT);
    }
}

/// Puts an answer last, for which there is room.
fn put(kept: &mut Kept, answer: KeptAnswer)
    requires { 1 ≤ kept.old.room }
    ensures answers { kept.new.answers ≡ kept.old.answers ++ answer ∷ [] }
    ensures room { kept.old.room ≤ kept.new.room + 1 }
{
    let pushed = kept.push(answer);
    let Ok(()) = pushed else {
        unreachable!();
    };
}

/// The clash of a new answer with what was found.
fn clash_of(found: Option<(u32, usize)>, second: usize) -> Result<(), Clash>
    ensures none { IfNone found (IsOk result) }
    ensures some { IfSome found (λ f.
        result ≡ Err (record { first = f.0; second = second; place = f.1 })) }
{
    match found {
        None => Ok(()),
        Some((first, place)) => Err(Clash {
            first: first as usize,
            second,
            place,
        }),
    }
}
