//! A machine that answers one word after another, and keeps the batches that it was asked.
ghost use Rattle.std.specs.Prelude.{◌≡◌, ◌^◌, ◌<◌, List, [], length, IfErr, OnOk, None, false};
ghost use Rattle.std.specs.List.{All};
ghost use Rattle.lw_words.specs.Word.{answers_of, IsWord};
ghost use Rattle.lw_cache.specs.Clash.{NothingClashes};
ghost use Rattle.lw_cache.specs.Known.{IsKnown};
ghost use Rattle.lw_cache.specs.Settling.{GainsAnswers};
ghost use Rattle.lw_cache.specs.declared.stops.AskStop.TheVariants.{NoMemory as Short};
ghost use Rattle.test_oracle.specs.Recording.{KeepsOf, HasAskedOracle};

use lw_cache::{AskStop, Cache, KeepStop, Known, Oracle};
use lw_mealy::Mealy;
use lw_words::{NoMemory, Word, Words};
use std::alloc::Global;
use std::marker::Model;

/// A machine that answers one word after another, in the order of the batch, and keeps the batches.
#[derive(Drop)]
pub struct Recording {
    mealy: Mealy,
    cache: Cache,
    stop: Option<AskStop>,
    refused: bool,
    /// The number of a batch that is refused.
    refuses: Option<usize>,
    batches: Vec<Words>,
    alloc: Global,
}

impl Model for Recording {
    ghost use Rattle.std.specs.Prelude.{◌≡◌, List, []};
    ghost use Rattle.test_oracle.specs.Recording.{RecordingState, KeepsOf};

    ghost Value = { RecordingState };

    ghost view = { λ r. record { machine = r.mealy; kept = r.cache.kept; stop = r.stop; refused = r.refused } };

    ghost invariant = { λ r. (r.cache.claims ≡ []) × KeepsOf r.mealy r.cache.kept };
}

impl Recording {
    /// The oracle of this machine, before its first batch.
    pub fn new(alloc: Global, mealy: Mealy) -> Recording
        ensures machine { result.machine ≡ mealy }
        ensures kept { result.kept ≡ [] }
        ensures stop { result.stop ≡ None }
        ensures refused { result.refused ≡ false }
    {
        Recording {
            mealy,
            cache: Cache::new(alloc),
            stop: None,
            refused: false,
            refuses: None,
            batches: Vec::new(alloc),
            alloc,
        }
    }

    /// The same, but that the batch with this number is out of memory before any of its words is answered.
    pub fn refusing(alloc: Global, mealy: Mealy, number: usize) -> Recording
        ensures machine { result.machine ≡ mealy }
        ensures kept { result.kept ≡ [] }
        ensures stop { result.stop ≡ None }
        ensures refused { result.refused ≡ false }
    {
        Recording {
            refuses: Some(number),
            ..Recording::new(alloc, mealy)
        }
    }

    /// The batches that were recorded, in their order: each that was to be settled, but for one that there was no memory to
    /// record.
    pub fn batches(&self) -> &[Words] {
        self.batches.as_slice()
    }

    /// Whether the batch with this number has just these words, in this order.
    pub fn asked(&self, number: usize, words: &[&[u16]]) -> bool {
        let Some(batch) = self.batches.as_slice().get(number) else {
            return false;
        };
        let mut each = batch.as_slice().iter().zip(words.iter());
        batch.len() == words.len() && each.all(|(w, letters)| w.as_slice() == *letters)
    }
}

/// The words of a batch.
fn copied(alloc: Global, batch: &[Word]) -> Result<Words, NoMemory> {
    let mut words = Words::new(alloc);
    for w in batch {
        let copy = w.copy()?;
        words.push(copy)?;
    }
    Ok(words)
}

/// Puts the words of a batch behind those that were asked before.
fn record(alloc: Global, batches: &mut Vec<Words>, batch: &[Word]) -> Result<(), NoMemory> {
    let words = copied(alloc, batch)?;
    batches.push(words)?;
    Ok(())
}

/// Lets the machine answer a word that isn't known. Its answers never clash, so it stops only where memory runs out.
fn answer_one(m: &Mealy, cache: &mut Cache, w: &Word) -> Result<(), AskStop>
    requires letters { IsWord m.now.inputs w.now }
    requires unclaimed { cache.old.claims ≡ [] }
    requires keeps { KeepsOf m.now cache.old.kept }
    ensures known { OnOk result (IsKnown (answers_of cache.new.kept) w.now) }
    ensures asked { HasAskedOracle m.now w.now cache.old.kept cache.new.kept }
    ensures unclashed { OnOk result (NothingClashes (answers_of cache.old.kept) →
        NothingClashes (answers_of cache.new.kept)) }
    ensures claims { cache.new.claims ≡ [] }
    ensures short { IfErr result (λ stop. stop ≡ Short) }
{
    let _ = m.inputs();
    if let Known::Yes = cache.known(w) {
        return Ok(());
    }
    let word = w.copy()?;
    let outs = m.answer(w)?;
    let run = cache.kept().len() as u64;
    match cache.keep(word, outs, 0, run) {
        Ok(()) => Ok(()),
        Err(KeepStop::Clash(clash)) => Err(AskStop::Clash(clash)),
        Err(KeepStop::NoMemory) => Err(AskStop::NoMemory),
    }
}

/// Lets the machine answer the words of a batch.
fn answer_all(m: &Mealy, cache: &mut Cache, batch: &[Word]) -> Result<(), AskStop>
    requires letters { All (IsWord m.now.inputs) batch.now }
    requires unclaimed { cache.old.claims ≡ [] }
    requires keeps { KeepsOf m.now cache.old.kept }
    ensures known { OnOk result (All (IsKnown (answers_of cache.new.kept)) batch.now) }
    ensures gains { GainsAnswers batch.now cache.old.kept cache.new.kept }
    ensures keeps { KeepsOf m.now cache.new.kept }
    ensures unclashed { OnOk result (NothingClashes (answers_of cache.old.kept) →
        NothingClashes (answers_of cache.new.kept)) }
    ensures claims { cache.new.claims ≡ [] }
    ensures short { IfErr result (λ stop. stop ≡ Short) }
{
    for w in batch {
        answer_one(m, cache, w)?;
    }
    Ok(())
}

/// Keeps a batch, and lets the machine answer its words, where it isn't the one that is refused.
fn record_and_answer(
    alloc: Global,
    m: &Mealy,
    cache: &mut Cache,
    batches: &mut Vec<Words>,
    refuses: Option<usize>,
    batch: &[Word],
) -> Result<(), AskStop>
    requires letters { All (IsWord m.now.inputs) batch.now }
    requires unclaimed { cache.old.claims ≡ [] }
    requires keeps { KeepsOf m.now cache.old.kept }
    ensures known { OnOk result (All (IsKnown (answers_of cache.new.kept)) batch.now) }
    ensures gains { GainsAnswers batch.now cache.old.kept cache.new.kept }
    ensures keeps { KeepsOf m.now cache.new.kept }
    ensures unclashed { OnOk result (NothingClashes (answers_of cache.old.kept) →
        NothingClashes (answers_of cache.new.kept)) }
    ensures claims { cache.new.claims ≡ [] }
    ensures short { IfErr result (λ stop. stop ≡ Short) }
{
    let is_refused = refuses == Some(batches.len());
    record(alloc, batches, batch)?;
    if is_refused {
        return Err(AskStop::NoMemory);
    }
    answer_all(m, cache, batch)
}

impl Oracle for Recording {
    ghost use Rattle.test_oracle.specs.Recording.{state_of};

    ghost state = { state_of };

    fn inputs(&self) -> u16 {
        self.mealy.inputs()
    }

    fn outputs(&self) -> u16 {
        self.mealy.outputs()
    }

    fn cache(&self) -> &Cache {
        &self.cache
    }

    fn settle(&mut self, batch: &[Word]) -> Result<(), AskStop> {
        let batches = &mut self.batches;
        let cache = &mut self.cache;
        match record_and_answer(self.alloc, &self.mealy, cache, batches, self.refuses, batch) {
            Ok(()) => {
                self.stop = None;
                Ok(())
            }
            Err(stop) => {
                self.stop = Some(stop.copy());
                self.refused = true;
                Err(stop)
            }
        }
    }
}
