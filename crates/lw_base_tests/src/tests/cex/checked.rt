//! A call of `split` whose premises are tested first.
ghost use Rattle.std.specs.Prelude.{◌≡◌, ℕ, ◌<◌, [], ◌∷◌, ◌++◌, length};
ghost use Rattle.std.specs.Bool.{OnTrue, OnFalse};
ghost use Rattle.std.specs.List.{All};
ghost use Rattle.lw_words.specs.Word.{answer_of, answers_of, IsAnswer, IsWord};
ghost use Rattle.lw_mealy.specs.Machine.{after, answer};
ghost use Rattle.lw_cache.specs.Against.{Differs};
ghost use Rattle.lw_cache.specs.Cut.{AreAccess, StepsAreRead, word_at};
ghost use Rattle.lw_cache.specs.Known.{Reads};

use lw_cache::{Cache, Cut, Oracle};
use lw_cex::split;
use lw_mealy::Mealy;
use lw_words::{Word, Words};
use std::alloc::Global;
use std::process::Abort;

fn has_letters(rt: &impl Abort, model: &Mealy, word: &Word)
    ensures { IsWord model.now.inputs word.now }
{
    let inputs = model.inputs();
    assert!(rt;
        word.as_slice().iter().all(|x| *x < inputs),
        "no letter of the machine"
    );
}

fn have_letters(rt: &impl Abort, model: &Mealy, words: &[Word])
    ensures { All (IsWord model.now.inputs) words.now }
{
    for word in words {
        has_letters(rt, model, word);
    }
}

fn lead(rt: &impl Abort, model: &Mealy, access: &Words)
    requires words { All (IsWord model.now.inputs) access.now }
    requires count { length access.now ≡ length model.now.rows }
    ensures { (q : ℕ) → q < length model.now.rows →
        after model.now.rows 0 (word_at access.now q) ≡ q }
{
    for q in 0..model.states() {
        let end = model.after(0, access.get(usize::from(q)));
        assert!(rt; end == q, "a word doesn't lead to its state");
    }
}

fn are_access(rt: &impl Abort, model: &Mealy, access: &Words)
    ensures { AreAccess model.now.inputs model.now.rows access.now }
{
    assert!(rt;
        access.len() == usize::from(model.states()),
        "not a word for each state"
    );
    assert!(rt; access.get(0).len() == 0, "the first word isn't empty");
    have_letters(rt, model, access.as_slice());
    lead(rt, model, access);
}

/// Whether the model answers what is read of the word.
fn tells(rt: &impl Abort, cache: &Cache, model: &Mealy, word: &Word) -> bool
    requires answers { All (λ k. IsAnswer model.now.inputs (answer_of k)) cache.now.kept }
    requires letters { IsWord model.now.inputs word.now }
    ensures agrees { OnTrue result (Reads (answers_of cache.now.kept) word.now
        (answer model.now.rows word.now)) }
    ensures differs { OnFalse result (Differs model.now.rows (answers_of cache.now.kept) word.now) }
{
    let found = cache.read(word).expect(rt, "memory");
    let outs = found.expect(rt, "a known word");
    model.agrees(word, &outs).is_none()
}

fn step_is_read(rt: &impl Abort, cache: &Cache, model: &Mealy, access: &Word, letter: u16)
    requires answers { All (λ k. IsAnswer model.now.inputs (answer_of k)) cache.now.kept }
    requires letters { IsWord model.now.inputs access.now }
    requires letter { letter < model.now.inputs }
    ensures { Reads (answers_of cache.now.kept) (access.now ++ letter ∷ [])
        (answer model.now.rows (access.now ++ letter ∷ [])) }
{
    let mut word = access.copy().expect(rt, "memory");
    word.push(letter).expect(rt, "memory");
    assert!(rt;
        tells(rt, cache, model, &word),
        "the model differs on a step"
    );
}

fn steps_of_one(rt: &impl Abort, cache: &Cache, model: &Mealy, access: &Word)
    requires answers { All (λ k. IsAnswer model.now.inputs (answer_of k)) cache.now.kept }
    requires letters { IsWord model.now.inputs access.now }
    ensures { (x : ℕ) → x < model.now.inputs → Reads (answers_of cache.now.kept)
        (access.now ++ x ∷ []) (answer model.now.rows (access.now ++ x ∷ [])) }
{
    for letter in 0..model.inputs() {
        step_is_read(rt, cache, model, access, letter);
    }
}

fn steps_are_read(rt: &impl Abort, cache: &Cache, model: &Mealy, access: &Words)
    requires answers { All (λ k. IsAnswer model.now.inputs (answer_of k)) cache.now.kept }
    requires access { AreAccess model.now.inputs model.now.rows access.now }
    ensures { StepsAreRead (answers_of cache.now.kept) model.now.inputs model.now.rows access.now }
{
    for q in 0..model.states() {
        steps_of_one(rt, cache, model, access.get(usize::from(q)));
    }
}

/// Settles a batch, and splits the model by its first word then.
pub fn split_after<O: Oracle>(
    rt: &impl Abort,
    oracle: &mut O,
    alloc: Global,
    batch: &Words,
    model: &Mealy,
    access: &Words,
) -> Cut
    requires can { O.can_settle oracle.old }
{
    assert!(rt; model.inputs() == oracle.inputs() && batch.len() <= 100);
    have_letters(rt, model, batch.as_slice());
    let Ok(()) = oracle.settle(batch.as_slice()) else {
        rt.panic("the batch was refused")
    };
    are_access(rt, model, access);
    steps_are_read(rt, oracle.cache(), model, access);
    let word = batch.as_slice().first().expect(rt, "a word");
    has_letters(rt, model, word);
    assert!(rt;
        !tells(rt, oracle.cache(), model, word),
        "the model doesn't differ"
    );
    match split(oracle, alloc, model, access, word) {
        Ok(cut) => cut,
        Err(_) => rt.panic("the oracle stopped"),
    }
}
