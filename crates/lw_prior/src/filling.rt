//! Answers, kept one after the other.
ghost use Rattle.std.specs.Prelude.{◌≡◌, [], ◌∷◌, ◌++◌, length, IfOk, OnOk};
ghost use Rattle.std.specs.List.{All};
ghost use Rattle.lw_words.specs.Word.{answers_of, IsWhole};
ghost use Rattle.lw_cache.specs.Caching.{kept_answer};
ghost use Rattle.lw_prior.specs.Prior.{HasFirstClash};

use lw_cache::{Cache, Clash, KeepStop};
use lw_words::{Kept, KeptAnswer, NoMemory};
use std::alloc::Global;

/// Answers in a cache, and the first two of them that no one machine agrees with, if there are any.
#[derive(Drop)]
pub struct Prior {
    pub cache: Cache,
    pub clash: Option<Clash>,
}

/// Keeps an answer as one of an instance, in the run of this number.
pub(crate) fn keep(
    cache: &mut Cache,
    answer: &KeptAnswer,
    instance: u32,
    run: u64,
    clash: Option<Clash>,
) -> Result<Option<Clash>, NoMemory>
    requires even { length answer.now.outs ≡ length answer.now.word }
    requires unclaimed { cache.old.claims ≡ [] }
    requires so_far { HasFirstClash (answers_of cache.old.kept) clash }
    ensures unclaimed { cache.new.claims ≡ [] }
    ensures kept { OnOk result (cache.new.kept ≡
        cache.old.kept ++ kept_answer instance run answer.now.word answer.now.outs ∷ []) }
    ensures so_far { IfOk result (HasFirstClash (answers_of cache.new.kept)) }
{
    let word = answer.word.copy()?;
    let outs = answer.outs.copy()?;
    let kept_one = cache.keep(word, outs, instance, run);
    match kept_one {
        Ok(()) => Ok(clash),
        Err(stop) => match stop {
            KeepStop::Clash(found) => Ok(clash.or(Some(found))),
            KeepStop::NoMemory => Err(NoMemory),
        },
    }
}

/// Keeps all answers in their order, those that clash too.
pub fn fill(alloc: Global, kept: &Kept) -> Result<Prior, NoMemory>
    requires { All IsWhole (answers_of kept.now.answers) }
    ensures kept { IfOk result (λ p. p.cache.kept ≡ kept.now.answers) }
    ensures claims { IfOk result (λ p. p.cache.claims ≡ []) }
    ensures clash { IfOk result (λ p. HasFirstClash (answers_of p.cache.kept) p.clash) }
{
    let mut cache = Cache::new(alloc);
    let mut clash = None;
    for number in 0..kept.len() {
        let answer = kept.get(number);
        clash = keep(&mut cache, answer, answer.instance, answer.run, clash)?;
    }
    Ok(Prior { cache, clash })
}
