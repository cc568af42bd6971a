//! The words that are to be known, by number.
ghost use Rattle.std.specs.Prelude.{◌≡◌, ◌<◌, ◌≤◌, ◌+◌, [], length, slice_index_or, IfOk, OnOk};
ghost use Rattle.lw_mealy.specs.Machine.{IsMinimal};
ghost use Rattle.lw_separate.specs.Canonical.{AreLeastAccess};
ghost use Rattle.lw_chunks.specs.Size.{suite_size, greatest_suite};
ghost use Rattle.lw_chunks.specs.Middle.{words_of_length};
ghost use Rattle.lw_apart.specs.bodies.Stages.{all_fronts};

use crate::fronts::Fronts;
use lw_chunks::{middle_count, spell};
use lw_mealy::Mealy;
use lw_separate::least_access;
use lw_words::{NoMemory, Word};
use std::alloc::Global;

/// The prefixes of the suite of a minimal machine, where that isn't too large, for `extra` states more.
pub(crate) fn fronts_of(alloc: Global, h: &Mealy, extra: u8) -> Result<Fronts, NoMemory>
    requires minimal { IsMinimal h.now.inputs h.now.rows }
    requires few { extra ≤ 4 }
    requires size { suite_size (length h.now.rows) h.now.inputs extra ≤ greatest_suite }
    ensures inputs { IfOk result (λ f. f.inputs ≡ h.now.inputs) }
    ensures longest { IfOk result (λ f. f.longest ≡ extra + 1) }
    ensures least { IfOk result (λ f. AreLeastAccess h.now.inputs h.now.rows f.access) }
{
    let access = least_access(alloc, h)?;
    Ok(Fronts {
        inputs: h.inputs(),
        longest: extra + 1,
        middles: middle_count(h.inputs(), extra + 1),
        access,
    })
}

/// The number of prefixes.
pub(crate) fn front_count(fronts: &Fronts) -> u64
    ensures { result ≡ length (all_fronts fronts.now) }
{
    fronts.access.len() as u64 * fronts.middles
}

/// Makes a word the prefix with this number.
pub(crate) fn spell_front(fronts: &Fronts, front: &mut Word, number: u64) -> Result<(), NoMemory>
    requires { number < length (all_fronts fronts.now) }
    ensures { OnOk result (front.new ≡ slice_index_or (all_fronts fronts.now) number []) }
{
    let access = (number / fronts.middles) as usize;
    front.clear();
    front.extend(fronts.access.get(access).as_slice())?;
    spell(
        front,
        fronts.inputs,
        fronts.longest,
        number % fronts.middles,
    )?;
    Ok(())
}

/// The number of words of the greatest length that each access word has behind it.
pub(crate) fn longest_count(fronts: &Fronts) -> u64
    ensures { result ≡ length (words_of_length fronts.now.inputs fronts.now.longest) }
{
    fronts.middles - middle_count(fronts.inputs, fronts.longest - 1)
}

/// Makes a word the one with this number among the words of the greatest length.
pub(crate) fn spell_longest(fronts: &Fronts, word: &mut Word, number: u64) -> Result<(), NoMemory>
    requires { number < length (words_of_length fronts.now.inputs fronts.now.longest) }
    ensures { OnOk result (word.new ≡
        slice_index_or (words_of_length fronts.now.inputs fronts.now.longest) number []) }
{
    let shorter = middle_count(fronts.inputs, fronts.longest - 1);
    word.clear();
    spell(word, fronts.inputs, fronts.longest, shorter + number)?;
    Ok(())
}
