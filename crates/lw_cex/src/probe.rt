//! Probes of a counterexample: its first letters replaced by the access word of the state that they lead to.
ghost use Rattle.std.specs.Prelude.{◌≡◌, ◌<◌, ◌≤◌, length, IfOk};
ghost use Rattle.lw_words.specs.Word.{IsWord};
ghost use Rattle.lw_mealy.specs.Machine.{after};
ghost use Rattle.lw_cache.specs.Cut.{AreAccess};
ghost use Rattle.lw_plain.specs.Table.{probe};

use lw_mealy::Mealy;
use lw_words::{NoMemory, Word, Words};

#[tactic(auto, using(lw_mealy::proofs::WordLemmas::word_steps))]
/// The state to which letters lead.
pub fn state_after(model: &Mealy, letters: &[u16]) -> u16
    requires letters { IsWord model.now.inputs letters.now }
    ensures value { result ≡ after model.now.rows 0 letters.now }
    ensures state { result < length model.now.rows }
{
    let mut state = model.initial();
    for x in letters {
        state = model.step(state, *x).0;
    }
    state
}

/// The probe at a place.
pub fn probe_at(model: &Mealy, access: &Words, word: &Word, place: usize) -> Result<Word, NoMemory>
    requires access { AreAccess model.now.inputs model.now.rows access.now }
    requires letters { IsWord model.now.inputs word.now }
    requires place { place ≤ length word.now }
    ensures { IfOk result (λ w. w ≡ probe model.now.rows access.now word.now place) }
{
    let state = state_after(model, &word.as_slice()[..place]);
    let mut replaced = access.get(usize::from(state)).copy()?;
    replaced.extend(&word.as_slice()[place..])?;
    Ok(replaced)
}
