//! The canonical form of a machine: equal states are merged, and the states that are reached are numbered.
ghost use Rattle.std.specs.Prelude.{◌≡◌, ℕ, ◌*◌, ◌<◌, length, slice_index, IfOk, OnOk};
ghost use Rattle.lw_mealy.specs.Machine.{IsMinimal, IsWithinLimits};
ghost use Rattle.lw_separate.specs.Canonical.{IsCanonical};
ghost use Rattle.lw_separate.specs.bodies.Renaming.{Merges, Numbers, NamesPlaces, IsAllStates};

use crate::access::breadth_first;
use crate::levels::fill_levels;
use crate::rename::rename;
use lw_mealy::Mealy;
use lw_words::NoMemory;
use std::alloc::Global;

/// All states, in their order.
pub fn all_states(alloc: Global, m: &Mealy) -> Result<Vec<u16>, NoMemory>
    ensures states { IfOk result (λ states. IsAllStates m.now.rows states.items) }
    ensures complete { OnOk result (IsWithinLimits m.now) }
{
    let mut states = Vec::with_capacity(alloc, usize::from(m.states()))?;
    for q in 0..m.states() {
        states.push(q)?;
    }
    Ok(states)
}

/// The machine in which each letter leads to the state that stands for its target.
fn merged(alloc: Global, m: &Mealy) -> Result<Mealy, NoMemory>
    ensures merges { IfOk result (λ h. Merges m.now.inputs m.now.rows h.rows) }
    ensures alphabets { IfOk result (λ h. (h.inputs ≡ m.now.inputs) × (h.outputs ≡ m.now.outputs)) }
    ensures complete { IfOk result IsWithinLimits }
{
    let levels = fill_levels(alloc, m)?;
    let states = all_states(alloc, m)?;
    rename(alloc, m, states.as_slice(), levels.names.as_slice())
}

/// For each state its place, or 0 where it has none.
fn numbers(alloc: Global, places: &[Option<u16>]) -> Result<Vec<u16>, NoMemory>
    ensures long { IfOk result (λ names. length names.items ≡ length places.now) }
    ensures places { IfOk result (λ names. NamesPlaces places.now names.items) }
{
    let mut names = Vec::with_capacity(alloc, places.len())?;
    for place in places {
        names.push(place.unwrap_or(0))?;
    }
    Ok(names)
}

/// The machine with its states numbered as the search finds them: those that are reached, breadth first in letter order.
pub fn numbered(alloc: Global, h: &Mealy) -> Result<Mealy, NoMemory>
    ensures numbers { IfOk result (λ c. Numbers h.now.inputs h.now.rows c.rows) }
    ensures limits { OnOk result (IsWithinLimits h.now) }
    ensures alphabets { IfOk result (λ c. (c.inputs ≡ h.now.inputs) × (c.outputs ≡ h.now.outputs)) }
    ensures complete { IfOk result IsWithinLimits }
{
    let search = breadth_first(alloc, h)?;
    let names = numbers(alloc, search.places.as_slice())?;
    let c = rename(alloc, h, search.states.as_slice(), names.as_slice())?;
    Ok(c)
}

/// The minimal machine that equals `m` on all words, its states numbered breadth first in letter order.
/// Merges states that agree on all words (Moore 1956), then numbers them as they are found.
pub fn canonical(alloc: Global, m: &Mealy) -> Result<Mealy, NoMemory>
    ensures canonical { IfOk result (λ c. IsCanonical m.now.inputs m.now.rows c.rows) }
    ensures alphabets { IfOk result (λ c. (c.inputs ≡ m.now.inputs) × (c.outputs ≡ m.now.outputs)) }
    ensures minimal { IfOk result (λ c. IsMinimal c.inputs c.rows) }
    ensures complete { IfOk result IsWithinLimits }
{
    let h = merged(alloc, m)?;
    let c = numbered(alloc, &h)?;
    Ok(c)
}

/// The canonical form of a minimal machine: its states numbered breadth first in letter order, by one search.
pub fn renumbered(alloc: Global, m: &Mealy) -> Result<Mealy, NoMemory>
    requires minimal { IsMinimal m.now.inputs m.now.rows }
    ensures canonical { IfOk result (λ c. IsCanonical m.now.inputs m.now.rows c.rows) }
    ensures alphabets { IfOk result (λ c. (c.inputs ≡ m.now.inputs) × (c.outputs ≡ m.now.outputs)) }
    ensures minimal { IfOk result (λ c. IsMinimal c.inputs c.rows) }
    ensures complete { IfOk result IsWithinLimits }
{
    let c = numbered(alloc, m)?;
    Ok(c)
}
