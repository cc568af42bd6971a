//! The first pair of states that agree on all words.
ghost use Rattle.std.specs.Prelude.{ℕ, ◌<◌, length, IfOk};
ghost use Rattle.lw_separate.specs.FirstAlike.{IsFirstAlike};
ghost use Rattle.lw_separate.specs.bodies.Alike.{IsAlikeAfter};
ghost use Rattle.lw_separate.specs.bodies.Renaming.{NamesStates};

use crate::levels::fill_levels;
use lw_mealy::Mealy;
use lw_words::NoMemory;
use std::alloc::Global;

/// The least state after p that agrees with it on all words.
fn alike_after(m: &Mealy, names: &[u16], p: u16) -> Option<u16>
    requires names { NamesStates m.now.inputs m.now.rows names.now }
    requires state { p < length m.now.rows }
    ensures { IsAlikeAfter m.now.inputs m.now.rows p result }
{
    let n = m.states();
    for q in p + 1..n {
        if names[usize::from(p)] == names[usize::from(q)] {
            return Some(q);
        }
    }
    None
}

/// The first pair of states p < q, by p, then by q, that agree on all words, and None exactly where any two differ.
/// Fills the levels, as `separating`.
pub fn first_alike(alloc: Global, m: &Mealy) -> Result<Option<(u16, u16)>, NoMemory>
    ensures { IfOk result (IsFirstAlike m.now.inputs m.now.rows) }
{
    let levels = fill_levels(alloc, m)?;
    for p in 0..m.states() {
        if let Some(q) = alike_after(m, levels.names.as_slice(), p) {
            return Ok(Some((p, q)));
        }
    }
    Ok(None)
}
