//! Whether a model is the canonical form of a machine.
ghost use Rattle.std.specs.Prelude.{◌≡◌, ◌≢◌, ◌<◌, ◌↔◌, length, true, false, IfOk};
ghost use Rattle.lw_mealy.specs.Machine.{IsWithinLimits, row};
ghost use Rattle.lw_separate.specs.Canonical.{IsCanonical};

use lw_mealy::Mealy;
use lw_separate::canonical;
use lw_words::NoMemory;
use std::alloc::Global;

/// Whether two machines have the same row at a state.
fn same_row(one: &Mealy, other: &Mealy, state: u16) -> bool
    requires alphabets { other.now.inputs ≡ one.now.inputs }
    requires complete { IsWithinLimits other.now }
    requires state { (state < length one.now.rows) × (state < length other.now.rows) }
    ensures yes { result ≡ true → row one.now.rows state ≡ row other.now.rows state }
    ensures no { result ≡ false → row one.now.rows state ≢ row other.now.rows state }
{
    for letter in 0..one.inputs() {
        if one.step(state, letter) != other.step(state, letter) {
            return false;
        }
    }
    true
}

/// Whether two machines over the same letters are one, cell by cell.
fn same_rows(one: &Mealy, other: &Mealy) -> bool
    requires alphabets { other.now.inputs ≡ one.now.inputs }
    ensures yes { result ≡ true → one.now.rows ≡ other.now.rows }
    ensures no { result ≡ false → one.now.rows ≢ other.now.rows }
{
    if one.states() != other.states() {
        return false;
    }
    for state in 0..one.states() {
        if !same_row(one, other, state) {
            return false;
        }
    }
    true
}

/// Whether a model is the canonical form of a machine.
pub(crate) fn is_canonical(alloc: Global, machine: &Mealy, model: &Mealy) -> Result<bool, NoMemory>
    requires alphabets { model.now.inputs ≡ machine.now.inputs }
    ensures { IfOk result (λ equal. (equal ≡ true) ↔
        IsCanonical machine.now.inputs machine.now.rows model.now.rows) }
{
    let form = canonical(alloc, machine)?;
    Ok(same_rows(&form, model))
}
