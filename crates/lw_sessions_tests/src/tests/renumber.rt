//! What no clause says: that the calls succeed. The new outputs are worked by hand.
mod names;

ghost use Rattle.std.specs.Prelude.{◌≤◌, ◌<◌};
ghost use Rattle.std.specs.List.{All};
ghost use Rattle.lw_mealy.specs.Machine.{AnswersBelow};

use crate::tests::are_below;
use crate::tests::renumber::names::{falling, turning};
use lw_cache::AskStop;
use lw_mealy::Mealy;
use lw_names::OutNames;
use lw_renumber::sort_outputs;
use lw_rounds::{LearnStop, Learned, Learner};
use lw_table::ObservationTable;
use lw_words::{Kept, KeptAnswer, Word};
use std::alloc::Global;
use std::process::Abort;

/// What was learned of a machine with so many outputs over one letter.
fn of_one_letter(rt: &impl Abort, alloc: Global, outputs: u16, cells: &[(u16, u16)]) -> Learned
    requires { (1 ≤ outputs) × (outputs ≤ 4096) }
    ensures { AnswersBelow outputs result.model.rows }
{
    let mut rows = Vec::new(alloc);
    for cell in cells {
        let row = Vec::from_slice(alloc, &[*cell]).expect(rt, "memory");
        rows.push(row).expect(rt, "memory");
    }
    let model = Mealy::new(alloc, 1, outputs, rows).expect(rt, "a machine");
    let table = ObservationTable::new(alloc, 1, outputs, 4).expect(rt, "memory");
    Learned {
        model,
        learner: Learner::Table(table),
    }
}

/// Whether a machine over one letter has these outputs, by state.
fn has_outputs(model: &Mealy, outputs: &[u16]) -> bool {
    if model.inputs() != 1 || usize::from(model.states()) != outputs.len() {
        return false;
    }
    for state in 0..model.states() {
        if model.step(state, 0).1 != outputs[usize::from(state)] {
            return false;
        }
    }
    true
}

/// What was learned, where a model was.
fn found(rt: &impl Abort, learned: Result<Learned, LearnStop>) -> Learned {
    match learned {
        Ok(found) => found,
        Err(_) => rt.panic("no model"),
    }
}

/// A ring of three states by its new numbers, after the sort of names that came as `b`, `c`, `a`.
fn sorted_ring(rt: &impl Abort, alloc: Global) -> Learned {
    let mut names = turning(rt, alloc);
    assert!(rt; names.is_free() && names.len() == 3);
    let mut learned = Ok(of_one_letter(rt, alloc, 3, &[(1, 0), (2, 1), (0, 2)]));
    let mut to = [9; 3];
    sort_outputs(&mut names, &mut to, &mut learned, &mut Kept::new(alloc));
    assert!(rt; to == [1, 2, 0]);
    found(rt, learned)
}

/// A ring of three states, by a list that isn't its own inverse.
#[test]
fn a_ring_is_renumbered(rt: HostRuntime) {
    let found = sorted_ring(&rt, rt.alloc());
    assert!(rt; has_outputs(&found.model, &[1, 2, 0]));
    assert!(rt; found.refinements() == 0);
}

#[test]
fn a_stop_stays(rt: HostRuntime) {
    let mut names = OutNames::free(rt.alloc()).expect(&rt, "memory");
    let mut kept = Kept::new(rt.alloc());
    let mut learned = Err(LearnStop::Ask(AskStop::NoMemory));
    sort_outputs(&mut names, &mut [], &mut learned, &mut kept);
    assert!(rt; matches!(&learned, Err(LearnStop::Ask(AskStop::NoMemory))));
    assert!(rt; names.len() == 0);
    assert!(rt; kept.len() == 0);
}

/// One recorded answer with these outputs, each below a bound.
fn kept_with(rt: &impl Abort, alloc: Global, outs: &[u16], bound: u16) -> Kept
    ensures { All (λ k. All (λ y. y < bound) k.outs) result.answers }
{
    assert!(rt; are_below(outs, bound));
    let letters = vec![in alloc; 0; outs.len()].expect(rt, "memory");
    let outs = Vec::from_slice(alloc, outs).expect(rt, "memory");
    let answer = KeptAnswer {
        instance: 0,
        run: 0,
        word: Word::from_letters(alloc, letters),
        outs: Word::from_letters(alloc, outs),
    };
    let mut kept = Kept::new(alloc);
    assert!(rt; kept.push(answer).is_ok());
    kept
}

/// Whether the one recorded answer has these outputs.
fn has_kept(kept: &Kept, outs: &[u16]) -> bool {
    kept.len() == 1 && kept.get(0).outs.as_slice() == outs
}

/// Whether these are the two names.
fn are_named(names: &OutNames, first: &str, second: &str) -> bool {
    names.len() == 2
        && names.name(0).as_slice() == first.as_bytes()
        && names.name(1).as_slice() == second.as_bytes()
}

/// Names that came as `z`, `a`, what was learned of two outputs, and one recorded answer, after the sort.
fn sorted(rt: &impl Abort, alloc: Global) -> (OutNames, Learned, Kept) {
    let mut names = falling(rt, alloc);
    assert!(rt; names.is_free() && names.len() == 2);
    let mut learned = Ok(of_one_letter(rt, alloc, 2, &[(1, 0), (0, 1)]));
    let mut kept = kept_with(rt, alloc, &[0, 1, 1], 2);
    sort_outputs(&mut names, &mut [9; 2], &mut learned, &mut kept);
    (names, found(rt, learned), kept)
}

#[test]
fn falling_names_are_sorted(rt: HostRuntime) {
    let (names, learned, kept) = sorted(&rt, rt.alloc());
    assert!(rt; are_named(&names, "a", "z"));
    assert!(rt; has_outputs(&learned.model, &[1, 0]));
    assert!(rt; learned.model.outputs() == 2);
    assert!(rt; has_kept(&kept, &[1, 0, 0]));
}
