//! Drawn machines: trees that are split until their machines give all that is known.
ghost use Rattle.test_tree.specs.Trials.{IsReady};

use super::{NEVER, of_two_letters};
use crate::tests::cache::draw;
use lw_cache::Oracle;
use lw_mealy::Mealy;
use lw_tree::DiscriminationTree;
use rand_core::SeedableRng;
use rand_pcg::Lcg128Xsl64;
use std::alloc::Global;
use std::process::Abort;
use test_tree::{ask, closed, split_by_known};

/// A drawn machine of seven states over two letters.
fn machine(rt: &impl Abort, alloc: Global, numbers: &mut Lcg128Xsl64) -> Mealy {
    let mut cells = [[(0u16, 0u16); 2]; 7];
    for row in cells.iter_mut() {
        for cell in row.iter_mut() {
            let target = draw(numbers, 7) as u16;
            *cell = (target, draw(numbers, 2) as u16);
        }
    }
    of_two_letters(rt, alloc, 2, &cells)
}

/// Asks a drawn word of twelve letters.
fn ask_drawn<O: Oracle>(
    rt: &impl Abort,
    alloc: Global,
    oracle: &mut O,
    tree: &DiscriminationTree,
    numbers: &mut Lcg128Xsl64,
)
    requires can { O.can_settle oracle.old }
    requires ready { IsReady (O.state oracle.old) tree.now }
    ensures ready { IsReady (O.state oracle.new) tree.now }
    ensures can { O.can_settle oracle.new }
{
    let mut letters = [0u16; 12];
    for letter in letters.iter_mut() {
        *letter = draw(numbers, 2) as u16;
    }
    assert!(rt; ask(alloc, oracle, tree, &letters));
}

/// Splits until the machine agrees with all that is known, so many times at most.
fn split_all<O: Oracle>(
    rt: &impl Abort,
    alloc: Global,
    oracle: &mut O,
    tree: &mut DiscriminationTree,
    most: usize,
) -> bool
    requires can { O.can_settle oracle.old }
    requires ready { IsReady (O.state oracle.old) tree.old }
    ensures ready { IsReady (O.state oracle.new) tree.new }
    ensures can { O.can_settle oracle.new }
{
    for _ in 0..most {
        match split_by_known(alloc, oracle, tree) {
            Ok(true) => {}
            Ok(false) => return true,
            Err(_) => rt.panic("a split is refused"),
        }
    }
    false
}

/// Asks drawn words of a drawn machine, and splits after each until its tree agrees with all of them: how many states
/// there are then.
fn learn(rt: &impl Abort, alloc: Global, seed: u64) -> u16 {
    let mut numbers = Lcg128Xsl64::seed_from_u64(seed);
    let Ok(mut trial) = closed(alloc, machine(rt, alloc, &mut numbers), 7, NEVER) else {
        rt.panic("a tree isn't closed");
    };
    for _ in 0..8 {
        ask_drawn(rt, alloc, &mut trial.oracle, &trial.tree, &mut numbers);
        assert!(rt; split_all(rt, alloc, &mut trial.oracle, &mut trial.tree, 7));
    }
    trial.tree.machine().expect(rt, "memory").states()
}

#[test]
fn drawn_machines_are_given(rt: HostRuntime) {
    let mut greatest = 0;
    for seed in 0..6 {
        let states = learn(&rt, rt.alloc(), seed);
        if states > greatest {
            greatest = states;
        }
    }
    assert_eq!(rt; greatest, 7);
}
