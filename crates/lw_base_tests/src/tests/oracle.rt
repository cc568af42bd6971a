//! That the calls of a recording oracle succeed, and that the batches are kept in their order.
ghost use Rattle.std.specs.Prelude.{◌≡◌};
ghost use Rattle.lw_words.specs.Word.{IsWord};

use crate::tests::{machine, rows, word};
use lw_cache::Oracle;
use lw_mealy::Mealy;
use std::alloc::Global;
use std::process::Abort;
use test_oracle::Recording;

/// The machine of one state over two letters, which answers each by its number.
fn of_two_letters(rt: &impl Abort, alloc: Global) -> Mealy
    ensures { result.inputs ≡ 2 }
{
    machine(rt, alloc, 2, 2, rows(rt, alloc, &[&[(0, 0), (0, 1)]]))
}

/// Settles one word, and answers how many answers are kept then.
fn settles<O: Oracle>(rt: &impl Abort, alloc: Global, oracle: &mut O, letters: &[u16]) -> usize
    requires letters { IsWord (O.state oracle.old).inputs letters.now }
    requires can { O.can_settle oracle.old }
    ensures { (O.state oracle.new).inputs ≡ (O.state oracle.old).inputs }
{
    let batch = vec![in alloc; word(rt, alloc, letters)].expect(rt, "memory");
    assert!(rt; oracle.settle(&batch).is_ok(), "the batch was refused");
    oracle.cache().kept().len()
}

#[test]
fn an_oracle_settles_each_word_once(rt: HostRuntime) {
    let alloc = rt.alloc();
    let mut oracle = Recording::new(alloc, of_two_letters(&rt, alloc));
    assert!(rt; settles(&rt, alloc, &mut oracle, &[0, 1]) == 1);
    assert!(rt; settles(&rt, alloc, &mut oracle, &[0]) == 1);
    assert!(rt; oracle.batches().len() == 2);
    assert!(rt; oracle.asked(0, &[&[0, 1]]) && oracle.asked(1, &[&[0]]));
    assert!(rt; !oracle.asked(1, &[&[1]]) && !oracle.asked(2, &[&[0]]));
}

/// Settles three words, of which one stands twice: whether it was answered Ok.
fn settles_three<O: Oracle>(rt: &impl Abort, alloc: Global, oracle: &mut O) -> bool
    requires inputs { (O.state oracle.old).inputs ≡ 2 }
    requires can { O.can_settle oracle.old }
    ensures inputs { (O.state oracle.new).inputs ≡ 2 }
    ensures can { O.can_settle oracle.new }
{
    let (first, second) = (word(rt, alloc, &[1]), word(rt, alloc, &[0]));
    let again = word(rt, alloc, &[1]);
    let batch = vec![in alloc; first, second, again].expect(rt, "memory");
    oracle.settle(&batch).is_ok()
}

#[test]
fn a_batch_keeps_its_order(rt: HostRuntime) {
    let alloc = rt.alloc();
    let mut oracle = Recording::new(alloc, of_two_letters(&rt, alloc));
    assert!(rt; settles_three(&rt, alloc, &mut oracle));
    assert!(rt; oracle.asked(0, &[&[1], &[0], &[1]]));
    assert!(rt; oracle.cache().kept().len() == 2);
}

#[test]
fn a_batch_is_refused_once(rt: HostRuntime) {
    let alloc = rt.alloc();
    let mut oracle = Recording::refusing(alloc, of_two_letters(&rt, alloc), 0);
    assert!(rt; !settles_three(&rt, alloc, &mut oracle));
    assert!(rt; oracle.cache().kept().len() == 0);
    assert!(rt; settles_three(&rt, alloc, &mut oracle));
    assert!(rt; oracle.batches().len() == 2);
    assert!(rt; oracle.cache().kept().len() == 2);
}
