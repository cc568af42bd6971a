//! How many words are left: only those that have to be asked.
use crate::tests::words;
use lw_cache::Cache;
use lw_desk::Desk;
use lw_names::OutNames;
use lw_words::Word;
use std::alloc::Global;
use std::process::Abort;

/// How many words a desk of this batch has left before the first ask, where nothing is known.
fn left_of(rt: &impl Abort, alloc: Global, batch: &[Word]) -> u32 {
    assert!(rt; batch.len() <= 1000);
    let names = OutNames::free(alloc).expect(rt, "memory");
    match Desk::new(alloc, Cache::new(alloc), names, batch, 1) {
        Ok(desk) => desk.left(),
        Err(_) => rt.panic("memory"),
    }
}

#[test]
fn what_begins_another_word_is_not_left(rt: HostRuntime) {
    let alloc = rt.alloc();
    let (one, long, other) = ([0u16], [0u16, 1, 1], [1u16]);
    let all = [
        one.as_slice(),
        long.as_slice(),
        &[],
        other.as_slice(),
        long.as_slice(),
    ];
    assert!(rt; left_of(&rt, alloc, &words(&rt, alloc, &all)) == 2);
    assert!(rt; left_of(&rt, alloc, &words(&rt, alloc, &[[].as_slice()])) == 0);
}
