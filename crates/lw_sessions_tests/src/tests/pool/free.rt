//! Pools of systems whose outputs have names as they come.
ghost use Rattle.std.specs.Prelude.{◌≡◌, ◌≤◌, Some, length, replicate, []};
ghost use Rattle.lw_pool.specs.Opening.{AllMayJoin, member_of};

use crate::tests::names;
use crate::tests::pool::crews::{machine, settles};
use crate::tests::pool::growing::Growing;
use lw_cache::Cache;
use lw_names::OutNames;
use lw_pool::Pool;
use lw_sul::{Session, Sul, TableSul};
use lw_words::Kept;
use std::alloc::Global;
use std::process::Abort;
use std::sync::Wait;
use std::thread::Threads;

/// A system with these outputs to its two letters, and these names of them.
fn growing(rt: &impl Abort, alloc: Global, outs: [u16; 2], list: &[&str]) -> Growing
    ensures numbers { (result.table.machine.inputs ≡ 2) × (length result.table.names ≤ 256) }
    ensures begun { (result.stop ≡ None) × (result.known ≡ 0) }
{
    let machine = machine(rt, alloc, &[[(0, outs[0]), (0, outs[1])]]);
    let names = names(rt, alloc, list);
    assert!(rt; machine.inputs() == 2 && machine.outputs() == names.len() && names.len() <= 256);
    Growing::new(TableSul::new(machine, names))
}

/// Sessions of two systems that give the first letter the output `a` and the second one `b`. The first system meets `a` first,
/// and the second one `b`.
fn hired(rt: &impl Abort, alloc: Global, shared: &OutNames) -> Vec<Session<Growing>>
    requires { shared.now ≡ record { names = []; brought = Some (replicate 16 []) } }
    ensures count { length result.items ≡ 2 }
    ensures join { AllMayJoin (member_of ⟦<Growing as Sul>⟧.state) shared.now 2 4096
        result.items }
{
    let first = growing(rt, alloc, [0, 1], &["a", "b"]);
    let second = growing(rt, alloc, [1, 0], &["b", "a"]);
    let mut sessions = Vec::with_capacity(alloc, 2).expect(rt, "memory");
    sessions.push_reserved(Session::new(alloc, 0, first));
    sessions.push_reserved(Session::new(alloc, 1, second));
    sessions
}

/// A pool of these two.
fn pool_of_two<R: Abort + Copy + Drop>(rt: R, alloc: Global) -> Pool<Growing, R>
    ensures { result.inputs ≡ 2 }
{
    let shared = OutNames::free(alloc).expect(&rt, "memory");
    let sessions = hired(&rt, alloc, &shared);
    match Pool::new(rt, alloc, 2, 4096, sessions, shared, Cache::new(alloc)) {
        Ok(pool) => pool,
        Err(_) => rt.panic("there is no memory"),
    }
}

/// The outputs of the one answer of an instance.
fn outs_of(kept: &Kept, instance: u32) -> Option<&[u16]> {
    let mut outs = None;
    for i in 0..kept.len() {
        if kept.get(i).instance == instance {
            outs = Some(kept.get(i).outs.as_slice());
        }
    }
    outs
}

/// Whether the first of the shared names is `a`.
fn begins_with_a(names: &OutNames) -> bool {
    names.len() > 0 && names.name(0).as_slice() == b"a".as_slice()
}

/// Whether two answers are kept, where this is the number of the first one's first output and this the other one's.
fn are_shared(kept: &Kept, first: u16, second: u16) -> bool {
    let one = outs_of(kept, 0) == Some([first, second].as_slice());
    let other = outs_of(kept, 1) == Some([second, first].as_slice());
    kept.len() == 2 && one && other
}

static BOTH_WAYS: [&[u16]; 2] = [&[0, 1], &[1, 0]];

/// Settles two words with two systems; whether their answers are kept by the numbers of the shared names.
fn keeps_shared<R: Abort + Threads + Wait + Sync + Copy + Drop>(rt: R, alloc: Global) -> bool {
    let mut pool = pool_of_two(rt, alloc);
    let settled = settles(&rt, &mut pool, alloc, &BOTH_WAYS);
    let (first, second) = if begins_with_a(pool.names()) {
        (0, 1)
    } else {
        (1, 0)
    };
    settled && are_shared(pool.cache().kept(), first, second)
}

#[test]
fn answers_are_kept_by_shared_numbers(rt: HostRuntime) {
    assert!(rt; keeps_shared(rt, rt.alloc()));
}
