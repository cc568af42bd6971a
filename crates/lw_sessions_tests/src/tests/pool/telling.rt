//! What a pool tells of itself, and its parts.
use crate::tests::pool::acting::Acting;
use crate::tests::pool::crews::{pool_of, sound_plans};
use crate::tests::pool::settles_all;
use lw_pool::Pool;
use lw_sul::Session;
use std::alloc::Global;
use std::process::Abort;
use std::sync::Wait;
use std::thread::Threads;

/// How many runs the sessions of a pool have made together.
fn runs_of<R>(pool: &Pool<Acting, R>) -> u64 {
    let mut runs = 0u64;
    for i in 0..pool.sessions() {
        runs = runs.saturating_add(pool.session(i).runs());
    }
    runs
}

/// Whether a pool of three has these numbers.
fn is_of_three<R>(pool: &Pool<Acting, R>) -> bool {
    let letters = (pool.inputs(), pool.outputs());
    letters == (2, 2) && pool.sessions() == 3 && pool.names().len() == 2
}

/// Whether a pool of three tells of itself, and its sessions make four runs for four words.
fn tells_of_itself<R: Abort + Threads + Wait + Sync + Copy + Drop>(rt: R, alloc: Global) -> bool {
    let mut pool = pool_of(rt, alloc, sound_plans(&rt, alloc, 3));
    let told = is_of_three(&pool);
    let settled = settles_all(&rt, &mut pool, alloc, 2);
    told && settled && runs_of(&pool) == 4
}

#[test]
fn a_pool_tells_of_itself(rt: HostRuntime) {
    assert!(rt; tells_of_itself(rt, rt.alloc()));
}

/// Whether sessions stand by their instances.
fn are_in_order(sessions: &[Session<Acting>]) -> bool {
    let mut right = true;
    for (i, session) in sessions.iter().enumerate() {
        right = right && session.instance() as usize == i;
    }
    right
}

/// Whether a pool leaves two sessions, two names and four answers.
fn leaves_parts<R: Drop>(pool: Pool<Acting, R>) -> bool {
    let (sessions, names, cache) = pool.into_parts();
    let in_order = sessions.len() == 2 && are_in_order(&sessions);
    in_order && names.len() == 2 && cache.kept().len() == 4
}

/// Whether a pool of two leaves them once it has settled four words.
fn is_taken_apart<R: Abort + Threads + Wait + Sync + Copy + Drop>(rt: R, alloc: Global) -> bool {
    let mut pool = pool_of(rt, alloc, sound_plans(&rt, alloc, 2));
    let settled = settles_all(&rt, &mut pool, alloc, 2);
    let left = leaves_parts(pool);
    settled && left
}

#[test]
fn a_pool_is_taken_apart(rt: HostRuntime) {
    assert!(rt; is_taken_apart(rt, rt.alloc()));
}
