//! A module for each crate that is tested, and what they share.

mod ask;
mod check;
mod compare;
mod learn;
mod memory;
mod recheck;
mod trial;

use lw_report::End;

/// Lets an end go. A proof that does is long, so no other function of these tests does.
fn let_go(_end: End) {}

/// The status of an end, and how many answers it has.
fn status_and_kept(end: End) -> (u8, usize) {
    let seen = (end.status, end.kept.len());
    let_go(end);
    seen
}

/// The status of an end.
fn status_of(end: End) -> u8 {
    let status = end.status;
    let_go(end);
    status
}
