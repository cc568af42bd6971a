//! Names that come one after another.
ghost use Rattle.std.specs.Prelude.{◌≡◌, None};

use super::asking::{Ending, ends, free, free_ends};
use super::scripted::Script;
use lw_sul::Sul;
use std::alloc::Global;
use std::process::Abort;

/// Whether the names of a system are `want`, in this order.
fn has_names<S: Sul>(sul: &S, want: &[&str]) -> bool {
    if usize::from(sul.named()) != want.len() {
        return false;
    }
    for (y, name) in want.iter().enumerate() {
        if y >= usize::from(sul.named()) || sul.name(y as u16).as_slice() != name.as_bytes() {
            return false;
        }
    }
    true
}

/// Whether a system names its outputs b, a and c, each once, and has room for the numbers of 256.
fn names_three<S: Sul>(sul: &mut S) -> bool
    requires { (S.state sul.old).stop ≡ None }
{
    (sul.inputs(), sul.outputs(), sul.most(), sul.named()) == (1, 4096, 256, 0)
        && ends(sul, &[0, 1, 0, 2, 1], Ending::Answered)
        && has_names(sul, &["b", "a", "c"])
}

/// A child that says this all at once.
fn saying(text: &[u8]) -> Script<'_> {
    Script {
        text,
        piece: 256,
        fails: None,
    }
}

fn numbers_three(rt: &impl Abort, alloc: Global) -> bool {
    let text = b"ready\nout b\nout a\nout b\nout c\nout a\n";
    let mut sul = free(rt, alloc, saying(text));
    names_three(&mut sul)
}

#[test]
fn a_name_has_one_number(rt: HostRuntime) {
    assert!(rt; numbers_three(&rt, rt.alloc()));
}

#[test]
fn what_is_no_name_is_a_bad_line(rt: HostRuntime) {
    let script = saying(b"ready\nout a b\n");
    assert!(rt; free_ends(&rt, rt.alloc(), script, &[0], Ending::Bad(b"out a b")));
}

/// A child that is ready and then names so many outputs, each once.
fn many(rt: &impl Abort, alloc: Global, count: u16) -> Vec<u8> {
    let mut text = Vec::from_slice(alloc, b"ready\n").expect(rt, "memory");
    for n in 0..count {
        let line = format!(in alloc; "out {n}\n").expect(rt, "memory");
        text.extend_from_slice(line.as_str().as_bytes())
            .expect(rt, "memory");
    }
    text
}

/// The numbers below this one.
fn below(rt: &impl Abort, alloc: Global, count: u16) -> Vec<u16> {
    (0..count).collect(alloc).expect(rt, "memory")
}

fn names_so_many(rt: &impl Abort, alloc: Global, count: u16, want: Ending) -> bool {
    let text = many(rt, alloc, count);
    let outs = below(rt, alloc, count);
    free_ends(rt, alloc, saying(&text), &outs, want)
}

#[test]
fn there_are_256_names(rt: HostRuntime) {
    assert!(rt; names_so_many(&rt, rt.alloc(), 256, Ending::Answered));
    assert!(rt; names_so_many(&rt, rt.alloc(), 257, Ending::Bad(b"out 256")));
}
