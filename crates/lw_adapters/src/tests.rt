//! The adapters of streams and links, over readers in memory and over streams that are interrupted, short, at their end or
//! broken, each at one of their calls.
mod children;
mod journal;
mod shaky;

use crate::{Input, PipeLink, Stream};
use lw_outside::{Failed, Link, Sink, Source, put_all};
use shaky::{Shaky, Turn};
use std::alloc::Global;
use std::process::Abort;
use std::test::Fail;

const TEXT: &[u8] = b"reset\nin t\n";

#[test]
fn an_input_gives_what_there_is(rt: HostRuntime) -> Result<(), Fail> {
    let mut input = Input::new("reset\nin".as_bytes());
    let mut buffer = [0u8; 6];
    assert_eq!(rt; input.read(&mut buffer), Ok(6));
    assert_eq!(rt; buffer.as_slice(), "reset\n".as_bytes());
    assert_eq!(rt; input.read(&mut buffer), Ok(2));
    assert_eq!(rt; &buffer[..2], "in".as_bytes());
    assert_eq!(rt; input.read(&mut buffer), Ok(0));
    Ok(())
}

/// A stream that takes a turn of this kind at its call of this number, and works as it should at the others.
fn empty(rt: HostRuntime, turn: Turn, at: usize) -> Shaky {
    Shaky::new(rt.alloc(), turn, at)
}

/// What a stream holds once all the text was put to it, piece by piece; or that it failed.
fn put_text(stream: Shaky) -> Result<Vec<u8>, Failed> {
    let mut sink = Stream::new(stream);
    put_all(&mut sink, TEXT)?;
    Ok(sink.into_stream().into_bytes())
}

/// The stream takes three bytes at a time, so four calls; at one it is interrupted, takes one byte, none, or fails.
#[test]
fn a_text_is_put_whatever_a_stream_does(rt: HostRuntime) -> Result<(), Fail> {
    for at in 0..4 {
        for turn in [Turn::Interrupted, Turn::Short] {
            match put_text(empty(rt, turn, at)) {
                Ok(bytes) => assert_eq!(rt; bytes.as_slice(), TEXT),
                Err(Failed) => return Err(Fail::from("it was put in part")),
            }
        }
        for turn in [Turn::Empty, Turn::Broken] {
            assert!(rt; put_text(empty(rt, turn, at)).is_err());
        }
    }
    Ok(())
}

/// What an input gives, up to its end, in takes of three bytes at the most; None where it fails.
fn read_text(rt: &impl Abort, alloc: Global, stream: Shaky) -> Option<Vec<u8>> {
    let mut input = Input::new(stream);
    let mut all = Vec::new(alloc);
    for _ in 0..16 {
        let mut buffer = [0u8; 3];
        let count = input.read(&mut buffer).ok()?;
        if count == 0 {
            break;
        }
        all.extend_from_slice(&buffer[..count])
            .expect(&rt, "memory");
    }
    Some(all)
}

/// Whether an input gives just this much of the text, where its stream takes a turn of this kind at its call of this number.
fn gives(rt: &impl Abort, alloc: Global, turn: Turn, at: usize, given: &[u8]) -> bool {
    let stream = Shaky::holding(alloc, turn, at, TEXT).expect(rt, "memory");
    match read_text(rt, alloc, stream) {
        Some(bytes) => bytes.as_slice() == given,
        None => false,
    }
}

#[test]
fn a_text_is_read_whatever_a_stream_does(rt: HostRuntime) {
    for at in 0..4 {
        assert!(rt; gives(&rt, rt.alloc(), Turn::Interrupted, at, TEXT));
        assert!(rt; gives(&rt, rt.alloc(), Turn::Short, at, TEXT));
        assert!(rt; gives(&rt, rt.alloc(), Turn::Empty, at, &TEXT[..3 * at]));
        assert!(rt; !gives(&rt, rt.alloc(), Turn::Broken, at, TEXT));
    }
}

/// What a link says of a text that is sent and of what is taken behind it, where both of its pipes take a turn of this kind.
fn talk(rt: &impl Abort, alloc: Global, turn: Turn) -> (Result<(), Failed>, Result<usize, Failed>) {
    let output = Shaky::holding(alloc, turn, 0, b"ready\n").expect(rt, "memory");
    let mut link = PipeLink::new(0, Shaky::new(alloc, turn, 1), output);
    let mut buffer = [0u8; 8];
    (link.send(TEXT), link.take(&mut buffer))
}

#[test]
fn a_link_sends_and_takes_whatever_its_pipes_do(rt: HostRuntime) {
    assert!(rt; talk(&rt, rt.alloc(), Turn::Interrupted) == (Ok(()), Ok(3)));
    assert!(rt; talk(&rt, rt.alloc(), Turn::Short) == (Ok(()), Ok(1)));
    assert!(rt; talk(&rt, rt.alloc(), Turn::Empty) == (Err(Failed), Ok(0)));
    assert!(rt; talk(&rt, rt.alloc(), Turn::Broken) == (Err(Failed), Err(Failed)));
}

/// A child that says lines that it wasn't sent for is sent 2 KiB more, and no line behind that.
#[test]
fn a_link_to_a_child_that_is_ahead(rt: HostRuntime) {
    let output = Shaky::holding(rt.alloc(), Turn::Short, 99, b"a\nb\n").expect(&rt, "memory");
    let mut link = PipeLink::new(0, empty(rt, Turn::Short, 99_999), output);
    let mut buffer = [0u8; 8];
    let line = [b'x'; 64];
    assert!(rt; link.take(&mut buffer) == Ok(3));
    for _ in 0..32 {
        assert!(rt; link.send(&line).is_ok());
    }
    assert!(rt; link.send(&line).is_err());
}
