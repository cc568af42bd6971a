//! Streams of the standard library, written and read. A call that a signal interrupts is made again.
ghost use Rattle.std.specs.Prelude.{◌≡◌, [], ◌++◌, ◌<◌, IfOk, OnErr, length, take};
ghost use Rattle.std.specs.Io.KnownBytes.{Appends, Consumes, ReadConsumes, WriteAppends};
ghost use Rattle.std.specs.Io.{ReadsAtMost, WritesAtMost};
ghost use Rattle.lw_adapters.specs.Once.{Appends-prop, Consumes-prop};
ghost use Rattle.lw_outside.specs.Streams.{SinkPut, SourceRead};
ghost use Rattle.lw_adapters.specs.Recorded.{bytes_of, told_input, told_output};

use crate::record::{Bytes, record};
use lw_outside::{Failed, Sink, Source};
use std::io::{self, ErrorKind, Read, Write};
use std::snapshot::Snapshot;

#[tactic(auto, using(crate::proofs::ByteLemmas::repeats))]
/// Writes some of the bytes, and again where a signal came between.
pub(crate) fn write_some<W: Write>(stream: &mut W, bytes: &[u8]) -> io::Result<usize>
    ensures bound { WritesAtMost result bytes.now }
    ensures bytes { WriteAppends (W.contents stream.old) (W.contents stream.new) result bytes.now }
{
    for _ in 0..u64::MAX {
        match stream.write(bytes) {
            Err(error) if error.kind() == ErrorKind::Interrupted => {}
            written => return written,
        }
    }
    Err(io::Error::from(ErrorKind::Interrupted))
}

#[tactic(auto, using(crate::proofs::ByteLemmas::repeats))]
/// Reads what has come, as much as fits, and again where a signal came between. Waits only where nothing has.
pub(crate) fn read_some<S: Read>(stream: &mut S, buffer: &mut [u8]) -> io::Result<usize>
    ensures bound { ReadsAtMost result buffer.new }
    ensures bytes { ReadConsumes (S.remaining stream.old) (S.remaining stream.new) result
        buffer.new }
    ensures long { length buffer.new ≡ length buffer.old }
{
    for _ in 0..u64::MAX {
        match stream.read(buffer) {
            Err(error) if error.kind() == ErrorKind::Interrupted => {}
            read => return read,
        }
    }
    Err(io::Error::from(ErrorKind::Interrupted))
}

/// A stream that is written. Contracts see the bytes that its writes said they took; these are what was appended to the stream,
/// where what it held was observed when it was wrapped.
#[derive(Drop)]
pub struct Stream<W: Write> {
    stream: W,
    faults: u64,
    taken: Bytes,
    start: Snapshot<W>,
    ghost appended: { Appends (W.contents start.value) (W.contents stream) (bytes_of taken.items) } by { Appends-prop _ _ _ },
}

impl<W: Write> Stream<W> {
    /// The stream, with no fault so far.
    pub fn new(stream: W) -> Stream<W>
        ensures stream { result.stream ≡ stream }
        ensures start { result.start.value ≡ stream }
        ensures faults { result.faults ≡ 0 }
        ensures taken { bytes_of result.taken.items ≡ [] }
    {
        let start = Snapshot::of(&stream);
        Stream {
            stream,
            faults: 0,
            taken: Bytes::new(),
            start,
        }
    }

    /// The stream itself.
    pub fn into_stream(self) -> W
        ensures { result ≡ self.stream }
    {
        let Stream {
            stream,
            faults: _,
            taken: _,
            start: _,
        } = self;
        stream
    }
}

#[tactic(auto, using(crate::proofs::ByteLemmas::records))]
impl<W: Write> Sink for Stream<W> {
    ghost use Rattle.lw_adapters.specs.Recorded.{told_output};

    ghost state = { λ s. told_output s.taken.items s.faults };

    fn put(&mut self, bytes: &[u8]) -> Result<usize, Failed>
        requires { 0 < length bytes.now }
        ensures every { SinkPut bytes.now (told_output self.old.taken.items self.old.faults)
            (told_output self.new.taken.items self.new.faults) result }

        // What it took is what was appended to the stream, and the stream began as it did.
        ensures bytes { WriteAppends (W.contents self.old.stream) (W.contents self.new.stream)
            result bytes.now }
        ensures start { self.new.start ≡ self.old.start }
    {
        match write_some(&mut self.stream, bytes) {
            Ok(count) if count > 0 => {
                record(&mut self.taken, &bytes[..count]);
                Ok(count)
            }
            _ => {
                self.faults = self.faults.saturating_add(1);
                Err(Failed)
            }
        }
    }
}

/// A stream that is read. Contracts see the bytes that its reads gave; these are what the stream had, where what it had
/// was observed when it was wrapped.
#[derive(Drop)]
pub struct Input<S: Read> {
    stream: S,
    faults: u64,
    ends: u64,
    given: Bytes,
    start: Snapshot<S>,
    ghost consumed: { Consumes (S.remaining start.value) (S.remaining stream) (bytes_of given.items) } by { Consumes-prop _ _ _ },
}

impl<S: Read> Input<S> {
    /// The stream, with no fault and no end so far.
    pub fn new(stream: S) -> Input<S>
        ensures stream { result.stream ≡ stream }
        ensures start { result.start.value ≡ stream }
        ensures faults { result.faults ≡ 0 }
        ensures ends { result.ends ≡ 0 }
        ensures given { bytes_of result.given.items ≡ [] }
    {
        let start = Snapshot::of(&stream);
        Input {
            stream,
            faults: 0,
            ends: 0,
            given: Bytes::new(),
            start,
        }
    }
}

#[tactic(auto, using(crate::proofs::ByteLemmas::records))]
impl<S: Read> Source for Input<S> {
    ghost use Rattle.lw_adapters.specs.Recorded.{told_input};

    ghost state = { λ s. told_input (S.remaining s.start.value) (S.remaining s.stream) s.faults
        s.ends };

    fn read(&mut self, buffer: &mut [u8]) -> Result<usize, Failed>
        requires { 0 < length buffer.old }
        ensures every { SourceRead buffer.new (told_input (S.remaining self.old.start.value)
            (S.remaining self.old.stream) self.old.faults self.old.ends)
            (told_input (S.remaining self.new.start.value) (S.remaining self.new.stream)
            self.new.faults self.new.ends) result }

        // What is recorded is what it gave.
        ensures given { IfOk result (λ n. bytes_of self.new.given.items ≡
            bytes_of self.old.given.items ++ take n buffer.new) }
        ensures withheld { OnErr result (bytes_of self.new.given.items ≡
            bytes_of self.old.given.items) }
        ensures start { self.new.start ≡ self.old.start }
    {
        match read_some(&mut self.stream, buffer) {
            Ok(count) => {
                if count == 0 {
                    self.ends = self.ends.saturating_add(1);
                }
                record(&mut self.given, &buffer[..count]);
                Ok(count)
            }
            Err(_) => {
                self.faults = self.faults.saturating_add(1);
                Err(Failed)
            }
        }
    }
}
