//! Serving over streams in memory, streams that fail, and streams that tell the order of their calls.
use crate::tests::{machine, sink_of, source_of};
use lw_json::Machine;
use lw_line::{ServeFault, Served, serve};
use lw_outside::{Failed, MemorySink, MemorySource, Sink, Source};
use std::alloc::Global;
use std::cell::Cell;
use std::process::Abort;

static COUNTER: &[u8] =
    br#"{"inputs":["t"],"outputs":["0","1"],"states":[[[1,"0"]],[[2,"0"]],[[0,"1"]]]}"#;

pub fn counter(rt: &impl Abort, alloc: Global) -> Machine {
    machine(rt, alloc, COUNTER)
}

/// Calls that are to fail, and how many bytes each other one takes or gives at most.
#[derive(Clone, Copy)]
struct Plans<'a> {
    source: &'a [u64],
    sink: &'a [u64],
    piece: usize,
}

fn same_end(end: &Result<Served, ServeFault>, want: &Result<Served, ServeFault>) -> bool {
    match (end, want) {
        (Ok(a), Ok(b)) => *a == *b,
        (Err(a), Err(b)) => *a == *b,
        _ => false,
    }
}

/// Whether serving the machine on these streams answers and ends so.
fn serves_on(
    source: &mut MemorySource,
    sink: &mut MemorySink,
    machine: &Machine,
    answers: &[u8],
    want: &Result<Served, ServeFault>,
) -> bool {
    let end = serve(source, sink, machine);
    same_end(&end, want) && sink.taken() == answers
}

/// Whether serving the machine answers and ends so, where these calls fail.
fn serves_with(
    rt: &impl Abort,
    alloc: Global,
    machine: &Machine,
    input: &[u8],
    plans: Plans<'_>,
    answers: &[u8],
    want: &Result<Served, ServeFault>,
) -> bool {
    let mut source = source_of(rt, alloc, input, plans.piece, plans.source);
    let mut sink = sink_of(rt, alloc, 256, plans.piece, plans.sink);
    serves_on(&mut source, &mut sink, machine, answers, want)
}

/// Whether serving the machine answers and ends so.
pub fn serves(
    rt: &impl Abort,
    alloc: Global,
    machine: &Machine,
    input: &[u8],
    piece: usize,
    answers: &[u8],
    want: &Result<Served, ServeFault>,
) -> bool {
    let plans = Plans {
        source: &[],
        sink: &[],
        piece,
    };
    serves_with(rt, alloc, machine, input, plans, answers, want)
}

/// Which call fails, what is answered before it, and the fault.
struct FaultRow {
    plans: Plans<'static>,
    answers: &'static [u8],
    fault: ServeFault,
}

static FAULTS: [FaultRow; 5] = [
    FaultRow {
        plans: Plans {
            source: &[0],
            sink: &[],
            piece: 6,
        },
        answers: b"",
        fault: ServeFault::SourceFault,
    },
    FaultRow {
        plans: Plans {
            source: &[1],
            sink: &[],
            piece: 6,
        },
        answers: b"ready\n",
        fault: ServeFault::SourceFault,
    },
    FaultRow {
        plans: Plans {
            source: &[2],
            sink: &[],
            piece: 6,
        },
        answers: b"ready\nout 0\n",
        fault: ServeFault::SourceFault,
    },
    FaultRow {
        plans: Plans {
            source: &[],
            sink: &[0],
            piece: 6,
        },
        answers: b"",
        fault: ServeFault::SinkFault,
    },
    FaultRow {
        plans: Plans {
            source: &[],
            sink: &[1],
            piece: 6,
        },
        answers: b"ready\n",
        fault: ServeFault::SinkFault,
    },
];

fn fails_so(rt: &impl Abort, alloc: Global, row: &FaultRow) -> bool {
    let machine = counter(rt, alloc);
    serves_with(
        rt,
        alloc,
        &machine,
        b"reset\nin t\n",
        row.plans,
        row.answers,
        &Err(row.fault),
    )
}

#[test]
fn each_read_and_each_write_may_fail(rt: HostRuntime) {
    for row in &FAULTS {
        assert!(rt; fails_so(&rt, rt.alloc(), row));
    }
}

/// A source that gives a line a read, and counts its reads.
#[derive(Drop)]
struct ClockedSource<'a> {
    reads: &'a Cell<u32>,
    lines: u32,
    ends: u64,
}

impl Source for ClockedSource<'_> {
    ghost use Rattle.std.specs.Prelude.{None};

    ghost state = { λ s. record {
      left = None;
      faults = 0;
      ends = s.ends;
    } };

    fn read(&mut self, buffer: &mut [u8]) -> Result<usize, Failed> {
        self.reads.set(self.reads.get().saturating_add(1));
        if self.lines == 0 || buffer.len() < 6 {
            self.ends = self.ends.saturating_add(1);
            return Ok(0);
        }
        self.lines -= 1;
        buffer[..6].copy_from_slice(b"reset\n");
        Ok(6)
    }
}

/// A sink that takes four bytes a call, and notes how many reads there were before it.
#[derive(Drop)]
struct ClockedSink<'a> {
    reads: &'a Cell<u32>,
    noted: Vec<u32>,
}

impl Sink for ClockedSink<'_> {
    ghost use Rattle.std.specs.Prelude.{None};

    ghost state = { λ _. record {
      taken = None;
      faults = 0;
    } };

    fn put(&mut self, bytes: &[u8]) -> Result<usize, Failed> {
        if self.noted.len() < self.noted.capacity() {
            self.noted.push_reserved(self.reads.get());
        }
        Ok(bytes.len().min(4))
    }
}

#[test]
fn an_answer_is_whole_before_the_next_line_is_read(rt: HostRuntime) {
    let alloc = rt.alloc();
    let machine = counter(&rt, alloc);
    let reads = Cell::new(0);
    let mut source = ClockedSource {
        reads: &reads,
        lines: 3,
        ends: 0,
    };
    let mut sink = ClockedSink {
        reads: &reads,
        noted: Vec::with_capacity(alloc, 16).expect(&rt, "memory"),
    };
    assert!(rt; serve(&mut source, &mut sink, &machine).is_ok());
    assert!(rt; sink.noted.as_slice() == [1u32, 1, 2, 2, 3, 3].as_slice());
}
