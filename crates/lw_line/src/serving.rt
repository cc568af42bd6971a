//! The child's side of the line protocol.
ghost use Rattle.std.specs.Prelude.{◌≡◌, ℕ, ◌+◌, ◌<◌, ◌≤◌, List, length, Err, Ok, IfOk, OnOk, OnErr};
ghost use Rattle.lw_words.specs.Cause.{CountedFault};
ghost use Rattle.lw_line.specs.Serving.{GoesOn, Plays};
ghost use Rattle.lw_line.specs.bodies.Playing.{Comes, IsOpenRead, Replies, Turns};
ghost use Rattle.lw_line.specs.declared.serving.ServeFault.{ServeFault as Fault};
ghost use Rattle.lw_line.specs.declared.serving.Next.{Next as Upcoming};
ghost use Rattle.lw_line.specs.declared.serving.Turn.{Turn as Done};
ghost use Rattle.lw_line.specs.declared.serving.ServedCause.{ServedCause as Cause};

use crate::inbox::Inbox;
use lw_json::Machine;
use lw_outside::{AnswerLine, Failed, Player, Reply, Sink, Source, put_all};
use lw_words::Line;

/// Why serving came to its end.
#[derive(Clone, Copy, Debug, PartialEq, Eq)]
pub enum ServedCause {
    /// A line asked for it.
    Quit,
    /// The input ended at the beginning of a line.
    EndOfInput,
    /// 4,294,967,295 lines were read.
    Limit,
}

/// How many lines were read, one that asked for the end included, and why no more.
#[derive(Clone, Copy, Debug, PartialEq, Eq)]
pub struct Served {
    pub lines: u32,
    pub cause: ServedCause,
}

/// Why serving broke off.
#[derive(Clone, Copy, Debug, PartialEq, Eq)]
pub enum ServeFault {
    SourceFault,
    SinkFault,
    /// The line of this number, counted from 1, is none of the protocol, or has no end.
    BadLine(u32),
}

/// What comes next of the input.
#[derive(Drop)]
enum Next {
    /// A line, as it was read, without its line feed.
    Whole(Line),
    /// The end, at the beginning of a line.
    End,
    /// A line that has no end.
    Open,
}

/// What became of a line.
#[derive(Clone, Copy, Debug, PartialEq, Eq)]
enum Turn {
    Answered,
    /// It asked for the end.
    Quit,
    /// There was none.
    Ended,
}

/// Reads up to the next line feed.
fn next_line<I: Source>(source: &mut I, inbox: &mut Inbox) -> Result<Next, Failed>
    ensures comes { IfOk result (λ next. Comes inbox.old inbox.new next (I.state source.old).left
        (I.state source.new).left) }
    ensures err { OnErr result ((bytes : List ℕ) × IsOpenRead inbox.old bytes
        (I.state source.old).left (I.state source.new).left) }
    ensures end { result ≡ Ok Upcoming.End → CountedFault (I.state source.old).ends
        (I.state source.new).ends }
    ensures failed { OnErr result (CountedFault (I.state source.old).faults
        (I.state source.new).faults) }
    ensures quiet { OnOk result ((I.state source.new).faults ≡ (I.state source.old).faults) }
    ensures counts { ((I.state source.old).faults ≤ (I.state source.new).faults) ×
        ((I.state source.old).ends ≤ (I.state source.new).ends) }
{
    loop {
        if let Some(line) = inbox.take_line() {
            return Ok(Next::Whole(line));
        }
        if inbox.is_full() {
            return Ok(Next::Open);
        }
        if inbox.read_from(source)? == 0 {
            return Ok(if inbox.is_empty() {
                Next::End
            } else {
                Next::Open
            });
        }
    }
}

/// Lets the child answer a line, whole.
fn answer<O: Sink>(
    sink: &mut O,
    m: &Machine,
    child: &mut Player,
    raw: &[u8],
    number: u32,
) -> Result<Turn, ServeFault>
    requires { child.old < length m.now.mealy.rows }
    ensures replies { Replies m.now number child.old raw.now child.new (O.state sink.old).taken
        (O.state sink.new).taken result }
    ensures failed { result ≡ Err Fault.SinkFault → CountedFault (O.state sink.old).faults
        (O.state sink.new).faults }
    ensures quiet { OnOk result ((O.state sink.new).faults ≡ (O.state sink.old).faults) }
    ensures bad { (line : ℕ) → result ≡ Err (Fault.BadLine line) →
        (O.state sink.new).faults ≡ (O.state sink.old).faults }
    ensures counts { (O.state sink.old).faults ≤ (O.state sink.new).faults }
    ensures state { child.new < length m.now.mealy.rows }
{
    let line = match child.reply(m, raw) {
        Reply::Ready => AnswerLine::ready(),
        Reply::Out(y) => AnswerLine::out(m, y),
        Reply::Quit => return Ok(Turn::Quit),
        Reply::Refused => return Err(ServeFault::BadLine(number)),
    };
    match put_all(sink, line.as_slice()) {
        Ok(()) => Ok(Turn::Answered),
        Err(Failed) => Err(ServeFault::SinkFault),
    }
}

/// Reads and answers the line of this number.
fn serve_line<I: Source, O: Sink>(
    source: &mut I,
    sink: &mut O,
    m: &Machine,
    child: &mut Player,
    inbox: &mut Inbox,
    number: u32,
) -> Result<Turn, ServeFault>
    requires { child.old < length m.now.mealy.rows }
    ensures turns { Turns m.now number child.old inbox.old child.new inbox.new
        (I.state source.old).left (I.state source.new).left (O.state sink.old).taken
        (O.state sink.new).taken result }
    ensures source { result ≡ Err Fault.SourceFault → CountedFault (I.state source.old).faults
        (I.state source.new).faults }
    ensures sink { result ≡ Err Fault.SinkFault → CountedFault (O.state sink.old).faults
        (O.state sink.new).faults }
    ensures end { result ≡ Ok Done.Ended → CountedFault (I.state source.old).ends
        (I.state source.new).ends }
    ensures quiet { OnOk result (((I.state source.new).faults ≡ (I.state source.old).faults) ×
        ((O.state sink.new).faults ≡ (O.state sink.old).faults)) }
    ensures bad { (line : ℕ) → result ≡ Err (Fault.BadLine line) →
        ((I.state source.new).faults ≡ (I.state source.old).faults) ×
        ((O.state sink.new).faults ≡ (O.state sink.old).faults) }
    ensures counts { ((I.state source.old).faults ≤ (I.state source.new).faults) ×
        ((I.state source.old).ends ≤ (I.state source.new).ends) ×
        ((O.state sink.old).faults ≤ (O.state sink.new).faults) }
    ensures state { child.new < length m.now.mealy.rows }
{
    match next_line(source, inbox) {
        Ok(Next::Whole(raw)) => answer(sink, m, child, raw.as_slice(), number),
        Ok(Next::End) => Ok(Turn::Ended),
        Ok(Next::Open) => Err(ServeFault::BadLine(number)),
        Err(Failed) => Err(ServeFault::SourceFault),
    }
}

/// Plays a machine as a child: reads lines of `source` and answers each on `sink`, whole, before it looks at the next one. Takes
/// no memory. May wait for its input.
pub fn serve<I: Source, O: Sink>(
    source: &mut I,
    sink: &mut O,
    m: &Machine,
) -> Result<Served, ServeFault>
    ensures plays { Plays m.now (I.state source.old).left result (O.state sink.old).taken
        (O.state sink.new).taken }
    ensures source { result ≡ Err Fault.SourceFault → CountedFault (I.state source.old).faults
        (I.state source.new).faults × GoesOn m.now (I.state source.old).left
        (I.state source.new).left }
    ensures sink { result ≡ Err Fault.SinkFault → CountedFault (O.state sink.old).faults
        (O.state sink.new).faults }
    ensures end { IfOk result (λ s. s.cause ≡ Cause.EndOfInput →
        CountedFault (I.state source.old).ends (I.state source.new).ends) }
    ensures limit { IfOk result (λ s. s.cause ≡ Cause.Limit → s.lines ≡ 4294967295) }
    ensures quiet { OnOk result (((I.state source.new).faults ≡ (I.state source.old).faults) ×
        ((O.state sink.new).faults ≡ (O.state sink.old).faults)) }
    ensures bad { (line : ℕ) → result ≡ Err (Fault.BadLine line) →
        ((I.state source.new).faults ≡ (I.state source.old).faults) ×
        ((O.state sink.new).faults ≡ (O.state sink.old).faults) }
    ensures counts { ((I.state source.old).faults ≤ (I.state source.new).faults) ×
        ((I.state source.old).ends ≤ (I.state source.new).ends) ×
        ((O.state sink.old).faults ≤ (O.state sink.new).faults) }
{
    // for the proof alone: names are short, and there is an initial state
    let _ = m.inputs.len();
    let _ = m.mealy.initial();
    let mut child = Player::new();
    let mut inbox = Inbox::new();
    for lines in 0..u32::MAX {
        match serve_line(source, sink, m, &mut child, &mut inbox, lines + 1)? {
            Turn::Answered => {}
            Turn::Quit => {
                return Ok(Served {
                    lines: lines + 1,
                    cause: ServedCause::Quit,
                });
            }
            Turn::Ended => {
                return Ok(Served {
                    lines,
                    cause: ServedCause::EndOfInput,
                });
            }
        }
    }
    Ok(Served {
        lines: u32::MAX,
        cause: ServedCause::Limit,
    })
}
