//! Streams of bytes.
ghost use Rattle.std.specs.Prelude.{◌≡◌, ◌+◌, ◌<◌, ◌≤◌, ◌++◌, length, take, drop, IfOk, OnOk, OnErr, option_map};
ghost use Rattle.lw_words.specs.Cause.{CountedFault};
ghost use Rattle.lw_outside.specs.Streams.{SourceState, SinkState, SourceRead, SinkPut, TakesAll, TakesPart, TakesSome};

/// The object failed, and counted it.
#[derive(Clone, Copy, Debug, PartialEq, Eq)]
pub struct Failed;

/// A stream that gives bytes.
pub trait Source {
    ghost state: { Self → SourceState };

    /// Puts some bytes into the start of the buffer, and says how many; 0 is the end. Behind them the buffer may hold
    /// anything.
    fn read(&mut self, buffer: &mut [u8]) -> Result<usize, Failed>
        requires { 0 < length buffer.old }
        ensures { SourceRead buffer.new (state self.old) (state self.new) result };
}

/// A stream that takes bytes.
pub trait Sink {
    ghost state: { Self → SinkState };

    /// Takes some of the bytes, at least one, from the first on, and says how many.
    fn put(&mut self, bytes: &[u8]) -> Result<usize, Failed>
        requires { 0 < length bytes.now }
        ensures { SinkPut bytes.now (state self.old) (state self.new) result };
}

/// Puts some of the bytes from a place on, and says how many.
fn put_from<K: Sink>(sink: &mut K, bytes: &[u8], done: usize) -> Result<usize, Failed>
    requires { done < length bytes.now }
    ensures some { IfOk result (λ n. (1 ≤ n) × (done + n ≤ length bytes.now)) }
    ensures took { IfOk result (λ n. (K.state sink.new).taken ≡
        option_map (λ t. t ++ take n (drop done bytes.now)) (K.state sink.old).taken) }
    ensures left { OnErr result ((K.state sink.new).taken ≡ (K.state sink.old).taken) }
    ensures quiet { OnOk result ((K.state sink.new).faults ≡ (K.state sink.old).faults) }
    ensures failed { OnErr result (CountedFault (K.state sink.old).faults
        (K.state sink.new).faults) }
    ensures counts { (K.state sink.old).faults ≤ (K.state sink.new).faults }
{
    sink.put(&bytes[done..])
}

/// Puts all the bytes into a sink, piece by piece.
#[tactic(auto, using(crate::proofs::SinkLemmas::sink_steps))]
pub fn put_all<K: Sink>(sink: &mut K, bytes: &[u8]) -> Result<(), Failed>
    ensures ok { OnOk result (TakesAll bytes.now (K.state sink.old).taken
        (K.state sink.new).taken) }
    ensures part { TakesSome bytes.now (K.state sink.old).taken (K.state sink.new).taken }
    ensures cut { OnErr result (TakesPart bytes.now (K.state sink.old).taken
        (K.state sink.new).taken) }
    ensures quiet { OnOk result ((K.state sink.new).faults ≡ (K.state sink.old).faults) }
    ensures failed { OnErr result (CountedFault (K.state sink.old).faults
        (K.state sink.new).faults) }
    ensures counts { (K.state sink.old).faults ≤ (K.state sink.new).faults }
{
    let mut done = 0;
    while done < bytes.len() {
        done += put_from(sink, bytes, done)?;
    }
    Ok(())
}
