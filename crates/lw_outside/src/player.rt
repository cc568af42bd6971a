//! What a child does that plays a machine.
ghost use Rattle.std.specs.Prelude.{◌≡◌, ◌<◌, codes, length, option_map};
ghost use Rattle.lw_words.specs.Word.{number_of};
ghost use Rattle.std.specs.Str.Lines.{strip_carriage_return};
ghost use Rattle.lw_outside.specs.Played.{EndsPlay, IsMove, letter_named, move_of};
ghost use Rattle.lw_outside.specs.Protocol.{bytes_behind};

use lw_json::Machine;
use lw_words::Names;
use std::marker::Model;

/// What a child does at a line.
#[derive(Clone, Copy, Debug, PartialEq, Eq)]
pub enum Reply {
    /// It is in the initial state, and says so.
    Ready,
    /// It answers the output with this number.
    Out(u16),
    /// It was asked to end.
    Quit,
    /// It doesn't know the line, and ends.
    Refused,
}

/// A child that plays a machine: the state that it is in. Contracts see it.
#[derive(Drop)]
pub struct Player {
    state: u16,
}

impl Model for Player {
    ghost use Rattle.std.specs.Prelude.{ℕ};

    ghost Value = { ℕ };

    ghost view = { λ p. p.state };
}

/// A line without the carriage return at its end, if it has one.
fn without_return(received: &[u8]) -> &[u8]
    ensures { result.now ≡ strip_carriage_return received.now }
{
    match received {
        [line @ .., b'\r'] => line,
        _ => received,
    }
}

/// What follows a prefix in a line that begins with it.
fn behind_front<'a>(front: &[u8], line: &'a [u8]) -> Option<&'a [u8]>
    ensures { option_map (λ l. l.now) result ≡ bytes_behind front.now line.now }
{
    line.strip_prefix(front)
}

/// The number of the letter with these bytes as its name.
fn number_of_bytes(inputs: &Names, name: &[u8]) -> Option<u16>
    ensures { result ≡ number_of name.now inputs.now }
{
    let _names = inputs.len();
    match str::from_utf8(name) {
        Ok(text) => inputs.number(text),
        Err(_) => None,
    }
}

/// The letter of a line that names one.
fn letter_of(inputs: &Names, line: &[u8]) -> Option<u16>
    ensures { result ≡ letter_named inputs.now (bytes_behind (codes "in ") line.now) }
{
    let name = behind_front(b"in ", line)?;
    number_of_bytes(inputs, name)
}

impl Player {
    /// A child in the initial state.
    pub fn new() -> Player
        ensures { result ≡ 0 }
    {
        Player { state: 0 }
    }

    /// Answers a line, given without its line feed. Takes no memory.
    pub fn reply(&mut self, m: &Machine, received: &[u8]) -> Reply
        requires { self.old < length m.now.mealy.rows }
        ensures moves { IsMove m.now result (move_of m.now self.old received.now) self.new }
        ensures kept { EndsPlay result → self.new ≡ self.old }
        ensures state { self.new < length m.now.mealy.rows }
    {
        let line = without_return(received);
        if line == b"reset".as_slice() {
            self.state = m.mealy.initial();
            return Reply::Ready;
        }
        if line == b"quit".as_slice() {
            return Reply::Quit;
        }
        let Some(letter) = letter_of(&m.inputs, line) else {
            return Reply::Refused;
        };
        let (state, output) = m.mealy.step(self.state, letter);
        self.state = state;
        Reply::Out(output)
    }
}
