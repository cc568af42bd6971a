//! A child in memory that plays a machine.
ghost use Rattle.std.specs.Prelude.{◌≡◌, ◌<◌, ◌≤◌, ◌+◌, ◌-◌, ◌^◌, ◌==◌, ℕ, List, position, [], ◌∷◌, ◌++◌, length, drop, true, false, option_map, IfOk, IfSome, IfNone, IsTrue};
ghost use Rattle.lw_outside.specs.bodies.Child.{CanSay, IsAnswer, IsFirstLine, PlaysLine, SaysOn, StandsIn, yet};

use crate::{AnswerLine, Player, Reply};
use lw_json::Machine;
use lw_words::NoMemory;

/// A child that plays a machine. It reads what was sent to it line by line, no further than its answers are asked for.
#[derive(Drop)]
pub(crate) struct Served {
    pub(crate) machine: Machine,
    pub(crate) player: Player,
    /// How many bytes it has read. They are whole lines.
    pub(crate) read: usize,
    /// How many lines these are.
    pub(crate) lines: u32,
    pub(crate) ended: bool,
    /// The last answer, and how many bytes of it were given.
    pub(crate) answer: AnswerLine,
    pub(crate) given: usize,
}

/// The same machine once more.
pub(crate) fn copy_machine(m: &Machine) -> Result<Machine, NoMemory>
    ensures { IfOk result (λ n. n ≡ m.now) }
{
    let inputs = m.inputs.copy()?;
    let outputs = m.outputs.copy()?;
    let mealy = m.mealy.copy()?;
    Ok(Machine {
        inputs,
        outputs,
        mealy,
    })
}

/// Where the first line of some bytes ends, if it does.
fn line_end(bytes: &[u8]) -> Option<usize>
    ensures { result ≡ position (λ b. b == 10) bytes.now }
{
    bytes.iter().position(|byte| *byte == b'\n')
}

/// The first line of some bytes, without its line feed, if it has one.
fn first_line(bytes: &[u8]) -> Option<&[u8]>
    ensures { IsFirstLine (option_map (λ l. l.now) result) bytes.now }
{
    match line_end(bytes) {
        Some(end) => Some(&bytes[..end]),
        None => None,
    }
}

impl Served {
    /// A child of this machine, to which nothing was sent.
    pub(crate) fn new(machine: Machine) -> Served
        ensures machine { result.machine ≡ machine }
        ensures start { (result.player ≡ 0) × (result.read ≡ 0) × (result.lines ≡ 0) ×
            (result.ended ≡ false) }
        ensures silent { drop result.given result.answer ≡ [] }
    {
        Served {
            machine,
            player: Player::new(),
            read: 0,
            lines: 0,
            ended: false,
            answer: AnswerLine::empty(),
            given: 0,
        }
    }

    /// The line that a reply is, where it is one.
    fn answer_to(&self, reply: Reply) -> Option<AnswerLine>
        requires { CanSay self.now.machine reply }
        ensures { IsAnswer self.now.machine reply result }
    {
        match reply {
            Reply::Ready => Some(AnswerLine::ready()),
            Reply::Out(y) => Some(AnswerLine::out(&self.machine, y)),
            Reply::Quit | Reply::Refused => None,
        }
    }

    /// Plays a line, which was given without its line feed.
    fn play(&mut self, line: &[u8])
        requires live { (self.old.ended ≡ false) × (self.old.lines < 2 ^ 32 - 1) }
        requires stands { self.old.player < length self.old.machine.mealy.rows }
        requires silent { drop self.old.given self.old.answer ≡ [] }
        ensures { PlaysLine line.now self.old self.new }
    {
        self.lines += 1;
        let reply = self.player.reply(&self.machine, line);
        match self.answer_to(reply) {
            Some(answer) => {
                self.answer = answer;
                self.given = 0;
            }
            None => self.ended = true,
        }
    }

    /// Plays the next whole line, if there is one and the child has not ended.
    fn read_line(&mut self, sent: &[u8])
        requires stands { StandsIn self.old sent.now }
        requires silent { drop self.old.given self.old.answer ≡ [] }
        ensures stands { StandsIn self.new sent.now }
        ensures machine { self.new.machine ≡ self.old.machine }
        ensures on { SaysOn self.old self.new sent.now }
        ensures silent { drop self.new.given self.new.answer ≡ [] →
            yet self.new (drop self.new.read sent.now) ≡ [] }
    {
        if self.ended {
            return;
        }
        if self.lines == u32::MAX {
            return;
        }
        let Some(line) = first_line(&sent[self.read..]) else {
            return;
        };
        self.read += line.len() + 1;
        self.play(line);
    }

    /// Whether there is a byte to be said, of what was sent so far.
    pub(crate) fn is_ready(&mut self, sent: &[u8]) -> bool
        requires { StandsIn self.old sent.now }
        ensures stands { StandsIn self.new sent.now }
        ensures machine { self.new.machine ≡ self.old.machine }
        ensures on { SaysOn self.old self.new sent.now }
        ensures ready { result ≡ true → self.new.given < length self.new.answer }
        ensures silent { result ≡ false → yet self.new (drop self.new.read sent.now) ≡ [] }
    {
        if self.given >= self.answer.len() {
            self.read_line(sent);
        }
        self.given < self.answer.len()
    }

    /// Says the next byte.
    pub(crate) fn next(&mut self, sent: &[u8]) -> Option<u8>
        requires { StandsIn self.old sent.now }
        ensures stands { StandsIn self.new sent.now }
        ensures machine { self.new.machine ≡ self.old.machine }
        ensures some { IfSome result (λ b. (more : List ℕ) →
            yet self.old (drop self.old.read sent.now ++ more) ≡
            b ∷ yet self.new (drop self.new.read sent.now ++ more)) }
        ensures on { IfNone result (SaysOn self.old self.new sent.now) }
        ensures silent { IfNone result (yet self.new (drop self.new.read sent.now) ≡ []) }
    {
        if !self.is_ready(sent) {
            return None;
        }
        let byte = self.answer.as_slice()[self.given];
        self.given += 1;
        Some(byte)
    }
}
