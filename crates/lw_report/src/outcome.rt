//! The outcome of a call of the program, and its exit status.
ghost use Rattle.std.specs.Prelude.{◌≡◌};
ghost use Rattle.lw_report.specs.Outcomes.{status_of};

use crate::{Comparison, Role};
use lw_accept::AcceptorFault;
use lw_cache::Clash;
use lw_certify::Verdict;
use lw_json::JsonFault;
use lw_line::Served;
use lw_mealy::Mealy;
use lw_outside::StartFailure;
use lw_words::{Line, Words};

/// A trial: this many states and inputs of a machine that was drawn by the seed; the states, refinements and recorded
/// answers of what was learned of it; and whether that is the machine.
#[derive(Clone, Copy, Debug, PartialEq, Eq)]
pub struct Tried {
    pub states: u16,
    pub inputs: u16,
    pub seed: u64,
    pub learned: u16,
    pub refinements: u32,
    pub answers: u64,
    pub equal: bool,
}

/// The outcome of a call of the program.
#[derive(Drop)]
pub enum Outcome {
    /// The model that the answers fix among all machines of not many more states, and how often its learner was refined.
    Learned { model: Mealy, refinements: u32 },
    /// The acceptor that the answers fix among all acceptors of not many more states, by its number of states, and how often the
    /// learner was refined.
    Accepted { states: u16, refinements: u32 },
    /// A drawn machine was learned.
    Trial(Tried),
    /// The answers fix the model, of this many states, among all machines of at most this many extra states more.
    Yes { states: u16 },
    /// A machine was played as a child, up to where nothing more was asked of it.
    Served(Served),
    /// How two models compare.
    Compared(Comparison),
    /// Each word was asked, and answered.
    Asked,
    /// The commands, or the arguments of one, were put out.
    Helped,
    /// Each of this many answers was given again.
    Rechecked { answers: u64 },
    /// The answers don't fix the model, for this cause, which is none of `TooLarge` and `Sure`.
    No(Verdict),
    /// The arguments are none that the program knows.
    Usage,
    /// The file in this role is none of its kind, and this is its first fault.
    BadFile { role: Role, fault: JsonFault },
    /// The file is of no acceptor, or a setup's inputs leave no room for `?`, and this is the first fault.
    BadAcceptor(AcceptorFault),
    /// A model was learned, and its pair of this state and letter is the first that is none of an acceptor's machine.
    NotAcceptor { state: u16, letter: u16 },
    /// The names of the file in this role, answers or those of an earlier call, aren't the model's, or the setup's.
    Alphabets(Role),
    /// The letter at this place of the word of this number, both counted from 1, is no input.
    UnknownLetter { word: u64, place: u64 },
    /// The file in this role has more than 16,777,216 bytes, or more than 4,294,967,296 where it begins as a journal does.
    FileTooLong(Role),
    /// Two recorded answers that no one machine agrees with.
    Nondeterministic(Clash),
    NoMemory,
    /// No child was started, for this cause.
    Unstarted(StartFailure),
    /// The system of this instance failed.
    SulFailed(u32),
    /// The output of this instance's system ended before its answer did.
    Gone(u32),
    /// The system of this instance answered this line, which the protocol doesn't know at its place.
    BadLine(u32, Line),
    /// The line of this number, counted from 1, that was asked of a child is none of the protocol, or has no end.
    BadAsk(u32),
    /// These words, one more than the limit of states, are pairwise apart.
    TooManyStates(Words),
    /// The suite of a model of this many states may have this size.
    SuiteTooLarge { states: u16, number: u64 },
    /// The file in this role could not be read or written.
    FileFault(Role),
    /// The input could not be read.
    SourceFault,
    /// A stream refused what was to be written.
    SinkFault,
}

/// The exit status of an outcome. Takes no memory.
pub fn status(outcome: &Outcome) -> u8
    ensures { result ≡ status_of outcome.now }
{
    match outcome {
        Outcome::Learned { .. } | Outcome::Trial(_) | Outcome::Yes { .. } | Outcome::Served(_) => 0,
        Outcome::Accepted { .. } | Outcome::Asked | Outcome::Helped => 0,
        Outcome::Rechecked { .. } => 0,
        Outcome::Compared(Comparison::Equal) => 0,
        Outcome::Compared(Comparison::Differ(_)) => 1,
        Outcome::Compared(Comparison::OtherInputs { .. }) => 3,
        Outcome::No(_) => 1,
        Outcome::Usage => 2,
        Outcome::BadFile { .. } | Outcome::Alphabets(_) | Outcome::FileTooLong(_) => 3,
        Outcome::UnknownLetter { .. } | Outcome::BadAcceptor(_) => 3,
        Outcome::Nondeterministic(_) => 4,
        Outcome::NoMemory => 5,
        Outcome::SulFailed(_) | Outcome::Gone(_) | Outcome::Unstarted(_) => 6,
        Outcome::BadLine(_, _) | Outcome::BadAsk(_) => 6,
        Outcome::TooManyStates(_) | Outcome::SuiteTooLarge { .. } => 7,
        Outcome::FileFault(_) | Outcome::SourceFault | Outcome::SinkFault => 8,
        Outcome::NotAcceptor { .. } => 9,
    }
}
