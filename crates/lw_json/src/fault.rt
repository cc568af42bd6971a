//! Why bytes are no file of their kind.

use lw_mealy::MealyFault;
use lw_words::{NamesFault, NoMemory};
use std::alloc::{AllocError, AllocFailed};

/// What of a file has not its shape, in the order in which faults are looked for.
#[derive(Clone, Copy, Debug, PartialEq, Eq)]
pub enum Field {
    /// The whole, which is to be an object.
    Root,
    Format,
    Inputs,
    Outputs,
    States,
    Answers,
    /// A setup with a table and a command.
    Both,
    /// A setup with neither, or whose table is no text.
    Neither,
    Command,
}

/// Why bytes are no file of their kind: the first of these that applies.
#[derive(Clone, Copy, Debug, PartialEq, Eq)]
pub enum JsonFault {
    /// They are no JSON text that can be read.
    NotJson,
    /// This member is missing or hasn't its shape.
    Shape(Field),
    /// The inputs are no list of 1 to 64 names.
    Inputs(NamesFault),
    /// The outputs are no list of 1 to 4,096 names.
    Outputs(NamesFault),
    /// At this state and letter the output is none of the outputs.
    UnknownOutput(usize, usize),
    /// The rows are no machine.
    Mealy(MealyFault),
    /// One of the two texts of this answer is no word.
    BadWord(usize),
    /// The two words of this answer have different lengths.
    Lengths(usize),
    NoMemory,
}

impl From<NoMemory> for JsonFault {
    ghost use Rattle.std.specs.Prelude.{◌≡◌};
    ghost use Rattle.lw_json.specs.declared.fault.JsonFault.TheVariants.{NoMemory};

    ghost from_gives = { λ _ fault. fault ≡ NoMemory };

    fn from(_: NoMemory) -> JsonFault {
        JsonFault::NoMemory
    }
}

impl From<AllocError> for JsonFault {
    ghost use Rattle.std.specs.Prelude.{◌≡◌};
    ghost use Rattle.lw_json.specs.declared.fault.JsonFault.TheVariants.{NoMemory};

    ghost from_gives = { λ _ fault. fault ≡ NoMemory };

    fn from(_: AllocError) -> JsonFault {
        JsonFault::NoMemory
    }
}

impl<T: Drop> From<AllocFailed<T>> for JsonFault {
    ghost use Rattle.std.specs.Prelude.{◌≡◌};
    ghost use Rattle.lw_json.specs.declared.fault.JsonFault.TheVariants.{NoMemory};

    ghost from_gives = { λ _ fault. fault ≡ NoMemory };

    fn from(_: AllocFailed<T>) -> JsonFault {
        JsonFault::NoMemory
    }
}
