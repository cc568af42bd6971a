//! Files by name.
ghost use Rattle.std.specs.Prelude.{◌≡◌};
ghost use Rattle.lw_outside.specs.Files.{FilesState, FilesProbe, FilesRead, FilesWrite, longest_of};

use lw_json::is_journal;
use std::alloc::{AllocError, AllocFailed};

/// The greatest number of bytes of a journal that is read.
const LONGEST_JOURNAL: usize = 4_294_967_296;
/// And of any other file.
const LONGEST_FILE: usize = 16_777_216;

/// The greatest number of bytes of a file that is read, if these are its bytes, or its first ones.
pub fn longest_of(bytes: &[u8]) -> usize
    ensures { result ≡ longest_of bytes.now }
{
    if is_journal(bytes) {
        LONGEST_JOURNAL
    } else {
        LONGEST_FILE
    }
}

/// Why a file was not read.
#[derive(Clone, Copy, Debug, PartialEq, Eq)]
pub enum FilesStop {
    Failed,
    /// It has more than 16,777,216 bytes, or more than 4,294,967,296 where it begins as a journal does.
    TooLong,
    NoMemory,
}

/// What a call on files does.
#[derive(Clone, Copy, Debug, PartialEq, Eq)]
pub enum CallKind {
    Reads,
    Writes,
    /// It asks whether a write could be made.
    Probes,
}

/// Why a file was not written, or why it could not be.
#[derive(Clone, Copy, Debug, PartialEq, Eq)]
pub enum WriteStop {
    Failed,
    NoMemory,
}

/// Files by name. What they hold, and the calls on them, are observed of the memory form alone; what the reads gave is
/// observed of every form, for contracts.
pub trait Files {
    ghost state: { Self → FilesState };

    /// The bytes of a file. A missing file is a fault.
    fn read(&mut self, name: &str) -> Result<Vec<u8>, FilesStop>
        ensures { FilesRead (λ bytes. bytes.items) name.now (state self.old) (state self.new)
            result };

    /// Puts the bytes under the name, in place of what stood there. Where that is refused, anything may stand there.
    fn write(&mut self, name: &str, bytes: &[u8]) -> Result<(), WriteStop>
        ensures { FilesWrite name.now bytes.now (state self.old) (state self.new) result };

    /// Whether a write under the name could be made, as far as that can be told before. What stands there stays.
    fn probe(&mut self, name: &str) -> Result<(), WriteStop>
        ensures { FilesProbe name.now (state self.old) (state self.new) result };
}

impl From<AllocError> for FilesStop {
    ghost use Rattle.std.specs.Prelude.{◌≡◌};
    ghost use Rattle.lw_outside.specs.declared.files.FilesStop.TheVariants.{NoMemory};

    ghost from_gives = { λ _ stop. stop ≡ NoMemory };

    fn from(_: AllocError) -> FilesStop {
        FilesStop::NoMemory
    }
}

impl<T: Drop> From<AllocFailed<T>> for FilesStop {
    ghost use Rattle.std.specs.Prelude.{◌≡◌};
    ghost use Rattle.lw_outside.specs.declared.files.FilesStop.TheVariants.{NoMemory};

    ghost from_gives = { λ _ stop. stop ≡ NoMemory };

    fn from(_: AllocFailed<T>) -> FilesStop {
        FilesStop::NoMemory
    }
}

impl From<AllocError> for WriteStop {
    ghost use Rattle.std.specs.Prelude.{◌≡◌};
    ghost use Rattle.lw_outside.specs.declared.files.WriteStop.TheVariants.{NoMemory};

    ghost from_gives = { λ _ stop. stop ≡ NoMemory };

    fn from(_: AllocError) -> WriteStop {
        WriteStop::NoMemory
    }
}

impl<T: Drop> From<AllocFailed<T>> for WriteStop {
    ghost use Rattle.std.specs.Prelude.{◌≡◌};
    ghost use Rattle.lw_outside.specs.declared.files.WriteStop.TheVariants.{NoMemory};

    ghost from_gives = { λ _ stop. stop ≡ NoMemory };

    fn from(_: AllocFailed<T>) -> WriteStop {
        WriteStop::NoMemory
    }
}
