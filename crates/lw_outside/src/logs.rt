//! Logs: lines that a person reads while a call goes on.
ghost use Rattle.lw_outside.specs.Logs.{LogFileState, LogFileOpen, LogFilePut};

use crate::Failed;

/// A log file. Contracts see the lines that were put whole; of a line whose call failed a part may stand in the file.
pub trait LogFile {
    ghost state: { Self → LogFileState };

    /// Makes the log of this name, empty. Where that fails, what is observed stays that of the log before.
    fn open(&mut self, name: &str) -> Result<(), Failed>
        ensures { LogFileOpen name.now (state self.old) (state self.new) result };

    /// Puts a line, which ends in a line feed, whole and at once.
    fn put(&mut self, line: &[u8]) -> Result<(), Failed>
        ensures { LogFilePut line.now (state self.old) (state self.new) result };
}
