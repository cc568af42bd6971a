//! The real log: a file that is written line by line.
ghost use Rattle.std.specs.Prelude.{◌≡◌, ◌≤◌, [], None, IfSome, OnOk};
ghost use Rattle.std.specs.Io.KnownBytes.{Appends};
ghost use Rattle.lw_words.specs.Cause.{CountedFault};
ghost use Rattle.lw_outside.specs.Logs.{LogFilePut};
ghost use Rattle.lw_adapters.specs.Recorded.{told_log_file};

use crate::record::{Bytes, record, recorded};
use lw_outside::{Failed, LogFile};
use std::fs;
use std::io::Write;

/// A file of the system that a log is written to, once it is opened. Contracts see the bytes of the name that it was made by
/// last, and those that were put since.
#[derive(Drop)]
pub struct RealLog<R: fs::Files> {
    rt: R,
    file: Option<R::File>,
    called: Bytes,
    text: Bytes,
    faults: u64,
}

impl<R: fs::Files> RealLog<R> {
    /// No file is open yet.
    pub fn new(rt: R) -> RealLog<R>
        ensures file { result.file ≡ None }
        ensures text { result.text.items ≡ [] }
        ensures faults { result.faults ≡ 0 }
    {
        RealLog {
            rt,
            file: None,
            called: Bytes::new(),
            text: Bytes::new(),
            faults: 0,
        }
    }

    /// Counts a call that failed.
    fn fail(&mut self) -> Failed
        ensures counted { CountedFault self.old.faults self.new.faults }
        ensures counts { self.old.faults ≤ self.new.faults }
        ensures same { (self.new.file ≡ self.old.file) × (self.new.called ≡ self.old.called) ×
            (self.new.text ≡ self.old.text) }
    {
        self.faults = self.faults.saturating_add(1);
        Failed
    }
}

impl<R: fs::Files> LogFile for RealLog<R> {
    ghost use Rattle.lw_adapters.specs.Recorded.{told_log_file};

    ghost state = { λ l. told_log_file l.file l.called.items l.text.items l.faults };

    fn open(&mut self, name: &str) -> Result<(), Failed> {
        match fs::create(&self.rt, name) {
            Ok(file) => {
                self.file = Some(file);
                self.called = recorded(name.as_bytes());
                self.text = Bytes::new();
                Ok(())
            }
            Err(_) => Err(self.fail()),
        }
    }

    fn put(&mut self, line: &[u8]) -> Result<(), Failed>
        ensures every { LogFilePut line.now
            (told_log_file self.old.file self.old.called.items self.old.text.items self.old.faults)
            (told_log_file self.new.file self.new.called.items self.new.text.items self.new.faults)
            result }

        // The line is what was appended to the file.
        ensures bytes { OnOk result (IfSome self.old.file (λ f. IfSome self.new.file
            (λ g. Appends (R.File.Write.contents f) (R.File.Write.contents g) line.now))) }
    {
        let Some(file) = &mut self.file else {
            return Err(self.fail());
        };
        match file.write_all(line) {
            Ok(()) => {
                record(&mut self.text, line);
                Ok(())
            }
            Err(_) => Err(self.fail()),
        }
    }
}
