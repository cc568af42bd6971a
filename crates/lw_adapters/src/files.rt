//! The files of the system as a call is handed them. They count their faults, and tell the calls on them and what the reads
//! gave; no contract sees what they hold.
ghost use Rattle.std.specs.Prelude.{◌≡◌, []};
ghost use Rattle.lw_outside.specs.declared.files.CallKind.TheVariants as kind;

use crate::writing::{probe_file, write_file};
use http_server::Log;
use lw_outside::{CallKind, Files, FilesStop, WriteStop, longest_of};
use std::fs;
use std::io::{self, ErrorKind, Read};

/// What became of a call: what it does, and whether it failed.
#[derive(Clone, Copy)]
struct Made {
    kind: CallKind,
    failed: bool,
}

impl Made {
    fn reading(failed: bool) -> Made
        ensures { (result.kind ≡ kind.Reads) × (result.failed ≡ failed) }
    {
        Made {
            kind: CallKind::Reads,
            failed,
        }
    }

    fn writing(failed: bool) -> Made
        ensures { (result.kind ≡ kind.Writes) × (result.failed ≡ failed) }
    {
        Made {
            kind: CallKind::Writes,
            failed,
        }
    }

    fn probing(failed: bool) -> Made
        ensures { (result.kind ≡ kind.Probes) × (result.failed ≡ failed) }
    {
        Made {
            kind: CallKind::Probes,
            failed,
        }
    }
}

/// The files of the system.
#[derive(Drop)]
pub struct RealFiles<R> {
    rt: R,
    faults: u64,
    calls: Log<String, Made>,
    reads: Log<String, Vec<u8>>,
}

impl<R> RealFiles<R> {
    /// The files, with no call so far.
    pub fn new(rt: R) -> RealFiles<R>
        ensures runtime { result.rt ≡ rt }
        ensures faults { result.faults ≡ 0 }
        ensures calls { result.calls.items ≡ [] }
        ensures reads { result.reads.items ≡ [] }
    {
        RealFiles {
            rt,
            faults: 0,
            calls: Log::new(),
            reads: Log::new(),
        }
    }
}

/// How many bytes of a file are read before it is known how long it may be.
const FRONT: u64 = 64;

/// The bytes of a file, at most one more than a file that begins so may have.
fn read_file<R: fs::Files + AllocGlobal>(rt: &R, name: &str) -> io::Result<Vec<u8>> {
    let mut bytes = Vec::new(rt.alloc());
    let mut file = fs::open(rt, name)?;
    let front = file.by_ref().take(FRONT).read_to_end(&mut bytes)?;
    let left = longest_of(&bytes).saturating_sub(front);
    let _rest = file
        .take((left as u64).saturating_add(1))
        .read_to_end(&mut bytes)?;
    Ok(bytes)
}

impl<R: fs::Files + AllocGlobal> Files for RealFiles<R> {
    ghost use Rattle.std.specs.Prelude.{None, Some, map, string_bytes};

    ghost state = { λ f. record {
      holds = None;
      calls = Some (map (λ c. record {
        name = string_bytes c.0;
        kind = c.1.kind;
        failed = c.1.failed;
      }) f.calls.items);
      reads = map (λ r. (string_bytes r.0, r.1.items)) f.reads.items;
      faults = f.faults;
    } };

    fn read(&mut self, name: &str) -> Result<Vec<u8>, FilesStop> {
        let called = String::from_str(self.rt.alloc(), name)?;
        match read_file(&self.rt, name) {
            Ok(bytes) => {
                self.calls = self.calls.and(&called, &Made::reading(false));
                if bytes.len() > longest_of(&bytes) {
                    return Err(FilesStop::TooLong);
                }
                self.reads = self.reads.and(&called, &bytes);
                Ok(bytes)
            }
            Err(error) if error.kind() == ErrorKind::OutOfMemory => Err(FilesStop::NoMemory),
            Err(_) => {
                self.calls = self.calls.and(&called, &Made::reading(true));
                self.faults = self.faults.saturating_add(1);
                Err(FilesStop::Failed)
            }
        }
    }

    /// A file that is there stays as it is until the new text stands whole beside it, where that can be.
    fn write(&mut self, name: &str, bytes: &[u8]) -> Result<(), WriteStop> {
        let called = String::from_str(self.rt.alloc(), name)?;
        match write_file(&self.rt, name, bytes) {
            Ok(()) => {
                self.calls = self.calls.and(&called, &Made::writing(false));
                Ok(())
            }
            Err(error) if error.kind() == ErrorKind::OutOfMemory => Err(WriteStop::NoMemory),
            Err(_) => {
                self.calls = self.calls.and(&called, &Made::writing(true));
                self.faults = self.faults.saturating_add(1);
                Err(WriteStop::Failed)
            }
        }
    }

    fn probe(&mut self, name: &str) -> Result<(), WriteStop> {
        let called = String::from_str(self.rt.alloc(), name)?;
        match probe_file(&self.rt, name) {
            Ok(()) => {
                self.calls = self.calls.and(&called, &Made::probing(false));
                Ok(())
            }
            Err(error) if error.kind() == ErrorKind::OutOfMemory => Err(WriteStop::NoMemory),
            Err(_) => {
                self.calls = self.calls.and(&called, &Made::probing(true));
                self.faults = self.faults.saturating_add(1);
                Err(WriteStop::Failed)
            }
        }
    }
}
