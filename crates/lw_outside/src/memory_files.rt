//! Files in memory.
ghost use Rattle.std.specs.Prelude.{◌≡◌, ◌<◌, ◌≤◌, ◌∷◌, [], ◌++◌, length, map, true, false, Some, Err, IfOk, OnOk, OnErr, option_map, string_bytes, vec_capacity, vec_len};
ghost use Rattle.lw_words.specs.Cause.{CountedFault};
ghost use Rattle.lw_outside.specs.Files.{Holds, HoldsLong, StaysBeside, file_at, longest_of, noted, probe_call, read_call, write_call, FilesProbe, FilesRead, FilesWrite};
ghost use Rattle.lw_outside.specs.Memory.{ReadEndsAs, NotesCall, NotesProbe, files_with, is_planned, read_end, told_files};
ghost use Rattle.lw_outside.specs.declared.files.CallKind.TheVariants as kind;
ghost use Rattle.lw_outside.specs.declared.files.FilesStop.{FilesStop as ReadRefusal};
ghost use Rattle.lw_outside.specs.declared.files.WriteStop.{WriteStop as WriteRefusal};

use crate::{CallKind, Files, FilesStop, WriteStop, longest_of};
use http_server::Log;
use lw_words::NoMemory;
use std::alloc::{AllocError, Global};
use std::marker::Model;

/// A call on files: the name, what it does, and whether it failed.
#[derive(Drop)]
pub struct FileCall {
    pub name: String,
    pub kind: CallKind,
    pub failed: bool,
}

/// Files in memory. A later file of the same name wins.
/// Contracts see what they hold, the calls that were answered other than out of memory, what the reads gave, the plan
/// of the reads and writes that are to fail with the number of the next one, that of the probes, and the count of faults.
#[derive(Drop)]
pub struct MemoryFiles {
    files: Vec<(String, Vec<u8>)>,
    plan: Vec<u64>,
    made: u64,
    probe_plan: Vec<u64>,
    probed: u64,
    faults: u64,
    calls: Vec<FileCall>,
    reads: Log<String, Vec<u8>>,
    alloc: Global,
}

impl Model for MemoryFiles {
    ghost use Rattle.std.specs.Prelude.{map, string_bytes};
    ghost use Rattle.lw_outside.specs.Memory.{MemoryFilesState};

    ghost Value = { MemoryFilesState };

    ghost view = { λ m. record {
      holds = map (λ f. (string_bytes f.0, f.1.items)) m.files.items;
      calls = map (λ c. record { name = string_bytes c.name; kind = c.kind; failed = c.failed }) m.calls.items;
      reads = map (λ f. (string_bytes f.0, f.1.items)) m.reads.items;
      plan = m.plan.items;
      made = m.made;
      probe_plan = m.probe_plan.items;
      probed = m.probed;
      faults = m.faults;
    } };
}

/// The bytes under a name, where there are any.
fn find<'a>(files: &'a [(String, Vec<u8>)], name: &str) -> Option<&'a Vec<u8>>
    ensures { option_map (λ v. v.now.items) result ≡
        file_at name.now (map (λ f. (string_bytes f.0, f.1.items)) files.now) }
{
    let mut found: Option<&Vec<u8>> = None;
    for file in files {
        if name == file.0.as_str() {
            found = Some(&file.1);
        }
    }
    found
}

fn read_of(name: String, failed: bool) -> FileCall
    ensures { result ≡ record { name = name; kind = kind.Reads; failed = failed } }
{
    FileCall {
        name,
        kind: CallKind::Reads,
        failed,
    }
}

fn write_of(name: String, failed: bool) -> FileCall
    ensures { result ≡ record { name = name; kind = kind.Writes; failed = failed } }
{
    FileCall {
        name,
        kind: CallKind::Writes,
        failed,
    }
}

fn probe_of(name: String, failed: bool) -> FileCall
    ensures { result ≡ record { name = name; kind = kind.Probes; failed = failed } }
{
    FileCall {
        name,
        kind: CallKind::Probes,
        failed,
    }
}

/// What a read or a probe takes memory for before it looks: the name of the call, and a place for the call.
fn ready_to_read(alloc: Global, name: &str, calls: &mut Vec<FileCall>) -> Result<String, AllocError>
    ensures calls { calls.new.items ≡ calls.old.items }
    ensures called { IfOk result (λ called. string_bytes called ≡ name.now) }
    ensures room { OnOk result (vec_len calls.new < vec_capacity calls.new) }
{
    let called = String::from_str(alloc, name)?;
    calls.reserve(1)?;
    Ok(called)
}

/// What a write takes memory for: the name of the call, the file, and a place for each.
fn ready_to_write(
    alloc: Global,
    name: &str,
    bytes: &[u8],
    calls: &mut Vec<FileCall>,
    files: &mut Vec<(String, Vec<u8>)>,
) -> Result<(String, (String, Vec<u8>)), AllocError>
    ensures calls { calls.new.items ≡ calls.old.items }
    ensures files { files.new.items ≡ files.old.items }
    ensures called { IfOk result (λ made. string_bytes made.0 ≡ name.now) }
    ensures file { IfOk result (λ made. (string_bytes made.1.0 ≡ name.now) ×
        (made.1.1.items ≡ bytes.now)) }
    ensures call_room { OnOk result (vec_len calls.new < vec_capacity calls.new) }
    ensures file_room { OnOk result (vec_len files.new < vec_capacity files.new) }
{
    let called = String::from_str(alloc, name)?;
    let stored = String::from_str(alloc, name)?;
    let content = Vec::from_slice(alloc, bytes)?;
    calls.reserve(1)?;
    files.reserve(1)?;
    Ok((called, (stored, content)))
}

impl MemoryFiles {
    /// These files. The reads and writes whose numbers from 0 the plan has are to fail.
    pub fn new(
        alloc: Global,
        files: Vec<(String, Vec<u8>)>,
        plan: Vec<u64>,
    ) -> Result<MemoryFiles, NoMemory>
        ensures { IfOk result (λ m. m ≡ files_with (map (λ f.
            (string_bytes f.0, f.1.items)) files.items) plan.items) }
    {
        Ok(MemoryFiles {
            files,
            plan,
            made: 0,
            probe_plan: Vec::new(alloc),
            probed: 0,
            faults: 0,
            calls: Vec::new(alloc),
            reads: Log::new(),
            alloc,
        })
    }

    /// The probes whose numbers from 0 the plan has are to fail.
    pub fn refuse_probes(&mut self, plan: Vec<u64>)
        ensures { self.new ≡ record self.old { probe_plan = plan.items } }
    {
        self.probe_plan = plan;
    }

    /// The calls so far, but those for which there was no memory.
    pub fn calls(&self) -> &[FileCall]
        ensures { map (λ c. record {
          name = string_bytes c.name;
          kind = c.kind;
          failed =
              c.failed;
        }) result.now ≡ self.now.calls }
    {
        self.calls.as_slice()
    }

    /// The bytes under a name, where there are any.
    pub fn bytes(&self, name: &str) -> Option<&Vec<u8>>
        ensures { option_map (λ v. v.now.items) result ≡ file_at name.now self.now.holds }
    {
        find(&self.files, name)
    }

    /// What the next read of the file ends in.
    fn look(&self, name: &str) -> Result<Vec<u8>, FilesStop>
        ensures { ReadEndsAs (λ v. v.items) (read_end self.now name.now) result }
    {
        if self.plan.contains(&self.made) {
            return Err(FilesStop::Failed);
        }
        let Some(bytes) = find(&self.files, name) else {
            return Err(FilesStop::Failed);
        };
        if bytes.len() > longest_of(bytes) {
            return Err(FilesStop::TooLong);
        }
        Ok(Vec::from_slice(self.alloc, bytes)?)
    }
}

impl Files for MemoryFiles {
    ghost use Rattle.lw_outside.specs.Memory.{told_files};

    ghost state = { told_files };

    fn read(&mut self, name: &str) -> Result<Vec<u8>, FilesStop>
        ensures every { FilesRead (λ bytes. bytes.items) name.now (told_files self.old)
            (told_files self.new) result }

        // By the plan and the files, and nothing else.
        ensures exact { ReadEndsAs (λ v. v.items) (read_end self.old name.now) result }
        ensures noted_ok { OnOk result (NotesCall self.old (read_call name.now false) self.new) }
        ensures noted_failed { result ≡ Err ReadRefusal.Failed →
            NotesCall self.old (read_call name.now true) self.new }
        ensures noted_long { result ≡ Err ReadRefusal.TooLong →
            NotesCall self.old (read_call name.now false) self.new }
        ensures unnoted { result ≡ Err ReadRefusal.NoMemory → self.new ≡ self.old }
    {
        let Ok(called) = ready_to_read(self.alloc, name, &mut self.calls) else {
            return Err(FilesStop::NoMemory);
        };
        match self.look(name) {
            Ok(bytes) => {
                self.made = self.made.saturating_add(1);
                self.reads = self.reads.and(&called, &bytes);
                self.calls.push_reserved(read_of(called, false));
                Ok(bytes)
            }
            Err(FilesStop::Failed) => {
                self.made = self.made.saturating_add(1);
                self.faults = self.faults.saturating_add(1);
                self.calls.push_reserved(read_of(called, true));
                Err(FilesStop::Failed)
            }
            Err(FilesStop::TooLong) => {
                self.made = self.made.saturating_add(1);
                self.calls.push_reserved(read_of(called, false));
                Err(FilesStop::TooLong)
            }
            Err(FilesStop::NoMemory) => Err(FilesStop::NoMemory),
        }
    }

    fn write(&mut self, name: &str, bytes: &[u8]) -> Result<(), WriteStop>
        ensures every { FilesWrite name.now bytes.now (told_files self.old) (told_files self.new)
            result }

        // By the plan, and nothing else.
        ensures planned { result ≡ Err WriteRefusal.Failed →
            is_planned self.old.plan self.old.made ≡ true }
        ensures unplanned { OnOk result (is_planned self.old.plan self.old.made ≡ false) }
        ensures unwritten { OnErr result (self.new.holds ≡ self.old.holds) }
        ensures noted_ok { OnOk result (NotesCall self.old (write_call name.now false) self.new) }
        ensures noted_failed { result ≡ Err WriteRefusal.Failed →
            NotesCall self.old (write_call name.now true) self.new }
        ensures unnoted { result ≡ Err WriteRefusal.NoMemory → self.new ≡ self.old }
    {
        let (called, file) = ready_to_write(
            self.alloc,
            name,
            bytes,
            &mut self.calls,
            &mut self.files,
        )?;
        let failed = self.plan.contains(&self.made);
        self.made = self.made.saturating_add(1);
        self.calls.push_reserved(write_of(called, failed));
        if failed {
            self.faults = self.faults.saturating_add(1);
            return Err(WriteStop::Failed);
        }
        self.files.push_reserved(file);
        Ok(())
    }

    fn probe(&mut self, name: &str) -> Result<(), WriteStop>
        ensures every { FilesProbe name.now (told_files self.old) (told_files self.new) result }

        // By the plan of probes, and nothing else.
        ensures planned { result ≡ Err WriteRefusal.Failed →
            is_planned self.old.probe_plan self.old.probed ≡ true }
        ensures unplanned { OnOk result
            (is_planned self.old.probe_plan self.old.probed ≡ false) }
        ensures noted_ok { OnOk result (NotesProbe self.old (probe_call name.now false) self.new) }
        ensures noted_failed { result ≡ Err WriteRefusal.Failed →
            NotesProbe self.old (probe_call name.now true) self.new }
        ensures unnoted { result ≡ Err WriteRefusal.NoMemory → self.new ≡ self.old }
    {
        let called = ready_to_read(self.alloc, name, &mut self.calls)?;
        let failed = self.probe_plan.contains(&self.probed);
        self.probed = self.probed.saturating_add(1);
        self.calls.push_reserved(probe_of(called, failed));
        if failed {
            self.faults = self.faults.saturating_add(1);
            return Err(WriteStop::Failed);
        }
        Ok(())
    }
}
