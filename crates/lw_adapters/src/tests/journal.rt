//! Journals: files of the system, and streams that take a line in part or not at all.

use super::shaky::{Shaky, Turn};
use crate::JournalFault;
use crate::journal::{Journal, Writer};
use lw_outside::JournalStart;
use std::alloc::Global;
use std::fs::{self, OpenOptions};
use std::io;
use std::process::{self, Abort};
use std::test::Fail;

/// What a file holds, what it says when it is opened, and what it holds with a line more.
static CASES: [(&str, JournalStart, &str); 8] = [
    ("", JournalStart::Fresh, "[1]\n"),
    ("{\"forma", JournalStart::Fresh, "[1]\n"),
    (
        "{\"format\":3,[\n",
        JournalStart::Fresh,
        "{\"format\":3,[\n[1]\n",
    ),
    (
        "{\"format\":3,\n[0,\"\"]\n",
        JournalStart::Resumes,
        "{\"format\":3,\n[0,\"\"]\n[1]\n",
    ),
    (
        "{\"format\":3,\n[0,\"\"]\n[2",
        JournalStart::Resumes,
        "{\"format\":3,\n[0,\"\"]\n[2\n[1]\n",
    ),
    // No run that was cut counts, now or once its line is ended.
    (
        "{\"format\":3,\n[0,\"",
        JournalStart::Fresh,
        "{\"format\":3,\n[0,\"\n[1]\n",
    ),
    (
        "{\"format\":3,\"]}\n[0,\"\"\n",
        JournalStart::Fresh,
        "{\"format\":3,\"]}\n[0,\"\"\n[1]\n",
    ),
    (
        "{\"format\":3,\"na",
        JournalStart::Fresh,
        "{\"format\":3,\"na\n[1]\n",
    ),
];

/// A name that no other test has.
fn name_of(rt: HostRuntime, name: &str) -> Result<String, Fail> {
    let id = process::id(rt.process());
    Ok(format!(in rt.alloc(); "/tmp/lw-adapters-{id}-{name}")?)
}

/// Opens a journal and appends a line to it. Says what it was told, and whether lines are missing.
fn append_one(rt: HostRuntime, name: &str) -> Result<(JournalStart, bool), JournalFault> {
    let mut journal = Journal::open(&rt, name)?;
    journal.append(Some(b"[1]\n"));
    Ok((journal.start(), journal.lacks_lines()))
}

/// Whether the file of this name holds this.
fn holds(rt: HostRuntime, name: &str, text: &str) -> io::Result<bool> {
    Ok(fs::read(&rt, name)?.as_slice() == text.as_bytes())
}

/// Whether a file with this text can be a journal and goes on as one.
fn goes_on(rt: HostRuntime, name: &str, case: &(&str, JournalStart, &str)) -> io::Result<bool> {
    fs::write(&rt, name, case.0)?;
    let told = append_one(rt, name) == Ok((case.1, false));
    Ok(told && holds(rt, name, case.2)?)
}

#[test]
fn journals_that_go_on(rt: HostRuntime) -> Result<(), Fail> {
    let name = name_of(rt, "goes-on")?;
    for case in &CASES {
        assert!(rt; goes_on(rt, name.as_str(), case)?);
    }
    fs::remove_file(&rt, name.as_str())?;
    Ok(())
}

#[test]
fn a_journal_that_is_not_there(rt: HostRuntime) -> Result<(), Fail> {
    let name = name_of(rt, "new")?;
    assert!(rt; append_one(rt, name.as_str()) == Ok((JournalStart::Fresh, false)));
    assert!(rt; holds(rt, name.as_str(), "[1]\n")?);
    fs::remove_file(&rt, name.as_str())?;
    Ok(())
}

#[test]
fn files_that_are_no_journals(rt: HostRuntime) -> Result<(), Fail> {
    let name = name_of(rt, "foreign")?;
    fs::write(&rt, name.as_str(), "{\"format\":2,\n")?;
    assert!(rt; append_one(rt, name.as_str()) == Err(JournalFault::Foreign));
    assert!(rt; holds(rt, name.as_str(), "{\"format\":2,\n")?);
    fs::remove_file(&rt, name.as_str())?;
    for name in [
        "/tmp",
        "/dev/null",
        "/dev/full",
        "/no/such/folder/journal",
        "",
    ] {
        assert!(rt; append_one(rt, name) == Err(JournalFault::Failed));
    }
    Ok(())
}

/// A device that takes nothing.
#[test]
fn a_journal_that_is_full(rt: HostRuntime) -> Result<(), Fail> {
    let file = OpenOptions::new().append(true).open(&rt, "/dev/full")?;
    let mut writer = Writer::new(rt.alloc(), file)?;
    assert!(rt; !writer.lacks_lines());
    assert!(rt; !writer.append(Some(b"[1]\n")));
    assert!(rt; writer.lacks_lines());
    Ok(())
}

/// What a stream holds behind two lines, where it takes a turn of this kind at its first call; and whether lines are missing.
fn two_lines(rt: &impl Abort, alloc: Global, turn: Turn) -> (bool, Vec<u8>) {
    let mut stream = Shaky::new(alloc, turn, 0);
    let mut writer = Writer::new(alloc, &mut stream).expect(rt, "memory");
    let _first = writer.append(Some(b"[]\n"));
    let _second = writer.append(Some(b"[]\n"));
    let lacks = writer.lacks_lines();
    drop(writer);
    (lacks, stream.into_bytes())
}

/// Whether lines are missing, and the stream holds this.
fn leaves(rt: &impl Abort, alloc: Global, turn: Turn, lacks: bool, text: &str) -> bool {
    let left = two_lines(rt, alloc, turn);
    left.0 == lacks && left.1.as_slice() == text.as_bytes()
}

#[test]
fn lines_that_are_not_taken_whole(rt: HostRuntime) {
    assert!(rt; leaves(&rt, rt.alloc(), Turn::Interrupted, false, "[]\n[]\n"));
    assert!(rt; leaves(&rt, rt.alloc(), Turn::Short, true, "[\n[]\n"));
    assert!(rt; leaves(&rt, rt.alloc(), Turn::Broken, true, "[]\n"));
}

#[test]
fn a_line_that_there_is_no_memory_for(rt: HostRuntime) -> Result<(), Fail> {
    let mut writer = Writer::new(rt.alloc(), Shaky::new(rt.alloc(), Turn::Short, 99))?;
    assert!(rt; !writer.append(None));
    assert!(rt; writer.lacks_lines());
    Ok(())
}
