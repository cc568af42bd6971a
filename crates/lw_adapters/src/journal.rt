//! The journal of the real program: a file to which the lines of many writers are appended, each by one write.
ghost use Rattle.std.specs.Prelude.{◌≡◌, ◌++◌, ℕ, List, true, false, IfOk, IfSome};
ghost use Rattle.std.specs.Io.KnownBytes.{Appends, Keeps};
ghost use Rattle.lw_json.specs.Journal.{is_journal};
ghost use Rattle.lw_adapters.specs.Journal.{AppendsLine, StartsLine, ends_run, has_run, is_scrap, next_place};
ghost use Rattle.lw_adapters.specs.declared.journal.Front.TheVariants as front;
ghost use Rattle.lw_adapters.specs.declared.journal.Put.TheVariants as put;

use crate::streams::{read_some, write_some};
use lw_json::is_journal;
use lw_outside::JournalStart;
use std::alloc::{AllocError, Global};
use std::fs::{self, File, Files, OpenFile, OpenOptions};
use std::io::{self, ErrorKind, Read, Seek, SeekFrom, Write};
use std::sync::Arc;
use std::sync::atomic::{AtomicBool, Ordering};

/// What a journal begins with.
const START: &[u8] = b"{\"format\":3,";

/// Why a file can't be a journal.
#[derive(Clone, Copy, Debug, PartialEq, Eq)]
pub enum JournalFault {
    /// It can't be made, read or appended to; or it is no regular file, as a folder, a pipe or a device.
    Failed,
    /// It is there and holds something else.
    Foreign,
}

/// What the first bytes of a file are those of.
#[derive(Clone, Copy, PartialEq, Eq)]
enum Front {
    Journal,
    /// A journal whose first line was cut. So is an empty file.
    Scrap,
    Foreign,
}

fn front_of(bytes: &[u8]) -> Front
    ensures journal { result ≡ front.Journal → is_journal bytes.now ≡ true }
    ensures scrap { result ≡ front.Scrap → (is_journal bytes.now ≡ false) ×
        (is_scrap bytes.now ≡ true) }
    ensures foreign { result ≡ front.Foreign → (is_journal bytes.now ≡ false) ×
        (is_scrap bytes.now ≡ false) }
{
    if is_journal(bytes) {
        return Front::Journal;
    }
    if START.starts_with(bytes) {
        return Front::Scrap;
    }
    Front::Foreign
}

/// What the file's first bytes are those of.
fn read_front<F: Read>(alloc: Global, file: &mut F) -> io::Result<Front> {
    let mut bytes = Vec::new(alloc);
    let _count = file
        .by_ref()
        .take(START.len() as u64)
        .read_to_end(&mut bytes)?;
    Ok(front_of(&bytes))
}

/// Whether a byte ends the line of a run: the line feed behind a quote and a bracket, of which `place` stand before it.
fn ends_run(place: u8, byte: u8) -> bool
    ensures { result ≡ ends_run place byte }
{
    if place != 2 {
        return false;
    }
    byte == b'\n'
}

/// How many of a quote and a bracket stand before what follows a byte.
fn next_place(place: u8, byte: u8) -> u8
    ensures { result ≡ next_place place byte }
{
    if byte == b'"' {
        return 1;
    }
    if place != 1 {
        return 0;
    }
    if byte == b']' { 2 } else { 0 }
}

/// Whether the line of a run ends among these bytes, before which so many of a quote and a bracket stand; then it says how many
/// stand behind them.
fn has_run(piece: &[u8], place: &mut u8) -> bool
    ensures found { result ≡ true → (rest : List ℕ) →
        has_run place.old (piece.now ++ rest) ≡ true }
    ensures none { result ≡ false → (rest : List ℕ) →
        has_run place.old (piece.now ++ rest) ≡ has_run place.new rest }
{
    for byte in piece {
        if ends_run(*place, *byte) {
            return true;
        }
        *place = next_place(*place, *byte);
    }
    false
}

/// Whether what is left of a file has the whole line of a run. One that was cut doesn't count.
fn finds_run<F: Read>(file: &mut F) -> io::Result<bool>
    ensures { IfOk result (λ found. IfSome (F.remaining file.old)
        (λ bytes. found ≡ has_run 0 bytes)) }
{
    let mut place = 0;
    let mut page = [0u8; 4096];
    for _ in 0..u64::MAX {
        let count = read_some(file, &mut page)?;
        if count == 0 {
            return Ok(false);
        }
        if has_run(&page[..count], &mut place) {
            return Ok(true);
        }
    }
    Err(io::Error::from(ErrorKind::FileTooLarge))
}

/// Whether a file's last byte ends a line.
fn ends_a_line<F: Read + Seek>(file: &mut F) -> io::Result<bool> {
    let mut last = [0u8; 1];
    file.seek(SeekFrom::End(-1))?;
    file.read_exact(&mut last)?;
    Ok(last[0] == b'\n')
}

/// Says what a file holds, and mends its end: a head that was cut goes, and a line that was cut is ended.
fn mend<F: Read + Write + Seek + OpenFile>(
    alloc: Global,
    file: &mut F,
) -> io::Result<JournalStart> {
    match read_front(alloc, file)? {
        Front::Journal => {
            let runs = finds_run(file)?;
            if !ends_a_line(file)? {
                file.write_all(b"\n")?;
            }
            if runs {
                Ok(JournalStart::Resumes)
            } else {
                Ok(JournalStart::Fresh)
            }
        }
        Front::Scrap => {
            file.set_len(0)?;
            Ok(JournalStart::Fresh)
        }
        Front::Foreign => Err(io::Error::from(ErrorKind::InvalidData)),
    }
}

/// Opens the file of a journal, and makes it where it isn't there. What is no journal is left as it is.
fn open_file<R: Files<File = File> + AllocGlobal>(
    rt: &R,
    name: &str,
) -> io::Result<(Writer<File>, JournalStart)> {
    let mut file = OpenOptions::new()
        .read(true)
        .append(true)
        .create(true)
        .open(rt, name)?;
    if !file.metadata()?.is_file() {
        return Err(io::Error::from(ErrorKind::InvalidInput));
    }
    let start = mend(rt.alloc(), &mut file)?;
    Ok((Writer::new(rt.alloc(), file)?, start))
}

/// What all writers of a journal know of it.
#[derive(Drop)]
struct Marks {
    /// Lines are missing.
    lacks: AtomicBool,
    /// What the lines stand behind is missing, so no more are put.
    shut: AtomicBool,
    /// The last line was cut. A writer that puts a line at that moment may put it right behind; then that one is lost too.
    torn: AtomicBool,
}

impl Marks {
    fn miss(&self) {
        self.lacks.store(true, Ordering::SeqCst);
    }
}

/// What became of a line.
#[derive(Clone, Copy, PartialEq, Eq)]
enum Put {
    Whole,
    Torn,
    Nothing,
}

/// Puts a line by one write.
fn put_line<W: Write>(file: &mut W, line: &[u8]) -> Put
    ensures whole { result ≡ put.Whole →
        Appends (W.contents file.old) (W.contents file.new) line.now }
    ensures nothing { result ≡ put.Nothing →
        Keeps (W.contents file.old) (W.contents file.new) }
{
    match write_some(file, line) {
        Ok(count) if count == line.len() => Put::Whole,
        Ok(_) => Put::Torn,
        Err(_) => Put::Nothing,
    }
}

/// One of the writers of a journal.
#[derive(Drop)]
pub(crate) struct Writer<W: Write> {
    file: W,
    marks: Arc<Marks, Global>,
}

impl<W: Write + Drop> Writer<W> {
    pub(crate) fn new(alloc: Global, file: W) -> Result<Writer<W>, AllocError>
        ensures { IfOk result (λ w. w.file ≡ file) }
    {
        let marks = Marks {
            lacks: AtomicBool::new(false),
            shut: AtomicBool::new(false),
            torn: AtomicBool::new(false),
        };
        let marks = Arc::new(alloc, marks)?;
        Ok(Writer { file, marks })
    }

    /// Whether lines are missing, of this writer or another.
    pub(crate) fn lacks_lines(&self) -> bool {
        self.marks.lacks.load(Ordering::SeqCst)
    }

    /// No line is put any more, by this writer or another.
    fn shut(&self) {
        self.marks.shut.store(true, Ordering::SeqCst);
    }

    /// Ends a line that was cut, of this writer or another. Says whether the next line begins anew.
    fn begin_line(&mut self) -> bool
        ensures { result ≡ true → StartsLine (W.contents self.old.file)
            (W.contents self.new.file) }
    {
        if !self.marks.torn.load(Ordering::SeqCst) {
            return true;
        }
        if put_line(&mut self.file, b"\n") != Put::Whole {
            return false;
        }
        self.marks.torn.store(false, Ordering::SeqCst);
        true
    }

    /// Appends a line by one write, behind a line feed where the line before was cut. Says whether it stands whole.
    fn put(&mut self, line: &[u8]) -> bool
        ensures { result ≡ true → AppendsLine (W.contents self.old.file)
            (W.contents self.new.file) line.now }
    {
        if self.marks.shut.load(Ordering::SeqCst) || !self.begin_line() {
            return false;
        }
        match put_line(&mut self.file, line) {
            Put::Whole => true,
            Put::Torn => {
                self.marks.torn.store(true, Ordering::SeqCst);
                false
            }
            Put::Nothing => false,
        }
    }

    /// Appends a line. One that isn't there, or can't be written whole, is missing. Says whether it stands.
    pub(crate) fn append(&mut self, line: Option<&[u8]>) -> bool {
        let whole = match line {
            Some(line) => self.put(line),
            None => false,
        };
        if !whole {
            self.marks.miss();
        }
        whole
    }
}

/// The journal of a program's runs.
#[derive(Drop)]
pub(crate) enum Journal {
    /// There is none.
    Unused,
    Open {
        writer: Writer<File>,
        start: JournalStart,
    },
    /// It couldn't be opened, so all its lines are missing.
    Lost,
}

impl Journal {
    /// Opens the journal of this name, makes it where it isn't there, and mends its end.
    pub(crate) fn open<R: Files<File = File> + AllocGlobal>(
        rt: &R,
        name: &str,
    ) -> Result<Journal, JournalFault> {
        match open_file(rt, name) {
            Ok((writer, start)) => Ok(Journal::Open { writer, start }),
            Err(error) if error.kind() == ErrorKind::InvalidData => Err(JournalFault::Foreign),
            Err(_) => Err(JournalFault::Failed),
        }
    }

    /// What it held when it was opened; nothing where it is lost.
    pub(crate) fn start(&self) -> JournalStart {
        match self {
            Journal::Open { writer: _, start } => *start,
            Journal::Unused | Journal::Lost => JournalStart::Fresh,
        }
    }

    /// Appends a line behind which others stand, as a head. Where it is missing no more are put, so that what is there can be read.
    pub(crate) fn append(&mut self, line: Option<&[u8]>) {
        if let Journal::Open { writer, start: _ } = self {
            if !writer.append(line) {
                writer.shut();
            }
        }
    }

    pub(crate) fn lacks_lines(&self) -> bool {
        match self {
            Journal::Unused => false,
            Journal::Open { writer, start: _ } => writer.lacks_lines(),
            Journal::Lost => true,
        }
    }

    /// A writer of its own for a link. None where no journal is open; where one is, and there is no descriptor for the link, the
    /// link's lines are missing.
    pub(crate) fn writer(&self) -> Result<Option<Writer<File>>, AllocError> {
        let Journal::Open { writer, start: _ } = self else {
            return Ok(None);
        };
        let marks = Arc::try_clone(&writer.marks)?;
        match writer.file.try_clone() {
            Ok(file) => Ok(Some(Writer { file, marks })),
            Err(_) => {
                marks.miss();
                Ok(None)
            }
        }
    }
}
