//! Child programs as a call is handed them: what starts them, and what ends them. The links to them tell what went over them.
ghost use Rattle.std.specs.Prelude.{◌≡◌, ◌<◌, [], length, map, Some, IfOk, string_bytes};
ghost use Rattle.std.specs.List.{All};
ghost use Rattle.lw_outside.specs.Links.{LinkState};
ghost use Rattle.lw_adapters.specs.Recorded.{bytes_of, told_pipes};

use crate::journal::{Journal, JournalFault};
use crate::pipe_link::PipeLink;
use crate::watch::{Sends, Watched};
use http_server::Log;
use lw_outside::{JournalStart, Spawner, StartFailure, StartStop, copy_words};
use std::alloc::{AllocError, Global};
use std::fs::{self, File, Files};
use std::io::{self, ErrorKind, PipeReader, PipeWriter};
use std::os::fd::AsRawFd;
use std::process::{Child, Command, Processes, Stdio, SystemProcess};

/// A link to a child program, by its standard input and output.
pub type RealLink = PipeLink<PipeWriter, PipeReader>;

/// Where the standard error of children goes.
#[derive(Clone, Copy, Debug, PartialEq, Eq)]
pub enum Errors {
    /// Where that of the program goes.
    Shared,
    /// Nowhere: the program has none.
    Dropped,
}

/// What starts child programs. The links that it has retired, and the words of its starts, are for contracts alone.
#[derive(Drop)]
pub struct RealSpawner<R> {
    rt: R,
    errors: Errors,
    started: u64,
    faults: u64,
    cause: StartFailure,
    children: Vec<Child>,
    sends: Option<Sends>,
    journal: Journal,
    commands: Log<Vec<String>, ()>,
    retired: Log<RealLink, ()>,
    ghost earlier: { All (λ r. r.0.number < started) retired.items },
}

impl<R: AllocGlobal> RealSpawner<R> {
    /// Nothing is started yet, and no journal is open. What is sent to children is watched where there is something that does.
    pub fn new(rt: R, errors: Errors, sends: Option<Sends>) -> RealSpawner<R>
        ensures runtime { result.rt ≡ rt }
        ensures started { result.started ≡ 0 }
        ensures faults { result.faults ≡ 0 }
        ensures commands { result.commands.items ≡ [] }
        ensures retired { result.retired.items ≡ [] }
    {
        let children = Vec::new(rt.alloc());
        RealSpawner {
            rt,
            errors,
            started: 0,
            faults: 0,
            cause: StartFailure::Unknown,
            children,
            sends,
            journal: Journal::Unused,
            commands: Log::new(),
            retired: Log::new(),
        }
    }

    /// How many children were started: their numbers are those below.
    pub fn children(&self) -> usize {
        self.children.len()
    }

    /// Whether the child of this number hasn't ended yet.
    pub fn goes_on(&mut self, number: usize) -> bool {
        match self.children.get_mut(number) {
            Some(child) => matches!(child.try_wait(), Ok(None)),
            None => false,
        }
    }

    /// Waits for the end of the child of this number, as long as it goes on and doesn't mind that its pipes are closed. No fault
    /// here is counted.
    pub fn wait_for_end(&mut self, number: usize) {
        if let Some(child) = self.children.get_mut(number) {
            let _status = child.wait();
        }
    }
}

impl<R: Files<File = File> + AllocGlobal> RealSpawner<R> {
    /// Opens the journal of this name and mends its end, so that what stands against it is known before anything is done. What it
    /// held is told when a call opens it.
    pub fn prepare_journal(&mut self, name: &str) -> Result<(), JournalFault> {
        self.journal = Journal::open(&self.rt, name)?;
        Ok(())
    }
}

impl<R> RealSpawner<R> {
    /// For the proof alone: each link that was retired was started before.
    fn keeps_earlier(&self)
        ensures { All (λ (r : LinkState). r.number < self.now.started)
            (map (λ r. told_pipes r.0.number r.0.faults r.0.output.ends r.0.input.taken.items
            r.0.output.given.items) self.now.retired.items) }
    {
        let _ = &self.started;
    }
}

/// The variable that tells a child how many children this call of the program had started before it: workers that share a
/// machine keep apart by it, in their ports, folders and keys.
const INSTANCE: &str = "NOFJAND_INSTANCE";

/// What starts the program of the first word with the others as its arguments. Its environment is that of this program with its
/// number besides.
fn command_of(alloc: Global, words: &[String], number: u64) -> io::Result<Command> {
    let Some((program, arguments)) = words.split_first() else {
        return Err(io::Error::from(ErrorKind::NotFound));
    };
    let mut command = Command::new(alloc, program)?;
    for argument in arguments {
        command.arg(argument)?;
    }
    let instance = format!(in alloc; "{number}")?;
    command.env(INSTANCE, instance.as_str())?;
    Ok(command)
}

/// The sends of the link of this number, if any are watched.
fn watched(
    sends: &Option<Sends>,
    number: u64,
    input: &PipeWriter,
) -> Result<Option<Watched>, AllocError> {
    let Some(sends) = sends else {
        return Ok(None);
    };
    let pipe = u64::try_from(input.as_raw_fd()).unwrap_or(u64::MAX);
    Ok(Some(Watched::new(sends.share()?, number, pipe)))
}

/// Starts a program with a new pipe each for its input and its output. It has no other descriptor, so none of another child's
/// pipes, but for the standard error that it shares.
fn start_child<R: Files + Processes<Started = SystemProcess> + AllocGlobal>(
    rt: &R,
    words: &[String],
    errors: Errors,
    number: u64,
    sends: &Option<Sends>,
    journal: &Journal,
) -> io::Result<(Child, RealLink)>
    ensures counts { IfOk result (λ r. (r.1.number ≡ number) × (r.1.faults ≡ 0) ×
        (r.1.output.ends ≡ 0)) }
    ensures untouched { IfOk result (λ r. (bytes_of r.1.input.taken.items ≡ []) ×
        (bytes_of r.1.output.given.items ≡ [])) }
{
    let mut command = command_of(rt.alloc(), words, number)?;
    let (their_input, input) = io::pipe(rt)?;
    let (output, their_output) = io::pipe(rt)?;
    command.stdin(Stdio::from(their_input));
    command.stdout(Stdio::from(their_output));
    if errors == Errors::Dropped {
        command.stderr(Stdio::null());
    }
    let watched = watched(sends, number, &input)?;
    let journal = journal.writer()?;
    let child = command.spawn(rt)?;
    let link = PipeLink::watched(number, input, output, watched, journal);
    Ok((child, link))
}

/// Whether the program of these words is a folder. A name without a slash is looked for on the path, where folders are passed over.
fn is_folder<R: Files>(rt: &R, words: &[String]) -> bool {
    match words.first() {
        Some(program) if program.contains('/') => match fs::metadata(rt, program) {
            Ok(metadata) => metadata.is_dir(),
            Err(_) => false,
        },
        _ => false,
    }
}

/// What an error at a start says. Of a folder the system says that it may not be run.
fn failure_of<R: Files>(rt: &R, words: &[String], error: &io::Error) -> StartFailure {
    match error.kind() {
        ErrorKind::NotFound => StartFailure::NotFound,
        ErrorKind::PermissionDenied if is_folder(rt, words) => StartFailure::Folder,
        ErrorKind::PermissionDenied => StartFailure::NotExecutable,
        _ => match error.raw_os_error() {
            Some(code) => u32::try_from(code).map_or(StartFailure::Unknown, StartFailure::System),
            None => StartFailure::Unknown,
        },
    }
}

impl<R: Files<File = File> + Processes<Started = SystemProcess> + AllocGlobal> Spawner
    for RealSpawner<R> {
    type Link = RealLink;

    ghost use Rattle.std.specs.Prelude.{Some, map, string_bytes};
    ghost use Rattle.lw_adapters.specs.Recorded.{told_pipes};

    ghost state = { λ s. record {
      faults = s.faults;
      started = s.started;
      retired = map (λ r. told_pipes r.0.number r.0.faults r.0.output.ends r.0.input.taken.items
          r.0.output.given.items) s.retired.items;
      commands = Some (map (λ c. map (λ w. string_bytes w) c.0.items) s.commands.items);
      cause = s.cause;
    } };

    fn failure(&self) -> StartFailure {
        self.cause
    }

    /// A first word without a slash is looked for in the folders of the path. What isn't there, may not be run, is a folder or no
    /// program that the system knows is `Failed`.
    fn start(&mut self, words: &[String]) -> Result<RealLink, StartStop> {
        self.keeps_earlier();
        let words = copy_words(self.rt.alloc(), words)?;
        self.children.reserve(1)?;
        let Some(started) = self.started.checked_add(1) else {
            return Err(StartStop::NoMemory);
        };
        match start_child(
            &self.rt,
            words.as_slice(),
            self.errors,
            self.started,
            &self.sends,
            &self.journal,
        ) {
            Ok((child, link)) => {
                let Ok(()) = self.children.push(child) else {
                    unreachable!();
                };
                self.started = started;
                self.commands = self.commands.and(&words, &());
                Ok(link)
            }
            Err(error) if error.kind() == ErrorKind::OutOfMemory => Err(StartStop::NoMemory),
            Err(error) => {
                self.cause = failure_of(&self.rt, words.as_slice(), &error);
                self.commands = self.commands.and(&words, &());
                self.faults = self.faults.saturating_add(1);
                Err(StartStop::Failed)
            }
        }
    }

    /// Closes both pipes, so that a child that waits at one of them goes on to its end. `wait_for_end` waits for that end.
    fn retire(&mut self, link: RealLink) {
        self.retired = self.retired.and(&link, &());
    }

    /// Of a journal that can't be opened all lines are missing.
    fn open_journal(&mut self, name: &str) -> JournalStart {
        if matches!(self.journal, Journal::Unused) {
            self.journal = Journal::open(&self.rt, name).unwrap_or(Journal::Lost);
        }
        self.journal.start()
    }

    fn append_line(&mut self, line: Option<&[u8]>) {
        self.journal.append(line);
    }

    fn lacks_lines(&self) -> bool {
        self.journal.lacks_lines()
    }
}
