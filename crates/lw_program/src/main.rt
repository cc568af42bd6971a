//! The program: makes the real files and streams and what starts children, calls the top call, waits for the children, and ends
//! with the call's status.
#![tactic(auto)]

use lw_adapters::{
    Errors, Input, JournalFault, RealFiles, RealLog, RealSpawner, Sends, Stream, is_among,
    two_names,
};
use lw_learn::LearnArguments;
use lw_log::Log;
use lw_outside::{LogFile, Sink, Spawner, World, put_all};
use lw_top::{accept_arguments, learn_arguments, run, without_arguments};
use lw_words::NoMemory;
use std::alloc::Global;
use std::fs::{self, File};
use std::io::{self, ErrorKind};
use std::os::fd::AsRawFd;
use std::process::ExitCode;
use std::thread::Threads;
use std::time::Duration;
use std::{env, thread};

/// The arguments of the command line after the program's own name; none where they aren't text.
fn arguments(rt: &HostRuntime) -> io::Result<Vec<String>> {
    let mut arguments: Vec<String> = match env::args(rt) {
        Ok(all) => all.collect(rt.alloc())?,
        Err(error) if error.kind() == ErrorKind::OutOfMemory => return Err(error),
        Err(_) => Vec::new(rt.alloc()),
    };
    if !arguments.is_empty() {
        let _program = arguments.remove(0);
    }
    Ok(arguments)
}

/// The root folder, opened: it can be neither read nor written as a file is.
fn root_folder(rt: HostRuntime) -> Option<File> {
    fs::open(&rt, "/").ok()
}

/// Whether the folder took the place of standard error.
fn is_for_errors(folder: &Option<File>) -> bool {
    match folder {
        Some(folder) => folder.as_raw_fd() == 2,
        None => false,
    }
}

/// What `learn` or `accept` would be handed; none of other commands, and of arguments that aren't taken.
fn learning(alloc: Global, arguments: &[String]) -> Option<LearnArguments> {
    match arguments.first()?.as_str() {
        "learn" => learn_arguments(alloc, arguments).ok(),
        "accept" => accept_arguments(alloc, arguments).ok(),
        _ => None,
    }
}

/// Puts these texts, as far as the stream takes them.
fn tell<E: Sink>(err: &mut E, texts: &[&str]) {
    for text in texts {
        if put_all(err, text.as_bytes()).is_err() {
            return;
        }
    }
}

/// The status of a call that names a file for this and for something else too, by the same name, which is reported.
fn refuse_shared<E: Sink>(
    rt: &HostRuntime,
    name: Option<&str>,
    this: &str,
    others: &[Option<&str>],
    err: &mut E,
) -> Option<u8> {
    let name = name?;
    if !is_among(rt, name, others) {
        return None;
    }
    tell(err, &["one file for ", this, " and another: ", name, "\n"]);
    Some(2)
}

/// The status of a learning that names a file by two names, which is reported.
fn refuse_names<E: Sink>(rt: &HostRuntime, arguments: &LearnArguments, err: &mut E) -> Option<u8> {
    let (model, answers, kept) = (arguments.model(), arguments.answers(), arguments.kept());
    let (last, words, log) = (arguments.last(), arguments.words(), arguments.log());
    let journal = arguments.journal();
    let others = [Some(arguments.system()), arguments.prior()];
    let named = [model, answers, kept, last, log, journal, words];
    let names = two_names(rt, &named, &others)?;
    let (name, other) = (names.name, names.other);
    tell(
        err,
        &["one file under two names: ", name, ", ", other, "\n"],
    );
    Some(2)
}

/// The status of a learning that names a file twice, which is reported: by two names, or by one as its log, its journal, its last
/// machine, its kept answers or its words and for something else. Kept answers may have the name of the prior ones, and the answers
/// that of the model.
fn refuse_files<E: Sink>(rt: &HostRuntime, arguments: &LearnArguments, err: &mut E) -> Option<u8> {
    if let Some(status) = refuse_names(rt, arguments, err) {
        return Some(status);
    }
    let (model, answers, kept) = (arguments.model(), arguments.answers(), arguments.kept());
    let (prior, words, log) = (arguments.prior(), arguments.words(), arguments.log());
    let (system, last) = (Some(arguments.system()), arguments.last());
    let journal = arguments.journal();
    let others = [model, answers, system, prior, words, kept, last, journal];
    if let Some(status) = refuse_shared(rt, log, "the log", &others, err) {
        return Some(status);
    }
    let others = [model, answers, system, prior, words, kept, last];
    if let Some(status) = refuse_shared(rt, journal, "the journal", &others, err) {
        return Some(status);
    }
    let others = [model, answers, system, prior, words, kept];
    if let Some(status) = refuse_shared(rt, last, "the last machine", &others, err) {
        return Some(status);
    }
    let others = [model, answers, system, words];
    if let Some(status) = refuse_shared(rt, kept, "the kept answers", &others, err) {
        return Some(status);
    }
    let others = [model, answers, system, prior];
    refuse_shared(rt, words, "the words", &others, err)
}

/// The status of a learning whose journal can't be opened, or is none, which is reported.
fn refuse_journal<E: Sink>(
    spawner: &mut RealSpawner<HostRuntime>,
    name: Option<&str>,
    err: &mut E,
) -> Option<u8> {
    match spawner.prepare_journal(name?) {
        Ok(()) => None,
        Err(JournalFault::Foreign) => {
            tell(err, &["bad file journal: no journal\n"]);
            Some(3)
        }
        Err(JournalFault::Failed) => {
            tell(err, &["file fault: journal\n"]);
            Some(8)
        }
    }
}

/// The status of a learning that can't begin by the files that it names, which is reported; else its journal is opened. None of any
/// other call.
fn refuse<E: Sink>(
    rt: &HostRuntime,
    arguments: &[String],
    spawner: &mut RealSpawner<HostRuntime>,
    err: &mut E,
) -> Option<u8> {
    let arguments = learning(rt.alloc(), arguments)?;
    if let Some(status) = refuse_files(rt, &arguments, err) {
        return Some(status);
    }
    refuse_journal(spawner, arguments.journal(), err)
}

/// What is sent to children, with a thread that looks at it as long as the program runs; nothing where there can be no such thread.
fn watched(threads: &impl Threads, rt: HostRuntime) -> Option<Sends> {
    let sends = Sends::new(rt.alloc()).ok()?;
    let theirs = sends.share().ok()?;
    let _watcher = thread::spawn(threads, move || theirs.watch(&rt)).ok()?;
    Some(sends)
}

/// That the end of the child of this number is waited for.
fn waiting_note(alloc: Global, number: usize) -> Result<String, NoMemory> {
    Ok(format!(in alloc; "waiting for instance {number} to end\n")?)
}

/// Whether the child of this number goes on for half a second from now.
fn is_slow(rt: &HostRuntime, spawner: &mut RealSpawner<HostRuntime>, number: usize) -> bool {
    for _ in 0..50 {
        if !spawner.goes_on(number) {
            return false;
        }
        thread::sleep(rt, Duration::from_millis(10));
    }
    true
}

/// Waits for the end of each child that was started, and notes each that makes it wait.
fn wait_for_ends<L: LogFile, N: Sink>(
    rt: &HostRuntime,
    spawner: &mut RealSpawner<HostRuntime>,
    log: &mut Log<L, N>,
) {
    for number in 0..spawner.children() {
        if log.is_verbose() && is_slow(rt, spawner, number) {
            log.note(waiting_note(rt.alloc(), number));
        }
        spawner.wait_for_end(number);
    }
}

fn main(rt: HostRuntime) -> ExitCode {
    let alloc: Global = rt.alloc();
    // What is opened takes the least number that is free. Where standard streams are closed the folder takes theirs, so that no
    // file and no pipe does, and they fail as closed ones do.
    let (first, second, third) = (root_folder(rt), root_folder(rt), root_folder(rt));
    let errors = if is_for_errors(&first) || is_for_errors(&second) || is_for_errors(&third) {
        Errors::Dropped
    } else {
        Errors::Shared
    };
    let mut world = World {
        files: RealFiles::new(rt),
        spawner: RealSpawner::new(rt, errors, watched(&rt, rt)),
        input: Input::new(rt.stdin()),
        out: Stream::new(rt.stdout()),
        err: Stream::new(rt.stderr()),
        log: Log::new(alloc, RealLog::new(rt), Stream::new(rt.stderr())),
    };
    let status = match arguments(&rt) {
        Ok(arguments) => match refuse(&rt, &arguments, &mut world.spawner, &mut world.err) {
            Some(status) => status,
            None => run(rt, alloc, &arguments, &mut world).status,
        },
        Err(_) => without_arguments(alloc, &mut world.err).status,
    };
    wait_for_ends(&rt, &mut world.spawner, &mut world.log);
    if world.spawner.lacks_lines() {
        tell(&mut world.err, &["journal fault\n"]);
    }
    ExitCode::from(status)
}
