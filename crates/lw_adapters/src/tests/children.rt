//! Children that are programs of the system.
ghost use Rattle.std.specs.Prelude.{◌<◌, length, IfOk};

use crate::{Errors, RealSpawner, Sends};
use lw_outside::{Failed, Link, Spawner, StartStop};
use std::test::Fail;
use std::thread;

/// A command of one word.
fn command(rt: HostRuntime, name: &str) -> Result<Vec<String>, Fail>
    ensures { IfOk result (λ words. 0 < length words.items) }
{
    let mut words = Vec::new(rt.alloc());
    words.push(String::from_str(rt.alloc(), name)?)?;
    Ok(words)
}

fn fails_to_start(rt: HostRuntime, name: &str) -> Result<bool, Fail> {
    let mut spawner = RealSpawner::new(rt, Errors::Shared, None);
    let words = command(rt, name)?;
    Ok(matches!(spawner.start(&words), Err(StartStop::Failed)))
}

#[test]
fn programs_that_are_not_there(rt: HostRuntime) -> Result<(), Fail> {
    assert!(rt; fails_to_start(rt, "/no/such/program")?);
    assert!(rt; fails_to_start(rt, "no-such-program")?);
    assert!(rt; fails_to_start(rt, "/")?);
    Ok(())
}

#[test]
fn a_child_that_answers(rt: HostRuntime) -> Result<(), Fail> {
    let mut spawner = RealSpawner::new(rt, Errors::Shared, None);
    let words = command(rt, "cat")?;
    let Ok(mut link) = spawner.start(&words) else {
        return Err(Fail::from("cat was not started"));
    };
    let mut buffer = [0u8; 8];
    assert_eq!(rt; link.send(b"reset\n"), Ok(()));
    assert_eq!(rt; link.take(&mut buffer), Ok(6));
    assert_eq!(rt; &buffer[..6], b"reset\n".as_slice());
    spawner.retire(link);
    Ok(())
}

#[test]
fn a_child_that_has_ended(rt: HostRuntime) -> Result<(), Fail> {
    let mut spawner = RealSpawner::new(rt, Errors::Shared, None);
    let words = command(rt, "true")?;
    let Ok(mut link) = spawner.start(&words) else {
        return Err(Fail::from("true was not started"));
    };
    let mut buffer = [0u8; 8];
    assert_eq!(rt; link.take(&mut buffer), Ok(0));
    assert_eq!(rt; link.take(&mut buffer), Ok(0));
    spawner.retire(link);
    Ok(())
}

/// A shell that runs these lines.
fn shell(rt: HostRuntime, lines: &str) -> Result<Vec<String>, Fail>
    ensures { IfOk result (λ words. 0 < length words.items) }
{
    let mut words = command(rt, "sh")?;
    words.push(String::from_str(rt.alloc(), "-c")?)?;
    words.push(String::from_str(rt.alloc(), lines)?)?;
    Ok(words)
}

/// Its input is closed before it says so.
#[test]
fn a_child_that_closes_its_input(rt: HostRuntime) -> Result<(), Fail> {
    let mut spawner = RealSpawner::new(rt, Errors::Shared, None);
    let words = shell(rt, "exec <&-; echo x; exec sleep 1")?;
    let Ok(mut link) = spawner.start(&words) else {
        return Err(Fail::from("the shell was not started"));
    };
    let mut buffer = [0u8; 8];
    assert_eq!(rt; link.take(&mut buffer), Ok(2));
    assert_eq!(rt; link.send(b"reset\n"), Err(Failed));
    spawner.retire(link);
    Ok(())
}

/// The first would not end if the second held its input, nor the second if it had to put all that it writes.
#[test]
fn children_that_wait_at_their_pipes(rt: HostRuntime) -> Result<(), Fail> {
    let mut spawner = RealSpawner::new(rt, Errors::Shared, None);
    let (reading, writing) = (command(rt, "cat")?, command(rt, "yes")?);
    let reading = spawner.start(&reading);
    let writing = spawner.start(&writing);
    let (Ok(reading), Ok(writing)) = (reading, writing) else {
        return Err(Fail::from("they were not started"));
    };
    spawner.retire(reading);
    spawner.retire(writing);
    Ok(())
}

/// Sends until that fails, a hundred thousand bytes at the most.
fn send_on<L: Link>(link: &mut L) -> Result<(), Failed> {
    for _ in 0..10_000 {
        link.send(b"in letter\n")?;
    }
    Ok(())
}

/// A child that reads nothing: its pipe holds 65,536 bytes, and the send behind these ends only since it is watched.
#[test]
fn a_child_that_never_reads(rt: HostRuntime) -> Result<(), Fail> {
    let sends = Sends::new(rt.alloc())?;
    let theirs = sends.share()?;
    let _watcher = thread::spawn(&rt, move || theirs.watch(&rt));
    let mut spawner = RealSpawner::new(rt, Errors::Shared, Some(sends));
    let words = shell(rt, "exec sleep 20")?;
    let Ok(mut link) = spawner.start(&words) else {
        return Err(Fail::from("the shell was not started"));
    };
    assert_eq!(rt; send_on(&mut link), Err(Failed));
    assert_eq!(rt; link.send(b"reset\n"), Err(Failed));
    Ok(())
}
