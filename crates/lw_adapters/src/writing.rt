//! Writing a file so that it stands: the text is put beside the file and handed to the disk, and takes the file's name only
//! when it is whole. And trying beforehand whether that could be done.

ghost use Rattle.std.specs.Prelude.{OnOk};
ghost use Rattle.std.specs.Io.KnownBytes.{Appends};

use crate::names::behind_links;
use std::fs::{self, FileType, Files, Metadata, OpenFile, OpenOptions};
use std::io::{self, ErrorKind, Write};
use std::os::unix::fs::{FileTypeExt, MetadataExt};

/// How many names are tried for the file beside.
const NAMES: u32 = 64;

/// Puts the bytes under the name. What isn't there yet, and a file that has no other name, is written beside and renamed, so
/// that what was there stays until the new text is whole; a pipe, a device, a link, a file that something is mounted on, and one
/// in a folder that takes no new one, are written in place.
pub(crate) fn write_file<R: Files + AllocGlobal>(
    rt: &R,
    name: &str,
    bytes: &[u8],
) -> io::Result<()> {
    let old = match fs::symlink_metadata(rt, name) {
        Ok(old) if old.is_file() && old.nlink() == 1 => {
            // One that may not be written isn't replaced either.
            let _old = OpenOptions::new().write(true).open(rt, name)?;
            Some(old)
        }
        Err(error) if error.kind() == ErrorKind::NotFound => None,
        _ => return write_in_place(rt, name, bytes),
    };
    let Some((beside, mut file)) = make_beside(rt, name)? else {
        return write_in_place(rt, name, bytes);
    };
    if !is_like(&file, old) {
        let _removed = fs::remove_file(rt, &beside);
        return write_in_place(rt, name, bytes);
    }
    let written = put_whole(&mut file, bytes);
    drop(file);
    match written.and_then(|()| fs::rename(rt, &beside, name)) {
        Ok(()) => Ok(()),
        Err(error) => {
            let _removed = fs::remove_file(rt, &beside);
            if keeps_its_name(&error) {
                return write_in_place(rt, name, bytes);
            }
            Err(error)
        }
    }
}

/// Whether a file isn't replaced for a cause of its own, and not of what is written: it is a mount, or its folder forbids it.
fn keeps_its_name(error: &io::Error) -> bool {
    matches!(
        error.kind(),
        ErrorKind::ResourceBusy | ErrorKind::CrossesDevices | ErrorKind::PermissionDenied
    )
}

/// Puts the bytes into the file itself.
fn write_in_place<R: Files>(rt: &R, name: &str, bytes: &[u8]) -> io::Result<()> {
    put_whole(&mut fs::create(rt, name)?, bytes)
}

/// Puts the bytes, and where it is a file of a disk waits until they stand there.
fn put_whole<F: OpenFile + Write + Drop>(file: &mut F, bytes: &[u8]) -> io::Result<()>
    ensures { OnOk result
        (Appends (F.Write.contents file.old) (F.Write.contents file.new) bytes.now) }
{
    file.write_all(bytes)?;
    match file.metadata() {
        Ok(made) if made.is_file() => match file.sync_all() {
            // Some file systems have no such call.
            Err(error) if has_no_call(&error) => Ok(()),
            synced => synced,
        },
        _ => Ok(()),
    }
}

fn has_no_call(error: &io::Error) -> bool {
    matches!(
        error.kind(),
        ErrorKind::InvalidInput | ErrorKind::Unsupported
    )
}

/// Makes a new file beside that of the name, under the first name that is free. None where the folder takes none.
fn make_beside<R: Files + AllocGlobal>(
    rt: &R,
    name: &str,
) -> io::Result<Option<(String, R::File)>> {
    for number in 0..NAMES {
        let beside = format!(in rt.alloc(); "{name}.part{number}")?;
        match OpenOptions::new()
            .write(true)
            .create_new(true)
            .open(rt, beside.as_str())
        {
            Ok(file) => return Ok(Some((beside, file))),
            Err(error) if error.kind() == ErrorKind::AlreadyExists => {}
            Err(error) if takes_no_file(&error) => return Ok(None),
            Err(error) => return Err(error),
        }
    }
    Ok(None)
}

/// Whether a folder takes no file of this name, and might have one of another.
fn takes_no_file(error: &io::Error) -> bool {
    matches!(
        error.kind(),
        ErrorKind::PermissionDenied | ErrorKind::ReadOnlyFilesystem | ErrorKind::InvalidFilename
    )
}

/// Whether a new file may take an old one's place: it has the same owner and group, and got the same permissions.
fn is_like<F: OpenFile>(file: &F, old: Option<Metadata>) -> bool {
    let Some(old) = old else {
        return true;
    };
    match file.metadata() {
        Ok(new) => {
            new.uid() == old.uid()
                && new.gid() == old.gid()
                && file.set_permissions(old.permissions()).is_ok()
        }
        Err(_) => false,
    }
}

/// Tries whether a file could be written, and changes nothing. What is there is opened, but a pipe or a device, where that
/// might wait, isn't; for what isn't there a file is made, as a write makes one, and removed.
pub(crate) fn probe_file<R: Files + AllocGlobal>(rt: &R, name: &str) -> io::Result<()> {
    match fs::metadata(rt, name) {
        Ok(found) if may_wait(found.file_type()) => Ok(()),
        Ok(_) => {
            let _file = OpenOptions::new().write(true).open(rt, name)?;
            Ok(())
        }
        Err(error) if error.kind() == ErrorKind::NotFound && !name.is_empty() => {
            probe_new(rt, name)
        }
        Err(error) => Err(error),
    }
}

/// Whether to open a file of this type may take until another program opens it too, or do something.
fn may_wait(kind: FileType) -> bool {
    kind.is_fifo() || kind.is_char_device() || kind.is_block_device()
}

/// Tries whether a file could be made that isn't there, behind the links that lead to it.
fn probe_new<R: Files + AllocGlobal>(rt: &R, name: &str) -> io::Result<()> {
    let Some(name) = behind_links(rt, name) else {
        return Err(io::Error::from(ErrorKind::OutOfMemory));
    };
    match make_beside(rt, name.as_str())? {
        Some((beside, _file)) => {
            let _removed = fs::remove_file(rt, beside.as_str());
            Ok(())
        }
        None => probe_in_place(rt, name.as_str()),
    }
}

/// Tries whether the file itself could be made. One that is there by now is another call's, and can be written.
fn probe_in_place<R: Files>(rt: &R, name: &str) -> io::Result<()> {
    match OpenOptions::new()
        .write(true)
        .create_new(true)
        .open(rt, name)
    {
        Ok(_file) => {
            let _removed = fs::remove_file(rt, name);
            Ok(())
        }
        Err(error) if error.kind() == ErrorKind::AlreadyExists => {
            let _file = OpenOptions::new().write(true).open(rt, name)?;
            Ok(())
        }
        Err(error) => Err(error),
    }
}
