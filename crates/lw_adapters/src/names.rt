//! Names of files that lead to one file.

use std::fs::{self, Files};
use std::os::unix::fs::MetadataExt;

/// Two different names of one file.
#[derive(Clone, Copy, Debug, PartialEq, Eq)]
pub struct TwoNames<'a> {
    pub name: &'a str,
    pub other: &'a str,
}

/// Where a file is: a file of a disk by its numbers, one that isn't there by those of its folder and by its name in it.
#[derive(Drop, PartialEq, Eq)]
struct Place {
    device: u64,
    number: u64,
    within: Option<String>,
}

/// The name's folder, and the file's name in it.
fn in_folder(name: &str) -> (&str, &str) {
    match name.rsplit_once('/') {
        Some(("", within)) => ("/", within),
        Some((folder, within)) => (folder, within),
        None => (".", name),
    }
}

/// How many links are followed to a file that isn't there.
const LINKS: u32 = 40;

/// The name that a link leads to, seen from where the link is.
fn target_of<R: Files + AllocGlobal>(rt: &R, link: &str) -> Option<String> {
    let target = fs::read_link(rt, link).ok()?;
    let (target, folder) = (target.as_str(), in_folder(link).0);
    if target.starts_with('/') {
        return String::from_str(rt.alloc(), target).ok();
    }
    format!(in rt.alloc(); "{folder}/{target}").ok()
}

/// The name behind links that lead to no file yet, or the name itself.
pub(crate) fn behind_links<R: Files + AllocGlobal>(rt: &R, name: &str) -> Option<String> {
    let mut name = String::from_str(rt.alloc(), name).ok()?;
    for _ in 0..=LINKS {
        match target_of(rt, name.as_str()) {
            Some(target) => name = target,
            None => return Some(name),
        }
    }
    None
}

/// Where the file of this name is or would be made. None where that is no file of a disk, or isn't known.
fn place_of<R: Files + AllocGlobal>(rt: &R, name: &str) -> Option<Place> {
    if let Ok(file) = fs::metadata(rt, name) {
        if !file.is_file() {
            return None;
        }
        return Some(Place {
            device: file.dev(),
            number: file.ino(),
            within: None,
        });
    }
    let name = behind_links(rt, name)?;
    let (folder, within) = in_folder(name.as_str());
    let folder = fs::metadata(rt, folder).ok()?;
    Some(Place {
        device: folder.dev(),
        number: folder.ino(),
        within: Some(String::from_str(rt.alloc(), within).ok()?),
    })
}

/// Whether two names are of one file of a disk.
fn is_one_file<R: Files + AllocGlobal>(rt: &R, name: &str, other: &str) -> bool {
    match (place_of(rt, name), place_of(rt, other)) {
        (Some(place), Some(other)) => place == other,
        _ => false,
    }
}

/// The first of these names that is another one of the file of this one.
fn other_name<'a, R: Files + AllocGlobal>(
    rt: &R,
    name: &str,
    names: &[Option<&'a str>],
) -> Option<&'a str> {
    for one in names {
        if let Some(other) = *one {
            if other != name && is_one_file(rt, name, other) {
                return Some(other);
            }
        }
    }
    None
}

/// The first of these names whose file is named once more among them or among the others, by another name: a relative and an
/// absolute one, or a link. Two of the others may be one file, and what is no file of a disk, as a pipe, may have two names.
pub fn two_names<'a, R: Files + AllocGlobal>(
    rt: &R,
    names: &[Option<&'a str>],
    others: &[Option<&'a str>],
) -> Option<TwoNames<'a>> {
    for one in names {
        if let Some(name) = *one {
            let other = other_name(rt, name, names).or(other_name(rt, name, others));
            if let Some(other) = other {
                return Some(TwoNames { name, other });
            }
        }
    }
    None
}

/// Whether this file of a disk is named among others, by the same name.
pub fn is_among<R: Files + AllocGlobal>(rt: &R, name: &str, others: &[Option<&str>]) -> bool {
    others.contains(&Some(name)) && place_of(rt, name).is_some()
}
