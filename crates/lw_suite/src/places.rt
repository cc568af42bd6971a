//! The words at the places of a suite.
ghost use Rattle.std.specs.Prelude.{◌≡◌, ◌<◌, ◌≤◌, ◌+◌, ◌*◌, [], ◌∷◌, ◌++◌, length, take, IfOk, OnOk, slice_index_or};
ghost use Rattle.lw_suite.specs.bodies.Places.{fronts, ends, number_of, IsPlace, IsFront};

use crate::parts::Parts;
use lw_chunks::{Place, spell};
use lw_words::{NoMemory, Word};

/// The number of access words with a middle word.
pub(crate) fn front_count(parts: &Parts) -> u64
    ensures count { result ≡ length parts.now.access * parts.now.middles }
    ensures few { result ≤ 8388608 }
{
    parts.access.len() as u64 * parts.middles
}

/// The number of all words of the suite.
pub(crate) fn word_count(parts: &Parts) -> u64
    ensures count { result ≡ length parts.now.access * parts.now.middles * length (ends parts.now) }
{
    front_count(parts) * (1 + parts.ends.len() as u64)
}

/// The number of the word at a place.
pub(crate) fn number(parts: &Parts, place: Place) -> u64
    requires { IsPlace parts.now place }
    ensures { result ≡ number_of parts.now place }
{
    place.front * (1 + parts.ends.len() as u64) + place.end as u64
}

/// Makes a word the prefix with this number: an access word and a middle word.
fn spell_front(parts: &Parts, front: &mut Word, number: u64) -> Result<(), NoMemory>
    requires { number < length parts.now.access * parts.now.middles }
    ensures { OnOk result (front.new ≡ slice_index_or (fronts parts.now) number []) }
{
    let access = (number / parts.middles) as usize;
    front.clear();
    front.extend(parts.access.get(access).as_slice())?;
    spell(front, parts.inputs, parts.longest, number % parts.middles)?;
    Ok(())
}

/// The prefix at a place, and the empty word past the last one.
pub(crate) fn front_at(parts: &Parts, front: &mut Word, place: Place) -> Result<(), NoMemory>
    ensures { OnOk result (IsFront parts.now place front.new) }
{
    if place.front < front_count(parts) {
        spell_front(parts, front, place.front)?;
    }
    Ok(())
}

/// Goes to the next place, and makes the word its prefix.
pub(crate) fn step(parts: &Parts, place: Place, front: &mut Word) -> Result<Place, NoMemory>
    requires place { IsPlace parts.now place }
    requires more { place.front < length parts.now.access * parts.now.middles }
    requires front { IsFront parts.now place front.old }
    ensures place { IfOk result (IsPlace parts.now) }
    ensures number { IfOk result (λ next.
        number_of parts.now next ≡ number_of parts.now place + 1) }
    ensures front { IfOk result (λ next. IsFront parts.now next front.new) }
{
    if place.end < parts.ends.len() {
        return Ok(Place {
            front: place.front,
            end: place.end + 1,
        });
    }
    let next = Place {
        front: place.front + 1,
        end: 0,
    };
    front_at(parts, front, next)?;
    Ok(next)
}

/// The end with this number: nothing, or one of the words at the end.
pub(crate) fn end_at(parts: &Parts, end: usize) -> &[u16]
    requires { end < length (ends parts.now) }
    ensures { result.now ≡ slice_index_or (ends parts.now) end [] }
{
    if end == 0 {
        &[]
    } else {
        parts.ends.get(end - 1).as_slice()
    }
}
