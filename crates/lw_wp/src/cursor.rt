//! Going through the words of a suite by a table.
ghost use Rattle.std.specs.Prelude.{◌≡◌, ◌<◌, ◌≤◌, ◌+◌, [], ◌∷◌, ◌++◌, length, IfOk, OnOk, MatchOption, slice_index_or};
ghost use Rattle.lw_wp.specs.bodies.Cursors.{AreParts, IsCursor, IsFrontAt, IsWithin, SpellsFront, SplitsFront, blocks, end_of, ends_behind, left_from, shorter_blocks, table_of};
ghost use Rattle.lw_wp.specs.Tables.{row_for};

use crate::parts::{Parts, Row};
use lw_chunks::{Place, spell};
use lw_words::{NoMemory, Word};
use std::alloc::Global;

/// A place in a suite with its prefix, an access word and a middle word, and what stands behind it.
#[derive(Drop)]
pub(crate) struct Cursor {
    pub(crate) place: Place,
    pub(crate) front: Word,
    pub(crate) row: Row,
}

/// The number of prefixes whose middle word has at most `extra` letters.
fn shorter_count(parts: &Parts) -> u64
    requires { AreParts parts.now }
    ensures count { result ≡ length (shorter_blocks parts.now) }
    ensures few { result ≤ 8388608 }
{
    parts.access.len() as u64 * parts.shorter
}

/// The number of all prefixes.
pub(crate) fn front_count(parts: &Parts) -> u64
    requires { AreParts parts.now }
    ensures count { result ≡ length (blocks parts.now) }
    ensures few { result ≤ 8388608 }
{
    parts.access.len() as u64 * (parts.shorter + parts.longest)
}

/// The number of the access word of a prefix, and that of its middle word among those of at most one letter more than
/// `extra`.
fn split_front(parts: &Parts, front: u64) -> (usize, u64)
    requires parts { AreParts parts.now }
    requires front { front < length (blocks parts.now) }
    ensures { SplitsFront parts.now front result.0 result.1 }
{
    let shorter = shorter_count(parts);
    if front < shorter {
        ((front / parts.shorter) as usize, front % parts.shorter)
    } else {
        let rest = front - shorter;
        (
            (rest / parts.longest) as usize,
            parts.shorter + rest % parts.longest,
        )
    }
}

/// Makes a word the prefix with this number, and answers how many letters its middle word has fewer than the longest.
fn spell_front(parts: &Parts, word: &mut Word, front: u64) -> Result<usize, NoMemory>
    requires parts { AreParts parts.now }
    requires front { front < length (blocks parts.now) }
    ensures { IfOk result (SpellsFront parts.now front word.new) }
{
    let (access, middle) = split_front(parts, front);
    word.clear();
    word.extend(parts.access.get(access).as_slice())?;
    let first = word.len();
    spell(word, parts.machine.inputs(), parts.extra + 1, middle)?;
    Ok(usize::from(parts.extra) + 1 - (word.len() - first))
}

/// Makes a word the prefix with this number, and answers what stands behind it; past the last prefix, any row.
fn front_at(parts: &Parts, word: &mut Word, front: u64) -> Result<Row, NoMemory>
    requires { AreParts parts.now }
    ensures state { IfOk result (λ row. row.state < length parts.now.machine.rows) }
    ensures front { IfOk result (IsFrontAt parts.now front word.new) }
{
    let start = parts.machine.initial();
    if front >= front_count(parts) {
        return Ok(Row {
            state: start,
            left: 0,
        });
    }
    let left = spell_front(parts, word, front)?;
    Ok(Row {
        state: parts.machine.after(start, word),
        left,
    })
}

/// The cursor at a place.
pub(crate) fn start(alloc: Global, parts: &Parts, place: Place) -> Result<Cursor, NoMemory>
    requires parts { AreParts parts.now }
    requires place { IsWithin parts.now place }
    ensures cursor { IfOk result (IsCursor parts.now) }
    ensures place { IfOk result (λ cursor. cursor.place ≡ place) }
{
    let mut front = Word::new(alloc);
    let row = front_at(parts, &mut front, place.front)?;
    Ok(Cursor { place, front, row })
}

/// The numbers of the words that stand behind a prefix, beside nothing; none where all separating words do.
fn numbers_behind(parts: &Parts, row: Row) -> Option<&[u16]>
    requires parts { AreParts parts.now }
    requires state { row.state < length parts.now.machine.rows }
    ensures { MatchOption result
        (length (slice_index_or (table_of parts.now) row.state []) ≤ row.left)
        (λ numbers. (row.left < length (slice_index_or (table_of parts.now) row.state [])) ×
        (numbers.now ≡ row_for (table_of parts.now) row.state row.left)) }
{
    let rows = &parts.behind[usize::from(row.state)];
    if row.left < rows.len() {
        Some(rows[row.left].as_slice())
    } else {
        None
    }
}

/// The number of words that stand behind the prefix of a cursor, beside nothing.
fn end_count(parts: &Parts, cursor: &Cursor) -> usize
    requires parts { AreParts parts.now }
    requires state { cursor.now.row.state < length parts.now.machine.rows }
    ensures { result ≡ length (ends_behind parts.now cursor.now.row) }
{
    match numbers_behind(parts, cursor.row) {
        Some(numbers) => numbers.len(),
        None => parts.ends.len(),
    }
}

/// What stands behind the prefix at a cursor: nothing, or a separating word.
pub(crate) fn end_at<'a>(parts: &'a Parts, cursor: &Cursor) -> &'a [u16]
    requires parts { AreParts parts.now }
    requires state { cursor.now.row.state < length parts.now.machine.rows }
    requires within { cursor.now.place.end ≤ length (ends_behind parts.now cursor.now.row) }
    ensures { result.now ≡ end_of parts.now cursor.now }
{
    if cursor.place.end == 0 {
        return &[];
    }
    let place = cursor.place.end - 1;
    let number = match numbers_behind(parts, cursor.row) {
        Some(numbers) => usize::from(numbers[place]),
        None => place,
    };
    parts.ends.get(number).as_slice()
}

/// Goes to the next word.
pub(crate) fn step(parts: &Parts, cursor: &mut Cursor) -> Result<(), NoMemory>
    requires parts { AreParts parts.now }
    requires cursor { IsCursor parts.now cursor.old }
    requires more { cursor.old.place.front < length (blocks parts.now) }
    ensures cursor { OnOk result (IsCursor parts.now cursor.new) }
    ensures next { OnOk result (left_from parts.now cursor.old.place ≡
        (cursor.old.front ++ end_of parts.now cursor.old) ∷ left_from parts.now cursor.new.place) }
{
    let Place { front, end } = cursor.place;
    if end < end_count(parts, cursor) {
        cursor.place = Place {
            front,
            end: end + 1,
        };
        return Ok(());
    }
    cursor.row = front_at(parts, &mut cursor.front, front + 1)?;
    cursor.place = Place {
        front: front + 1,
        end: 0,
    };
    Ok(())
}
