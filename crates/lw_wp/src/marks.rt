//! Sets of numbers of words, as a mark for each.
ghost use Rattle.std.specs.Prelude.{◌≡◌, ◌<◌, length, IfOk};
ghost use Rattle.std.specs.List.{All, Contains};
ghost use Rattle.lw_wp.specs.bodies.HTables.{AreMarked, marked_numbers};

use lw_words::NoMemory;
use std::alloc::Global;

/// Marks these numbers too.
pub(crate) fn mark_all(marks: &mut [bool], numbers: &[u16])
    requires { All (λ i. i < length marks.old) numbers.now }
    ensures { AreMarked marks.old marks.new (Contains numbers.now) }
{
    for number in numbers {
        marks[usize::from(*number)] = true;
    }
}

/// The numbers that are marked, in their order.
pub(crate) fn marked(alloc: Global, marks: &[bool]) -> Result<Vec<u16>, NoMemory>
    requires { length marks.now < 65536 }
    ensures { IfOk result (λ numbers. numbers.items ≡ marked_numbers marks.now) }
{
    let mut numbers = Vec::new(alloc);
    for number in 0..marks.len() {
        if marks[number] {
            numbers.push(number as u16)?;
        }
    }
    Ok(numbers)
}
