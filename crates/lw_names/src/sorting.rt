//! Names by their bytes, and numbers by the names' new places.
ghost use Rattle.std.specs.Prelude.{◌≡◌, ℕ, ◌<◌, ◌≤◌, length, map, drop, vec_capacity};
ghost use Rattle.std.specs.List.{All};
ghost use Rattle.std.specs.List.Sorted.{IsPermutation};
ghost use Rattle.std.specs.Ordering.{nat_cmp};
ghost use Rattle.std.specs.Cmp.Lexicographic.{slice_cmp};
ghost use Rattle.lw_words.specs.Word.{AllDiffer};
ghost use Rattle.lw_words.specs.Renumbering.{renumbered};
ghost use Rattle.lw_names.specs.Naming.{AreSorted};
ghost use Rattle.lw_names.specs.bodies.OutNames.{count_before, AreRanks};

use crate::OutName;
use std::cmp::Ordering;

/// Compares names by their bytes.
fn compare(one: &OutName, other: &OutName) -> Ordering
    ensures { result ≡ slice_cmp nat_cmp one.now other.now }
{
    one.as_slice().cmp(other.as_slice())
}

/// How many names are before one.
fn rank_of(names: &[OutName], name: &OutName) -> usize
    ensures { result ≡ count_before names.now name.now }
{
    names.iter().filter(|n| compare(n, name).is_lt()).count()
}

/// Writes for the number of each name how many names are before it: where all differ, that is its number among the sorted
/// ones. Each is compared with each: names are at most 4,096, and mostly a dozen, and an index for a sort by it would take
/// memory.
pub(crate) fn rank_names(names: &[OutName], to: &mut [u16])
    requires few { length names.now ≤ 4096 }
    requires room { length names.now ≤ length to.old }
    ensures ranks { AreRanks to.new names.now (length names.now) }
    ensures count { length to.new ≡ length to.old }
    ensures rest { drop (length names.now) to.new ≡ drop (length names.now) to.old }
{
    for (number, name) in names.iter().enumerate() {
        to[number] = rank_of(names, name) as u16;
    }
}

/// Sorts names by their bytes.
pub(crate) fn sort_names(names: &mut Vec<OutName>)
    requires differ { AllDiffer names.old.items }
    ensures sorted { AreSorted names.new.items }
    ensures permuted { IsPermutation names.old.items names.new.items }
    ensures capacity { vec_capacity names.new ≡ vec_capacity names.old }
{
    names.sort_unstable_by(|one: &OutName, other: &OutName| compare(one, other));
}

/// Puts `to[y]` in place of each number `y`.
fn renumber(numbers: &mut [u16], to: &[u16])
    requires { All (λ y. y < length to.now) numbers.old }
    ensures { numbers.new ≡ renumbered to.now numbers.old }
{
    for y in numbers.iter_mut() {
        *y = to[usize::from(*y)];
    }
}

/// Puts `to[y]` in place of each number `y` of all tables.
pub(crate) fn renumber_tables(tables: &mut [Vec<u16>], to: &[u16])
    requires { All (All (λ y. y < length to.now)) (map (λ t. t.items) tables.old) }
    ensures items { map (λ t. t.items) tables.new
        ≡ map (renumbered to.now) (map (λ t. t.items) tables.old) }
    ensures capacities { map (λ t. vec_capacity t) tables.new
        ≡ map (λ t. vec_capacity t) tables.old }
{
    for table in tables.iter_mut() {
        renumber(table.as_mut_slice(), to);
    }
}
