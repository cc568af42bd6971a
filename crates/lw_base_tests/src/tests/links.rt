//! Lists by hand, drawn calls beside plain vectors, and the greatest numbers of owners and cells.
ghost use Rattle.std.specs.Prelude.{◌≡◌, ◌<◌, length};

use lw_links::Lists;
use lw_links::laws::{next_spells_each_list, owner_has_the_cell};
use rand_core::SeedableRng;
use rand_core::utils::NextWord;
use rand_pcg::Lcg128Xsl64;
use std::alloc::Global;
use std::process::Abort;

const OWNERS: u32 = 7;

const CELLS: u32 = 60;

/// Whether this is the owner's list, by `first` and `next`, of so many cells.
fn has_list(lists: &Lists, owner: u32, cells: u32, list: &[u32]) -> bool
    requires owner_exists { owner < length lists.now.lists }
    requires all_cells { cells ≡ lists.now.cells }
{
    let mut cursor = lists.first(owner);
    for cell in list {
        if cursor != Some(*cell) || *cell >= cells {
            return false;
        }
        cursor = lists.next(*cell);
    }
    cursor.is_none()
}

#[test]
fn keeps_lists_by_owner(rt: HostRuntime) {
    let mut lists = Lists::new(rt.alloc(), 3, 5).expect(&rt, "memory");
    lists.push(0, 4);
    lists.push(0, 1);
    lists.push(1, 2);
    lists.move_all(0, 1);
    assert!(rt; has_list(&lists, 1, 5, &[2, 4, 1]));
    assert!(rt; has_list(&lists, 0, 5, &[]));
    lists.unlink(4);
    assert!(rt; has_list(&lists, 1, 5, &[2, 1]));
    assert!(rt; lists.owner(4).is_none());
}

#[test]
fn grows(rt: HostRuntime) {
    let mut lists = Lists::new(rt.alloc(), 1, 2).expect(&rt, "memory");
    lists.push(0, 1);
    lists.push(0, 0);
    lists.grow(3, 4).expect(&rt, "memory");
    assert!(rt; has_list(&lists, 0, 4, &[1, 0]));
    assert!(rt; lists.first(2).is_none() && lists.owner(3).is_none());
    lists.push(2, 3);
    lists.move_all(0, 2);
    assert!(rt; has_list(&lists, 2, 4, &[3, 1, 0]));
    lists.has_each_once();
    next_spells_each_list();
    owner_has_the_cell();
}

/// A drawn number below `bound`.
fn draw(numbers: &mut Lcg128Xsl64, bound: u32) -> u32
    requires { 0 < bound }
    ensures { result < bound }
{
    (numbers.next_word() % u64::from(bound)) as u32
}

/// One list after another, as plain vectors.
fn plain_lists(rt: &impl Abort, alloc: Global) -> Vec<Vec<u32>> {
    let mut plain = Vec::new(alloc);
    for _ in 0..OWNERS {
        plain.push(Vec::new(alloc)).expect(rt, "memory");
    }
    plain
}

fn plain_push(rt: &impl Abort, plain: &mut Vec<Vec<u32>>, owner: u32, cell: u32) {
    let xs = plain.get_mut(owner as usize).expect(rt, "an owner");
    xs.push(cell).expect(rt, "memory");
}

fn plain_unlink(plain: &mut Vec<Vec<u32>>, cell: u32) {
    for xs in plain.iter_mut() {
        xs.retain(|x| *x != cell);
    }
}

fn plain_move(rt: &impl Abort, alloc: Global, plain: &mut Vec<Vec<u32>>, from: u32, to: u32) {
    let xs = plain.get_mut(from as usize).expect(rt, "an owner");
    let moved = xs.to_vec(alloc).expect(rt, "memory");
    xs.clear();
    let xs = plain.get_mut(to as usize).expect(rt, "an owner");
    xs.extend_from_slice(moved.as_slice()).expect(rt, "memory");
}

/// One push, unlink or move, on both.
fn step(
    rt: &impl Abort,
    alloc: Global,
    lists: &mut Lists,
    plain: &mut Vec<Vec<u32>>,
    numbers: &mut Lcg128Xsl64,
)
    requires owners { length lists.old.lists ≡ OWNERS }
    requires cells { lists.old.cells ≡ CELLS }
    ensures owners { length lists.new.lists ≡ OWNERS }
    ensures cells { lists.new.cells ≡ CELLS }
{
    let owner = draw(numbers, OWNERS);
    let cell = draw(numbers, CELLS);
    if draw(numbers, 8) == 0 {
        let to = draw(numbers, OWNERS);
        if owner != to {
            lists.move_all(owner, to);
            plain_move(rt, alloc, plain, owner, to);
        }
    } else if lists.owner(cell).is_some() {
        lists.unlink(cell);
        plain_unlink(plain, cell);
    } else {
        lists.push(owner, cell);
        plain_push(rt, plain, owner, cell);
    }
}

/// Whether each owner has the same list in both.
fn same_lists(lists: &Lists, plain: &[Vec<u32>]) -> bool
    requires owners { length lists.now.lists ≡ OWNERS }
    requires cells { lists.now.cells ≡ CELLS }
{
    for owner in 0..OWNERS {
        let Some(list) = plain.get(owner as usize) else {
            return false;
        };
        if !has_list(lists, owner, CELLS, list.as_slice()) {
            return false;
        }
    }
    true
}

/// Whether each cell has the same owner in both.
fn same_owners(lists: &Lists, plain: &[Vec<u32>]) -> bool
    requires { lists.now.cells ≡ CELLS }
{
    for cell in 0..CELLS {
        let owner = plain.iter().position(|xs| xs.contains(&cell));
        if lists.owner(cell).map(|o| o as usize) != owner {
            return false;
        }
    }
    true
}

/// Whether both have the same lists, and each cell the same owner.
fn same(lists: &Lists, plain: &[Vec<u32>]) -> bool
    requires owners { length lists.now.lists ≡ OWNERS }
    requires cells { lists.now.cells ≡ CELLS }
{
    same_lists(lists, plain) && same_owners(lists, plain)
}

/// Whether the last owner's cells go to the first of so many owners.
fn moves_the_last(rt: &impl Abort, alloc: Global, size: u32) -> bool {
    assert!(rt; size >= 2);
    let mut lists = Lists::new(alloc, 1, 1).expect(rt, "memory");
    lists.grow(size, size).expect(rt, "memory");
    lists.push(size - 1, size - 1);
    lists.push(size - 1, 0);
    lists.move_all(size - 1, 0);
    lists.first(0) == Some(size - 1) && lists.next(size - 1) == Some(0) && lists.owner(0) == Some(0)
}

#[test]
fn many_owners_and_cells(rt: HostRuntime) {
    assert!(rt; moves_the_last(&rt, rt.alloc(), 2_097_152));
}

#[test]
fn agrees_with_plain_lists(rt: HostRuntime) {
    let alloc = rt.alloc();
    let mut lists = Lists::new(alloc, OWNERS, CELLS).expect(&rt, "memory");
    let mut plain = plain_lists(&rt, alloc);
    let mut numbers = Lcg128Xsl64::seed_from_u64(1);
    for round in 0..10000u32 {
        step(&rt, alloc, &mut lists, &mut plain, &mut numbers);
        if round % 100 == 0 {
            assert!(rt; same(&lists, plain.as_slice()), "after round {round}");
        }
    }
    assert!(rt; same(&lists, plain.as_slice()));
}
