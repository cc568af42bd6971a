//! Many lists over one set of cells, as doubly linked places in flat vectors.
ghost use Rattle.std.specs.Prelude.{◌≡◌, ◌≢◌, ℕ, ◌+◌, ◌<◌, ◌≤◌, List, ◌++◌, length, replicate, IsSome, IfOk, IfSome, OnOk, OnErr, vec_len, Some, None, true, ◌==◌, if◌then◌else◌, option_map};
ghost use Rattle.std.specs.Vec.{vec_capacity};
ghost use Rattle.lw_links.specs.Owners.{empty_lists, grown, pushed, unlinked, moved, owner_of, first_of, next_of, list_of, HasEachOnce, Spells, has};
ghost use Rattle.lw_links.specs.Chains.{place_of_cell, joined, ends_without, way_in, given};

use lw_words::NoMemory;
use std::alloc::Global;
use std::marker::Model;

/// The two ends of an owner's list.
#[derive(Clone, Copy)]
struct Ends {
    first: Option<u32>,
    last: Option<u32>,
}

impl Ends {
    const NONE: Ends = Ends {
        first: None,
        last: None,
    };

    /// The ends once the cell with this place is taken out.
    fn without(self, place: &Place) -> Ends
        ensures { result ≡ ends_without self place.now }
    {
        Ends {
            first: if place.previous.is_none() {
                place.next
            } else {
                self.first
            },
            last: if place.next.is_none() {
                place.previous
            } else {
                self.last
            },
        }
    }
}

/// Where a cell stands: whose list it is in, and its neighbours there.
#[derive(Clone, Copy)]
struct Place {
    owner: Option<u32>,
    previous: Option<u32>,
    next: Option<u32>,
}

impl Place {
    const NONE: Place = Place {
        owner: None,
        previous: None,
        next: None,
    };
}

/// The lists of owners `0, 1, ..` over the cells `0, 1, ..`. A cell stands in one list at most, once.
///
/// Only [`Lists::new`] and [`Lists::grow`] take memory to keep: 16 bytes for each owner and 24 for each
/// cell, and up to twice that after a `grow`, so that growing step by step costs little. All else but
/// [`Lists::move_all`] and [`Lists::list`] takes constant time, whatever the lists' lengths.
#[derive(Drop)]
pub struct Lists {
    ends: Vec<Ends>,
    places: Vec<Place>,
}

impl Model for Lists {
    ghost use Rattle.lw_links.specs.Owners.{ListsByOwner};

    ghost Value = { ListsByOwner };

    ghost use Rattle.std.specs.Prelude.{length};
    ghost use Rattle.lw_links.specs.Chains.{lists_in, KeepsLists};

    ghost view = { λ a. record { cells = length a.places.items; lists = lists_in a.ends.items a.places.items } };

    ghost invariant = { λ a. KeepsLists a.ends.items a.places.items };
}

impl Lists {
    /// An empty list for each owner, and all cells in none. Takes time in proportion to both numbers.
    ///
    /// # Errors
    /// Only where memory runs out.
    pub fn new(alloc: Global, owners: u32, cells: u32) -> Result<Lists, NoMemory>
        ensures value { IfOk result (λ l. l ≡ empty_lists owners cells) }
        ensures owners { IfOk result (λ l. (k : ℕ) → owner_of l k ≡ None) }
    {
        let mut ends = Vec::with_capacity(alloc, owners as usize)?;
        append(&mut ends, owners as usize, Ends::NONE);
        let mut places = Vec::with_capacity(alloc, cells as usize)?;
        append(&mut places, cells as usize, Place::NONE);
        Ok(Lists { ends, places })
    }

    /// More owners, with empty lists, and more cells, in no list. Takes time in proportion to what is
    /// new, but for the growth steps, at which all is moved.
    ///
    /// # Errors
    /// Only where memory runs out; the lists are then as before.
    pub fn grow(&mut self, owners: u32, cells: u32) -> Result<(), NoMemory>
        requires owners_stay { length self.old.lists ≤ owners }
        requires cells_stay { self.old.cells ≤ cells }
        ensures ok { OnOk result (self.new ≡ grown self.old owners cells) }
        ensures err { OnErr result (self.new ≡ self.old) }
        ensures owners { (k : ℕ) → owner_of self.new k ≡ owner_of self.old k }
    {
        let more_owners = owners as usize - self.ends.len();
        let more_cells = cells as usize - self.places.len();
        self.ends.reserve(more_owners)?;
        self.places.reserve(more_cells)?;
        append(&mut self.ends, more_owners, Ends::NONE);
        append(&mut self.places, more_cells, Place::NONE);
        Ok(())
    }

    /// Puts a cell that is in no list last in the owner's list. Takes constant time.
    pub fn push(&mut self, owner: u32, cell: u32)
        requires owner_exists { owner < length self.old.lists }
        requires cell_exists { cell < self.old.cells }
        requires in_no_list { owner_of self.old cell ≡ None }
        ensures value { self.new ≡ pushed self.old owner cell }
        ensures owners { (k : ℕ) → owner_of self.new k ≡
            (if k == cell then Some owner else owner_of self.old k) }
    {
        let ends = self.ends[owner as usize];
        self.places[cell as usize] = Place {
            owner: Some(owner),
            ..Place::NONE
        };
        join(self.places.as_mut_slice(), ends.last, Some(cell));
        self.ends[owner as usize] = Ends {
            first: ends.first.or(Some(cell)),
            last: Some(cell),
        };
    }

    /// Takes a cell out of the list that it is in. Takes constant time.
    pub fn unlink(&mut self, cell: u32)
        requires { IsSome (owner_of self.old cell) }
        ensures value { self.new ≡ unlinked self.old cell }
        ensures owners { (k : ℕ) → owner_of self.new k ≡
            (if k == cell then None else owner_of self.old k) }
    {
        let place = self.places[cell as usize];
        let owner = place.owner.unwrap();
        let ends = self.ends[owner as usize];
        join(self.places.as_mut_slice(), place.previous, place.next);
        self.places[cell as usize] = Place::NONE;
        self.ends[owner as usize] = ends.without(&place);
    }

    /// Puts the cells of one owner's list behind those of another's, in their order. Takes time
    /// in proportion to the list that is moved, since each of its cells changes owner; the other
    /// list's length does not matter.
    pub fn move_all(&mut self, from: u32, to: u32)
        requires from_exists { from < length self.old.lists }
        requires to_exists { to < length self.old.lists }
        requires apart { from ≢ to }
        ensures value { self.new ≡ moved self.old from to }
        ensures owners { (k : ℕ) → owner_of self.new k ≡
            option_map (λ o. if o == from then to else o) (owner_of self.old k) }
    {
        let moved = self.ends[from as usize];
        let kept = self.ends[to as usize];
        let places = self.places.as_mut_slice();
        give(places, moved.first, to);
        join(places, kept.last, moved.first);
        self.ends[to as usize] = Ends {
            first: kept.first.or(moved.first),
            last: moved.last.or(kept.last),
        };
        self.ends[from as usize] = Ends::NONE;
    }

    /// How many cells there are.
    pub fn cells(&self) -> usize
        ensures { result ≡ self.now.cells }
    {
        self.places.len()
    }

    /// The owner whose list has the cell. Takes constant time.
    pub fn owner(&self, cell: u32) -> Option<u32>
        requires { cell < self.now.cells }
        ensures { result ≡ owner_of self.now cell }
    {
        self.places[cell as usize].owner
    }

    /// The first cell of the owner's list. Takes constant time.
    pub fn first(&self, owner: u32) -> Option<u32>
        requires { owner < length self.now.lists }
        ensures { result ≡ first_of self.now owner }
    {
        self.ends[owner as usize].first
    }

    /// The cell that stands behind this one in the list that has it. Takes constant time.
    pub fn next(&self, cell: u32) -> Option<u32>
        requires { cell < self.now.cells }
        ensures { result ≡ next_of self.now cell }
    {
        self.places[cell as usize].next
    }

    /// The owner's list, from its first cell to its last. Takes time in proportion to its length.
    ///
    /// # Errors
    /// Only where memory runs out.
    pub fn list(&self, alloc: Global, owner: u32) -> Result<Vec<u32>, NoMemory>
        requires { owner < length self.now.lists }
        ensures { IfOk result (λ l. l.items ≡ list_of self.now owner) }
    {
        spell(alloc, &self.places, self.ends[owner as usize].first)
    }

    /// Each cell stands at most once in all lists together, and is one of the cells that there are.
    /// Does nothing: a caller's proof learns it.
    pub fn has_each_once(&self)
        ensures { HasEachOnce self.now }
    {
        let _ = &self.ends;
    }
}

/// Makes two cells neighbours in their list, the second behind the first. `None` is no cell.
fn join(places: &mut [Place], previous: Option<u32>, next: Option<u32>)
    requires previous_exists { IfSome previous (λ c. c < length places.old) }
    requires next_exists { IfSome next (λ c. c < length places.old) }
    ensures { (cell : ℕ) → place_of_cell places.new cell ≡
        joined previous next cell (place_of_cell places.old cell) }
{
    if let Some(cell) = previous {
        places[cell as usize].next = next;
    }
    if let Some(cell) = next {
        places[cell as usize].previous = previous;
    }
}

/// The cells from `first` on by `next`, in the order of the way.
fn spell(alloc: Global, places: &[Place], first: Option<u32>) -> Result<Vec<u32>, NoMemory>
    requires way_ends { Spells (λ cell. (place_of_cell places.now cell).next) first
        (way_in places.now first) }
    requires cells_exist { (cell : ℕ) → has cell (way_in places.now first) ≡ true →
        cell < length places.now }
    ensures { IfOk result (λ l. l.items ≡ way_in places.now first) }
{
    let mut cells = Vec::new(alloc);
    let mut at = first;
    while let Some(cell) = at {
        cells.push(cell)?;
        at = places[cell as usize].next;
    }
    Ok(cells)
}

/// Makes an owner that of the cells from `first` on by `next`.
fn give(places: &mut [Place], first: Option<u32>, owner: u32)
    requires way_ends { Spells (λ cell. (place_of_cell places.old cell).next) first
        (way_in places.old first) }
    requires cells_exist { (cell : ℕ) → has cell (way_in places.old first) ≡ true →
        cell < length places.old }
    ensures { (cell : ℕ) → place_of_cell places.new cell ≡
        given owner (way_in places.old first) cell (place_of_cell places.old cell) }
{
    let mut cursor = first;
    while let Some(cell) = cursor {
        places[cell as usize].owner = Some(owner);
        cursor = places[cell as usize].next;
    }
}

/// Appends `count` copies of a value, for which there is room.
fn append<T: Copy>(items: &mut Vec<T>, count: usize, value: T)
    requires { vec_len items.old + count ≤ vec_capacity items.old }
    ensures { items.new.items ≡ items.old.items ++ replicate count value }
{
    for _ in 0..count {
        items.push_reserved(value);
    }
}
