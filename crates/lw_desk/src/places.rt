//! A few places of a batch.
ghost use Rattle.std.specs.Prelude.{◌≡◌, ◌↔◌, IsTrue, ℕ, ◌<◌, ◌≤◌, List, [], ◌∷◌, ◌++◌, length, take, drop, slice_get, Some};

use std::marker::Model;

/// How many places one actor holds at most.
pub const MOST_PLACES: usize = 16;

/// At most 16 places of a batch, kept without memory. Contracts see their list.
#[derive(Drop)]
pub struct Places {
    places: [u32; MOST_PLACES],
    len: u8,
}

impl Model for Places {
    ghost use Rattle.std.specs.Prelude.{List, ℕ, ◌≤◌, take};

    ghost Value = { List ℕ };

    ghost view = { λ p. take p.len p.places };

    ghost invariant = { λ p. p.len ≤ 16 };
}

impl Places {
    /// No place.
    pub fn new() -> Places
        ensures { result ≡ [] }
    {
        Places {
            places: [0; MOST_PLACES],
            len: 0,
        }
    }

    /// Puts a place last.
    pub fn push(&mut self, place: u32)
        requires { length self.old < 16 }
        ensures { self.new ≡ self.old ++ place ∷ [] }
    {
        self.places[usize::from(self.len)] = place;
        self.len += 1;
    }

    /// Whether there is no place.
    pub fn is_empty(&self) -> bool
        ensures { IsTrue result ↔ (self.now ≡ []) }
    {
        self.len == 0
    }

    pub fn as_slice(&self) -> &[u32]
        ensures value { result.now ≡ self.now }
        ensures few { length self.now ≤ 16 }
    {
        &self.places[..usize::from(self.len)]
    }

    /// Its places from this one on.
    pub fn from(&self, first: usize) -> Places
        requires { first ≤ length self.now }
        ensures { result ≡ drop first self.now }
    {
        let mut rest = Places::new();
        for place in &self.as_slice()[first..] {
            rest.push(*place);
        }
        rest
    }
}
