//! A ring of 64 keys: rows come in behind the newest, and go from the oldest on.

ghost use Rattle.std.specs.Prelude.{◌≡◌, ◌<◌, ◌≤◌, suc, [], ◌∷◌, ◌++◌, length, drop};
ghost use Rattle.std.specs.Iterator.{YieldsFirst, item_count};
ghost use Rattle.accumulators.specs.Figures.{most_kept};

use crate::capacity::KEPT;
use std::marker::Model;
use std::ops::Range;

// Of the library's, the circular buffer asks for memory, and the vector in an array moves every row when
// the oldest goes: one row in and one out of 60 took forty times as long.
/// The keys of the rows held, seen as their list, oldest first; the oldest stands at the place `first`.
#[derive(Drop)]
pub struct Ring {
    places: [Option<u64>; KEPT],
    first: usize,
    held: usize,
}

impl Model for Ring {
    ghost use Rattle.std.specs.Prelude.{ℕ, ◌<◌, ◌≤◌, List, Option};
    ghost use Rattle.accumulators.specs.Figures.{most_kept};
    ghost use Rattle.accumulators.specs.Rings.{ring_rows};

    ghost Value = { List (Option ℕ) };

    ghost view = { λ r. ring_rows r.places r.first r.held };

    ghost invariant = { λ r. (r.first < most_kept) × (r.held ≤ most_kept) };
}

impl Ring {
    pub fn new() -> Ring
        ensures { result ≡ [] }
    {
        Ring {
            places: [None; KEPT],
            first: 0,
            held: 0,
        }
    }

    pub fn len(&self) -> usize
        ensures rows { result ≡ length self.now }
        ensures few { result ≤ most_kept }
    {
        self.held
    }

    /// The row that stands `i` behind the oldest.
    pub fn row(&self, i: usize) -> Option<u64>
        requires { i < length self.now }
        ensures { drop i self.now ≡ result ∷ drop (suc i) self.now }
    {
        self.places[(self.first + i) % KEPT]
    }

    /// The rows, oldest first.
    pub fn iter(&self) -> Rows<'_>
        ensures { result ≡ self.now }
    {
        Rows {
            ring: self,
            left: 0..self.len(),
        }
    }

    pub fn push(&mut self, key: Option<u64>)
        requires { length self.old < most_kept }
        ensures { self.new ≡ self.old ++ key ∷ [] }
    {
        let place = (self.first + self.held) % KEPT;
        self.places[place] = key;
        self.held += 1;
    }

    pub fn drop_oldest(&mut self, count: usize)
        ensures { self.new ≡ drop count self.old }
    {
        if count < self.held {
            self.first = (self.first + count) % KEPT;
            self.held -= count;
        } else {
            self.held = 0;
        }
    }
}

/// The rows of a ring, seen as those that are still to come.
#[derive(Drop)]
pub struct Rows<'r> {
    ring: &'r Ring,
    left: Range<usize>,
}

impl<'r> Model for Rows<'r> {
    ghost use Rattle.std.specs.Prelude.{◌≡◌, ℕ, List, Option, length, drop};

    ghost Value = { List (Option ℕ) };

    ghost view = { λ r. drop r.left.start r.ring.now };

    ghost invariant = { λ r. r.left.end ≡ length r.ring.now };
}

impl<'r> Iterator for Rows<'r> {
    type Item = Option<u64>;

    ghost next_gives = { YieldsFirst (λ s. s) };

    ghost remaining = { item_count (λ s. s) };

    fn next(&mut self) -> Option<Option<u64>> {
        let i = self.left.next()?;
        Some(self.ring.row(i))
    }
}
