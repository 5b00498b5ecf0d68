//! The batch that rows put together, one argument after the other.

ghost use Rattle.std.specs.Prelude.{◌≡◌, ◌^◌, ◌<◌, length};
ghost use Rattle.std.specs.Iterator.{YieldsFirst, item_count};

use crate::arguments::Arguments;
use std::marker::Model;
use std::ops::Range;

/// The arguments of the kept rows, oldest first; seen as those that are still to come.
#[derive(Drop)]
pub struct Kept<'r, 'a, V> {
    rows: &'r Arguments<'a, V>,
    left: Range<usize>,
}

impl<'r, 'a, V> Model for Kept<'r, 'a, V> {
    ghost use Rattle.std.specs.Prelude.{◌≡◌, List, Option, length, drop};
    ghost use Rattle.rows.specs.Rows.{kept};

    ghost Value = { List (Option V) };

    ghost view = { λ k. kept (drop k.left.start k.rows.now) };

    ghost invariant = { λ k. k.left.end ≡ length k.rows.now };
}

impl<'r, 'a, V: Copy> Iterator for Kept<'r, 'a, V> {
    type Item = Option<V>;

    ghost next_gives = { YieldsFirst (λ s. s) };

    ghost remaining = { item_count (λ s. s) };

    fn next(&mut self) -> Option<Option<V>> {
        // Not `for` over `by_ref`: once that loan of `left` is over, no proof knows where it stopped.
        while let Some(i) = self.left.next() {
            if let Some(argument) = self.rows.row(i) {
                return Some(argument);
            }
        }
        None
    }
}

impl<'a, V: Copy> Arguments<'a, V> {
    ghost use Rattle.rows.specs.Rows.{kept};

    /// The arguments of the kept rows, oldest first.
    pub fn iter(&self) -> Kept<'_, 'a, V>
        ensures rest { result ≡ kept self.now }
        ensures fits { length result < 2 ^ 64 }
    {
        Kept {
            rows: self,
            left: 0..self.len(),
        }
    }
}
