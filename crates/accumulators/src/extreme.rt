//! MIN and MAX, for every ordered kind: one figure over a direction.

ghost use Rattle.std.specs.Prelude.{◌≡◌, ◌≤◌, Bool, true, false, nat_lt};
ghost use Rattle.accumulators.specs.Figures.{most_rows, Within};
ghost use Rattle.rows.specs.Rows.{non_null};
ghost use Rattle.accumulators.specs.Sql.{ahead, IsMinOrMax};
ghost use Rattle.accumulators.specs.Extremes.{better as better_key, extreme, extreme_state, key_or_0, one_or_0};
ghost use Rattle.accumulators.specs.ExtremesLemmas.{extreme_lawful, extreme_standard};

use crate::accumulator::Accumulator;
use crate::capacity::{ROWS, make_room};
use crate::refusals::{Full, Short};
use crate::state::write_numbers;
use kinds::ordered::Ordered;
use rows::arguments::Arguments;
use rows::gather::Gather;
use std::marker::PhantomData;

/// The end of the order that an extreme looks for.
pub trait Direction: Copy {
    ghost greatest: { Bool };

    /// Whether a value with the key `new` takes the place of one with the key `old`.
    fn beats(new: u64, old: u64) -> bool
        ensures { result ≡ ahead greatest nat_lt new old };
}

#[derive(Clone, Copy)]
pub struct Least;

#[derive(Clone, Copy)]
pub struct Greatest;

impl Direction for Least {
    ghost greatest = { false };

    fn beats(new: u64, old: u64) -> bool {
        new < old
    }
}

impl Direction for Greatest {
    ghost greatest = { true };

    fn beats(new: u64, old: u64) -> bool {
        old < new
    }
}

/// The best key so far, with one more.
pub(crate) fn better<D: Direction>(best: Option<u64>, key: u64) -> Option<u64>
    ensures { result ≡ better_key D.Direction.greatest best key }
{
    Some(best.map_or(key, |old| if D::beats(key, old) { key } else { old }))
}

// A pair of numbers, since a state has nothing else.
/// A row in a state: 1 and its key, or 0 and 0 where it is missing.
pub(crate) fn presence_and_key(row: Option<u64>) -> (u64, u64)
    ensures { result ≡ (one_or_0 row, key_or_0 row) }
{
    row.map_or((0, 0), |key| (1, key))
}

/// The best key of the values gathered.
#[derive(Clone, Copy)]
struct Best<D> {
    key: Option<u64>,
    direction: PhantomData<D>,
}

impl<V: Ordered, D: Direction> Gather<V> for Best<D> {
    ghost gathered = { λ b v. record { key = better_key D.Direction.greatest b.key (V.Ordered.keyed v); direction = b.direction } };

    fn gather(&mut self, value: V) {
        self.key = better::<D>(self.key, value.key());
    }
}

/// How many numbers the state has.
const NUMBERS: usize = 3;

/// The least or greatest of the values put in, by its key.
#[derive(Drop)]
pub struct Extreme<V, D> {
    rows: usize,
    best: Option<u64>,
    kind: PhantomData<V>,
    direction: PhantomData<D>,
    ghost few: { rows ≤ most_rows },
}

impl<V: Ordered, D: Direction> Accumulator for Extreme<V, D> {
    type Value = V;

    type Answer = V;

    ghost numbers = { λ e. extreme_state e.rows e.best };

    ghost figure = { extreme D.Direction.greatest V.Ordered.keyed V.Ordered.valued };

    ghost stands = { Within (extreme D.Direction.greatest V.Ordered.keyed V.Ordered.valued) };

    ghost standard = { λ xs. IsMinOrMax D.Direction.greatest V.Ordered.before (non_null xs) };

    ghost lawful = { extreme_lawful _ _ _ };

    ghost sql = { λ xs h e. extreme_standard D.Direction.greatest V.Ordered.fits V.Ordered.before V.Ordered.keyed V.Ordered.valued V.Ordered.restored V.Ordered.ordered xs e };

    fn new() -> Extreme<V, D> {
        Extreme {
            rows: 0,
            best: None,
            kind: PhantomData,
            direction: PhantomData,
        }
    }

    fn update(&mut self, rows: &Arguments<V>) -> Result<(), Full> {
        let mut best: Best<D> = Best {
            key: self.best,
            direction: PhantomData,
        };
        let batch = rows.gather(&mut best);
        self.rows = make_room(self.rows, batch.rows, ROWS)?;
        self.best = best.key;
        Ok(())
    }

    fn evaluate(&self) -> Option<V> {
        Some(V::from_key(self.best?))
    }

    fn state_len(&self) -> usize {
        NUMBERS
    }

    fn state(&self, out: &mut [u64]) -> Result<usize, Short> {
        let (presence, key) = presence_and_key(self.best);
        write_numbers(&[self.rows as u64, presence, key], out)
    }
}
