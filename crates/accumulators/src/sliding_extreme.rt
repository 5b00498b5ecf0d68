//! MIN and MAX that can drop rows again, for every ordered kind: up to 64 rows are kept.

ghost use Rattle.std.specs.Prelude.{◌≡◌, ◌+◌, ◌≤◌, ◌∷◌, ◌++◌, map, length, None};
ghost use Rattle.std.specs.Option.{option_map};
ghost use Rattle.accumulators.specs.Figures.{most_kept, Within};
ghost use Rattle.rows.specs.Rows.{kept, non_null};
ghost use Rattle.accumulators.specs.Sql.{IsMinOrMax};
ghost use Rattle.accumulators.specs.Extremes.{best as best_key};
ghost use Rattle.accumulators.specs.SlidingExtremes.{sliding_extreme, oldest_dropped, pairs};
ghost use Rattle.accumulators.specs.Rings.{put_pair};
ghost use Rattle.accumulators.specs.SlidingExtremesLemmas.{sliding_lawful, sliding_retracting};
ghost use Rattle.accumulators.specs.ExtremesLemmas.{extreme_standard};

use crate::accumulator::{Accumulator, Retract};
use crate::capacity::{KEPT, make_room};
use crate::extreme::{Direction, better, presence_and_key};
use crate::refusals::{Full, Short};
use crate::ring::Ring;
use kinds::ordered::Ordered;
use rows::arguments::Arguments;
use rows::gather::{Gather, Nothing};
use std::marker::PhantomData;

/// The least or greatest of the values that are still held.
#[derive(Drop)]
pub struct SlidingExtreme<V, D> {
    ring: Ring,
    kind: PhantomData<V>,
    direction: PhantomData<D>,
    // The ring knows this of itself, but who holds a sliding extreme sees of the ring its list alone.
    ghost few: { length ring ≤ most_kept },
}

/// Puts the rows of a batch into the ring, behind the newest.
fn push_all<V: Ordered>(ring: &mut Ring, rows: &Arguments<V>)
    requires { length ring.old + length (kept rows.now) ≤ most_kept }
    ensures { ring.new ≡ ring.old ++ map (option_map V.Ordered.keyed) (kept rows.now) }
{
    for argument in rows.iter() {
        ring.push(argument.map(V::key));
    }
}

/// The best key in the ring.
fn best<D: Direction>(ring: &Ring) -> Option<u64>
    ensures { result ≡ best_key D.Direction.greatest None (non_null ring.now) }
{
    let mut best = None;
    for row in ring.iter() {
        if let Some(key) = row {
            best = better::<D>(best, key);
        }
    }
    best
}

impl<V: Ordered, D: Direction> Accumulator for SlidingExtreme<V, D> {
    type Value = V;

    type Answer = V;

    ghost numbers = { λ e. length e.ring ∷ pairs e.ring };

    ghost figure = { sliding_extreme D.Direction.greatest V.Ordered.keyed V.Ordered.valued };

    ghost stands = { Within (sliding_extreme D.Direction.greatest V.Ordered.keyed V.Ordered.valued) };

    ghost standard = { λ xs. IsMinOrMax D.Direction.greatest V.Ordered.before (non_null xs) };

    ghost lawful = { sliding_lawful _ _ _ };

    ghost sql = { λ xs h e. extreme_standard D.Direction.greatest V.Ordered.fits V.Ordered.before V.Ordered.keyed V.Ordered.valued V.Ordered.restored V.Ordered.ordered xs e };

    fn new() -> SlidingExtreme<V, D> {
        SlidingExtreme {
            ring: Ring::new(),
            kind: PhantomData,
            direction: PhantomData,
        }
    }

    fn update(&mut self, rows: &Arguments<V>) -> Result<(), Full> {
        let offered = rows.gather(&mut Nothing).rows;
        make_room(self.ring.len(), offered, KEPT)?;
        push_all(&mut self.ring, rows);
        Ok(())
    }

    fn evaluate(&self) -> Option<V> {
        Some(V::from_key(best::<D>(&self.ring)?))
    }

    fn state_len(&self) -> usize {
        1 + 2 * self.ring.len()
    }

    fn state(&self, out: &mut [u64]) -> Result<usize, Short> {
        let needed = self.state_len();
        if out.len() < needed {
            return Err(Short { needed });
        }
        out[0] = self.ring.len() as u64;
        for (i, row) in self.ring.iter().enumerate() {
            put_pair(out, 1 + 2 * i, row);
        }
        Ok(needed)
    }
}

/// Writes presence and key of a row to two places.
fn put_pair(out: &mut [u64], place: usize, row: Option<u64>)
    requires { place + 2 ≤ length out.old }
    ensures { out.new ≡ put_pair out.old place row }
{
    let (presence, key) = presence_and_key(row);
    out[place] = presence;
    out[place + 1] = key;
}

impl<V: Ordered, D: Direction> Retract for SlidingExtreme<V, D> {
    ghost retracted = { oldest_dropped };

    ghost retracting = { sliding_retracting _ _ _ };

    fn retract(&mut self, rows: &Arguments<V>) {
        self.ring.drop_oldest(rows.gather(&mut Nothing).rows);
    }
}
