//! COUNT: how many rows are not missing, for every kind.

ghost use Rattle.std.specs.Prelude.{◌≡◌, [], ◌∷◌};
ghost use Rattle.accumulators.specs.Figures.{Within};
ghost use Rattle.accumulators.specs.Counts.{count, count_retracted};
ghost use Rattle.accumulators.specs.Sql.{sql_count};
ghost use Rattle.accumulators.specs.CountsLemmas.{count_lawful, count_retracting};
ghost use Rattle.std.proofs.Common.{rules, arith};

use crate::accumulator::{Accumulator, Retract};
use crate::held::Held;
use crate::refusals::{Full, Short};
use crate::state::write_numbers;
use kinds::ordered::Ordered;
use rows::arguments::Arguments;
use rows::gather::{Gather, Nothing};
use std::marker::PhantomData;

/// How many numbers the state has.
const NUMBERS: usize = 2;

/// How many of the rows put in are not missing.
#[derive(Drop)]
pub struct Count<V> {
    held: Held,
    kind: PhantomData<V>,
}

impl<V: Ordered> Accumulator for Count<V> {
    type Value = V;

    type Answer = u64;

    ghost numbers = { λ c. c.held.rows ∷ c.held.present ∷ [] };

    ghost figure = { count V };

    ghost stands = { Within (count V) };

    ghost standard = { λ xs r. r ≡ sql_count xs };

    ghost lawful = { count_lawful _ };

    ghost sql = { first_of (Prim.search rules, Prim.grind (arith, Self.row.coded.inj)) };

    fn new() -> Count<V> {
        Count {
            held: Held::none(),
            kind: PhantomData,
        }
    }

    fn update(&mut self, rows: &Arguments<V>) -> Result<(), Full> {
        self.held = self.held.with(rows.gather(&mut Nothing))?;
        Ok(())
    }

    fn evaluate(&self) -> Option<u64> {
        Some(self.held.present)
    }

    fn state_len(&self) -> usize {
        NUMBERS
    }

    fn state(&self, out: &mut [u64]) -> Result<usize, Short> {
        let Held { rows, present } = self.held;
        write_numbers(&[rows as u64, present], out)
    }
}

impl<V: Ordered> Retract for Count<V> {
    ghost retracted = { count_retracted };

    ghost retracting = { count_retracting _ };

    fn retract(&mut self, rows: &Arguments<V>) {
        let batch = rows.gather(&mut Nothing);
        self.held = self.held.without(batch).unwrap_or(Held::none());
    }
}
