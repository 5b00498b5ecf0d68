//! SUM of floats, added oldest first and rounded each time, so that every cut into batches gives the same bits.

ghost use Rattle.std.specs.Prelude.{◌≡◌, ◌≤◌, T, [], ◌∷◌};
ghost use Rattle.std.specs.Float.Ieee as Ieee;
ghost use Rattle.std.specs.Float.{binary64};
ghost use Rattle.std.specs.Float.Ieee.{add};
ghost use Rattle.kinds.specs.Keys.{float_key};
ghost use Rattle.accumulators.specs.Figures.{Within};
ghost use Rattle.accumulators.specs.Sql.{sql_float_sum};
ghost use Rattle.accumulators.specs.FloatSums.{float_sum};
ghost use Rattle.accumulators.specs.FloatSumsLemmas.{float_sum_lawful};
ghost use Rattle.std.proofs.Common.{rules, arith};

use crate::accumulator::Accumulator;
use crate::held::Held;
use crate::refusals::{Full, Short};
use crate::state::write_numbers;
use kinds::ordered::Ordered;
use rows::arguments::Arguments;
use rows::gather::Gather;

/// A total that rounds after each value.
#[derive(Clone, Copy)]
struct Total {
    value: f64,
}

impl Gather<f64> for Total {
    ghost gathered = { λ t v. record { value = add binary64 t.value v } };

    fn gather(&mut self, value: f64) {
        self.value += value;
    }
}

/// How many numbers the state has.
const NUMBERS: usize = 3;

/// The sum of the floats put in.
#[derive(Drop)]
pub struct FloatSum {
    held: Held,
    total: f64,
    ghost fewer: { held.present ≤ held.rows },
    ghost fits: { T (Ieee.fits binary64 total) },
}

impl Accumulator for FloatSum {
    type Value = f64;

    type Answer = f64;

    ghost numbers = { λ s. s.held.rows ∷ s.held.present ∷ float_key s.total ∷ [] };

    ghost figure = { float_sum };

    ghost stands = { Within float_sum };

    ghost standard = { λ xs r. r ≡ sql_float_sum xs };

    ghost lawful = { float_sum_lawful };

    ghost sql = { first_of (Prim.search rules, Prim.grind (arith, Self.row.coded.inj)) };

    fn new() -> FloatSum {
        FloatSum {
            held: Held::none(),
            total: 0.0,
        }
    }

    fn update(&mut self, rows: &Arguments<f64>) -> Result<(), Full> {
        let mut total = Total { value: self.total };
        let batch = rows.gather(&mut total);
        *self = FloatSum {
            held: self.held.with(batch)?,
            total: total.value,
        };
        Ok(())
    }

    fn evaluate(&self) -> Option<f64> {
        (self.held.present != 0).then_some(self.total)
    }

    fn state_len(&self) -> usize {
        NUMBERS
    }

    fn state(&self, out: &mut [u64]) -> Result<usize, Short> {
        let Held { rows, present } = self.held;
        write_numbers(&[rows as u64, present, self.total.key()], out)
    }
}
