//! SUM of wholes, to signed 64 bits.

ghost use Rattle.std.specs.Prelude.{◌≡◌, [], ◌∷◌, ◌+ℤ◌};
ghost use Rattle.std.proofs.Common.{of_z};
ghost use Rattle.std.specs.Int.{int_wrap, w64};
ghost use Rattle.accumulators.specs.Figures.{Within};
ghost use Rattle.accumulators.specs.Sql.{sql_sum};
ghost use Rattle.accumulators.specs.Sums.{sum, sum_retracted};
ghost use Rattle.accumulators.specs.SumsLemmas.{sum_lawful, sum_exact, sum_retracting};

use crate::accumulator::{Accumulator, Retract};
use crate::held::Held;
use crate::refusals::{Full, Short};
use crate::state::write_numbers;
use rows::arguments::Arguments;
use rows::gather::Gather;

// A struct for each figure, and not one over a step: the step would be an interface beside the struct.
/// A total modulo 2^64.
#[derive(Clone, Copy)]
struct Total {
    value: i64,
}

impl Gather<i32> for Total {
    ghost gathered = { λ t v. record { value = int_wrap w64 (t.value +ℤ v) } };

    fn gather(&mut self, value: i32) {
        self.value = self.value.wrapping_add(i64::from(value));
    }
}

/// How many numbers the state has.
const NUMBERS: usize = 3;

/// The sum of the wholes put in.
#[derive(Drop)]
pub struct Sum {
    held: Held,
    total: i64,
}

impl Accumulator for Sum {
    type Value = i32;

    type Answer = i64;

    ghost numbers = { λ s. s.held.rows ∷ s.held.present ∷ of_z w64 s.total ∷ [] };

    ghost figure = { sum };

    ghost stands = { Within sum };

    ghost standard = { λ xs r. r ≡ sql_sum xs };

    ghost lawful = { sum_lawful };

    ghost sql = { sum_exact };

    fn new() -> Sum {
        Sum {
            held: Held::none(),
            total: 0,
        }
    }

    fn update(&mut self, rows: &Arguments<i32>) -> Result<(), Full> {
        let mut batch_total = Total { value: 0 };
        let batch = rows.gather(&mut batch_total);
        self.held = self.held.with(batch)?;
        self.total = self.total.wrapping_add(batch_total.value);
        Ok(())
    }

    fn evaluate(&self) -> Option<i64> {
        (self.held.present != 0).then_some(self.total)
    }

    fn state_len(&self) -> usize {
        NUMBERS
    }

    fn state(&self, out: &mut [u64]) -> Result<usize, Short> {
        let Held { rows, present } = self.held;
        write_numbers(&[rows as u64, present, self.total.cast_unsigned()], out)
    }
}

impl Retract for Sum {
    ghost retracted = { sum_retracted };

    ghost retracting = { sum_retracting };

    fn retract(&mut self, rows: &Arguments<i32>) {
        let mut batch_total = Total { value: 0 };
        let batch = rows.gather(&mut batch_total);
        match self.held.without(batch) {
            None => *self = Sum::new(),
            Some(held) => {
                self.held = held;
                self.total = self.total.wrapping_sub(batch_total.value);
            }
        }
    }
}
