//! How many rows a count or a sum holds, and how many of them have a value.

ghost use Rattle.std.specs.Prelude.{◌≡◌, ◌≤◌};
ghost use Rattle.accumulators.specs.Figures.{most_rows};

use crate::capacity::{ROWS, make_room};
use crate::refusals::Full;
use rows::gather::Tally;

/// How many rows are held, and how many of them are not missing.
#[derive(Clone, Copy)]
pub(crate) struct Held {
    pub rows: usize,
    pub present: u64,
    ghost few: { rows ≤ most_rows },
}

impl Held {
    ghost use Rattle.accumulators.specs.Helds.{Takes, LetsGo};

    pub fn none() -> Held
        ensures rows { result.rows ≡ 0 }
        ensures present { result.present ≡ 0 }
    {
        Held {
            rows: 0,
            present: 0,
        }
    }

    /// With a batch more, unless the rows would pass the capacity.
    pub fn with(self, batch: Tally) -> Result<Held, Full>
        ensures { Takes self batch result }
    {
        Ok(Held {
            rows: make_room(self.rows, batch.rows, ROWS)?,
            present: self.present.wrapping_add(batch.present as u64),
        })
    }

    /// Without its oldest batch; none where that has more rows than are held.
    pub fn without(self, batch: Tally) -> Option<Held>
        ensures { LetsGo self batch result }
    {
        Some(Held {
            rows: self.rows.checked_sub(batch.rows)?,
            present: self.present.saturating_sub(batch.present as u64),
        })
    }
}
