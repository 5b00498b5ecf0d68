//! How many rows an accumulator holds at most.

ghost use Rattle.std.specs.Prelude.{◌≤◌};
ghost use Rattle.accumulators.specs.Calls.{HasRoom};

use crate::refusals::Full;

/// The most rows that an accumulator holds which does not keep them.
pub const ROWS: usize = 4096;

/// The most rows that an accumulator holds which keeps them.
pub const KEPT: usize = 64;

/// The rows held with those offered, unless they pass the capacity.
pub(crate) fn make_room(held: usize, offered: usize, capacity: usize) -> Result<usize, Full>
    requires { held ≤ capacity }
    ensures { HasRoom held offered capacity result }
{
    if offered > capacity - held {
        return Err(Full { held, offered });
    }
    Ok(held + offered)
}
