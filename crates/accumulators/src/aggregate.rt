//! Figures over a whole group of rows, for every accumulator.

ghost use Rattle.std.specs.Prelude.{◌≡◌, []};
ghost use Rattle.rows.specs.Rows.{kept};
ghost use Rattle.accumulators.specs.Calls.{Aggregates, AnyCut, Slides};

use crate::accumulator::{Accumulator, Retract};
use crate::refusals::Full;
use rows::arguments::Arguments;

/// The answer over no rows, which an empty frame has.
pub fn default_value<A: Accumulator>() -> Option<A::Answer>
    ensures { result ≡ A.Accumulator.figure.answer [] }
{
    A::new().evaluate()
}

/// The answer over the kept rows, as the SQL standard has it. However the same rows are cut into
/// batches, an accumulator that takes one batch after the other comes to this answer.
pub fn aggregate<A: Accumulator>(rows: &Arguments<A::Value>) -> Result<Option<A::Answer>, Full>
    ensures value { Aggregates A.Accumulator.figure A.Value.Ordered.fits A.Accumulator.standard (kept rows.now) result }
    ensures cut { AnyCut A.Accumulator.figure }
{
    let mut group = A::new();
    group.update(rows)?;
    Ok(group.evaluate())
}

/// Takes a batch in, drops another, which is the oldest part of what is held then, and answers over the
/// rest. Where the batch is refused, nothing is dropped either.
pub fn slide<A: Retract>(
    accumulator: &mut A,
    entering: &Arguments<A::Value>,
    leaving: &Arguments<A::Value>,
) -> Result<Option<A::Answer>, Full>
    ensures { Slides A.Accumulator.figure A.Accumulator.stands A.Retract.retracted A.Accumulator.numbers accumulator.old accumulator.new (kept entering.now) (kept leaving.now) result }
{
    accumulator.update(entering)?;
    accumulator.retract(leaving);
    Ok(accumulator.evaluate())
}
