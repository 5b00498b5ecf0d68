//! States as numbers in a lent slice.

ghost use Rattle.accumulators.specs.Calls.{Writes};

use crate::refusals::Short;

// A lent slice and a count, and no `Vec`: a reading asks for no memory.
/// Writes the numbers from the start of `out`, if there is room for all of them.
pub(crate) fn write_numbers(numbers: &[u64], out: &mut [u64]) -> Result<usize, Short>
    ensures { Writes numbers.now out.old out.new result }
{
    let needed = numbers.len();
    if out.len() < needed {
        return Err(Short { needed });
    }
    out[0..needed].copy_from_slice(numbers);
    Ok(needed)
}
