//! The frames of a whole partition.

ghost use Rattle.std.specs.Prelude.{◌≡◌, ℕ, ◌<◌, min, ◌++◌, length, drop};
ghost use Rattle.frames.specs.Columns.{column};
ghost use Rattle.frames.specs.Partitions.{Told, row_frames};
ghost use Rattle.bounds.specs.Reasons.{first_reason, reason_of};
ghost use Rattle.frames.specs.Rules.{plain_reasons, waits};

use crate::frame::{RowFrame, WindowFrameRange};
use crate::order::OrderColumn;
use crate::rule::FrameRule;
use bounds::reason::IllMade;
use kinds::ordered::Ordered;

/// Refuses a rule that a plain expression cannot have: it never lets a row go.
pub fn check_plain<O: Ordered, R: FrameRule<O>>(rule: &R) -> Result<(), IllMade>
    ensures { reason_of result ≡ first_reason (plain_reasons (R.FrameRule.rule rule.now)) }
{
    if rule.is_ever_expanding() || rule.is_constant() {
        Ok(())
    } else {
        Err(IllMade::PlainMovingStart)
    }
}

/// Whether a row with this frame has to wait for rows to come.
pub fn must_wait<O: Ordered, R: FrameRule<O>>(
    rule: &R,
    order: &OrderColumn<O>,
    newest: Option<O>,
    row: usize,
    frame: WindowFrameRange,
) -> bool
    ensures { result ≡ waits (R.FrameRule.rule rule.now) (column order.now) newest row frame }
{
    frame.end >= order.len() && !rule.is_causal() && !rule.is_end_bound_safe(order, newest, row)
}

/// The frames of the first rows of an open partition, as many as `out` takes, in one pass.
pub fn frames<O: Ordered, R: FrameRule<O>>(
    rule: &R,
    order: &OrderColumn<O>,
    newest: Option<O>,
    out: &mut [RowFrame],
) -> usize
    ensures count { result ≡ min (length (column order.now)) (length out.old) }
    ensures written { out.new ≡ row_frames (R.FrameRule.rule rule.now) (column order.now) newest result ++ drop result out.old }
    ensures told { (i : ℕ) → i < length (column order.now) → Told O.Ordered.keyed (R.FrameRule.rule rule.now) (column order.now) newest i }
{
    let rows = order.len().min(out.len());
    let mut last = WindowFrameRange { start: 0, end: 0 };
    for (row, place) in out[..rows].iter_mut().enumerate() {
        last = rule.calculate_range(order, row, last);
        *place = if must_wait(rule, order, newest, row, last) {
            RowFrame::Waiting(last)
        } else {
            RowFrame::Complete(last)
        };
    }
    rows
}
