//! Frames counted in rows.

ghost use Rattle.std.specs.Prelude.{◌≡◌, ◌^◌, ◌≤◌, IfOk};
ghost use Rattle.frames.specs.Columns.{column};
ghost use Rattle.bounds.specs.Reasons.{bound_reasons, first_reason, reason_of};
ghost use Rattle.frames.specs.Rows.{rows_rule, rows_to, rows_causal};
ghost use Rattle.frames.specs.RowFrames.{rows_lawful};

use crate::frame::WindowFrameRange;
use crate::order::OrderColumn;
use crate::rule::FrameRule;
use bounds::bound::WindowFrameBound;
use bounds::bounds::Bounds;
use bounds::reason::IllMade;
use bounds::sort::SortOptions;
use kinds::ordered::Ordered;

/// The most rows that a bound may count.
pub const MOST_ROWS: u64 = 4096;

/// ROWS between two bounds.
#[derive(Clone, Copy)]
pub struct RowsFrame {
    pub bounds: Bounds,
    pub order_by: Option<SortOptions>,
}

impl RowsFrame {
    pub fn new(
        start: WindowFrameBound,
        end: WindowFrameBound,
        order_by: Option<SortOptions>,
    ) -> Result<RowsFrame, IllMade>
        ensures reason { reason_of result ≡ first_reason (bound_reasons 4096 start end) }
        ensures frame { IfOk result (λ f. (f.bounds.start ≡ start) × (f.bounds.end ≡ end) × (f.order_by ≡ order_by)) }
    {
        let bounds = Bounds::new(start, end, MOST_ROWS)?;
        Ok(RowsFrame { bounds, order_by })
    }
}

/// Where a bound leads to from the row `from`, of `len`.
fn row_at(bound: WindowFrameBound, len: usize, from: u128) -> usize
    requires { from ≤ 2 ^ 64 }
    ensures { result ≡ rows_to bound len from }
{
    let row = match bound {
        WindowFrameBound::UnboundedPreceding => 0,
        WindowFrameBound::Preceding(n) => from.saturating_sub(u128::from(n)),
        WindowFrameBound::CurrentRow => from,
        WindowFrameBound::Following(n) => from + u128::from(n),
        WindowFrameBound::UnboundedFollowing => return len,
    };
    row.min(len as u128) as usize
}

/// Whether a frame with this end never reaches behind its row.
fn ends_by_its_row(bound: WindowFrameBound) -> bool
    ensures { result ≡ rows_causal bound }
{
    !matches!(
        bound,
        WindowFrameBound::Following(1..) | WindowFrameBound::UnboundedFollowing
    )
}

impl<O: Ordered> FrameRule<O> for RowsFrame {
    ghost rule = { λ f. rows_rule f.order_by f.bounds.start f.bounds.end };

    ghost lawful = { λ f. rows_lawful f.bounds.start f.bounds.end f.bounds.started f.bounds.ended f.bounds.forward O.Ordered.keyed f.order_by };

    fn calculate_range(
        &self,
        order: &OrderColumn<O>,
        row: usize,
        _last: WindowFrameRange,
    ) -> WindowFrameRange {
        let len = order.len();
        WindowFrameRange {
            start: row_at(self.bounds.start, len, row as u128),
            end: row_at(self.bounds.end, len, row as u128 + 1),
        }
    }

    fn is_causal(&self) -> bool {
        ends_by_its_row(self.bounds.end)
    }

    fn is_end_bound_safe(&self, _order: &OrderColumn<O>, _newest: Option<O>, _row: usize) -> bool
        ensures { result ≡ (rows_rule {O = O} self.now.order_by self.now.bounds.start self.now.bounds.end).closed (column _order.now) _newest _row }
    {
        self.order_by.is_some() && ends_by_its_row(self.bounds.end)
    }

    fn is_ever_expanding(&self) -> bool {
        self.bounds.start.is_unbounded()
    }

    fn is_constant(&self) -> bool {
        self.bounds.start.is_unbounded() && self.bounds.end.is_unbounded()
    }

    fn order_by(&self) -> Option<SortOptions> {
        self.order_by
    }
}
