//! The frame of all rows.

ghost use Rattle.std.specs.Prelude.{◌≡◌, false};
ghost use Rattle.frames.specs.Constant.{constant_rule};
ghost use Rattle.frames.specs.ConstantFrames.{constant_lawful};

use crate::frame::WindowFrameRange;
use crate::order::OrderColumn;
use crate::rule::FrameRule;
use bounds::sort::SortOptions;
use kinds::ordered::Ordered;

/// Every row has all rows of its partition, so that each waits for the end.
#[derive(Clone, Copy)]
pub struct ConstantFrame {
    pub order_by: Option<SortOptions>,
}

impl<O: Ordered> FrameRule<O> for ConstantFrame {
    ghost rule = { λ f. constant_rule f.order_by };

    ghost lawful = { λ f. constant_lawful O.Ordered.keyed f.order_by };

    fn calculate_range(
        &self,
        order: &OrderColumn<O>,
        _row: usize,
        _last: WindowFrameRange,
    ) -> WindowFrameRange {
        WindowFrameRange {
            start: 0,
            end: order.len(),
        }
    }

    fn is_causal(&self) -> bool {
        false
    }

    fn is_end_bound_safe(&self, _order: &OrderColumn<O>, _newest: Option<O>, _row: usize) -> bool
        ensures { result ≡ false }
    {
        false
    }

    fn is_ever_expanding(&self) -> bool {
        true
    }

    fn is_constant(&self) -> bool {
        true
    }

    fn order_by(&self) -> Option<SortOptions> {
        self.order_by
    }
}
