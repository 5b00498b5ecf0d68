//! The interface of frame rules, each told by the frames that it gives.

ghost use Rattle.std.specs.Prelude.{◌≡◌};
ghost use Rattle.frames.specs.Columns.{column};
ghost use Rattle.frames.specs.Rules.{Rule};
ghost use Rattle.frames.specs.Laws.{Lawful};

use crate::frame::WindowFrameRange;
use crate::order::OrderColumn;
use bounds::sort::SortOptions;
use kinds::ordered::Ordered;

/// Gives each row of a partition its frame.
pub trait FrameRule<O: Ordered>: Copy {
    ghost rule: { Self → Rule O };

    /// The frame of a row, from the frame of the row before it; the first row's from [0, 0).
    fn calculate_range(
        &self,
        order: &OrderColumn<O>,
        row: usize,
        last: WindowFrameRange,
    ) -> WindowFrameRange
        ensures { result ≡ (rule self.now).frame (column order.now) row last };

    /// Whether no frame reaches behind its row.
    fn is_causal(&self) -> bool
        ensures { result ≡ (rule self.now).causal };

    /// Whether the end of the row's frame stands although rows may follow, none of which sorts before
    /// the most recent row.
    fn is_end_bound_safe(&self, order: &OrderColumn<O>, newest: Option<O>, row: usize) -> bool
        ensures { result ≡ (rule self.now).closed (column order.now) newest row };

    /// Whether every frame starts at the first row.
    fn is_ever_expanding(&self) -> bool
        ensures { result ≡ (rule self.now).from_first };

    /// Whether every frame has all rows.
    fn is_constant(&self) -> bool
        ensures { result ≡ (rule self.now).constant };

    /// The sort order; none where no order values come.
    fn order_by(&self) -> Option<SortOptions>
        ensures { result ≡ (rule self.now).order };

    ghost lawful: { (f : Self) → Lawful O.Ordered.keyed (rule f) };
}
