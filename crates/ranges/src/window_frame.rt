//! A frame in either unit, where the unit is known only as the program runs.

ghost use Rattle.std.specs.Prelude.{◌≡◌};
ghost use Rattle.frames.specs.Columns.{column};
ghost use Rattle.ranges.specs.WindowFrames.{either_rule, units_of};
ghost use Rattle.ranges.specs.declared.window_frame.WindowFrame.TheVariants.{Rows, Range};
ghost use Rattle.frames.specs.RowFrames.{rows_lawful};

use bounds::sort::SortOptions;
use frames::frame::WindowFrameRange;
use frames::order::OrderColumn;
use frames::rows::RowsFrame;
use frames::rule::FrameRule;
use kinds::ordered::Ordered;

/// What the bounds of a frame count in.
#[derive(Clone, Copy, PartialEq, Eq, Debug)]
pub enum WindowFrameUnits {
    Rows,
    Range,
}

// An enum, and not a `dyn`: the kinds of frame are these, and a rule is `Copy`.
/// A frame of ROWS, or of RANGE by peers or by distance.
#[derive(Clone, Copy)]
pub enum WindowFrame<R> {
    Rows(RowsFrame),
    Range(R),
}

impl<R> WindowFrame<R> {
    pub fn units(&self) -> WindowFrameUnits
        ensures { result ≡ units_of self.now }
    {
        match self {
            WindowFrame::Rows(_) => WindowFrameUnits::Rows,
            WindowFrame::Range(_) => WindowFrameUnits::Range,
        }
    }
}

impl<O: Ordered, R: FrameRule<O>> FrameRule<O> for WindowFrame<R> {
    ghost rule = { either_rule R.FrameRule.rule };

    ghost lawful = { elim [
      | Rows f ↦ rows_lawful f.bounds.start f.bounds.end f.bounds.started f.bounds.ended f.bounds.forward O.Ordered.keyed f.order_by
      | Range f ↦ R.FrameRule.lawful f
    ] };

    fn calculate_range(
        &self,
        order: &OrderColumn<O>,
        row: usize,
        last: WindowFrameRange,
    ) -> WindowFrameRange {
        match self {
            WindowFrame::Rows(frame) => frame.calculate_range(order, row, last),
            WindowFrame::Range(frame) => frame.calculate_range(order, row, last),
        }
    }

    fn is_causal(&self) -> bool {
        match self {
            WindowFrame::Rows(frame) => FrameRule::<O>::is_causal(frame),
            WindowFrame::Range(frame) => frame.is_causal(),
        }
    }

    fn is_end_bound_safe(&self, order: &OrderColumn<O>, newest: Option<O>, row: usize) -> bool
        ensures { result ≡ (either_rule R.FrameRule.rule self.now).closed (column order.now) newest row }
    {
        match self {
            WindowFrame::Rows(frame) => frame.is_end_bound_safe(order, newest, row),
            WindowFrame::Range(frame) => frame.is_end_bound_safe(order, newest, row),
        }
    }

    fn is_ever_expanding(&self) -> bool {
        match self {
            WindowFrame::Rows(frame) => FrameRule::<O>::is_ever_expanding(frame),
            WindowFrame::Range(frame) => frame.is_ever_expanding(),
        }
    }

    fn is_constant(&self) -> bool {
        match self {
            WindowFrame::Rows(frame) => FrameRule::<O>::is_constant(frame),
            WindowFrame::Range(frame) => frame.is_constant(),
        }
    }

    fn order_by(&self) -> Option<SortOptions> {
        match self {
            WindowFrame::Rows(frame) => frame.order_by,
            WindowFrame::Range(frame) => frame.order_by(),
        }
    }
}
