//! Frames that go by order values.

ghost use Rattle.std.specs.Prelude.{◌≡◌, Bool, not, if◌then◌else◌, Option as Opt};
ghost use Rattle.bounds.specs.Bounds.{unbounded};
ghost use Rattle.frames.specs.Columns.{column};
ghost use Rattle.bounds.specs.Orders.{at, row_ahead};
ghost use Rattle.ranges.specs.Ranges.{all_rows, removes_before, removes_behind, rule_of};
ghost use Rattle.ranges.specs.Scans.{first_from};
ghost use Rattle.ranges.specs.RangeFrames.{range_lawful};

use crate::units::RangeUnits;
use bounds::bound::WindowFrameBound;
use bounds::sort::SortOptions;
use frames::frame::WindowFrameRange;
use frames::order::OrderColumn;
use frames::rule::FrameRule;
use kinds::ordered::Ordered;

/// RANGE between two bounds.
#[derive(Clone, Copy)]
pub struct RangeFrame<U> {
    pub units: U,
}

/// The first row from `from` on whose order value does not pass, or the row count.
fn first_from<O: Copy, F: Fn(Option<O>) -> bool>(
    order: &OrderColumn<O>,
    from: usize,
    passes: F,
) -> usize
    requires { F.IsAlwaysCallable passes }
    ensures { (test : Opt O → Bool) → ((v : Opt O) (r : Bool) → F.post passes v r → r ≡ test v) → result ≡ first_from test from (column order.now) }
{
    let from = from.min(order.len());
    match order {
        OrderColumn::Values(values) => values[from..]
            .iter()
            .position(|value| !passes(Some(*value)))
            .map_or(values.len(), |further| from + further),
        OrderColumn::Absent(rows) => if passes(None) { *rows } else { from },
    }
}

/// Whether the start removes a row with the order value `value`, seen from a row with `here`.
fn is_removed_before<O: Ordered, U: RangeUnits<O>>(
    units: &U,
    here: Option<O>,
    value: Option<O>,
) -> bool
    ensures { result ≡ removes_before O.Ordered.keyed U.RangeUnits.base (U.RangeUnits.shape units.now) here value }
{
    here.zip(value)
        .is_some_and(|(here, value)| units.is_before_start(here, value))
}

/// Whether the end removes it.
fn is_removed_behind<O: Ordered, U: RangeUnits<O>>(
    units: &U,
    here: Option<O>,
    value: Option<O>,
) -> bool
    ensures { result ≡ removes_behind O.Ordered.keyed U.RangeUnits.base (U.RangeUnits.shape units.now) here value }
{
    here.zip(value)
        .is_some_and(|(here, value)| units.is_behind_end(here, value))
}

/// Where the frame of a row starts; the search goes on from `from`.
fn start_of<O: Ordered, U: RangeUnits<O>>(
    units: &U,
    order: &OrderColumn<O>,
    row: usize,
    from: usize,
) -> usize
    ensures { result ≡ (if unbounded (U.RangeUnits.shape units.now).start then 0 else first_from (removes_before O.Ordered.keyed U.RangeUnits.base (U.RangeUnits.shape units.now) (at (column order.now) row)) from (column order.now)) }
{
    if units.start_bound().is_unbounded() {
        return 0;
    }
    let here = order.get(row);
    first_from(order, from, |value| is_removed_before(units, here, value))
}

/// Where it ends.
fn end_of<O: Ordered, U: RangeUnits<O>>(
    units: &U,
    order: &OrderColumn<O>,
    row: usize,
    from: usize,
) -> usize
    ensures { result ≡ first_from (λ v. not (removes_behind O.Ordered.keyed U.RangeUnits.base (U.RangeUnits.shape units.now) (at (column order.now) row) v)) from (column order.now) }
{
    let here = order.get(row);
    first_from(order, from, |value| !is_removed_behind(units, here, value))
}

/// Whether a most recent row is shown and sorts strictly behind the last row.
pub fn is_row_ahead<O: Ordered>(
    order: &OrderColumn<O>,
    newest: Option<O>,
    order_by: Option<SortOptions>,
) -> bool
    ensures { result ≡ row_ahead O.Ordered.keyed order_by (column order.now) newest }
{
    match (order_by, order.last(), newest) {
        (Some(sort), Some(last), Some(newest)) => {
            sort.is_before(last.key().into(), newest.key().into())
        }
        _ => false,
    }
}

/// Whether a bound takes in every row on its side.
fn takes_all(bound: WindowFrameBound, order_by: Option<SortOptions>) -> bool
    ensures { result ≡ all_rows order_by bound }
{
    match bound {
        WindowFrameBound::CurrentRow => order_by.is_none(),
        _ => bound.is_unbounded(),
    }
}

impl<O: Ordered, U: RangeUnits<O>> FrameRule<O> for RangeFrame<U> {
    ghost rule = { λ f. rule_of O.Ordered.keyed U.RangeUnits.base (U.RangeUnits.shape f.units) };

    ghost lawful = { λ f.
        let s = U.RangeUnits.shape f.units in
        range_lawful O.Ordered.keyed U.RangeUnits.base s.order s.start s.end (U.RangeUnits.well f.units) };

    fn calculate_range(
        &self,
        order: &OrderColumn<O>,
        row: usize,
        last: WindowFrameRange,
    ) -> WindowFrameRange {
        WindowFrameRange {
            start: start_of(&self.units, order, row, last.start),
            end: end_of(&self.units, order, row, last.end),
        }
    }

    fn is_causal(&self) -> bool {
        matches!(self.units.end_bound(), WindowFrameBound::Preceding(1..))
    }

    fn is_end_bound_safe(&self, order: &OrderColumn<O>, newest: Option<O>, row: usize) -> bool
        ensures { result ≡ (rule_of O.Ordered.keyed U.RangeUnits.base (U.RangeUnits.shape self.now.units)).closed (column order.now) newest row }
    {
        match self.units.end_bound() {
            WindowFrameBound::Preceding(1..) => self.units.order_by().is_some(),
            WindowFrameBound::Preceding(_) | WindowFrameBound::CurrentRow => is_row_ahead(
                order,
                newest,
                self.units.order_by(),
            ),
            WindowFrameBound::Following(_) => {
                let here = order.get(row);
                is_removed_behind(&self.units, here, newest)
            }
            WindowFrameBound::UnboundedPreceding | WindowFrameBound::UnboundedFollowing => false,
        }
    }

    fn is_ever_expanding(&self) -> bool {
        self.units.start_bound().is_unbounded()
    }

    fn is_constant(&self) -> bool {
        let order_by = self.units.order_by();
        takes_all(self.units.start_bound(), order_by) && takes_all(self.units.end_bound(), order_by)
    }

    fn order_by(&self) -> Option<SortOptions> {
        self.units.order_by()
    }
}
