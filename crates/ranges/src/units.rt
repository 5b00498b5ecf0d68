//! What the bounds of a RANGE frame mean: peers for every ordered kind, distances for measured ones.

ghost use Rattle.std.specs.Prelude.{◌≡◌, ℕ, MatchOption, Some as Val, None as Missing};
ghost use Rattle.std.proofs.Math.IntN.{sub_ℕ};
ghost use Rattle.bounds.specs.Bounds.{IsNear, offset};
ghost use Rattle.frames.specs.Standard.{moved};
ghost use Rattle.frames.specs.Mirrors.{Shape};
ghost use Rattle.ranges.specs.Ranges.{WellMade, removes_before, removes_behind};

use bounds::bound::WindowFrameBound;
use bounds::sort::SortOptions;
use kinds::ordered::Ordered;

/// The place that a bound leads to from `place`, in the order of the rows; it may lie outside the kind.
fn target(
    order_by: Option<SortOptions>,
    bound: WindowFrameBound,
    place: i128,
) -> Option<(SortOptions, i128)>
    requires { IsNear place }
    ensures { MatchOption result (moved order_by (offset bound) (Val place) ≡ Missing) (λ t. (order_by ≡ Val t.0) × (moved order_by (offset bound) (Val place) ≡ Val t.1)) }
{
    let sort = order_by?;
    let by = bound.offset()?;
    let at = if sort.descending {
        place - by
    } else {
        place + by
    };
    Some((sort, at))
}

/// Two bounds of RANGE, and how they are held against the rows.
pub trait RangeUnits<O: Ordered>: Copy {
    /// A value's place is its key less this number.
    ghost base: { ℕ };

    ghost shape: { Self → Shape };

    fn order_by(&self) -> Option<SortOptions>
        ensures { result ≡ (shape self.now).order };

    fn start_bound(&self) -> WindowFrameBound
        ensures { result ≡ (shape self.now).start };

    fn end_bound(&self) -> WindowFrameBound
        ensures { result ≡ (shape self.now).end };

    /// The place of an order value.
    fn place(&self, value: O) -> i128
        ensures value { result ≡ sub_ℕ (O.Ordered.keyed value) base }
        ensures near { IsNear result };

    /// Whether `value` sorts before the target of the start, seen from a row with the value `here`.
    fn is_before_start(&self, here: O, value: O) -> bool
        ensures { result ≡ removes_before O.Ordered.keyed base (shape self.now) (Val here) (Val value) }
    {
        let target = target(self.order_by(), self.start_bound(), self.place(here));
        target.is_some_and(|(sort, at)| sort.is_before(self.place(value), at))
    }

    /// Whether `value` sorts behind the target of the end.
    fn is_behind_end(&self, here: O, value: O) -> bool
        ensures { result ≡ removes_behind O.Ordered.keyed base (shape self.now) (Val here) (Val value) }
    {
        let target = target(self.order_by(), self.end_bound(), self.place(here));
        target.is_some_and(|(sort, at)| sort.is_before(at, self.place(value)))
    }

    ghost well: { (u : Self) → WellMade (shape u) };
}
