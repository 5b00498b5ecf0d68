//! RANGE by distance, for measured kinds.

ghost use Rattle.std.specs.Prelude.{◌≡◌, false, not, ◌&&◌, ◌||◌, ◌++◌, is_some, IfOk};
ghost use Rattle.bounds.specs.Bounds.{beyond, distant};
ghost use Rattle.bounds.specs.Reasons.{bound_reasons, first_reason, order_reasons, reason_of};
ghost use Rattle.std.proofs.Common.{rules, arith};

use crate::units::RangeUnits;
use bounds::bound::WindowFrameBound;
use bounds::bounds::Bounds;
use bounds::reason::IllMade;
use bounds::sort::SortOptions;
use kinds::ordered::Measured;

/// The greatest distance that a bound may lie from its row.
pub const MOST_DISTANCE: u64 = 2_147_483_647;

/// The frame of a row goes by how far order values lie apart.
#[derive(Clone, Copy)]
pub struct Distances {
    pub bounds: Bounds,
    pub order_by: Option<SortOptions>,
    ghost start_near: { beyond 2147483647 bounds.start ≡ false },
    ghost end_near: { beyond 2147483647 bounds.end ≡ false },
    ghost measured: { (distant bounds.start || distant bounds.end) && not (is_some order_by) ≡ false },
}

impl Distances {
    pub fn new(
        start: WindowFrameBound,
        end: WindowFrameBound,
        order_by: Option<SortOptions>,
    ) -> Result<Distances, IllMade>
        ensures reason { reason_of result ≡ first_reason (bound_reasons 2147483647 start end ++ order_reasons order_by start end) }
        ensures frame { IfOk result (λ f. (f.bounds.start ≡ start) × (f.bounds.end ≡ end) × (f.order_by ≡ order_by)) }
    {
        let bounds = Bounds::new(start, end, MOST_DISTANCE)?;
        if (start.is_distant() || end.is_distant()) && order_by.is_none() {
            return Err(IllMade::DistanceWithoutOrder);
        }
        Ok(Distances { bounds, order_by })
    }
}

impl<O: Measured> RangeUnits<O> for Distances {
    ghost base = { O.Measured.base };

    ghost shape = { λ u. record { start = u.bounds.start; end = u.bounds.end; order = u.order_by } };

    ghost well = { first_of (Prim.search rules, Prim.grind (arith, Self.row.coded.inj)) };

    fn order_by(&self) -> Option<SortOptions> {
        self.order_by
    }

    fn start_bound(&self) -> WindowFrameBound {
        self.bounds.start
    }

    fn end_bound(&self) -> WindowFrameBound {
        self.bounds.end
    }

    fn place(&self, value: O) -> i128 {
        value.place().into()
    }
}
