//! RANGE by peers, for every ordered kind: CURRENT ROW and UNBOUNDED.

ghost use Rattle.std.specs.Prelude.{◌≡◌, false, IfOk};
ghost use Rattle.bounds.specs.Bounds.{is_unbounded_following, is_unbounded_preceding};
ghost use Rattle.bounds.specs.PeerBounds.{as_bound};
ghost use Rattle.bounds.specs.Reasons.{bound_reasons, first_reason, reason_of};
ghost use Rattle.std.proofs.Common.{rules, arith};

use crate::units::RangeUnits;
use bounds::bound::WindowFrameBound;
use bounds::bounds::check_bounds;
use bounds::peer_bound::PeerBound;
use bounds::reason::IllMade;
use bounds::sort::SortOptions;
use kinds::ordered::Ordered;

/// The frame of a row goes by the rows that are its equals in the order.
#[derive(Clone, Copy)]
pub struct Peers {
    pub start: PeerBound,
    pub end: PeerBound,
    pub order_by: Option<SortOptions>,
    ghost started: { is_unbounded_following (as_bound start) ≡ false },
    ghost ended: { is_unbounded_preceding (as_bound end) ≡ false },
}

impl Peers {
    pub fn new(
        start: PeerBound,
        end: PeerBound,
        order_by: Option<SortOptions>,
    ) -> Result<Peers, IllMade>
        ensures reason { reason_of result ≡ first_reason (bound_reasons 0 (as_bound start) (as_bound end)) }
        ensures frame { IfOk result (λ f. (f.start ≡ start) × (f.end ≡ end) × (f.order_by ≡ order_by)) }
    {
        check_bounds(start.into(), end.into(), 0)?;
        Ok(Peers {
            start,
            end,
            order_by,
        })
    }
}

impl<O: Ordered> RangeUnits<O> for Peers {
    ghost base = { 0 };

    ghost shape = { λ u. record { start = as_bound u.start; end = as_bound u.end; order = u.order_by } };

    ghost well = { first_of (Prim.search rules, Prim.grind (arith, Self.row.coded.inj)) };

    fn order_by(&self) -> Option<SortOptions> {
        self.order_by
    }

    fn start_bound(&self) -> WindowFrameBound {
        self.start.into()
    }

    fn end_bound(&self) -> WindowFrameBound {
        self.end.into()
    }

    fn place(&self, value: O) -> i128 {
        value.key().into()
    }
}
