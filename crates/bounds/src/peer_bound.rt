//! Bounds that count nothing, for kinds that have an order and no distance.

ghost use Rattle.std.specs.Prelude.{◌≡◌};
ghost use Rattle.bounds.specs.PeerBounds.{as_bound};
ghost use Rattle.bounds.specs.Bounds.{mirrored};

use crate::bound::WindowFrameBound;

// `Bounds` is not generic over this and `WindowFrameBound`: that takes an interface of bounds, and `Clone`
// by hand, for two bounds that are made in one place.
/// Where a frame starts or ends that goes by the peers of its row.
#[derive(Clone, Copy, PartialEq, Eq, Debug)]
pub enum PeerBound {
    UnboundedPreceding,
    CurrentRow,
    UnboundedFollowing,
}

impl PeerBound {
    /// The same bound where the rows come in reverse.
    pub fn reverse(self) -> PeerBound
        ensures value { as_bound result ≡ mirrored (as_bound self) }
        ensures twice { mirrored (as_bound result) ≡ as_bound self }
    {
        match self {
            PeerBound::UnboundedPreceding => PeerBound::UnboundedFollowing,
            PeerBound::CurrentRow => PeerBound::CurrentRow,
            PeerBound::UnboundedFollowing => PeerBound::UnboundedPreceding,
        }
    }
}

impl From<PeerBound> for WindowFrameBound {
    ghost from_gives = { λ peer bound. bound ≡ as_bound peer };

    fn from(peer: PeerBound) -> WindowFrameBound {
        match peer {
            PeerBound::UnboundedPreceding => WindowFrameBound::UnboundedPreceding,
            PeerBound::CurrentRow => WindowFrameBound::CurrentRow,
            PeerBound::UnboundedFollowing => WindowFrameBound::UnboundedFollowing,
        }
    }
}
