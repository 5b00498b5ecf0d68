//! The two bounds of a frame, checked.

ghost use Rattle.std.specs.Prelude.{◌≡◌, false, IfOk};
ghost use Rattle.bounds.specs.Bounds.{behind, is_unbounded_following, is_unbounded_preceding, mirrored};
ghost use Rattle.bounds.specs.Reasons.{bound_reasons, first_reason, reason_of};

use crate::bound::WindowFrameBound;
use crate::reason::IllMade;

/// Refuses two bounds with the first reason why they make no frame; none may lie more than `most` steps
/// from its row.
pub fn check_bounds(
    start: WindowFrameBound,
    end: WindowFrameBound,
    most: u64,
) -> Result<(), IllMade>
    ensures { reason_of result ≡ first_reason (bound_reasons most start end) }
{
    if start == WindowFrameBound::UnboundedFollowing {
        return Err(IllMade::StartUnboundedFollowing);
    }
    if end == WindowFrameBound::UnboundedPreceding {
        return Err(IllMade::EndUnboundedPreceding);
    }
    if start.is_behind(end) {
        return Err(IllMade::StartBehindEnd);
    }
    if start.is_beyond(most) || end.is_beyond(most) {
        return Err(IllMade::TooFar);
    }
    Ok(())
}

/// A start and an end that make a frame.
#[derive(Clone, Copy)]
pub struct Bounds {
    pub start: WindowFrameBound,
    pub end: WindowFrameBound,
    ghost started: { is_unbounded_following start ≡ false },
    ghost ended: { is_unbounded_preceding end ≡ false },
    ghost forward: { behind start end ≡ false },
}

impl Bounds {
    pub fn new(start: WindowFrameBound, end: WindowFrameBound, most: u64) -> Result<Bounds, IllMade>
        ensures reason { reason_of result ≡ first_reason (bound_reasons most start end) }
        ensures bounds { IfOk result (λ b. (b.start ≡ start) × (b.end ≡ end)) }
    {
        check_bounds(start, end, most)?;
        Ok(Bounds { start, end })
    }

    /// The bounds of the same rows where they come in reverse.
    pub fn reverse(&self) -> Bounds
        ensures start { result.start ≡ mirrored self.now.end }
        ensures end { result.end ≡ mirrored self.now.start }
    {
        Bounds {
            start: self.end.reverse(),
            end: self.start.reverse(),
        }
    }
}
