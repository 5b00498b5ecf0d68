//! Why a frame is ill-made.

ghost use Rattle.std.specs.Prelude.{◌≡◌};
ghost use Rattle.bounds.specs.Reasons.{number};

use thiserror::Error;

/// The reasons, numbered in the order in which they are looked for.
#[derive(Clone, Copy, PartialEq, Eq, Debug, Error)]
pub enum IllMade {
    #[error("the frame starts at UNBOUNDED FOLLOWING")]
    StartUnboundedFollowing = 1,
    #[error("the frame ends at UNBOUNDED PRECEDING")]
    EndUnboundedPreceding = 2,
    #[error("the frame starts behind its end")]
    StartBehindEnd = 3,
    #[error("a bound lies too far from its row")]
    TooFar = 4,
    #[error("a distance asks for order values")]
    DistanceWithoutOrder = 5,
    #[error("a plain expression cannot let rows go")]
    PlainMovingStart = 6,
}

impl IllMade {
    /// The reason's number.
    pub fn number(self) -> u8
        ensures { result ≡ number self }
    {
        self as u8
    }
}
