//! RANGE frames of the same rows where they come in reverse.

ghost use Rattle.bounds.specs.PeerBounds.{as_bound};
ghost use Rattle.ranges.specs.WindowFrames.{either_shape};

use crate::distances::Distances;
use crate::peers::Peers;
use crate::range::RangeFrame;
use crate::window_frame::WindowFrame;
use frames::reverse::{Reverse, reverse_order};

impl Reverse for Peers {
    ghost shape = { λ f. record { start = as_bound f.start; end = as_bound f.end; order = f.order_by } };

    fn reverse(&self) -> Peers {
        Peers {
            start: self.end.reverse(),
            end: self.start.reverse(),
            order_by: reverse_order(self.order_by),
        }
    }
}

impl Reverse for Distances {
    ghost shape = { λ f. record { start = f.bounds.start; end = f.bounds.end; order = f.order_by } };

    fn reverse(&self) -> Distances {
        Distances {
            bounds: self.bounds.reverse(),
            order_by: reverse_order(self.order_by),
        }
    }
}

impl<U: Reverse> Reverse for RangeFrame<U> {
    ghost shape = { λ f. U.Reverse.shape f.units };

    fn reverse(&self) -> RangeFrame<U> {
        RangeFrame {
            units: self.units.reverse(),
        }
    }
}

impl<R: Reverse> Reverse for WindowFrame<R> {
    ghost shape = { either_shape R.Reverse.shape };

    fn reverse(&self) -> WindowFrame<R> {
        match self {
            WindowFrame::Rows(frame) => WindowFrame::Rows(frame.reverse()),
            WindowFrame::Range(frame) => WindowFrame::Range(frame.reverse()),
        }
    }
}
