//! Frames of the same rows where they come in reverse.

ghost use Rattle.std.specs.Prelude.{◌≡◌};
ghost use Rattle.std.specs.Option.{option_map};
ghost use Rattle.frames.specs.Mirrors.{Shape, mirror, whole_shape};
ghost use Rattle.bounds.specs.Orders.{turned};

use crate::constant::ConstantFrame;
use crate::rows::RowsFrame;
use bounds::sort::SortOptions;

/// A frame that can be mirrored.
pub trait Reverse: Copy {
    ghost shape: { Self → Shape };

    /// The mirrored frame; mirrored again it is the same as before.
    fn reverse(&self) -> Self
        ensures value { shape result ≡ mirror (shape self.now) }
        ensures twice { mirror (shape result) ≡ shape self.now };
}

/// The sort order of the same rows where they come in reverse.
pub fn reverse_order(order_by: Option<SortOptions>) -> Option<SortOptions>
    ensures value { result ≡ option_map turned order_by }
    ensures twice { option_map turned result ≡ order_by }
{
    order_by.map(SortOptions::reverse)
}

// Alike in each kind of frame; a struct below them would carry the facts of each.
impl Reverse for RowsFrame {
    ghost shape = { λ f. record { start = f.bounds.start; end = f.bounds.end; order = f.order_by } };

    fn reverse(&self) -> RowsFrame {
        RowsFrame {
            bounds: self.bounds.reverse(),
            order_by: reverse_order(self.order_by),
        }
    }
}

impl Reverse for ConstantFrame {
    ghost shape = { λ f. whole_shape f.order_by };

    fn reverse(&self) -> ConstantFrame {
        ConstantFrame {
            order_by: reverse_order(self.order_by),
        }
    }
}
