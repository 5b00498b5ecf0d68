//! Bounds of a frame, as SQL writes them.

ghost use Rattle.std.specs.Prelude.{◌≡◌, IfSome};
ghost use Rattle.bounds.specs.Bounds.{IsNear, mirrored, offset, behind, beyond, distant, unbounded};

/// Where a frame starts or ends, seen from its row.
#[derive(Clone, Copy, PartialEq, Eq, Debug)]
pub enum WindowFrameBound {
    UnboundedPreceding,
    Preceding(u64),
    CurrentRow,
    Following(u64),
    UnboundedFollowing,
}

impl WindowFrameBound {
    /// The same bound where the rows come in reverse.
    pub fn reverse(self) -> WindowFrameBound
        ensures value { result ≡ mirrored self }
        ensures twice { mirrored result ≡ self }
    {
        match self {
            WindowFrameBound::UnboundedPreceding => WindowFrameBound::UnboundedFollowing,
            WindowFrameBound::Preceding(n) => WindowFrameBound::Following(n),
            WindowFrameBound::CurrentRow => WindowFrameBound::CurrentRow,
            WindowFrameBound::Following(n) => WindowFrameBound::Preceding(n),
            WindowFrameBound::UnboundedFollowing => WindowFrameBound::UnboundedPreceding,
        }
    }

    pub fn is_unbounded(self) -> bool
        ensures { result ≡ unbounded self }
    {
        matches!(
            self,
            WindowFrameBound::UnboundedPreceding | WindowFrameBound::UnboundedFollowing
        )
    }

    /// Whether the bound lies a number of steps from its row, were it 0.
    pub fn is_distant(self) -> bool
        ensures { result ≡ distant self }
    {
        matches!(
            self,
            WindowFrameBound::Preceding(_) | WindowFrameBound::Following(_)
        )
    }

    /// Whether the bound's number is over `most`.
    pub fn is_beyond(self, most: u64) -> bool
        ensures { result ≡ beyond most self }
    {
        matches!(
            self,
            WindowFrameBound::Preceding(n) | WindowFrameBound::Following(n) if n > most
        )
    }

    /// How far behind its row the bound lies; before it, where this is negative.
    pub fn offset(self) -> Option<i128>
        ensures value { result ≡ offset self }
        ensures near { IfSome result IsNear }
    {
        match self {
            WindowFrameBound::Preceding(n) => Some(-i128::from(n)),
            WindowFrameBound::CurrentRow => Some(0),
            WindowFrameBound::Following(n) => Some(i128::from(n)),
            _ => None,
        }
    }

    /// Whether a frame from here to `end` would run backwards.
    pub fn is_behind(self, end: WindowFrameBound) -> bool
        ensures { result ≡ behind self end }
    {
        self.offset()
            .zip(end.offset())
            .is_some_and(|(from, to)| to < from)
    }
}
