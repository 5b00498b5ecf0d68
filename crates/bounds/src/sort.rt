//! Sort orders.

ghost use Rattle.std.specs.Prelude.{◌≡◌};
ghost use Rattle.bounds.specs.Orders.{sorts_before, turned};

// A flag and not an enum, as in the Rust, whose readers look for it.
/// The direction in which the order values of a partition run.
#[derive(Clone, Copy, PartialEq, Eq, Debug)]
pub struct SortOptions {
    pub descending: bool,
}

impl SortOptions {
    /// The direction in which the same rows run in reverse.
    pub fn reverse(self) -> SortOptions
        ensures value { result ≡ turned self }
        ensures twice { turned result ≡ self }
    {
        SortOptions {
            descending: !self.descending,
        }
    }

    /// Whether a row with the one key or place sorts before a row with the other.
    pub fn is_before(self, place: i128, other: i128) -> bool
        ensures { result ≡ sorts_before self.descending place other }
    {
        if self.descending {
            other < place
        } else {
            place < other
        }
    }
}
