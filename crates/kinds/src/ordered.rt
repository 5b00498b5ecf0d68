//! The interfaces: an ordered kind gives each value a key, a measured kind also a place.

ghost use Rattle.std.specs.Prelude.{◌≡◌, ℕ, ◌^◌, ◌<◌, Bool, ℤ, pos, negsuc, ◌≤ℤ◌, ◌<ℤ◌, nat_lt};
ghost use Rattle.std.proofs.Math.IntN.{sub_ℕ};

/// A kind whose values order as their keys, unsigned 64-bit numbers, and come back from them.
pub trait Ordered: Copy {
    /// The values that the type can hold; the logic's numbers are unbounded.
    ghost fits: { Self → Type 0 };

    /// Whether one value comes before another in the kind's own order.
    ghost before: { Self → Self → Bool };

    ghost keyed: { Self → ℕ };

    /// The value at a key, and some value at a number that is the key of none.
    ghost valued: { ℕ → Self };

    fn key(self) -> u64
        ensures value { result ≡ keyed self }
        ensures fits { fits self };

    fn from_key(key: u64) -> Self
        ensures value { result ≡ valued key }
        ensures fits { fits result };

    fn precedes(self, other: Self) -> bool
        ensures { result ≡ before self other }
    {
        self.key() < other.key()
    }

    ghost bounded: { (v : Self) → fits v → keyed v < 2 ^ 64 };

    ghost ordered: { (v w : Self) → fits v → fits w → before v w ≡ nat_lt (keyed v) (keyed w) };

    // Two theorems rest on this law (crate accumulators): that least and greatest answer a value of
    // their list, and that a sum of floats comes back from the key in its state. Order, frames and the
    // states themselves need no more than `ordered`.
    ghost restored: { (v : Self) → fits v → valued (keyed v) ≡ v };
}

/// An ordered kind whose values also have a place, so that two of them lie a distance apart.
pub trait Measured: Ordered {
    /// A value's place is its key less this number.
    ghost base: { ℕ };

    fn place(self) -> i64
        ensures value { result ≡ sub_ℕ (Self.Ordered.keyed self) base }
        ensures low { negsuc (2147483647) ≤ℤ result }
        ensures high { result <ℤ pos (2 ^ 32) };
}
