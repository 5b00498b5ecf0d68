//! Ticks: unsigned numbers of 32 bits.

ghost use Rattle.std.specs.Prelude.{◌≡◌, ◌^◌, ◌<◌, pos, negsuc, ◌≤ℤ◌, ◌<ℤ◌, nat_lt};
ghost use Rattle.std.proofs.Math.IntN.{sub_ℕ};
ghost use Rattle.kinds.specs.Keys.{tick_key, tick_at};
ghost use Rattle.std.proofs.Common.{rules};

use crate::ordered::{Measured, Ordered};

impl Ordered for u32 {
    ghost fits = { λ v. v < 2 ^ 32 };

    ghost before = { nat_lt };

    ghost keyed = { tick_key };

    ghost valued = { tick_at };

    ghost bounded = { Prim.search rules };

    ghost ordered = { Prim.search rules };

    ghost restored = { Prim.search rules };

    fn key(self) -> u64 {
        u64::from(self)
    }

    fn from_key(key: u64) -> u32 {
        u32::try_from(key).unwrap_or(u32::MAX)
    }
}

impl Measured for u32 {
    ghost base = { 0 };

    fn place(self) -> i64
        ensures value { result ≡ sub_ℕ (tick_key self) 0 }
        ensures low { negsuc (2147483647) ≤ℤ result }
        ensures high { result <ℤ pos (2 ^ 32) }
        ensures own { result ≡ pos self }
    {
        i64::from(self)
    }
}
