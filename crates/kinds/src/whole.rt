//! Wholes: signed numbers of 32 bits.

ghost use Rattle.std.specs.Prelude.{◌≡◌, ◌^◌, pos, negsuc, ◌≤ℤ◌, ◌<ℤ◌, FitsSigned, int_lt};
ghost use Rattle.std.proofs.Math.IntN.{sub_ℕ};
ghost use Rattle.std.specs.Int.{w32};
ghost use Rattle.kinds.specs.Keys.{whole_key, whole_at};
ghost use Rattle.std.proofs.Common.{rules};

use crate::ordered::{Measured, Ordered};

/// The key of 0.
const BASE: i64 = 0x8000_0000;

impl Ordered for i32 {
    ghost fits = { λ v. FitsSigned w32 v };

    ghost before = { int_lt };

    ghost keyed = { whole_key };

    ghost valued = { whole_at };

    ghost bounded = { Prim.search rules };

    ghost ordered = { Prim.search rules };

    ghost restored = { Prim.search rules };

    fn key(self) -> u64 {
        (i64::from(self) + BASE) as u64
    }

    fn from_key(key: u64) -> i32 {
        (i64::from(u32::from_key(key)) - BASE) as i32
    }
}

impl Measured for i32 {
    ghost base = { 2 ^ 31 };

    fn place(self) -> i64
        ensures value { result ≡ sub_ℕ (whole_key self) (2 ^ 31) }
        ensures low { negsuc (2147483647) ≤ℤ result }
        ensures high { result <ℤ pos (2 ^ 32) }
        ensures own { result ≡ self }
    {
        i64::from(self)
    }
}
