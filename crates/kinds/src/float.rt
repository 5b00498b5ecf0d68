//! Floats of 64 bits, which have an order and no distance.

ghost use Rattle.std.specs.Prelude.{◌≡◌, T};
ghost use Rattle.std.specs.Float.Ieee as Ieee;
ghost use Rattle.std.specs.Float.{binary64};
ghost use Rattle.kinds.specs.Keys.{AsLess, float_before, float_key, float_at};
ghost use Rattle.kinds.specs.FloatKeys.{float_back};
ghost use Rattle.kinds.specs.FloatOrder.{floats_ordered};
ghost use Rattle.std.proofs.Common.{rules};

use crate::ordered::Ordered;
use std::num::{f64_from_bits_with_nan, f64_to_bits_with_nan};

const SIGN: u64 = 0x8000_0000_0000_0000;

impl Ordered for f64 {
    ghost fits = { λ v. T (Ieee.fits binary64 v) };

    ghost before = { float_before };

    ghost keyed = { float_key };

    ghost valued = { float_at };

    ghost bounded = { Prim.search rules };

    ghost ordered = { λ v w h k. floats_ordered v w h k };

    ghost restored = { λ v h. float_back v h };

    fn key(self) -> u64
        ensures value { result ≡ float_key self }
        ensures fits { T (Ieee.fits binary64 self) }
        ensures order { AsLess self }
    {
        let bits = f64_to_bits_with_nan(self);
        if bits < SIGN {
            bits + SIGN
        } else {
            u64::MAX - bits
        }
    }

    fn from_key(key: u64) -> f64 {
        if key < SIGN {
            f64_from_bits_with_nan(u64::MAX - key)
        } else {
            f64_from_bits_with_nan(key - SIGN)
        }
    }
}
