//! The products of a factor of the field of 256 elements, by tables.
ghost use Rattle.std.specs.Prelude.{◌≡◌, ◌<◌};
ghost use Rattle.gf8.specs.Gf8.{gf8};
ghost use Rattle.gf8.specs.Nibbles.{AreProducts};
ghost use Rattle.gf8.specs.laws.Gf8Laws.{gf8_field};

use crate::plain::{DEGREE, MODULUS};
use field_vectors::{Prepared, at_high, at_low, load, nibble_products, spread, store, unload};
use std::simd::prelude::*;

/// The products of a factor with each nibble at each of its two places.
#[derive(Drop)]
pub struct ByteProducts {
    pub factor: u8,
    low: [u8; 16],
    high: [u8; 16],
    ghost right: { AreProducts factor low high },
}

impl ByteProducts {
    /// The products of a factor.
    pub fn new(factor: u8) -> ByteProducts
        ensures { result.factor ≡ factor }
    {
        let first = nibble_products(DEGREE, MODULUS, u16::from(factor));
        let second = nibble_products(DEGREE, MODULUS, first.next);
        let low = first.low;
        let high = second.low;
        ByteProducts { factor, low, high }
    }
}

/// A vector of bytes, which products take as it is.
impl Prepared for ByteProducts {
    type Elem = u8;

    type Vector = u8x32;

    type Parts = u8x32;

    ghost is_element = { λ a. a < 256 };

    ghost ops = { gf8 };

    ghost factor = { λ p. p.factor };

    ghost lanes = { λ v. v };

    ghost joined = { λ v. v };

    #[inline(always)]
    fn elements(&self, _row: &[u8]) {}

    #[inline(always)]
    fn load(rows: &[u8], at: usize) -> u8x32 {
        load(rows, at, 0)
    }

    #[inline(always)]
    fn unload(v: u8x32, into: &mut [u8]) {
        unload(v, into);
    }

    #[inline(always)]
    fn store(v: u8x32, rows: &mut [u8], at: usize) {
        store(v, rows, at);
    }

    #[inline(always)]
    fn add(a: u8x32, b: u8x32) -> u8x32 {
        a ^ b
    }

    #[inline(always)]
    fn zeros() -> u8x32 {
        u8x32::splat(0)
    }

    #[inline(always)]
    fn split(v: u8x32) -> u8x32 {
        v
    }

    #[inline(always)]
    fn join(parts: u8x32) -> u8x32 {
        parts
    }

    #[inline(always)]
    fn times(&self, parts: u8x32) -> u8x32 {
        at_low(spread(&self.low), parts) ^ at_high(spread(&self.high), parts)
    }

    #[inline(always)]
    fn step(&self, sums: u8x32, row: u8x32) -> u8x32 {
        row ^ self.times(sums)
    }

    ghost field = { gf8_field };
}
