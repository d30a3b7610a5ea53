//! The products of a factor of the field of 65,536 elements, by tables.
ghost use Rattle.std.specs.Prelude.{◌≡◌, ℕ, ◌/◌, ◌%◌, ◌<◌, map, slice_index};
ghost use Rattle.field_elements.specs.Gf16.{gf16};
ghost use Rattle.field_elements.specs.laws.Gf16Laws.{gf16_field};
ghost use Rattle.field_vectors.specs.Nibbles.{AreProducts};
ghost use Rattle.field_vectors.specs.inside.Lanes.{words};

use crate::lanes::{join, look_up, split_high, split_low, spread};
use crate::memory::{load, store, unload};
use crate::nibbles::{NibbleProducts, nibble_products};
use crate::prepared::Prepared;
use std::simd::prelude::*;

/// The modulus has this degree.
const DEGREE: u32 = 16;

/// The modulus x^16 + x^12 + x^3 + x + 1.
const MODULUS: u32 = 0x1100B;

/// The products of a factor with each nibble at each of its four places, as low and high bytes.
#[derive(Drop)]
pub struct Products {
    pub factor: u16,
    low: [[u8; 16]; 4],
    high: [[u8; 16]; 4],
    ghost right: { AreProducts factor low high },
}

impl Products {
    /// The products of a factor.
    pub fn new(factor: u16) -> Products
        ensures { result.factor ≡ factor }
    {
        let NibbleProducts {
            low: l0,
            high: h0,
            next: x1,
        } = word_products(factor);
        let NibbleProducts {
            low: l1,
            high: h1,
            next: x2,
        } = word_products(x1);
        let NibbleProducts {
            low: l2,
            high: h2,
            next: x3,
        } = word_products(x2);
        let NibbleProducts {
            low: l3,
            high: h3,
            next: _,
        } = word_products(x3);
        Products {
            factor,
            low: [l0, l1, l2, l3],
            high: [h0, h1, h2, h3],
        }
    }

    /// The products of each lane with the factor, from and to low and high bytes.
    #[inline(always)]
    fn times_split(&self, low: u8x32, high: u8x32) -> (u8x32, u8x32)
        ensures { words result.0 result.1 ≡ map (gf16.times self.now.factor) (words low high) }
    {
        let product_low = look_up(
            spread(&self.low[0]),
            spread(&self.low[1]),
            spread(&self.low[2]),
            spread(&self.low[3]),
            low,
            high,
        );
        let product_high = look_up(
            spread(&self.high[0]),
            spread(&self.high[1]),
            spread(&self.high[2]),
            spread(&self.high[3]),
            low,
            high,
        );
        (product_low, product_high)
    }
}

/// The products of a word with the sixteen nibbles, and with sixteen.
#[inline(always)]
fn word_products(x: u16) -> NibbleProducts
    ensures next { result.next ≡ gf16.times x 16 }
    ensures low { (n : ℕ) → n < 16 → slice_index result.low n ≡ gf16.times x n % 256 }
    ensures high { (n : ℕ) → n < 16 → slice_index result.high n ≡ gf16.times x n / 256 }
{
    nibble_products(DEGREE, MODULUS, x)
}

/// A vector of words, and products on their low and their high bytes.
impl Prepared for Products {
    type Elem = u16;

    type Vector = u16x32;

    type Parts = (u8x32, u8x32);

    ghost is_element = { λ a. a < 65536 };

    ghost ops = { gf16 };

    ghost factor = { λ p. p.factor };

    ghost lanes = { λ v. v };

    ghost joined = { λ v. words v.0 v.1 };

    #[inline(always)]
    fn elements(&self, _row: &[u16]) {}

    #[inline(always)]
    fn load(rows: &[u16], at: usize) -> u16x32 {
        load(rows, at, 0)
    }

    #[inline(always)]
    fn unload(v: u16x32, into: &mut [u16]) {
        unload(v, into);
    }

    #[inline(always)]
    fn store(v: u16x32, rows: &mut [u16], at: usize) {
        store(v, rows, at);
    }

    #[inline(always)]
    fn add(a: u16x32, b: u16x32) -> u16x32 {
        a ^ b
    }

    #[inline(always)]
    fn zeros() -> (u8x32, u8x32) {
        (u8x32::splat(0), u8x32::splat(0))
    }

    #[inline(always)]
    fn split(v: u16x32) -> (u8x32, u8x32) {
        (split_low(v), split_high(v))
    }

    #[inline(always)]
    fn join(parts: (u8x32, u8x32)) -> u16x32 {
        join(parts.0, parts.1)
    }

    #[inline(always)]
    fn times(&self, parts: (u8x32, u8x32)) -> (u8x32, u8x32) {
        self.times_split(parts.0, parts.1)
    }

    #[inline(always)]
    fn step(&self, sums: (u8x32, u8x32), row: u16x32) -> (u8x32, u8x32) {
        let (low, high) = self.times_split(sums.0, sums.1);
        (split_low(row) ^ low, split_high(row) ^ high)
    }

    ghost field = { gf16_field };
}
