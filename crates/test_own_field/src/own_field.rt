//! A field of 65,536 elements by another modulus than that of the packets.
ghost use Rattle.std.specs.Prelude.{◌≡◌, refl, ◌<◌, ℕ, List};
ghost use Rattle.std.specs.Int.{w16, to_be_bytes, from_be_bytes};
ghost use Rattle.field_elements.specs.BinaryField.{IsBinaryField};
ghost use Rattle.field_elements.specs.laws.Gf16Laws.{gf16_equal};
ghost use Rattle.test_own_field.specs.Own.{own_coding};
ghost use Rattle.test_own_field.specs.laws.OwnLaws.{own_lawful};

use field_elements::{Field, invert_modulo, multiply_modulo};
use pet_base::Steps;
use std::sync::ledger::Ledger;

/// The modulus has this degree.
const DEGREE: u32 = 16;

/// The modulus x^16 + x^5 + x^3 + x^2 + 1.
const MODULUS: u32 = 0x1002D;

/// GF(2^16), computed bit by bit.
#[derive(Drop)]
pub struct OwnField;

impl OwnField {
    /// What this field is: the polynomials over GF(2) of degree below 16, modulo x^16 + x^5 + x^3 + x^2 + 1. The number i
    /// is the point of i. An element is written in two bytes, the high one first.
    pub fn meaning(&self)
        ensures field { IsBinaryField 16 0x1002D ⟦<OwnField as Field>⟧.is_element
            ⟦<OwnField as Field>⟧.coding.ops ⟦<OwnField as Field>⟧.coding.point_of }
        ensures written { (a : ℕ) → a < 65536
            → ⟦<OwnField as Field>⟧.coding.spelling a ≡ to_be_bytes w16 a }
        ensures read { (bytes : List ℕ) → ⟦<OwnField as Field>⟧.coding.spelt bytes
            ≡ from_be_bytes w16 bytes }
        ensures width { ⟦<OwnField as Field>⟧.WIDTH ≡ 2 }
        ensures count { ⟦<OwnField as Field>⟧.COUNT ≡ 65536 }
    {}
}

impl Field for OwnField {
    type Elem = u16;

    const WIDTH: usize = 2;

    const COUNT: u32 = 65_536;

    ghost WIDTH = { 2 };

    ghost COUNT = { 65536 };

    ghost is_element = { λ a. a < 65536 };

    ghost coding = { own_coding };

    ghost lawful = { own_lawful };

    ghost equal = { gf16_equal };

    ghost wide = { refl };

    fn zero(&self) -> u16 {
        0
    }

    fn one(&self) -> u16 {
        1
    }

    fn add(&self, a: u16, b: u16) -> u16 {
        a ^ b
    }

    fn sub(&self, a: u16, b: u16) -> u16 {
        a ^ b
    }

    fn mul<L: Ledger>(&self, a: u16, b: u16, steps: &mut Steps<L>) -> u16 {
        steps.tick();
        multiply_modulo(DEGREE, MODULUS, u32::from(a), u32::from(b)) as u16
    }

    fn inv<L: Ledger>(&self, a: u16, steps: &mut Steps<L>) -> u16 {
        steps.tick();
        invert_modulo(DEGREE, MODULUS, u32::from(a)) as u16
    }

    fn point(&self, number: u32) -> u16 {
        number as u16
    }

    fn read(&self, bytes: &[u8]) -> u16 {
        u16::from_be_bytes([bytes[0], bytes[1]])
    }

    fn write(&self, a: u16, into: &mut [u8]) {
        into.copy_from_slice(&a.to_be_bytes());
    }
}
