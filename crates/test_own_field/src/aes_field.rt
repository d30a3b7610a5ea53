//! The field of 256 elements of the Advanced Encryption Standard.
ghost use Rattle.std.specs.Prelude.{◌≡◌, refl, ◌<◌, ℕ, List, [], ◌∷◌, slice_index};
ghost use Rattle.field_elements.specs.BinaryField.{IsBinaryField};
ghost use Rattle.test_own_field.specs.Aes.{aes_coding};
ghost use Rattle.test_own_field.specs.laws.AesLaws.{aes_lawful, aes_equal};

use field_elements::{Field, invert_modulo, multiply_modulo};
use pet_base::Steps;
use std::sync::ledger::Ledger;

/// The modulus has this degree.
const DEGREE: u32 = 8;

/// The modulus x^8 + x^4 + x^3 + x + 1.
const MODULUS: u32 = 0x11B;

/// GF(2^8), computed bit by bit.
#[derive(Drop)]
pub struct AesField;

impl AesField {
    /// What this field is: the polynomials over GF(2) of degree below 8, modulo x^8 + x^4 + x^3 + x + 1. The number i
    /// is the point of i. An element is written as a byte.
    pub fn meaning(&self)
        ensures field { IsBinaryField 8 0x11B ⟦<AesField as Field>⟧.is_element
            ⟦<AesField as Field>⟧.coding.ops ⟦<AesField as Field>⟧.coding.point_of }
        ensures written { (a : ℕ) → a < 256
            → ⟦<AesField as Field>⟧.coding.spelling a ≡ a ∷ [] }
        ensures read { (bytes : List ℕ) → ⟦<AesField as Field>⟧.coding.spelt bytes
            ≡ slice_index bytes 0 }
        ensures width { ⟦<AesField as Field>⟧.WIDTH ≡ 1 }
        ensures count { ⟦<AesField as Field>⟧.COUNT ≡ 256 }
    {}
}

impl Field for AesField {
    type Elem = u8;

    const WIDTH: usize = 1;

    const COUNT: u32 = 256;

    ghost WIDTH = { 1 };

    ghost COUNT = { 256 };

    ghost is_element = { λ a. a < 256 };

    ghost coding = { aes_coding };

    ghost lawful = { aes_lawful };

    ghost equal = { aes_equal };

    ghost wide = { refl };

    fn zero(&self) -> u8 {
        0
    }

    fn one(&self) -> u8 {
        1
    }

    fn add(&self, a: u8, b: u8) -> u8 {
        a ^ b
    }

    fn sub(&self, a: u8, b: u8) -> u8 {
        a ^ b
    }

    fn mul<L: Ledger>(&self, a: u8, b: u8, steps: &mut Steps<L>) -> u8 {
        steps.tick();
        multiply_modulo(DEGREE, MODULUS, u32::from(a), u32::from(b)) as u8
    }

    fn inv<L: Ledger>(&self, a: u8, steps: &mut Steps<L>) -> u8 {
        steps.tick();
        invert_modulo(DEGREE, MODULUS, u32::from(a)) as u8
    }

    fn point(&self, number: u32) -> u8 {
        number as u8
    }

    fn read(&self, bytes: &[u8]) -> u8 {
        bytes[0]
    }

    fn write(&self, a: u8, into: &mut [u8]) {
        into[0] = a;
    }
}
