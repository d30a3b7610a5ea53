//! Products and inverses of the field, as the standard has them, and a stripe that is found again.
ghost use Rattle.std.specs.Prelude.{◌≡◌, ◌<◌};

use crate::{AesField, words_through};
use field_elements::Field;
use pet_base::Steps;
use std::marker::Brand;
use std::sync::ledger::{Blank, Ledger};

/// Two elements and their product: the examples of FIPS 197 (multiplication, and 57 times the powers of x), and two pairs of an
/// element and its inverse.
const PRODUCTS: [[u8; 3]; 8] = [
    [0x57, 0x83, 0xC1],
    [0x57, 0x02, 0xAE],
    [0x57, 0x04, 0x47],
    [0x57, 0x08, 0x8E],
    [0x57, 0x10, 0x07],
    [0x57, 0x13, 0xFE],
    [0x53, 0xCA, 0x01],
    [0x02, 0x8D, 0x01],
];

/// How many rows have another product.
fn wrong_products<L: Ledger>(blank: Blank) -> u32
    requires name { blank.name ≡ L.name }
    requires parts { blank.parts ≡ L.parts }
    requires some { 0 < blank.parts }
{
    let mut steps = Steps::<L>::new(blank);
    let mut wrong: u32 = 0;
    for row in PRODUCTS {
        let [a, b, product] = row;
        if AesField.mul(a, b, &mut steps) != product {
            wrong = wrong.wrapping_add(1);
        }
    }
    wrong
}

/// The words 5 and 7 from the values at 3 and 128, which are 5 + 7 times the place.
fn stripe<L: Ledger>(blank: Blank) -> [u8; 2]
    requires name { blank.name ≡ L.name }
    requires parts { blank.parts ≡ L.parts }
    requires some { 0 < blank.parts }
{
    let mut steps = Steps::<L>::new(blank);
    words_through((3, 0x0C), (0x80, 0xA8), &mut steps)
}

#[test]
fn multiplies_as_the_standard_does(rt: HostRuntime) {
    assert_eq!(rt; wrong_products::<Brand>(Blank::new(1)), 0);
}

#[test]
fn finds_a_stripe_again(rt: HostRuntime) {
    assert_eq!(rt; stripe::<Brand>(Blank::new(1)), [5, 7]);
}
