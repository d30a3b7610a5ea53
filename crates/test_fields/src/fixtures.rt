//! What several tests share: words, a digest of words, and whether a field has a product and an inverse.
ghost use Rattle.std.specs.Prelude.{◌≡◌, ◌<◌, IfOk, vec_len};

use field_elements::Field;
use pet_base::Steps;
use std::alloc::{AllocError, Global};
use std::sync::ledger::{Blank, Ledger};

/// So many words, each of them the one before and 40,503 more, behind a seed that is none of them.
pub fn words(alloc: Global, seed: u16, count: usize) -> Result<Vec<u16>, AllocError>
    ensures { IfOk result (λ v. vec_len v ≡ count) }
{
    let mut words = vec![in alloc; 0u16; count]?;
    let mut word = seed;
    for i in 0..count {
        word = word.wrapping_add(40_503);
        words[i] = word;
    }
    Ok(words)
}

/// A sum of words that tells their order: each is added to 31 times the sum of those before it, modulo 2^32.
pub fn digest(words: &[u16]) -> u32 {
    let mut sum: u32 = 0;
    for word in words {
        sum = sum.wrapping_mul(31).wrapping_add(u32::from(*word));
    }
    sum
}

/// Whether two elements have the first of the others as their product, and the first of them has the second as its inverse.
/// The inverse of zero is not looked at.
pub fn has_product_and_inverse<F: Field, L: Ledger>(
    field: &F,
    a: F::Elem,
    b: F::Elem,
    others: (F::Elem, F::Elem),
    blank: Blank,
) -> bool
    requires first { F.is_element a }
    requires second { F.is_element b }
    requires name { blank.name ≡ L.name }
    requires parts { blank.parts ≡ L.parts }
    requires some { 0 < blank.parts }
{
    let mut steps = Steps::<L>::new(blank);
    let (product, inverse) = others;
    let is_product = field.mul(a, b, &mut steps) == product;
    is_product && (a == field.zero() || field.inv(a, &mut steps) == inverse)
}
