//! Polynomials over GF(2) modulo one of them. Bit i of a number is the coefficient of x to the power i.
ghost use Rattle.std.specs.Prelude.{◌≡◌, ◌*◌, ◌^◌, ◌<◌, ◌≤◌, suc, bit_xor};
ghost use Rattle.field_elements.specs.Carryless.{IsMultiple, IsIrreducible, carryless};
ghost use Rattle.field_elements.specs.BinaryField.{IsModulus, IsProduct};

/// The product of two polynomials modulo one of the given degree.
pub fn multiply_modulo(degree: u32, modulus: u32, a: u32, b: u32) -> u32
    requires modulus { IsModulus degree modulus }
    requires first { a < 2 ^ degree }
    requires second { b < 2 ^ degree }
    ensures { IsProduct degree modulus a b result }
{
    let mut product: u32 = 0;
    for i in (0..degree).rev() {
        let twice = double(degree, modulus, product);
        product = if (a >> i) & 1 == 1 { twice ^ b } else { twice };
    }
    product
}

/// What gives one when it is multiplied by a polynomial that is not zero, modulo an irreducible one of the given degree.
pub fn invert_modulo(degree: u32, modulus: u32, a: u32) -> u32
    requires modulus { IsModulus degree modulus }
    requires irreducible { IsIrreducible degree modulus }
    requires element { a < 2 ^ degree }
    requires nonzero { 0 < a }
    ensures below { result < 2 ^ degree }
    ensures inverse { IsProduct degree modulus a result 1 }
{
    let mut rest = a;
    let mut factor: u32 = 1;
    while rest > 1 {
        let (quotient, remainder) = divide(degree, modulus, rest);
        factor = multiply_modulo(degree, modulus, factor, quotient);
        rest = remainder;
    }
    factor
}

/// x times a polynomial.
fn double(degree: u32, modulus: u32, a: u32) -> u32
    requires modulus { IsModulus degree modulus }
    requires element { a < 2 ^ degree }
    ensures below { result < 2 ^ degree }
    ensures congruent { IsMultiple modulus (bit_xor (2 * a) result) }
{
    let twice = a * 2;
    if twice >> degree == 0 {
        twice
    } else {
        twice ^ modulus
    }
}

/// The quotient and the remainder of the modulus by a polynomial.
fn divide(degree: u32, modulus: u32, a: u32) -> (u32, u32)
    requires modulus { IsModulus degree modulus }
    requires element { a < 2 ^ degree }
    requires large { 2 ≤ a }
    ensures divided { bit_xor modulus result.1 ≡ carryless result.0 a }
    ensures quotient { result.0 < 2 ^ degree }
    ensures smaller { result.1 < a }
{
    let top = 31 - a.leading_zeros();
    let mut rest = modulus;
    let mut quotient: u32 = 0;
    for k in (0..degree + 1 - top).rev() {
        if (rest >> (top + k)) & 1 == 1 {
            rest ^= a << k;
            quotient ^= 1 << k;
        }
    }
    (quotient, rest)
}
