//! The products of a factor with nibbles, in a binary field of degree 8 to 16.
ghost use Rattle.std.specs.Prelude.{◌≡◌, ℕ, ◌*◌, ◌/◌, ◌%◌, ◌<◌, ◌≤◌, ◌^◌, slice_index};
ghost use Rattle.field_elements.specs.BinaryField.{IsModulus, times};

/// x times a polynomial.
#[inline(always)]
fn double(degree: u32, modulus: u32, a: u16) -> u16
    requires modulus { IsModulus degree modulus }
    requires wide { 8 ≤ degree }
    requires narrow { degree ≤ 16 }
    requires element { a < 2 ^ degree }
    ensures below { result < 2 ^ degree }
    ensures product { result ≡ times degree modulus a 2 }
{
    let twice = u32::from(a) * 2;
    if twice >> degree == 0 {
        twice as u16
    } else {
        (twice ^ modulus) as u16
    }
}

/// The word, if the lowest bit is one, and else zero.
#[inline(always)]
fn pick(bits: u16, word: u16) -> u16
    ensures { result ≡ bits % 2 * word }
{
    if bits & 1 == 1 { word } else { 0 }
}

/// The products of a factor with the sixteen nibbles, as low and high bytes, and with sixteen.
#[derive(Drop)]
pub struct NibbleProducts {
    pub low: [u8; 16],
    pub high: [u8; 16],
    pub next: u16,
}

/// The products of x with the sixteen nibbles, and with sixteen.
#[inline(always)]
pub fn nibble_products(degree: u32, modulus: u32, x: u16) -> NibbleProducts
    requires modulus { IsModulus degree modulus }
    requires wide { 8 ≤ degree }
    requires narrow { degree ≤ 16 }
    requires element { x < 2 ^ degree }
    ensures below { result.next < 2 ^ degree }
    ensures next { result.next ≡ times degree modulus x 16 }
    ensures low { (n : ℕ) → n < 16 → slice_index result.low n ≡ times degree modulus x n % 256 }
    ensures high { (n : ℕ) → n < 16 → slice_index result.high n ≡ times degree modulus x n / 256 }
{
    let x2 = double(degree, modulus, x);
    let x4 = double(degree, modulus, x2);
    let x8 = double(degree, modulus, x4);
    let mut low = [0u8; 16];
    let mut high = [0u8; 16];
    for n in 0..16u16 {
        let product = pick(n, x) ^ pick(n >> 1, x2) ^ pick(n >> 2, x4) ^ pick(n >> 3, x8);
        low[n as usize] = (product & 255) as u8;
        high[n as usize] = (product >> 8) as u8;
    }
    let next = double(degree, modulus, x8);
    NibbleProducts { low, high, next }
}
