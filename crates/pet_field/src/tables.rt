//! The field of 65,536 elements, by tables of the powers of x and of their exponents.
ghost use Rattle.std.specs.Prelude.{◌≡◌, ◌↔◌, ◌<◌, ℕ, refl, length, vec_len, IfOk};
ghost use Rattle.field_elements.specs.Gf16.{gf16, gf16_coding};
ghost use Rattle.field_elements.specs.laws.Gf16Laws.{gf16_lawful, gf16_equal};
ghost use Rattle.pet_field.specs.Powers.{AreTables, power_of_x};

use field_elements::{Field, Gf16Plain, multiply_modulo};
use pet_base::{NoMemory, Steps};
use std::alloc::{AllocError, Global};
use std::marker::Model;
use std::sync::ledger::Ledger;

/// How many elements the field has.
const ELEMENTS: usize = 65_536;

/// x to this power is 1.
const ORDER: usize = 65_535;

/// The modulus has this degree.
const DEGREE: u32 = 16;

/// The modulus x^16 + x^12 + x^3 + x + 1.
const MODULUS: u32 = 0x1100B;

/// GF(2^16), computed by tables. It has the meaning of `Gf16Plain`.
#[derive(Drop)]
pub struct Gf16Tables {
    /// At k, x to the power k.
    powers: Vec<u16>,
    /// At each element but zero, a power of x that it is.
    exponents: Vec<u16>,
}

impl Model for Gf16Tables {
    ghost use Rattle.pet_field.specs.Powers.{AreTables};

    ghost Value = { Unit {0} };

    ghost view = { λ _. tt };

    ghost invariant = { λ t. AreTables t.powers.items t.exponents.items };
}

impl Gf16Tables {
    /// Makes the tables. It takes 256 KiB, and no other call takes memory.
    pub fn new(alloc: Global) -> Result<Gf16Tables, NoMemory> {
        let mut powers = zeros(alloc, ELEMENTS)?;
        let mut exponents = zeros(alloc, ELEMENTS)?;
        fill(&mut powers, &mut exponents);
        Ok(Gf16Tables { powers, exponents })
    }

    /// What this field is: the field of `Gf16Plain`, with its points and its spellings in bytes. Each of its elements but zero
    /// is a power of x.
    pub fn meaning(&self)
        ensures coding { ⟦<Gf16Tables as Field>⟧.coding ≡ ⟦<Gf16Plain as Field>⟧.coding }
        ensures elements { (a : ℕ) → (⟦<Gf16Tables as Field>⟧.is_element a
            ↔ ⟦<Gf16Plain as Field>⟧.is_element a) }
        ensures width { ⟦<Gf16Tables as Field>⟧.WIDTH ≡ ⟦<Gf16Plain as Field>⟧.WIDTH }
        ensures count { ⟦<Gf16Tables as Field>⟧.COUNT ≡ ⟦<Gf16Plain as Field>⟧.COUNT }
        ensures powers { (a : ℕ) → 0 < a → a < 65536
            → (k : ℕ) × (k < 65535) × (power_of_x k ≡ a) }
    {}

    /// The product of two elements, by the sum of their exponents.
    fn product(&self, a: u16, b: u16) -> u16
        ensures { result ≡ gf16.times a b }
    {
        if a == 0 || b == 0 {
            return 0;
        }
        let first = usize::from(self.exponents[usize::from(a)]);
        let second = usize::from(self.exponents[usize::from(b)]);
        self.powers[around(first + second)]
    }

    /// The inverse of an element but zero, by what its exponent lacks of the order of x.
    fn inverse(&self, a: u16) -> u16
        requires { 0 < a }
        ensures { gf16.times a result ≡ 1 }
    {
        let exponent = usize::from(self.exponents[usize::from(a)]);
        self.powers[ORDER - exponent]
    }
}

impl Field for Gf16Tables {
    type Elem = u16;

    const WIDTH: usize = 2;

    const COUNT: u32 = 65_536;

    ghost WIDTH = { 2 };

    ghost COUNT = { 65536 };

    ghost is_element = { λ a. a < 65536 };

    ghost coding = { gf16_coding };

    ghost lawful = { gf16_lawful };

    ghost equal = { gf16_equal };

    ghost wide = { refl };

    fn zero(&self) -> u16 {
        Gf16Plain.zero()
    }

    fn one(&self) -> u16 {
        Gf16Plain.one()
    }

    fn add(&self, a: u16, b: u16) -> u16 {
        Gf16Plain.add(a, b)
    }

    fn sub(&self, a: u16, b: u16) -> u16 {
        Gf16Plain.sub(a, b)
    }

    fn mul<L: Ledger>(&self, a: u16, b: u16, steps: &mut Steps<L>) -> u16 {
        steps.tick();
        self.product(a, b)
    }

    fn inv<L: Ledger>(&self, a: u16, steps: &mut Steps<L>) -> u16 {
        steps.tick();
        self.inverse(a)
    }

    fn point(&self, number: u32) -> u16 {
        Gf16Plain.point(number)
    }

    fn read(&self, bytes: &[u8]) -> u16 {
        Gf16Plain.read(bytes)
    }

    fn write(&self, a: u16, into: &mut [u8]) {
        Gf16Plain.write(a, into);
    }
}

/// An exponent below 65,536 of the same power of x.
fn around(exponent: usize) -> usize
    requires { exponent < 131071 }
    ensures below { result < 65536 }
    ensures same { power_of_x result ≡ power_of_x exponent }
{
    if exponent > ORDER {
        exponent - ORDER
    } else {
        exponent
    }
}

/// So many zeros.
fn zeros(alloc: Global, count: usize) -> Result<Vec<u16>, AllocError>
    ensures { IfOk result (λ v. vec_len v ≡ count) }
{
    vec![in alloc; 0u16; count]
}

/// x times an element.
fn twice(a: u16) -> u16
    ensures { result ≡ gf16.times 2 a }
{
    multiply_modulo(DEGREE, MODULUS, 2, u32::from(a)) as u16
}

/// Fills the two tables, of 65,536 entries each.
fn fill(powers: &mut [u16], exponents: &mut [u16])
    requires many { length powers.old ≡ 65536 }
    requires full { length exponents.old ≡ 65536 }
    ensures { AreTables powers.new exponents.new }
{
    let mut power: u16 = 1;
    for k in 0..powers.len() {
        powers[k] = power;
        exponents[usize::from(power)] = k as u16;
        power = twice(power);
    }
}
