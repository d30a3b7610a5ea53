//! A field by its elements.
use field_elements::Field;
use field_rows::Rows;
use field_values::AllValues;
use pet_base::Steps;
use std::sync::ledger::Ledger;

/// A field that computes what another computes, and has rows and values by the bodies that serve every field. It counts the
/// steps of the other.
#[derive(Drop)]
pub struct ByElements<F> {
    /// The other field.
    pub field: F,
}

impl<F: Field> Field for ByElements<F> {
    type Elem = F::Elem;

    const WIDTH: usize = F::WIDTH;

    const COUNT: u32 = F::COUNT;

    ghost WIDTH = { F.WIDTH };

    ghost COUNT = { F.COUNT };

    ghost is_element = { F.is_element };

    ghost coding = { F.coding };

    ghost lawful = { F.lawful };

    ghost equal = { F.equal };

    ghost wide = { F.wide };

    fn zero(&self) -> F::Elem {
        self.field.zero()
    }

    fn one(&self) -> F::Elem {
        self.field.one()
    }

    fn add(&self, a: F::Elem, b: F::Elem) -> F::Elem {
        self.field.add(a, b)
    }

    fn sub(&self, a: F::Elem, b: F::Elem) -> F::Elem {
        self.field.sub(a, b)
    }

    fn mul<L: Ledger>(&self, a: F::Elem, b: F::Elem, steps: &mut Steps<L>) -> F::Elem {
        self.field.mul(a, b, steps)
    }

    fn inv<L: Ledger>(&self, a: F::Elem, steps: &mut Steps<L>) -> F::Elem {
        self.field.inv(a, steps)
    }

    fn point(&self, number: u32) -> F::Elem {
        self.field.point(number)
    }

    fn read(&self, bytes: &[u8]) -> F::Elem {
        self.field.read(bytes)
    }

    fn write(&self, a: F::Elem, into: &mut [u8]) {
        self.field.write(a, into)
    }
}

impl<F: Field> Rows for ByElements<F> {
    type Factor = F::Elem;

    ghost element_of = { λ a. a };

    fn prepare(&self, x: F::Elem) -> F::Elem {
        x
    }

    fn element(&self, factor: &F::Elem) -> F::Elem {
        *factor
    }
}

impl<F: Field> AllValues for ByElements<F> {}
