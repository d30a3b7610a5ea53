//! Products and sums that are written in place.
ghost use Rattle.std.specs.Prelude.{◌≡◌, ◌+◌, ◌<◌, ◌≤◌, ◌++◌, length, take, drop, All};
ghost use Rattle.pet_poly.specs.Value.{value, value_monic};
ghost use Rattle.pet_poly.specs.InPlace.{linear_product_from, linear_product, scaled_sum};

use field_elements::Field;
use pet_base::Steps;
use std::sync::ledger::Ledger;

/// Multiplies a monic polynomial by X - x. Its lower coefficients are the first `degree` places; those of the product
/// are then the first `degree + 1`, and the other places stay. It counts `degree` steps.
pub fn times_linear<F: Field, L: Ledger>(
    f: &F,
    low: &mut [F::Elem],
    degree: usize,
    x: F::Elem,
    steps: &mut Steps<L>,
)
    requires room { degree < length low.old }
    requires elements { All F.is_element (take degree low.old) }
    requires point { F.is_element x }
    ensures places { low.new ≡ linear_product F.coding.ops x (take degree low.old)
        ++ drop (degree + 1) low.old }
    ensures elements { All F.is_element (take (degree + 1) low.new) }
    // at every y the value is that of before times y - x
    ensures value { (y : F.Elem) → F.is_element y →
        value_monic F.coding.ops (take (degree + 1) low.new) y
        ≡ F.coding.ops.times (F.coding.ops.minus y x)
        (value_monic F.coding.ops (take degree low.old) y) }
    ensures cost { steps.new ≡ steps.old + degree }
{
    let mut before = f.zero();
    for i in 0..degree {
        let here = low[i];
        low[i] = f.sub(before, f.mul(x, here, steps));
        before = here;
    }
    low[degree] = f.sub(before, x);
}

/// Adds `by` times the other list, place by place; places past the other list stay. It counts one step for each
/// place of the other list.
pub fn add_scaled<F: Field, L: Ledger>(
    f: &F,
    into: &mut [F::Elem],
    other: &[F::Elem],
    by: F::Elem,
    steps: &mut Steps<L>,
)
    requires room { length other.now ≤ length into.old }
    requires elements { All F.is_element (take (length other.now) into.old) }
    requires others { All F.is_element other.now }
    requires factor { F.is_element by }
    ensures places { into.new ≡ scaled_sum F.coding.ops by into.old other.now }
    ensures elements { All F.is_element into.old → All F.is_element into.new }
    // at every y the value is that of before and `by` times that of the other list
    ensures value { All F.is_element into.old → (y : F.Elem) → F.is_element y →
        value F.coding.ops into.new y
        ≡ F.coding.ops.plus (value F.coding.ops into.old y)
        (F.coding.ops.times by (value F.coding.ops other.now y)) }
    ensures cost { steps.new ≡ steps.old + length other.now }
{
    for i in 0..other.len() {
        into[i] = f.add(into[i], f.mul(by, other[i], steps));
    }
}
