//! Single elements: powers, and the polynomials of the subspaces at a point.
ghost use Rattle.std.specs.Prelude.{◌≡◌, ◌<◌, ◌+◌, ◌*◌};
ghost use Rattle.field_transform.specs.Basis.{hats, next_hat, squared};

use crate::subspaces::Subspaces;
use pet_base::Steps;
use std::sync::ledger::Ledger;

/// The point of a number.
pub(crate) fn point_at<F: Subspaces>(f: &F, number: u32) -> F::Elem
    requires { number < F.COUNT }
    ensures point { result ≡ F.coding.point_of number }
    ensures element { F.is_element result }
{
    f.point(number)
}

/// The factor of a level.
pub(crate) fn factor_at<F: Subspaces>(f: &F, level: u32) -> F::Elem
    requires { level + 1 < F.LEVELS }
    ensures factor { result ≡ F.factor level }
    ensures element { F.is_element result }
{
    f.factor_of(level)
}

/// The inverse of that factor.
fn inverse_at<F: Subspaces>(f: &F, level: u32) -> F::Elem
    requires { level + 1 < F.LEVELS }
    ensures inverse { result ≡ F.inverse level }
    ensures element { F.is_element result }
{
    f.inverse_of(level)
}

/// One.
pub(crate) fn one<F: Subspaces>(f: &F) -> F::Elem
    ensures one { result ≡ F.coding.ops.unit }
    ensures element { F.is_element result }
{
    f.one()
}

/// The product of two elements. It counts one step.
pub(crate) fn product<F: Subspaces, L: Ledger>(
    f: &F,
    a: F::Elem,
    b: F::Elem,
    steps: &mut Steps<L>,
) -> F::Elem
    requires first { F.is_element a }
    requires second { F.is_element b }
    ensures product { result ≡ F.coding.ops.times a b }
    ensures element { F.is_element result }
    ensures cost { steps.new ≡ steps.old + 1 }
{
    f.single_product(a, b, steps)
}

/// From the polynomial of a level at a point to that of the next there. It counts two steps.
fn next_level<F: Subspaces, L: Ledger>(
    f: &F,
    level: u32,
    value: F::Elem,
    steps: &mut Steps<L>,
) -> F::Elem
    requires level { level + 1 < F.LEVELS }
    requires value { F.is_element value }
    ensures next { result ≡ next_hat F.coding.ops (F.inverse level) value }
    ensures element { F.is_element result }
    ensures cost { steps.new ≡ steps.old + 2 }
{
    let square = product(f, value, value, steps);
    let sum = f.add(square, value);
    product(f, inverse_at(f, level), sum, steps)
}

/// The polynomial of the subspace of the points of the numbers below 2^level, at x. It counts two steps for each level.
pub(crate) fn hat<F: Subspaces, L: Ledger>(
    f: &F,
    level: u32,
    x: F::Elem,
    steps: &mut Steps<L>,
) -> F::Elem
    requires level { level < F.LEVELS }
    requires point { F.is_element x }
    ensures value { result ≡ hats F.coding.ops F.inverse level x }
    ensures element { F.is_element result }
    ensures cost { steps.new ≡ steps.old + 2 * level }
{
    let mut value = x;
    for i in 0..level {
        value = next_level(f, i, value, steps);
    }
    value
}

/// Squares so often. It counts one step each time.
pub(crate) fn squares<F: Subspaces, L: Ledger>(
    f: &F,
    g: F::Elem,
    count: u32,
    steps: &mut Steps<L>,
) -> F::Elem
    requires { F.is_element g }
    ensures value { result ≡ squared F.coding.ops count g }
    ensures element { F.is_element result }
    ensures cost { steps.new ≡ steps.old + count }
{
    let mut value = g;
    for _i in 0..count {
        value = product(f, value, value, steps);
    }
    value
}
