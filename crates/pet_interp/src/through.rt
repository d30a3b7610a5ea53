//! The polynomial through points.
ghost use Rattle.std.specs.Prelude.{◌≡◌, ◌≢◌, ℕ, ◌+◌, ◌*◌, ◌<◌, ◌≤◌, length, All, List};
ghost use Rattle.pet_poly.specs.Value.{AreDistinct};
ghost use Rattle.pet_interp.specs.inside.Newton.{nested, gap, expanded};
ghost use Rattle.pet_interp.specs.Points.{firsts, IsOnlyThrough};

use field_elements::Field;
use pet_base::Steps;
use std::sync::ledger::Ledger;

/// Leaves in `into` the only list of as many coefficients as there are points that goes through the points, each given
/// as a place and the value there. The places are distinct, and their order is free. What `into` held before is not
/// read. It takes no memory: the coefficients of Newton's form are found in `into`, one point after another, and are
/// then made plain coefficients in place.
pub fn interpolate<F: Field, L: Ledger>(
    f: &F,
    points: &[(F::Elem, F::Elem)],
    into: &mut [F::Elem],
    steps: &mut Steps<L>,
)
    requires elements { All (λ p. F.is_element p.0 × F.is_element p.1) points.now }
    requires distinct { AreDistinct (firsts points.now) }
    requires room { length into.old ≡ length points.now }
    ensures { IsOnlyThrough F.is_element F.coding.ops points.now into.new }
{
    'form: for i in 0..points.len() {
        let point = points[i];
        into[i] = next_coefficient(f, &points[..i], &into[..i], point.0, point.1, steps);
    }
    'plain: for i in (0..points.len()).rev() {
        let x = points[i].0;
        expand(f, &mut into[i..], x, steps);
    }
}

/// The next coefficient of Newton's form, for one more point.
fn next_coefficient<F: Field, L: Ledger>(
    f: &F,
    points: &[(F::Elem, F::Elem)],
    form: &[F::Elem],
    x: F::Elem,
    y: F::Elem,
    steps: &mut Steps<L>,
) -> F::Elem
    requires room { length form.now ≡ length points.now }
    requires places { All (λ p. F.is_element p.0) points.now }
    requires form { All F.is_element form.now }
    requires point { F.is_element x }
    requires value { F.is_element y }
    requires other { All (λ p. x ≢ p.0) points.now }
    ensures element { F.is_element result }
    ensures fits { F.coding.ops.plus (nested F.coding.ops (firsts points.now) form.now x)
        (F.coding.ops.times result (gap F.coding.ops (firsts points.now) x)) ≡ y }
{
    let mut value = f.zero();
    let mut weight = f.one();
    for i in 0..points.len() {
        value = f.add(value, f.mul(form[i], weight, steps));
        let place = points[i].0;
        weight = f.mul(weight, f.sub(x, place), steps);
    }
    let inverse = f.inv(weight, steps);
    f.mul(f.sub(y, value), inverse, steps)
}

/// The coefficients of c + (X - x) Q, where Q has the coefficients after c.
fn expand<F: Field, L: Ledger>(f: &F, into: &mut [F::Elem], x: F::Elem, steps: &mut Steps<L>)
    requires elements { All F.is_element into.old }
    requires point { F.is_element x }
    ensures { into.new ≡ expanded F.coding.ops x into.old }
{
    for i in 1..into.len() {
        into[i - 1] = f.sub(into[i - 1], f.mul(x, into[i], steps));
    }
}
