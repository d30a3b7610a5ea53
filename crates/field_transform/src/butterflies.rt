//! From coefficients in the basis of the subspaces to values.
ghost use Rattle.std.specs.Prelude.{◌≡◌, ◌<◌, ◌≤◌, ◌^◌, ◌+◌, ◌*◌, ℕ, length, All};
ghost use Rattle.field_transform.specs.Steps.{products_of_values};
ghost use Rattle.field_transform.specs.inside.Columnwise.{Columnwise, Flies};

use crate::element::{hat, point_at};
use crate::subspaces::Subspaces;
use crate::words::{add_multiple, butterfly};
use pet_base::Steps;
use std::sync::ledger::Ledger;

/// The values of each column at the first `count` points of the coset of the number c. What stands in the other rows is not said.
pub(crate) fn fly<F: Subspaces, L: Ledger>(
    f: &F,
    rows: &mut [F::Elem],
    width: usize,
    level: u32,
    c: u32,
    count: usize,
    steps: &mut Steps<L>,
)
    requires level { level < F.LEVELS }
    requires size { length rows.old ≡ 2 ^ level * width }
    requires count { count ≤ 2 ^ level }
    requires coset { c < F.COUNT }
    requires elements { All F.is_element rows.old }
    requires small { F.LEVELS ≤ 32 }
    ensures values { Columnwise F.coding.ops.nought (Flies F.coding.ops F.inverse F.coding.point_of level c count) width (2 ^ level) rows.old rows.new }
    ensures elements { All F.is_element rows.new }
    ensures cost { steps.new ≡ steps.old + products_of_values width level c count }
{
    if level > 0 {
        let below = level - 1;
        let by = hat(f, below, point_at(f, c), steps);
        let bit = 1u32 << below;
        let half = 1usize << below;
        let (low, high) = rows.split_at_mut(rows.len() / 2);
        if count <= half {
            add_multiple(f, low, high, by, c < bit, steps);
            fly(f, low, width, below, c, count, steps);
        } else {
            butterfly(f, low, high, by, c < bit, steps);
            fly(f, low, width, below, c, half, steps);
            fly(f, high, width, below, c ^ bit, count - half, steps);
        }
    }
}
