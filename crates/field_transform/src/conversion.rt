//! From coefficients of powers to coefficients in the basis of the subspaces.
ghost use Rattle.std.specs.Prelude.{◌≡◌, ◌<◌, ◌≤◌, ◌+◌, ◌-◌, ◌*◌, ◌^◌, ℕ, length, slice_index_or, All, true, cond};
ghost use Rattle.field_rows.specs.Columns.{column};
ghost use Rattle.field_transform.specs.inside.Columnwise.{Columnwise, Expands, Scales, Converts, Lifts};
ghost use Rattle.field_transform.specs.Steps.{products_of_powers, products_of_conversion};

use crate::element::{factor_at, one, product, squares};
use crate::subspaces::Subspaces;
use crate::words::{add_words, multiply};
use pet_base::Steps;
use std::sync::ledger::Ledger;

/// Adds the fourth quarter to the third, and the third to the second. The words of the higher half from `known` on are zero, and
/// stay so.
fn lift<F: Subspaces>(
    f: &F,
    low: &mut [F::Elem],
    high: &mut [F::Elem],
    width: usize,
    quarter: u32,
    known: usize,
)
    requires few { quarter + 1 < F.LEVELS }
    requires first { length low.old ≡ 2 ^ (quarter + 1) * width }
    requires second { length high.old ≡ 2 ^ (quarter + 1) * width }
    requires zeros { (i : ℕ) → known ≤ i → slice_index_or high.old i F.coding.ops.nought ≡ F.coding.ops.nought }
    requires lower { All F.is_element low.old }
    requires higher { All F.is_element high.old }
    requires small { F.LEVELS ≤ 32 }
    ensures lifted { (c : ℕ) → c < width → Lifts F.coding.ops (2 ^ quarter) (column F.coding.ops.nought width (2 ^ (quarter + 1)) c low.old)
        (column F.coding.ops.nought width (2 ^ (quarter + 1)) c high.old) (column F.coding.ops.nought width (2 ^ (quarter + 1)) c low.new)
        (column F.coding.ops.nought width (2 ^ (quarter + 1)) c high.new) }
    ensures zeros { (i : ℕ) → known ≤ i → slice_index_or high.new i F.coding.ops.nought ≡ F.coding.ops.nought }
    ensures lower { All F.is_element low.new }
    ensures higher { All F.is_element high.new }
{
    let half = high.len() / 2;
    let (_first, second) = low.split_at_mut(low.len() / 2);
    let (third, fourth) = high.split_at_mut(half);
    add_words(f, third, fourth, known.saturating_sub(half));
    add_words(f, second, third, known);
}

/// The expansion of each column, of blocks of 2^shift rows, at the square of the variable plus the variable. The words from
/// `known` on are zero, and stay so.
fn expand<F: Subspaces>(
    f: &F,
    rows: &mut [F::Elem],
    width: usize,
    shift: u32,
    level: u32,
    known: usize,
)
    requires few { shift + level + 1 < F.LEVELS }
    requires size { length rows.old ≡ 2 ^ (shift + level + 1) * width }
    requires zeros { (i : ℕ) → known ≤ i → slice_index_or rows.old i F.coding.ops.nought ≡ F.coding.ops.nought }
    requires elements { All F.is_element rows.old }
    requires small { F.LEVELS ≤ 32 }
    ensures expanded { Columnwise F.coding.ops.nought (Expands F.coding.ops shift level) width (2 ^ (shift + level + 1)) rows.old rows.new }
    ensures zeros { (i : ℕ) → known ≤ i → slice_index_or rows.new i F.coding.ops.nought ≡ F.coding.ops.nought }
    ensures elements { All F.is_element rows.new }
{
    if level > 0 {
        let half = rows.len() / 2;
        let (low, high) = rows.split_at_mut(half);
        if known <= half {
            expand(f, low, width, shift, level - 1, known);
        } else {
            lift(f, low, high, width, shift + (level - 1), known - half);
            expand(f, low, width, shift, level - 1, half);
            expand(f, high, width, shift, level - 1, known - half);
        }
    }
}

/// Multiplies block i of 2^shift rows by a and the power i of g. The words from `known` on are zero, and stay so. `first` says
/// that a is 1, so that block 0 makes no product.
fn scale<F: Subspaces, L: Ledger>(
    f: &F,
    rows: &mut [F::Elem],
    width: usize,
    shift: u32,
    level: u32,
    g: F::Elem,
    a: F::Elem,
    first: bool,
    known: usize,
    steps: &mut Steps<L>,
)
    requires few { shift + level < F.LEVELS }
    requires size { length rows.old ≡ 2 ^ (shift + level) * width }
    requires zeros { (i : ℕ) → known ≤ i → slice_index_or rows.old i F.coding.ops.nought ≡ F.coding.ops.nought }
    requires elements { All F.is_element rows.old }
    requires fits { known ≤ length rows.old }
    requires one { first ≡ true → a ≡ F.coding.ops.unit }
    requires factor { F.is_element g }
    requires start { F.is_element a }
    requires small { F.LEVELS ≤ 32 }
    ensures products { Columnwise F.coding.ops.nought (Scales F.coding.ops shift level g a) width (2 ^ (shift + level)) rows.old rows.new }
    ensures zeros { (i : ℕ) → known ≤ i → slice_index_or rows.new i F.coding.ops.nought ≡ F.coding.ops.nought }
    ensures elements { All F.is_element rows.new }
    ensures cost { steps.new ≡ steps.old + (known - cond first (2 ^ shift * width) 0)
        + products_of_powers (2 ^ shift * width) level known }
{
    if level == 0 {
        multiply(f, rows, a, first, known, steps);
    } else {
        let below = level - 1;
        let half = rows.len() / 2;
        let (low, high) = rows.split_at_mut(half);
        if known <= half {
            scale(f, low, width, shift, below, g, a, first, known, steps);
        } else {
            let b = product(f, a, squares(f, g, below, steps), steps);
            scale(f, low, width, shift, below, g, a, first, half, steps);
            let rest = known - half;
            scale(f, high, width, shift, below, g, b, false, rest, steps);
        }
    }
}

/// From powers of the polynomial of a subspace to products of the polynomials from it on. The words from `known` on are zero, and
/// stay so.
pub(crate) fn convert_from<F: Subspaces, L: Ledger>(
    f: &F,
    rows: &mut [F::Elem],
    width: usize,
    shift: u32,
    level: u32,
    known: usize,
    steps: &mut Steps<L>,
)
    requires few { shift + level < F.LEVELS }
    requires size { length rows.old ≡ 2 ^ (shift + level) * width }
    requires zeros { (i : ℕ) → known ≤ i → slice_index_or rows.old i F.coding.ops.nought ≡ F.coding.ops.nought }
    requires elements { All F.is_element rows.old }
    requires fits { known ≤ length rows.old }
    requires small { F.LEVELS ≤ 32 }
    ensures coefficients { Columnwise F.coding.ops.nought (Converts F.coding.ops F.factor shift level) width (2 ^ (shift + level)) rows.old rows.new }
    ensures zeros { (i : ℕ) → known ≤ i → slice_index_or rows.new i F.coding.ops.nought ≡ F.coding.ops.nought }
    ensures elements { All F.is_element rows.new }
    ensures cost { steps.new ≡ steps.old + products_of_conversion (2 ^ shift * width) level known }
{
    if level > 0 {
        let below = level - 1;
        expand(f, rows, width, shift, below, known);
        scale(
            f,
            rows,
            width,
            shift + 1,
            below,
            factor_at(f, shift),
            one(f),
            true,
            known,
            steps,
        );
        convert_from(f, rows, width, shift + 1, below, known, steps);
    }
}
