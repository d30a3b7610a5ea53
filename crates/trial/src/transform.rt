//! The packets of a group by the additive fast Fourier transform, over all stripes at once.
ghost use Rattle.std.specs.Prelude.{◌≡◌, ◌*◌, ◌<◌, ◌≤◌, ◌^◌, ℕ, length, slice_index, vec_len, IfOk};

use crate::group::Group;
use field_rows::transpose;
use field_transform::values;
use pet_base::Steps;
use pet_field::Gf16Tables;
use std::alloc::{AllocError, Global};
use std::sync::ledger::Ledger;

/// The values at so many points: 2 to the power `LEVEL`.
const LEVEL: u32 = 7;

/// How many points these are.
const POINTS: usize = 128;

/// The values of each stripe at the points of the packets, `POINTS` at most, a row for each. What stands in the rows behind
/// them is not said.
#[inline(never)]
pub fn transformed<L: Ledger>(
    alloc: Global,
    tables: &Gf16Tables,
    group: &Group,
    row: &[u16],
    steps: &mut Steps<L>,
) -> Result<Vec<u16>, AllocError> {
    let stripes = usize::from(group.stripes);
    let mut rows = zeros(alloc, POINTS * stripes)?;
    put_values(
        tables,
        row,
        usize::from(group.length),
        stripes,
        usize::from(group.packets),
        &mut rows,
        steps,
    );
    Ok(rows)
}

/// So many zeros.
fn zeros(alloc: Global, count: usize) -> Result<Vec<u16>, AllocError>
    ensures count { IfOk result (λ v. vec_len v ≡ count) }
    ensures zeros { IfOk result (λ v. (i : ℕ) → slice_index v.items i ≡ 0) }
{
    vec![in alloc; 0u16; count]
}

/// Lays out the stripes and leaves their values at so many points.
fn put_values<L: Ledger>(
    tables: &Gf16Tables,
    row: &[u16],
    count: usize,
    stripes: usize,
    points: usize,
    rows: &mut [u16],
    steps: &mut Steps<L>,
)
    requires size { length rows.old ≡ 2 ^ 7 * stripes }
    requires zeros { (i : ℕ) → slice_index rows.old i ≡ 0 }
{
    if count <= POINTS && stripes <= 65_535 && row.len() == count * stripes {
        let (known, _zeros) = rows.split_at_mut(row.len());
        transpose(row, count, stripes, known);
        values(
            tables,
            rows,
            stripes,
            LEVEL,
            count,
            0,
            points.min(POINTS),
            steps,
        );
    }
}
