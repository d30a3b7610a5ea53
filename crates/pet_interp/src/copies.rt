//! Vectors that grow.
ghost use Rattle.std.specs.Prelude.{◌≡◌, ◌++◌, ◌-◌, length, replicate, IfOk};

use pet_base::NoMemory;

/// Adds so many copies, and takes no more room than they need.
pub(crate) fn push_copies<E: Copy + Drop>(
    into: &mut Vec<E>,
    value: E,
    count: usize,
) -> Result<(), NoMemory>
    ensures { IfOk result (λ _. into.new.items ≡ into.old.items ++ replicate count value) }
{
    into.reserve_exact(count)?;
    for i in 0..count {
        into.push(value)?;
    }
    Ok(())
}
