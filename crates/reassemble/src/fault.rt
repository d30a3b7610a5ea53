//! Why a group has no video.

ghost use Rattle.std.specs.Prelude.{◌≡◌};

use pet_base::NoMemory;

/// Why a group has no video. Nothing was appended then.
#[derive(Clone, Copy, Debug, PartialEq, Eq)]
pub enum Assemble {
    /// Layer 0 of the group is not shown.
    NoTable,
    /// Layer 0 is shown, and has no run table that fits the group's layers.
    BadTable,
    /// No memory was found.
    NoMemory,
}

impl From<NoMemory> for Assemble {
    ghost use Rattle.reassemble.specs.declared.fault.Assemble.TheVariants.{NoMemory};

    ghost from_gives = { λ _ fault. fault ≡ NoMemory };

    fn from(_e: pet_base::NoMemory) -> Assemble {
        Assemble::NoMemory
    }
}
