//! Why a group cannot be made again.
ghost use Rattle.std.specs.Prelude.{◌≡◌};

use pet_base::NoMemory;

/// Why no encoder is made of a group: the first that holds, in this order.
#[derive(Clone, Copy, Debug, PartialEq, Eq)]
pub enum RepairFault {
    /// No packet of the group is kept.
    NotOpen,
    /// This layer of the group is not shown, and it is the least such layer.
    NotShown(u8),
    /// No memory was found.
    NoMemory,
}

impl From<NoMemory> for RepairFault {
    ghost use Rattle.packet_rebuild.specs.declared.fault.RepairFault.TheVariants.{NoMemory};

    ghost from_gives = { λ _ fault. fault ≡ NoMemory };

    fn from(_e: NoMemory) -> RepairFault {
        RepairFault::NoMemory
    }
}
