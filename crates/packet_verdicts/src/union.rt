//! Why what another receiver has kept cannot be taken in.
ghost use Rattle.std.specs.Prelude.{◌≡◌};

use pet_base::NoMemory;

/// Why a receiver cannot take in what another has kept: the first that holds, in this order. Nothing has changed then.
#[derive(Clone, Copy, Debug, PartialEq, Eq)]
pub enum Absorb {
    /// The other receiver is of another session.
    OtherSession,
    /// The other has kept the packet of this group and number, which contradicts what is kept here; it is the first such
    /// packet, by group, then number.
    Clash(u32, u16),
    /// With this group, the first such of the other's that are not open here, the open groups would cost more than the
    /// limit.
    Full(u32),
    /// No memory was found.
    NoMemory,
}

impl From<NoMemory> for Absorb {
    ghost use Rattle.packet_verdicts.specs.declared.union.Absorb.TheVariants.{NoMemory};

    ghost from_gives = { λ _ fault. fault ≡ NoMemory };

    fn from(_e: NoMemory) -> Absorb {
        Absorb::NoMemory
    }
}
