//! Why an event is not carried out.
ghost use Rattle.std.specs.Prelude.{◌≡◌};

use pet_base::NoMemory;

/// Why an event was not carried out: the first that holds, in this order. The world is then as before.
#[derive(Clone, Copy, Debug, PartialEq, Eq)]
pub enum WorldFault {
    /// There is no receiver of a number that the event names.
    UnknownReceiver,
    /// The session has no packet of the group and number that the event gives.
    OutOfRange,
    /// No memory was found.
    NoMemory,
}

impl From<NoMemory> for WorldFault {
    ghost use Rattle.pet_world.specs.declared.fault.WorldFault.TheVariants.{NoMemory as no_memory};

    ghost from_gives = { λ _ fault. fault ≡ no_memory };

    fn from(_e: NoMemory) -> WorldFault {
        WorldFault::NoMemory
    }
}
