//! Why a priority file is refused.
ghost use Rattle.std.specs.Prelude.{◌≡◌};
ghost use Rattle.priority_file.specs.declared.fault.PriorityFault.TheVariants.{NoMemory};

use std::alloc::{AllocError, AllocFailed};

/// Why a priority file is refused. The answer is the first of these, in this order, whose cause holds of the file.
#[derive(Clone, Copy, PartialEq, Eq, Debug)]
pub enum PriorityFault {
    /// More than `MAX_PRIORITY_FILE` bytes.
    Long,
    /// The bytes are no TOML document in UTF-8.
    Text,
    /// Another key at the top or in a layer, or `percent` in a layer that has `need`.
    UnknownKey,
    /// `packets` or `layer` is missing, or a layer lacks `name`, `kinds`, or both `need` and `percent`.
    MissingKey,
    /// A value has another type than its key asks for, or a string of `kinds` is neither a kind nor a place.
    WrongType,
    /// `packets` is below 1 or above `MAX_PACKETS`.
    PacketsRange,
    /// A `need` is below 1 or above `packets`, or a `percent` is below 1 or above 100.
    NeedRange,
    /// A name has not 1 to `LONGEST_NAME` bytes, has a byte other than ASCII letters, digits, `-`, `_` and `+`, or is the
    /// name of an earlier layer.
    Name,
    /// A kind or a place is listed twice.
    KindTwice,
    /// One of `head`, `I`, `P` and `B` is listed nowhere.
    KindMissing,
    /// `head` is not in layer 0.
    HeadNotFirst,
    /// More than `MAX_LAYERS` layers.
    TooManyLayers,
    /// No memory was found, which says nothing of the file.
    NoMemory,
}

impl From<AllocError> for PriorityFault {
    ghost from_gives = { λ _ f. f ≡ NoMemory };

    fn from(_e: AllocError) -> PriorityFault {
        PriorityFault::NoMemory
    }
}

impl<T: Drop> From<AllocFailed<T>> for PriorityFault {
    ghost from_gives = { λ _ f. f ≡ NoMemory };

    fn from(_e: AllocFailed<T>) -> PriorityFault {
        PriorityFault::NoMemory
    }
}
