//! Why bytes are no store.

ghost use Rattle.std.specs.Prelude.{◌≡◌};

use pet_base::NoMemory;

/// The kind of a store's refusal. Each comes with the place of a byte, counted from 0.
#[derive(Clone, Copy, Debug, PartialEq, Eq)]
pub enum StoreKind {
    /// There are fewer bytes than head and tag have, and the place is their number; or the entry at the place does not end
    /// before the tag.
    Cut,
    /// The first four bytes are not those of a store.
    Magic,
    /// The entry at the place has no frame.
    Frame,
    /// The frame of the entry at the place is of another session than the store.
    Session,
    /// The group and number of the entry at the place are not above those of the entry before.
    Order,
    /// The frame of the entry at the place names another number of groups than an earlier one, or another table than an
    /// earlier one of its group.
    Clash,
    /// With the group of the entry at the place the groups would cost more than the limit.
    Full,
    /// More bytes stand before the tag, from the place on, than the entries take.
    Rest,
    /// The last bytes, from the place on, are not the tag of those before them.
    Tag,
}

/// Why bytes are no store that can be read.
#[derive(Clone, Copy, Debug, PartialEq, Eq)]
pub enum BadStore {
    /// The first refusal, from the front to the end: its place and its kind.
    At(u64, StoreKind),
    /// No memory was found.
    NoMemory,
}

impl From<NoMemory> for BadStore {
    ghost use Rattle.store_text.specs.declared.fault.BadStore.TheVariants.{NoMemory};

    ghost from_gives = { λ _ fault. fault ≡ NoMemory };

    fn from(_e: NoMemory) -> BadStore {
        BadStore::NoMemory
    }
}
