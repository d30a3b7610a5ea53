//! The command `migrate`, and how it ends.
ghost use Rattle.std.specs.Prelude.{◌≡◌};
ghost use Rattle.pet_base.specs.Seen.{Seen, PlaceStops};
ghost use Rattle.command_migrate.specs.Ends.{has_failed};
ghost use Rattle.command_migrate.specs.Migrates.{Migrates};
ghost use Rattle.command_migrate.specs.MigratesSession.{CompletesMigrate};

use crate::files::migrate_file;
use pet_base::Place;
use std::alloc::Global;
use store_text::StoreKind;

/// How `migrate` ended.
#[derive(Clone, Copy, Debug, PartialEq, Eq)]
pub enum MigrateEnd {
    /// OUT has the packets of STORE, so many, as a store of today.
    Done(u32),
    /// No memory was found.
    NoMemory,
    /// A file could not be read or written.
    PlaceFault,
    /// STORE is a store of today already.
    AlreadyNew,
    /// STORE is no store of the first version: its first refusal, with its place.
    BadStore(u64, StoreKind),
    /// The datagrams of this group, the first such, would be longer than 65,000 bytes.
    TooWide(u32),
    /// With this group the groups would cost more than 536,870,912 bytes.
    Full(u32),
}

/// Reads and judges STORE, a store of the first version, and writes its packets as a store of today to OUT. OUT is made once its
/// bytes are there. The first failure of a file ends it.
pub fn migrate<P: Place>(alloc: Global, store: &str, out: &str, place: &mut P) -> MigrateEnd
    ensures migrates { Migrates store.now out.now (P.seen place.old) (P.seen place.new) result }
    ensures completes { CompletesMigrate store.now out.now (P.seen place.old) (P.seen place.new)
        result }
    ensures once { PlaceStops (has_failed result) (P.seen place.old) (P.seen place.new) }
{
    match migrate_file(alloc, store, out, place) {
        Ok(packets) => MigrateEnd::Done(packets),
        Err(end) => end,
    }
}
