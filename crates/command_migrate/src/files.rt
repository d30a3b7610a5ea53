//! Reading the old store, and writing the new one.
ghost use Rattle.std.specs.Prelude.{◌≡◌, ◌≢◌, ◌++◌, length, IfOk, IfErr, Ok, Err};
ghost use Rattle.pet_base.specs.Causes.{stops};
ghost use Rattle.pet_base.specs.Seen.{Seen, PlaceStops};
ghost use Rattle.packet_verdicts.specs.KeptSet.{KeptSet};
ghost use Rattle.packet_verdicts.specs.Union.{frames_in};
ghost use Rattle.store_text.specs.Store.{store_text};
ghost use Rattle.command_migrate.specs.Ends.{has_failed};
ghost use Rattle.command_migrate.specs.Migrates.{Migrates, WritesMigrated};
ghost use Rattle.command_migrate.specs.OldStores.{migrated_in, long_fault};

use crate::command::MigrateEnd;
use outside_files::{put_file, read_file};
use pet_base::{Failed, MAX_SESSION, MAX_STORE, Place, Stop};
use std::alloc::Global;
use store_merge::{MigrateFault, migrate_store};
use store_text::{STORE_FORM, StoreKind};

impl From<Stop> for MigrateEnd {
    ghost use Rattle.command_migrate.specs.Ends.{stop_end};

    ghost from_gives = { λ stop end. end ≡ stop_end stop };

    fn from(stop: Stop) -> MigrateEnd {
        match stop {
            Stop::NoMemory => MigrateEnd::NoMemory,
            Stop::Failed => MigrateEnd::PlaceFault,
        }
    }
}

impl From<Failed> for MigrateEnd {
    ghost use Rattle.command_migrate.specs.declared.command.MigrateEnd.TheVariants.{PlaceFault};

    ghost from_gives = { λ _ end. end ≡ PlaceFault };

    fn from(_e: Failed) -> MigrateEnd {
        MigrateEnd::PlaceFault
    }
}

impl From<MigrateFault> for MigrateEnd {
    ghost use Rattle.command_migrate.specs.Ends.{fault_end};

    ghost from_gives = { λ fault end. end ≡ fault_end fault };

    fn from(fault: MigrateFault) -> MigrateEnd {
        match fault {
            MigrateFault::AlreadyNew => MigrateEnd::AlreadyNew,
            MigrateFault::At(at, kind) => MigrateEnd::BadStore(at, kind),
            MigrateFault::TooWide(group) => MigrateEnd::TooWide(group),
            MigrateFault::Full(group) => MigrateEnd::Full(group),
            MigrateFault::NoMemory => MigrateEnd::NoMemory,
        }
    }
}

/// Writes the packets of STORE as a store of today to OUT, and answers how many there are; else the end that it comes to.
pub(crate) fn migrate_file<P: Place>(
    alloc: Global,
    store: &str,
    out: &str,
    place: &mut P,
) -> Result<u32, MigrateEnd>
    ensures done { IfOk result (λ n. (w : WritesMigrated store.now out.now (P.seen place.old)
        (P.seen place.new)) × (n ≡ length (frames_in w.set))) }
    ensures cause { IfErr result (Migrates store.now out.now (P.seen place.old) (P.seen place.new)) }
    ensures once { PlaceStops (stops has_failed result) (P.seen place.old) (P.seen place.new) }
{
    let bytes = read_file(alloc, store, MAX_STORE, place)?;
    let mut text = Vec::new(alloc);
    let packets = migrate_bytes(bytes.as_slice(), &mut text)?;
    put_file(out, text.as_slice(), place)?;
    Ok(packets)
}

/// Appends the store of today that the bytes of a file come to, of which at most one past the limit are given, and answers how many
/// packets it has.
fn migrate_bytes(bytes: &[u8], into: &mut Vec<u8>) -> Result<u32, MigrateFault>
    ensures migrated { IfOk result (λ n. (set : KeptSet) × (migrated_in bytes.now ≡ Ok set)
        × (n ≡ length (frames_in set)) × (into.new.items ≡ into.old.items ++ store_text set)) }
    ensures refused { IfErr result (λ fault. fault ≢ MigrateFault.NoMemory
        → migrated_in bytes.now ≡ Err fault) }
{
    if bytes.len() as u64 <= MAX_STORE {
        return migrate_store(bytes, MAX_SESSION, into);
    }
    Err(fault_of_long(bytes))
}

/// Why a file that is longer than any store comes to none.
fn fault_of_long(bytes: &[u8]) -> MigrateFault
    ensures { result ≡ long_fault bytes.now }
{
    if bytes.starts_with(&STORE_FORM.mark) {
        MigrateFault::AlreadyNew
    } else {
        MigrateFault::At(MAX_STORE, StoreKind::Cut)
    }
}
