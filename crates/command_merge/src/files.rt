//! Reading two stores, joining them, and writing their union.
ghost use Rattle.std.specs.Prelude.{◌≡◌, Ok, Err, IfOk, IfErr};
ghost use Rattle.pet_base.specs.Causes.{stops};
ghost use Rattle.pet_base.specs.Seen.{Seen, PlaceStops};
ghost use Rattle.packet_verdicts.specs.KeptSet.{KeptSet, kept_in_all};
ghost use Rattle.store_text.specs.Files.{store_in};
ghost use Rattle.store_text.specs.declared.fault.BadStore.{BadStore};
ghost use Rattle.store_packets.specs.Packets.{HasPackets};
ghost use Rattle.store_merge.specs.Files.{stop_of_store};
ghost use Rattle.command_merge.specs.Ends.{store_end, has_failed};
ghost use Rattle.command_merge.specs.Merges.{Merges, WritesUnion, union_of};

use crate::command::MergeEnd;
use outside_files::read_file;
use packet_verdicts::Absorb;
use pet_base::{Failed, MAX_STORE, Place, Stop};
use std::alloc::Global;
use store_merge::StoreStop;
use store_packets::{StorePackets, packets_of_file};
use store_union::{join, write_union_file};

impl From<Absorb> for MergeEnd {
    ghost use Rattle.command_merge.specs.Ends.{absorb_end};

    ghost from_gives = { λ fault end. end ≡ absorb_end fault };

    fn from(fault: Absorb) -> MergeEnd {
        match fault {
            Absorb::OtherSession => MergeEnd::OtherSession,
            Absorb::Clash(group, number) => MergeEnd::Clash(group, number),
            Absorb::Full(group) => MergeEnd::Full(group),
            Absorb::NoMemory => MergeEnd::NoMemory,
        }
    }
}

impl From<Failed> for MergeEnd {
    ghost use Rattle.command_merge.specs.declared.command.MergeEnd.TheVariants.{PlaceFault};

    ghost from_gives = { λ _ end. end ≡ PlaceFault };

    fn from(_e: Failed) -> MergeEnd {
        MergeEnd::PlaceFault
    }
}

impl From<Stop> for MergeEnd {
    ghost use Rattle.command_merge.specs.Ends.{stop_end};

    ghost from_gives = { λ stop end. end ≡ stop_end stop };

    fn from(stop: Stop) -> MergeEnd {
        match stop {
            Stop::NoMemory => MergeEnd::NoMemory,
            Stop::Failed => MergeEnd::PlaceFault,
        }
    }
}

/// Writes the store of the union of the two stores to OUT, and answers how many packets it has; else the end that it comes to.
pub(crate) fn merge_files<P: Place>(
    alloc: Global,
    first: &str,
    second: &str,
    out: &str,
    place: &mut P,
) -> Result<u32, MergeEnd>
    ensures done { IfOk result (λ n. (w : WritesUnion first.now second.now out.now
        (P.seen place.old) (P.seen place.new)) × (n ≡ kept_in_all (union_of w.joins))) }
    ensures cause { IfErr result (Merges first.now second.now out.now (P.seen place.old)
        (P.seen place.new)) }
    ensures once { PlaceStops (stops has_failed result) (P.seen place.old) (P.seen place.new) }
{
    let bytes = read_file(alloc, first, MAX_STORE, place)?;
    let read = packets_of(bytes.as_slice());
    let mine = read.map_err(|stop| store_end(Which::First, stop))?;
    let bytes = read_file(alloc, second, MAX_STORE, place)?;
    let read = packets_of(bytes.as_slice());
    let theirs = read.map_err(|stop| store_end(Which::Second, stop))?;
    let count = join(&mine, &theirs)?;
    write_union_file(&mine, &theirs, count, out, place)?;
    Ok(count)
}

/// The packets of the store that these bytes of a file are, of which at most one past the limit are given.
fn packets_of(bytes: &[u8]) -> Result<StorePackets<'_>, StoreStop>
    ensures read { IfOk result (λ packets. (set : KeptSet) × (store_in bytes.now ≡ Ok set)
        × HasPackets packets set) }
    ensures refused { IfErr result (λ stop. (fault : BadStore) × (stop ≡ stop_of_store fault)
        × (store_in bytes.now ≡ Err fault)) }
{
    Ok(packets_of_file(bytes)?)
}

/// Which of the two stores.
#[derive(Clone, Copy, Drop)]
enum Which {
    First,
    Second,
}

/// How the command ends where a store was not read.
fn store_end(which: Which, stop: StoreStop) -> MergeEnd
    ensures { result ≡ store_end which stop }
{
    match (which, stop) {
        (Which::First, StoreStop::At(at, kind)) => MergeEnd::BadFirst(at, kind),
        (Which::Second, StoreStop::At(at, kind)) => MergeEnd::BadSecond(at, kind),
        (_, StoreStop::NoMemory) => MergeEnd::NoMemory,
        (_, StoreStop::Failed) => MergeEnd::PlaceFault,
    }
}
