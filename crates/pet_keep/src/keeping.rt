//! Handing the datagrams of a file or of a link to a keeper, and writing the store of what it has kept.
ghost use Rattle.std.specs.Prelude.{◌≡◌, ◌≤◌, length, false, OnOk, IfOk, IfErr};
ghost use Rattle.pet_base.specs.Causes.{Rose, stops};
ghost use Rattle.pet_base.specs.declared.limits.TheConstants.{MAX_ENTRY};
ghost use Rattle.pet_base.specs.Lent.{seen, AreSame};
ghost use Rattle.pet_base.specs.LinkSeen.{LinkStops};
ghost use Rattle.pet_base.specs.Seen.{OnlyReads, PlaceStops};
ghost use Rattle.outside_disk.specs.Disk.{Between, LeavesOnly};
ghost use Rattle.outside_files.specs.Failures.{EndsAtOnce};
ghost use Rattle.outside_routes.specs.Coming.{coming, HasInput};
ghost use Rattle.outside_routes.specs.RouteFaults.{InputFailed, ReceivingFailed};
ghost use Rattle.outside_routes.specs.Way.{way_of};
ghost use Rattle.packet_verdicts.specs.Verdicts.{after};
ghost use Rattle.pet_receive.specs.Arrivals.{kept_set};
ghost use Rattle.packet_reading.specs.Begun.{LinkReceives, OutStops};
ghost use Rattle.packet_reading.specs.Opened.{KeepsLink};
ghost use Rattle.store_keeper.specs.Journal.{StandsWith};
ghost use Rattle.pet_keep.specs.Journaled.{disk_now, offered, uncounted};
ghost use Rattle.pet_keep.specs.Keeps.{EndsFrom, FewHaveLeft, end_of_output};
ghost use Rattle.pet_keep.specs.Runs.{of_place, of_link};
ghost use Rattle.pet_keep.specs.Statuses.{status_of};
ghost use Rattle.pet_keep.specs.declared.end.KeepEnd.{KeepEnd as End};
ghost use Rattle.pet_keep.specs.inside.SoFar.{AllStand, CameAll, IsEndOf, IsKeepStop, StandsAfterFirst, StopsKeeping, end_of, of_a_place, of_a_link, of_an_output};

use crate::end::KeepEnd;
use crate::stop::{KeepStop, end_of_stop};
use outside_disk::Disk;
use outside_routes::{Route, next_datagram};
use packet_reading::{Totals, begin};
use pet_base::{Entry, Link, MAX_DATAGRAMS, Outside, Place, Sink, Steps};
use pet_field::Gf16Tables;
use pet_receive::Receiver;
use std::alloc::Global;
use std::sync::ledger::Ledger;
use store_keeper::Keeper;
use store_merge::write_store_file;

/// Keeps what comes from FROM, and writes the store of it. It says how the run ends.
pub(crate) fn keep_to_end<D: Disk, P: Place, K: Link, S: Sink, L: Ledger>(
    alloc: Global,
    from: Route<'_>,
    store: &str,
    keeper: &mut Keeper<'_, Gf16Tables, D>,
    buffer: &mut [u8],
    outside: &mut Outside<P, K, S, L>,
) -> KeepEnd
    requires going { keeper.old.stopped ≡ false }
    requires stands { AllStand (kept_set keeper.old.receiver) (D.seen keeper.old.disk) }
    requires room { MAX_ENTRY ≤ length buffer.old }
    ensures ends { EndsFrom (kept_set keeper.old.receiver) (way_of from.entry) store.now (uncounted (seen outside.old))
        (uncounted (seen outside.new)) (disk_now D.Disk keeper.old.disk) (disk_now D.Disk keeper.new.disk) result }
    ensures images { Between (LeavesOnly (StandsAfterFirst (kept_set keeper.old.receiver)
        (offered (way_of from.entry) (uncounted (seen outside.old))))) (D.seen keeper.old.disk) (D.seen keeper.new.disk) }
    ensures disk_later { D.faults keeper.old.disk ≤ D.faults keeper.new.disk }
    ensures link { KeepsLink (way_of from.entry) (seen outside.old).link (seen outside.new).link }
    ensures few { FewHaveLeft (way_of from.entry) (seen outside.old).link (seen outside.new).link }
    ensures later { (seen outside.old).out_faults ≤ (seen outside.new).out_faults }
    ensures out { OutStops (end_of_output result) (seen outside.old) (seen outside.new) }
    ensures same { AreSame outside.old outside.new }
    ensures once { EndsAtOnce (of_place (status_of result)) (of_link (status_of result))
        (uncounted (seen outside.old)) (uncounted (seen outside.new)) }
{
    match keep_from(alloc, from, store, keeper, buffer, outside) {
        Ok(read) => end_of_reading(keeper.receiver(), read),
        Err(stop) => end_of_stop(stop),
    }
}

/// The end of a run that has read so many datagrams, by what is kept then.
fn end_of_reading(receiver: &Receiver<'_, Gf16Tables>, read: u32) -> KeepEnd
    ensures { IsEndOf (kept_set receiver.now) read result }
{
    let totals = Totals {
        read,
        kept: receiver.kept(),
        shown: receiver.shown(),
    };
    if read == MAX_DATAGRAMS {
        KeepEnd::TurnsSpent(totals)
    } else if receiver.complete() {
        KeepEnd::Done(totals)
    } else {
        KeepEnd::Incomplete(totals)
    }
}

/// Makes FROM ready, hands all its datagrams to the keeper, and writes the store of what that has kept to STORE. It says how many
/// it read, at most 16,777,216.
fn keep_from<D: Disk, P: Place, K: Link, S: Sink, L: Ledger>(
    alloc: Global,
    from: Route<'_>,
    store: &str,
    keeper: &mut Keeper<'_, Gf16Tables, D>,
    buffer: &mut [u8],
    outside: &mut Outside<P, K, S, L>,
) -> Result<u32, KeepStop>
    requires going { keeper.old.stopped ≡ false }
    requires stands { AllStand (kept_set keeper.old.receiver) (D.seen keeper.old.disk) }
    requires room { MAX_ENTRY ≤ length buffer.old }
    ensures done { IfOk result (λ n. (end : End) → IsEndOf (kept_set keeper.new.receiver) n end
        → EndsFrom (kept_set keeper.old.receiver) (way_of from.entry) store.now (uncounted (seen outside.old))
        (uncounted (seen outside.new)) (disk_now D.Disk keeper.old.disk) (disk_now D.Disk keeper.new.disk) end) }
    ensures stop { IfErr result (λ stop. EndsFrom (kept_set keeper.old.receiver) (way_of from.entry) store.now
        (uncounted (seen outside.old)) (uncounted (seen outside.new)) (disk_now D.Disk keeper.old.disk)
        (disk_now D.Disk keeper.new.disk) (end_of stop)) }
    ensures images { Between (LeavesOnly (StandsAfterFirst (kept_set keeper.old.receiver)
        (offered (way_of from.entry) (uncounted (seen outside.old))))) (D.seen keeper.old.disk) (D.seen keeper.new.disk) }
    ensures disk_later { D.faults keeper.old.disk ≤ D.faults keeper.new.disk }
    ensures link { KeepsLink (way_of from.entry) (seen outside.old).link (seen outside.new).link }
    ensures few { FewHaveLeft (way_of from.entry) (seen outside.old).link (seen outside.new).link }
    ensures later { (seen outside.old).out_faults ≤ (seen outside.new).out_faults }
    ensures out { OutStops (stops of_an_output result) (seen outside.old) (seen outside.new) }
    ensures same { AreSame outside.old outside.new }
    ensures once_place { PlaceStops (stops of_a_place result) (seen outside.old).place (seen outside.new).place }
    ensures once_link { LinkStops (stops of_a_link result) (seen outside.old).link (seen outside.new).link }
{
    begin(alloc, from, outside)?;
    let read = keep_all(
        from,
        keeper,
        outside.place,
        outside.link,
        buffer,
        outside.steps,
    )?;
    write_store_file(alloc, keeper.receiver(), store, outside.place)?;
    Ok(read)
}

/// Hands all datagrams of FROM to the keeper. It says how many it read, at most 16,777,216.
fn keep_all<D: Disk, P: Place, K: Link, L: Ledger>(
    from: Route<'_>,
    keeper: &mut Keeper<'_, Gf16Tables, D>,
    place: &mut P,
    link: &mut K,
    buffer: &mut [u8],
    steps: &mut Steps<L>,
) -> Result<u32, KeepStop>
    requires input { HasInput (way_of from) (P.seen place.old) }
    requires room { MAX_ENTRY ≤ length buffer.old }
    requires going { keeper.old.stopped ≡ false }
    requires stands { AllStand (kept_set keeper.old.receiver) (D.seen keeper.old.disk) }
    ensures done { IfOk result (λ n. CameAll (kept_set keeper.old.receiver) n
        (coming (way_of from.entry) (P.seen place.old) (K.seen link.old))
        (coming (way_of from.entry) (P.seen place.new) (K.seen link.new)) (kept_set keeper.new.receiver)) }
    ensures stands { OnOk result (AllStand (kept_set keeper.new.receiver) (D.seen keeper.new.disk)) }
    ensures stopped { IfErr result (StopsKeeping (kept_set keeper.old.receiver) (way_of from.entry)
        (P.seen place.old) (K.seen link.old) (P.seen place.new) (K.seen link.new)
        (kept_set keeper.new.receiver) (D.seen keeper.new.disk)) }
    ensures images { Between (LeavesOnly (StandsAfterFirst (kept_set keeper.old.receiver)
        (coming (way_of from.entry) (P.seen place.old) (K.seen link.old)))) (D.seen keeper.old.disk)
        (D.seen keeper.new.disk) }
    ensures disk_later { D.faults keeper.old.disk ≤ D.faults keeper.new.disk }
    ensures place { OnlyReads (P.seen place.old) (P.seen place.new) }
    ensures link { LinkReceives (way_of from.entry) (K.seen link.old) (K.seen link.new) }
    ensures few { FewHaveLeft (way_of from.entry) (K.seen link.old) (K.seen link.new) }
    ensures place_later { (P.seen place.old).faults ≤ (P.seen place.new).faults }
    ensures link_later { (K.seen link.old).faults ≤ (K.seen link.new).faults }
    ensures cause { IfErr result (IsKeepStop
        (InputFailed (way_of from.entry) (P.seen place.old) (P.seen place.new))
        (ReceivingFailed (way_of from.entry) (K.seen link.old) (K.seen link.new)) ⊥
        (Rose (D.faults keeper.old.disk) (D.faults keeper.new.disk))) }
    ensures once_place { PlaceStops (stops of_a_place result) (P.seen place.old) (P.seen place.new) }
    ensures once_link { LinkStops (stops of_a_link result) (K.seen link.old) (K.seen link.new) }
{
    for turn in 0..MAX_DATAGRAMS {
        match next_datagram(from, place, link, buffer)? {
            Entry::End => return Ok(turn),
            Entry::Datagram(len) => keep_one(keeper, &buffer[..len], steps)?,
        }
    }
    Ok(MAX_DATAGRAMS)
}

/// Hands a datagram to the keeper.
fn keep_one<D: Disk, L: Ledger>(
    keeper: &mut Keeper<'_, Gf16Tables, D>,
    datagram: &[u8],
    steps: &mut Steps<L>,
) -> Result<(), KeepStop>
    requires going { keeper.old.stopped ≡ false }
    ensures kept { OnOk result (kept_set keeper.new.receiver ≡ after (kept_set keeper.old.receiver) datagram.now) }
    ensures stands { OnOk result (AllStand (kept_set keeper.new.receiver) (D.seen keeper.new.disk)) }
    ensures going { OnOk result (keeper.new.stopped ≡ false) }
    ensures images { Between (LeavesOnly (StandsWith (kept_set keeper.old.receiver) datagram.now))
        (D.seen keeper.old.disk) (D.seen keeper.new.disk) }
    ensures cause { IfErr result (IsKeepStop ⊥ ⊥ ⊥
        (Rose (D.faults keeper.old.disk) (D.faults keeper.new.disk))) }
    ensures later { D.faults keeper.old.disk ≤ D.faults keeper.new.disk }
{
    keeper.accept(datagram, steps)?;
    Ok(())
}
