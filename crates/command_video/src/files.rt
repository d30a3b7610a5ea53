//! Reading a store, and writing the videos of its groups.
ghost use Rattle.std.specs.Prelude.{◌≡◌, ◌<◌, ◌≤◌, ℕ, List, length, true, IfOk, IfErr, OnOk, Ok};
ghost use Rattle.pet_base.specs.declared.limits.TheConstants.{MAX_STORE};
ghost use Rattle.pet_base.specs.declared.place.Side.TheVariants.{Written};
ghost use Rattle.pet_base.specs.Causes.{Blames, stops};
ghost use Rattle.pet_base.specs.Seen.{Seen, KeepsOutput, OnlyWrites, HadFault, PlaceStops};
ghost use Rattle.field_elements.specs.Gf16.{gf16_coding};
ghost use Rattle.pet_receive.specs.Arrivals.{HasKept, kept_set};
ghost use Rattle.packet_verdicts.specs.KeptSet.{KeptSet};
ghost use Rattle.pet_receive.specs.ShownBytes.{groups_told};
ghost use Rattle.store_text.specs.Files.{store_in};
ghost use Rattle.store_groups.specs.Groups.{ArePackets};
ghost use Rattle.store_merge.specs.Reading.{pairs_in};
ghost use Rattle.outside_files.specs.Inputs.{IsFrontOf};
ghost use Rattle.outside_files.specs.Outputs.{Puts};
ghost use Rattle.command_video.specs.Ends.{has_failed};
ghost use Rattle.command_video.specs.inside.Ends.{IsReadEnd, IsStoreEnd, IsTableEnd, IsGroupEnd, IsPutEnd};
ghost use Rattle.command_video.specs.inside.Groups.{AreStored, AreOwn};
ghost use Rattle.command_video.specs.StoreVideo.{AreVideos, IsGroupVideo};
ghost use Rattle.command_video.specs.Videos.{Videos, WritesVideo};

use crate::command::VideoEnd;
use outside_files::read_file;
use pet_base::{Failed, MAX_SESSION, MAX_STORE, NoMemory, Place, Steps, Stop};
use pet_field::Gf16Tables;
use pet_receive::Receiver;
use reassemble::{Assemble, assemble};
use std::alloc::Global;
use std::sync::ledger::Ledger;
use store_groups::{GroupPackets, groups_of, read_groups, receive_packets, split_group};
use store_text::BadStore;

impl From<NoMemory> for VideoEnd {
    ghost use Rattle.command_video.specs.declared.command.VideoEnd.TheVariants.{NoMemory as no_memory};

    ghost from_gives = { λ _ end. end ≡ no_memory };

    fn from(_e: NoMemory) -> VideoEnd {
        VideoEnd::NoMemory
    }
}

impl From<Failed> for VideoEnd {
    ghost use Rattle.command_video.specs.declared.command.VideoEnd.TheVariants.{PlaceFault};

    ghost from_gives = { λ _ end. end ≡ PlaceFault };

    fn from(_e: Failed) -> VideoEnd {
        VideoEnd::PlaceFault
    }
}

/// Writes the video of the store to OUT, and answers how many bytes it has; else the end that it comes to.
pub(crate) fn write_video<P: Place, L: Ledger>(
    alloc: Global,
    store: &str,
    out: &str,
    place: &mut P,
    steps: &mut Steps<L>,
) -> Result<u64, VideoEnd>
    ensures done { IfOk result (λ n. (w : WritesVideo store.now out.now (P.seen place.old)
        (P.seen place.new)) × (n ≡ length w.video)) }
    ensures cause { IfErr result (Videos store.now out.now (P.seen place.old) (P.seen place.new)) }
    ensures once { PlaceStops (stops has_failed result) (P.seen place.old) (P.seen place.new) }
{
    let field = Gf16Tables::new(alloc)?;
    let bytes = read_bytes(alloc, store, place)?;
    let packets = packets_of(bytes.as_slice())?;
    place.create(out)?;
    put_groups(alloc, &field, &packets, place, steps)
}

/// Reads the file of the store, to one byte past what a store may have, or says how the command ends.
fn read_bytes<P: Place>(alloc: Global, store: &str, place: &mut P) -> Result<Vec<u8>, VideoEnd>
    ensures read { IfOk result (λ bytes. IsFrontOf MAX_STORE bytes.items (P.seen place.old).files store.now) }
    ensures end { IfErr result (IsReadEnd (P.seen place.old) (P.seen place.new) store.now) }
    ensures others { KeepsOutput (P.seen place.old) (P.seen place.new) }
    ensures later { (P.seen place.old).faults ≤ (P.seen place.new).faults }
    ensures once { PlaceStops (stops has_failed result) (P.seen place.old) (P.seen place.new) }
{
    match read_file(alloc, store, MAX_STORE, place) {
        Ok(bytes) => Ok(bytes),
        Err(Stop::NoMemory) => Err(VideoEnd::NoMemory),
        Err(Stop::Failed) => Err(VideoEnd::PlaceFault),
    }
}

/// The packets of the store that these bytes of the file are, or how the command ends.
fn packets_of(bytes: &[u8]) -> Result<GroupPackets<'_>, VideoEnd>
    ensures packets { IfOk result (λ packets. (set : KeptSet) × (store_in bytes.now ≡ Ok set) × ArePackets packets set) }
    ensures end { IfErr result (IsStoreEnd bytes.now) }
{
    match read_groups(bytes) {
        Ok(packets) => Ok(packets),
        Err(BadStore::At(at, kind)) => Err(VideoEnd::BadStore(at, kind)),
        Err(BadStore::NoMemory) => Err(VideoEnd::NoMemory),
    }
}

/// Puts the videos of all groups of the session to the output, in order, and answers how many bytes these are; else the end
/// that the command comes to. What was made of a group is dropped before the next group's packets are read.
fn put_groups<P: Place, L: Ledger>(
    alloc: Global,
    field: &Gf16Tables,
    packets: &GroupPackets<'_>,
    place: &mut P,
    steps: &mut Steps<L>,
) -> Result<u64, VideoEnd>
    requires output { (P.seen place.old).has_output ≡ true }
    requires packets { (set : KeptSet) × AreStored packets.now set }
    ensures done { IfOk result (λ n. (set : KeptSet) → AreStored packets.now set
        → (video : List ℕ) × AreVideos set (groups_told set) video × Puts video (P.seen place.old) (P.seen place.new) × (n ≡ length video)) }
    ensures end { IfErr result (λ end. (set : KeptSet) → AreStored packets.now set
        → IsPutEnd (HadFault (P.seen place.old) (P.seen place.new) (Blames Written (P.seen place.old).target)) set (P.seen place.old) (P.seen place.new) end) }
    ensures later { (P.seen place.old).faults ≤ (P.seen place.new).faults }
    ensures once { PlaceStops (stops has_failed result) (P.seen place.old) (P.seen place.new) }
{
    let mut video = Vec::new(alloc);
    let mut bytes = 0u64;
    let mut rest = GroupPackets {
        session: packets.session,
        count: packets.count,
        entries: packets.entries,
    };
    for group in 0..groups_of(packets) {
        let (own, above) = split_group(&rest, group);
        put_group_video(alloc, field, &own, group, &mut video, place, steps)?;
        bytes += video.len() as u64;
        rest = above;
    }
    Ok(bytes)
}

/// Puts the video of a group, which has these packets, to the output; else says how the command ends. The buffer then has the
/// video.
fn put_group_video<P: Place, L: Ledger>(
    alloc: Global,
    field: &Gf16Tables,
    packets: &GroupPackets<'_>,
    group: u32,
    video: &mut Vec<u8>,
    place: &mut P,
    steps: &mut Steps<L>,
) -> Result<(), VideoEnd>
    requires output { (P.seen place.old).has_output ≡ true }
    requires packets { (set : KeptSet) × AreOwn packets.now set group }
    ensures shows { OnOk result ((set : KeptSet) → AreOwn packets.now set group → IsGroupVideo set group video.new.items) }
    ensures puts { OnOk result (Puts video.new.items (P.seen place.old) (P.seen place.new)) }
    ensures end { IfErr result (λ end. (set : KeptSet) → AreOwn packets.now set group
        → IsGroupEnd (HadFault (P.seen place.old) (P.seen place.new) (Blames Written (P.seen place.old).target)) set group (P.seen place.old) (P.seen place.new) end) }
    ensures others { OnlyWrites (P.seen place.old) (P.seen place.new) }
    ensures later { (P.seen place.old).faults ≤ (P.seen place.new).faults }
    ensures once { PlaceStops (stops has_failed result) (P.seen place.old) (P.seen place.new) }
{
    make_video(alloc, field, packets, group, video, steps)?;
    place.put(video.as_slice())?;
    Ok(())
}

/// Makes the buffer the video of a group, which has these packets; else says how the command ends.
fn make_video<L: Ledger>(
    alloc: Global,
    field: &Gf16Tables,
    packets: &GroupPackets<'_>,
    group: u32,
    video: &mut Vec<u8>,
    steps: &mut Steps<L>,
) -> Result<(), VideoEnd>
    requires packets { (set : KeptSet) × AreOwn packets.now set group }
    ensures shows { OnOk result ((set : KeptSet) → AreOwn packets.now set group → IsGroupVideo set group video.new.items) }
    ensures end { IfErr result (λ end. (set : KeptSet) → AreOwn packets.now set group → IsTableEnd set group end) }
{
    let receiver = receive_packets(alloc, field, packets, MAX_SESSION, steps)?;
    group_video(&receiver, group, video)
}

/// Makes the buffer the video of a group, and empties it where layer 0 of the group is not shown; else says how the command ends.
fn group_video(
    receiver: &Receiver<'_, Gf16Tables>,
    group: u32,
    video: &mut Vec<u8>,
) -> Result<(), VideoEnd>
    requires order { HasKept (λ a. a < 65536) gf16_coding receiver.now
        (pairs_in (kept_set receiver.now)) }
    ensures video { OnOk result (IsGroupVideo (kept_set receiver.now) group video.new.items) }
    ensures end { IfErr result (IsTableEnd (kept_set receiver.now) group) }
{
    video.clear();
    match assemble(receiver, group, video) {
        Ok(_) | Err(Assemble::NoTable) => Ok(()),
        Err(Assemble::BadTable) => Err(VideoEnd::BadTable(group)),
        Err(Assemble::NoMemory) => Err(VideoEnd::NoMemory),
    }
}
