//! A store put to the output of a place, entry by entry.
ghost use Rattle.std.specs.Prelude.{◌≡◌, ◌≤◌, ℕ, List, [], ◌++◌, None, Some, true, option_map, is_err, IfOk, IfSome, OnOk, OnErr, vec_capacity};
ghost use Rattle.std.specs.List.{cons_option};
ghost use Rattle.sha2.specs.Hashers.{Holds256};
ghost use Rattle.pet_base.specs.declared.limits.TheConstants.{MAX_ENTRY};
ghost use Rattle.pet_base.specs.declared.place.Side.TheVariants.{Written};
ghost use Rattle.pet_base.specs.Causes.{Blames};
ghost use Rattle.pet_base.specs.Entries.{entry_text};
ghost use Rattle.pet_base.specs.Seen.{Seen, OnlyWrites, HasBlame, PlaceStops};
ghost use Rattle.outside_files.specs.Outputs.{Puts, PutsPart};
ghost use Rattle.packet_frame.specs.Frame.{IsFrame, text};
ghost use Rattle.packet_frame.specs.View.{fields_with};
ghost use Rattle.packet_set.specs.Packets.{Packets};
ghost use Rattle.packet_session.specs.Datagrams.{entries_text};
ghost use Rattle.packet_verdicts.specs.KeptSet.{IsKeptSet, open_group};
ghost use Rattle.packet_verdicts.specs.Union.{frames_in};
ghost use Rattle.packet_verdicts.specs.laws.FramesLaws.{frames_of, frame_at};
ghost use Rattle.pet_receive.specs.Arrivals.{kept_set};
ghost use Rattle.pet_receive.specs.Tags.{frame_tag};
ghost use Rattle.store_text.specs.Store.{store_text};

use crate::write::append_entry;
use field_rows::Rows;
use packet_frame::Header;
use pet_base::{Failed, MAX_ENTRY, NoMemory, Place};
use pet_receive::Receiver;
use sha2::{Digest, Sha256};
use std::alloc::Global;
use store_text::{put_hashed, put_head, put_tag};

/// Room for the longest entry.
pub(crate) fn entry_room(alloc: Global) -> Result<Vec<u8>, NoMemory>
    ensures { IfOk result (λ entry. MAX_ENTRY ≤ vec_capacity entry) }
{
    Ok(Vec::with_capacity(alloc, usize::from(MAX_ENTRY))?)
}

/// Puts the store of all packets that the receiver has kept to the output. `entry` is room for one entry at a time.
///
/// # Errors
///
/// The call of the place failed, and then its count of faults rose; a front of the store was put.
pub(crate) fn put_store<F: Rows, P: Place>(
    receiver: &Receiver<'_, F>,
    entry: &mut Vec<u8>,
    place: &mut P,
) -> Result<(), Failed>
    requires output { (P.seen place.old).has_output ≡ true }
    requires room { MAX_ENTRY ≤ vec_capacity entry.old }
    ensures puts { OnOk result (Puts (store_text (kept_set receiver.now)) (P.seen place.old) (P.seen place.new)) }
    ensures part { OnErr result (PutsPart (store_text (kept_set receiver.now)) (P.seen place.old) (P.seen place.new)) }
    ensures others { OnlyWrites (P.seen place.old) (P.seen place.new) }
    ensures cause { HasBlame (P.seen place.old) (P.seen place.new) result
        (Blames Written (P.seen place.old).target) }
    ensures once { PlaceStops (is_err result) (P.seen place.old) (P.seen place.new) }
{
    let mut hasher = Sha256::new();
    put_head(&receiver.session(), receiver.kept(), &mut hasher, place)?;
    put_groups(receiver, entry, &mut hasher, place)?;
    put_tag(hasher, place)
}

/// Puts the entries of all groups.
fn put_groups<F: Rows, P: Place>(
    receiver: &Receiver<'_, F>,
    entry: &mut Vec<u8>,
    hasher: &mut Sha256,
    place: &mut P,
) -> Result<(), Failed>
    requires output { (P.seen place.old).has_output ≡ true }
    requires room { MAX_ENTRY ≤ vec_capacity entry.old }
    ensures puts { OnOk result (Puts (entries_text (frames_in (kept_set receiver.now))) (P.seen place.old) (P.seen place.new)) }
    ensures part { OnErr result (PutsPart (entries_text (frames_in (kept_set receiver.now))) (P.seen place.old) (P.seen place.new)) }
    ensures hashed { OnOk result ((m : List ℕ) → Holds256 hasher.old m
        → Holds256 hasher.new (m ++ entries_text (frames_in (kept_set receiver.now)))) }
    ensures others { OnlyWrites (P.seen place.old) (P.seen place.new) }
    ensures cause { HasBlame (P.seen place.old) (P.seen place.new) result
        (Blames Written (P.seen place.old).target) }
    ensures once { PlaceStops (is_err result) (P.seen place.old) (P.seen place.new) }
{
    let groups = receiver.groups().unwrap_or(0);
    for group in 0..groups {
        put_if_open(receiver, group, entry, hasher, place)?;
    }
    Ok(())
}

/// Puts the entries of a group, if it is open.
fn put_if_open<F: Rows, P: Place>(
    receiver: &Receiver<'_, F>,
    group: u32,
    entry: &mut Vec<u8>,
    hasher: &mut Sha256,
    place: &mut P,
) -> Result<(), Failed>
    requires sound { IsKeptSet (kept_set receiver.now) }
    requires output { (P.seen place.old).has_output ≡ true }
    requires room { MAX_ENTRY ≤ vec_capacity entry.old }
    ensures puts { OnOk result (Puts (entries_text (frames_of (kept_set receiver.now) group)) (P.seen place.old) (P.seen place.new)) }
    ensures part { OnErr result (PutsPart (entries_text (frames_of (kept_set receiver.now) group)) (P.seen place.old) (P.seen place.new)) }
    ensures hashed { OnOk result ((m : List ℕ) → Holds256 hasher.old m
        → Holds256 hasher.new (m ++ entries_text (frames_of (kept_set receiver.now) group))) }
    ensures room { MAX_ENTRY ≤ vec_capacity entry.new }
    ensures others { OnlyWrites (P.seen place.old) (P.seen place.new) }
    ensures cause { HasBlame (P.seen place.old) (P.seen place.new) result
        (Blames Written (P.seen place.old).target) }
    ensures once { PlaceStops (is_err result) (P.seen place.old) (P.seen place.new) }
{
    match receiver.header(group) {
        Some(header) => put_group(receiver, group, header, entry, hasher, place),
        None => Ok(()),
    }
}

/// Puts the entries of an open group, whose header this is.
fn put_group<F: Rows, P: Place>(
    receiver: &Receiver<'_, F>,
    group: u32,
    header: &Header,
    entry: &mut Vec<u8>,
    hasher: &mut Sha256,
    place: &mut P,
) -> Result<(), Failed>
    requires sound { IsKeptSet (kept_set receiver.now) }
    requires header { option_map (λ p. p.header) (open_group (kept_set receiver.now) group)
        ≡ Some header.now }
    requires output { (P.seen place.old).has_output ≡ true }
    requires room { MAX_ENTRY ≤ vec_capacity entry.old }
    ensures puts { OnOk result (Puts (entries_text (frames_of (kept_set receiver.now) group)) (P.seen place.old) (P.seen place.new)) }
    ensures part { OnErr result (PutsPart (entries_text (frames_of (kept_set receiver.now) group)) (P.seen place.old) (P.seen place.new)) }
    ensures hashed { OnOk result ((m : List ℕ) → Holds256 hasher.old m
        → Holds256 hasher.new (m ++ entries_text (frames_of (kept_set receiver.now) group))) }
    ensures room { MAX_ENTRY ≤ vec_capacity entry.new }
    ensures others { OnlyWrites (P.seen place.old) (P.seen place.new) }
    ensures cause { HasBlame (P.seen place.old) (P.seen place.new) result
        (Blames Written (P.seen place.old).target) }
    ensures once { PlaceStops (is_err result) (P.seen place.old) (P.seen place.new) }
{
    for number in 0..header.table.packets() {
        put_if_kept(receiver, group, header, number, entry, hasher, place)?;
    }
    Ok(())
}

/// Puts the entry of a packet of an open group, whose header this is, if the packet is kept.
fn put_if_kept<F: Rows, P: Place>(
    receiver: &Receiver<'_, F>,
    group: u32,
    header: &Header,
    number: u16,
    entry: &mut Vec<u8>,
    hasher: &mut Sha256,
    place: &mut P,
) -> Result<(), Failed>
    requires sound { IsKeptSet (kept_set receiver.now) }
    requires header { option_map (λ p. p.header) (open_group (kept_set receiver.now) group)
        ≡ Some header.now }
    requires output { (P.seen place.old).has_output ≡ true }
    requires room { MAX_ENTRY ≤ vec_capacity entry.old }
    ensures puts { (p : Packets) → open_group (kept_set receiver.now) group ≡ Some p
        → OnOk result (Puts (entries_text (cons_option (frame_at p number) [])) (P.seen place.old) (P.seen place.new)) }
    ensures part { (p : Packets) → open_group (kept_set receiver.now) group ≡ Some p
        → OnErr result (PutsPart (entries_text (cons_option (frame_at p number) [])) (P.seen place.old) (P.seen place.new)) }
    ensures hashed { (p : Packets) → open_group (kept_set receiver.now) group ≡ Some p
        → OnOk result ((m : List ℕ) → Holds256 hasher.old m
        → Holds256 hasher.new (m ++ entries_text (cons_option (frame_at p number) []))) }
    ensures room { MAX_ENTRY ≤ vec_capacity entry.new }
    ensures others { OnlyWrites (P.seen place.old) (P.seen place.new) }
    ensures cause { HasBlame (P.seen place.old) (P.seen place.new) result
        (Blames Written (P.seen place.old).target) }
    ensures once { PlaceStops (is_err result) (P.seen place.old) (P.seen place.new) }
{
    match receiver.packet(group, number) {
        Some(payload) => {
            let tag = receiver.tag(group, number);
            put_entry(header, number, payload, tag, entry, hasher, place)
        }
        None => Ok(()),
    }
}

/// Puts the entry of a packet, whose tag may be told.
fn put_entry<P: Place>(
    header: &Header,
    number: u16,
    payload: &[u8],
    tag: Option<[u8; 16]>,
    entry: &mut Vec<u8>,
    hasher: &mut Sha256,
    place: &mut P,
) -> Result<(), Failed>
    requires frame { IsFrame (fields_with header.now number payload.now) }
    requires tag { IfSome tag (λ bytes. bytes ≡ frame_tag (fields_with header.now number payload.now)) }
    requires output { (P.seen place.old).has_output ≡ true }
    requires room { MAX_ENTRY ≤ vec_capacity entry.old }
    ensures puts { OnOk result (Puts (entry_text (text (fields_with header.now number payload.now))) (P.seen place.old) (P.seen place.new)) }
    ensures part { OnErr result (PutsPart (entry_text (text (fields_with header.now number payload.now))) (P.seen place.old) (P.seen place.new)) }
    ensures hashed { OnOk result ((m : List ℕ) → Holds256 hasher.old m
        → Holds256 hasher.new (m ++ entry_text (text (fields_with header.now number payload.now)))) }
    ensures room { MAX_ENTRY ≤ vec_capacity entry.new }
    ensures others { OnlyWrites (P.seen place.old) (P.seen place.new) }
    ensures cause { HasBlame (P.seen place.old) (P.seen place.new) result
        (Blames Written (P.seen place.old).target) }
    ensures once { PlaceStops (is_err result) (P.seen place.old) (P.seen place.new) }
{
    fill_entry(header, number, payload, tag, entry);
    put_hashed(entry, hasher, place)
}

/// Makes the entry of a packet, whose tag may be told, in room for the longest entry.
fn fill_entry(
    header: &Header,
    number: u16,
    payload: &[u8],
    tag: Option<[u8; 16]>,
    entry: &mut Vec<u8>,
)
    requires frame { IsFrame (fields_with header.now number payload.now) }
    requires tag { IfSome tag (λ bytes. bytes ≡ frame_tag (fields_with header.now number payload.now)) }
    requires room { MAX_ENTRY ≤ vec_capacity entry.old }
    ensures text { entry.new.items ≡ entry_text (text (fields_with header.now number payload.now)) }
    ensures room { MAX_ENTRY ≤ vec_capacity entry.new }
{
    entry.clear();
    match append_entry(header, number, payload, tag, entry) {
        Ok(()) => {}
        Err(_) => unreachable!(),
    }
}
