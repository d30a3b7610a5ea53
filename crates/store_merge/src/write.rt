//! Writing a store.
ghost use Rattle.std.specs.Prelude.{◌≡◌, ◌<◌, ◌≤◌, ◌+◌, ℕ, Ok, ◌++◌, [], length, take, drop, option_map, IfSome, OnOk, OnErr, Some, vec_len, vec_capacity};
ghost use Rattle.std.specs.List.{cons_option};
ghost use Rattle.std.specs.Int.{w32, to_be_bytes};
ghost use Rattle.pet_base.specs.declared.limits.TheConstants.{MAX_DATAGRAM, MAX_ENTRY, TAG_LENGTH};
ghost use Rattle.packet_frame.specs.Frame.{IsFrame, tag_of, text};
ghost use Rattle.packet_frame.specs.View.{fields_with};
ghost use Rattle.packet_set.specs.Packets.{Packets};
ghost use Rattle.packet_session.specs.Datagrams.{entries_text};
ghost use Rattle.pet_base.specs.Entries.{entry_text};
ghost use Rattle.packet_verdicts.specs.KeptSet.{IsKeptSet, cost_kept, open_group};
ghost use Rattle.pet_receive.specs.Arrivals.{kept_set};
ghost use Rattle.pet_receive.specs.Tags.{frame_tag};
ghost use Rattle.packet_verdicts.specs.Union.{frames_in, frames_in_group};
ghost use Rattle.packet_verdicts.specs.laws.FramesLaws.{frames_of, frame_at};
ghost use Rattle.store_text.specs.Store.{store_text};
ghost use Rattle.store_text.specs.Refusals.{read_text};
ghost use Rattle.store_text.specs.declared.format.TheConstants.{HEAD_LENGTH, MARK};

use field_rows::Rows;
use packet_frame::{FORMAT, Header, append, begin_frame, frame_length};
use pet_base::NoMemory;
use pet_receive::Receiver;
use sha2::{Digest, Sha256};
use store_text::{HEAD_LENGTH, MARK};
use stripe_plan::datagram_length;

/// The bytes that tell the length of an entry.
const LENGTH_BYTES: usize = 2;

/// Appends the store of all packets that the receiver has kept, by group, then number. `into` is as before where no memory
/// is found.
pub fn write_store<F: Rows>(receiver: &Receiver<'_, F>, into: &mut Vec<u8>) -> Result<(), NoMemory>
    ensures text { OnOk result (into.new.items
        ≡ into.old.items ++ store_text (kept_set receiver.now)) }
    ensures err { OnErr result (into.new.items ≡ into.old.items) }

    // What is written is read again as the set, at every limit that it fits.
    ensures read_back { (limit : ℕ) → cost_kept (kept_set receiver.now) ≤ limit
        → read_text limit (store_text (kept_set receiver.now))
        ≡ Ok (record (kept_set receiver.now) { limit = limit }) }
{
    let start = into.len();
    let _groups = receiver.groups();
    has_eight_bytes(&receiver.session());
    match append_store(receiver, into) {
        Ok(()) => Ok(()),
        Err(fault) => {
            into.truncate(start);
            Err(fault)
        }
    }
}

/// The number of a session has eight bytes. It does nothing.
fn has_eight_bytes(session: &[u8; 8])
    ensures { length session.now ≡ 8 }
{
    let _session = session;
}

/// Takes the room for the store at once, and appends it. Where no memory is found, a front of it may stand there.
fn append_store<F: Rows>(receiver: &Receiver<'_, F>, into: &mut Vec<u8>) -> Result<(), NoMemory>
    ensures text { OnOk result (into.new.items
        ≡ into.old.items ++ store_text (kept_set receiver.now)) }
    ensures front { take (length into.old.items) into.new.items ≡ into.old.items }
{
    into.reserve_exact(room_for(receiver))?;
    append_parts(receiver, into)
}

/// How many bytes the store has of what the receiver has kept.
fn room_for<F: Rows>(receiver: &Receiver<'_, F>) -> usize {
    let mut room = HEAD_LENGTH + FORMAT.tag;
    for group in 0..receiver.groups().unwrap_or(0) {
        room = room.saturating_add(group_room(receiver, group));
    }
    room
}

/// How many bytes the entries of a group have.
fn group_room<F: Rows>(receiver: &Receiver<'_, F>, group: u32) -> usize {
    match receiver.header(group) {
        Some(header) => {
            let entry = datagram_length(&header.table) as usize + LENGTH_BYTES;
            entry.saturating_mul(usize::from(receiver.count(group)))
        }
        None => 0,
    }
}

/// Appends the head, the entries and the tag. Where no memory is found, a front of them may stand there.
fn append_parts<F: Rows>(receiver: &Receiver<'_, F>, into: &mut Vec<u8>) -> Result<(), NoMemory>
    ensures text { OnOk result (into.new.items
        ≡ into.old.items ++ store_text (kept_set receiver.now)) }
    ensures front { take (length into.old.items) into.new.items ≡ into.old.items }
{
    let start = into.len();
    append_head(&receiver.session(), receiver.kept(), into)?;
    append_groups(receiver, into)?;
    append_tag(start, into)
}

/// Appends all that is before the entries.
fn append_head(session: &[u8; 8], kept: u32, into: &mut Vec<u8>) -> Result<(), NoMemory>
    ensures text { OnOk result (into.new.items
        ≡ into.old.items ++ (MARK ++ session.now ++ to_be_bytes w32 kept)) }
    ensures front { take (length into.old.items) into.new.items ≡ into.old.items }
{
    into.reserve(HEAD_LENGTH)?;
    write_head(session, kept, into);
    Ok(())
}

/// Appends all that is before the entries, for which there is room.
fn write_head(session: &[u8; 8], kept: u32, into: &mut Vec<u8>)
    requires room { vec_len into.old + HEAD_LENGTH ≤ vec_capacity into.old }
    ensures items { into.new.items
        ≡ into.old.items ++ (MARK ++ session.now ++ to_be_bytes w32 kept) }
    ensures capacity { vec_capacity into.old ≤ vec_capacity into.new }
{
    append(&MARK, into);
    append(session, into);
    append(&kept.to_be_bytes(), into);
}

/// Appends the entries of all groups.
fn append_groups<F: Rows>(receiver: &Receiver<'_, F>, into: &mut Vec<u8>) -> Result<(), NoMemory>
    ensures text { OnOk result (into.new.items
        ≡ into.old.items ++ entries_text (frames_in (kept_set receiver.now))) }
    ensures front { take (length into.old.items) into.new.items ≡ into.old.items }
{
    let groups = receiver.groups().unwrap_or(0);
    for group in 0..groups {
        append_if_open(receiver, group, into)?;
    }
    Ok(())
}

/// Appends the entries of a group, if it is open.
fn append_if_open<F: Rows>(
    receiver: &Receiver<'_, F>,
    group: u32,
    into: &mut Vec<u8>,
) -> Result<(), NoMemory>
    requires sound { IsKeptSet (kept_set receiver.now) }
    ensures text { OnOk result (into.new.items
        ≡ into.old.items ++ entries_text (frames_of (kept_set receiver.now) group)) }
    ensures front { take (length into.old.items) into.new.items ≡ into.old.items }
{
    match receiver.header(group) {
        Some(header) => append_group(receiver, group, header, into),
        None => Ok(()),
    }
}

/// Appends the entries of an open group, whose header this is.
fn append_group<F: Rows>(
    receiver: &Receiver<'_, F>,
    group: u32,
    header: &Header,
    into: &mut Vec<u8>,
) -> Result<(), NoMemory>
    requires sound { IsKeptSet (kept_set receiver.now) }
    requires header { option_map (λ p. p.header) (open_group (kept_set receiver.now) group)
        ≡ Some header.now }
    ensures text { OnOk result (into.new.items
        ≡ into.old.items ++ entries_text (frames_of (kept_set receiver.now) group)) }
    ensures front { take (length into.old.items) into.new.items ≡ into.old.items }
{
    for number in 0..header.table.packets() {
        append_if_kept(receiver, group, header, number, into)?;
    }
    Ok(())
}

/// Appends the entry of a packet of an open group, whose header this is, if the packet is kept.
fn append_if_kept<F: Rows>(
    receiver: &Receiver<'_, F>,
    group: u32,
    header: &Header,
    number: u16,
    into: &mut Vec<u8>,
) -> Result<(), NoMemory>
    requires sound { IsKeptSet (kept_set receiver.now) }
    requires header { option_map (λ p. p.header) (open_group (kept_set receiver.now) group)
        ≡ Some header.now }
    ensures text { (p : Packets) → open_group (kept_set receiver.now) group ≡ Some p
        → OnOk result (into.new.items
        ≡ into.old.items ++ entries_text (cons_option (frame_at p number) [])) }
    ensures front { take (length into.old.items) into.new.items ≡ into.old.items }
{
    match receiver.packet(group, number) {
        Some(payload) => {
            let tag = receiver.tag(group, number);
            append_entry(header, number, payload, tag, into)
        }
        None => Ok(()),
    }
}

/// Appends the entry of a packet, whose tag may be told.
pub(crate) fn append_entry(
    header: &Header,
    number: u16,
    payload: &[u8],
    tag: Option<[u8; 16]>,
    into: &mut Vec<u8>,
) -> Result<(), NoMemory>
    requires frame { IsFrame (fields_with header.now number payload.now) }
    requires tag { IfSome tag (λ bytes. bytes ≡ frame_tag (fields_with header.now number payload.now)) }
    ensures text { OnOk result (into.new.items
        ≡ into.old.items ++ entry_text (text (fields_with header.now number payload.now))) }
    ensures front { take (length into.old.items) into.new.items ≡ into.old.items }
    ensures capacity { vec_capacity into.old ≤ vec_capacity into.new }
    ensures full { OnErr result (vec_capacity into.old < vec_len into.old + MAX_ENTRY) }
{
    let length = frame_length(header, payload) as u16;
    into.extend_from_slice(&length.to_be_bytes())?;
    append_frame(header, number, payload, tag, into)
}

/// Appends the frame of a packet. Where its tag is told, nothing is hashed.
fn append_frame(
    header: &Header,
    number: u16,
    payload: &[u8],
    tag: Option<[u8; 16]>,
    into: &mut Vec<u8>,
) -> Result<(), NoMemory>
    requires frame { IsFrame (fields_with header.now number payload.now) }
    requires tag { IfSome tag (λ bytes. bytes ≡ frame_tag (fields_with header.now number payload.now)) }
    ensures ok { OnOk result (into.new.items
        ≡ into.old.items ++ text (fields_with header.now number payload.now)) }
    ensures err { OnErr result (into.new.items ≡ into.old.items) }
    ensures capacity { vec_capacity into.old ≤ vec_capacity into.new }
    ensures full { OnErr result (vec_capacity into.old < vec_len into.old + MAX_DATAGRAM) }
{
    match tag {
        Some(bytes) => append_tagged(header, number, payload, &bytes, into),
        None => append_hashed(header, number, payload, into),
    }
}

/// Appends the frame of a packet, whose tag this is. The room is taken before the first byte.
fn append_tagged(
    header: &Header,
    number: u16,
    payload: &[u8],
    tag: &[u8; 16],
    into: &mut Vec<u8>,
) -> Result<(), NoMemory>
    requires frame { IsFrame (fields_with header.now number payload.now) }
    requires tag { tag.now ≡ frame_tag (fields_with header.now number payload.now) }
    ensures ok { OnOk result (into.new.items
        ≡ into.old.items ++ text (fields_with header.now number payload.now)) }
    ensures err { OnErr result (into.new.items ≡ into.old.items) }
    ensures capacity { vec_capacity into.old ≤ vec_capacity into.new }
    ensures full { OnErr result (vec_capacity into.old < vec_len into.old + MAX_DATAGRAM) }
{
    begin_frame(header, number, into)?;
    append(payload, into);
    append(tag, into);
    Ok(())
}

/// Appends the frame of a packet, whose tag is made anew. The room is taken before the first byte.
fn append_hashed(
    header: &Header,
    number: u16,
    payload: &[u8],
    into: &mut Vec<u8>,
) -> Result<(), NoMemory>
    requires frame { IsFrame (fields_with header.now number payload.now) }
    ensures ok { OnOk result (into.new.items
        ≡ into.old.items ++ text (fields_with header.now number payload.now)) }
    ensures err { OnErr result (into.new.items ≡ into.old.items) }
    ensures capacity { vec_capacity into.old ≤ vec_capacity into.new }
    ensures full { OnErr result (vec_capacity into.old < vec_len into.old + MAX_DATAGRAM) }
{
    let start = into.len();
    begin_frame(header, number, into)?;
    append(payload, into);
    write_tag(start, into);
    Ok(())
}

/// Appends the tag of the bytes from `start` on.
fn append_tag(start: usize, into: &mut Vec<u8>) -> Result<(), NoMemory>
    requires start { start ≤ length into.old.items }
    ensures text { OnOk result (into.new.items
        ≡ into.old.items ++ tag_of FORMAT (drop start into.old.items)) }
    ensures front { take (length into.old.items) into.new.items ≡ into.old.items }
{
    into.reserve(FORMAT.tag)?;
    write_tag(start, into);
    Ok(())
}

/// Appends the tag of the bytes from `start` on, for which there is room.
fn write_tag(start: usize, into: &mut Vec<u8>)
    requires start { start ≤ length into.old.items }
    requires room { vec_len into.old + TAG_LENGTH ≤ vec_capacity into.old }
    ensures items { into.new.items
        ≡ into.old.items ++ tag_of FORMAT (drop start into.old.items) }
    ensures capacity { vec_capacity into.old ≤ vec_capacity into.new }
{
    let digest = Sha256::digest(&into[start..]);
    append(&digest[..FORMAT.tag], into);
}
