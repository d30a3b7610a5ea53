//! The store of today with the packets of a store of the first version.
ghost use Rattle.std.specs.Prelude.{◌≡◌, ◌≤◌, ◌++◌, length, take, drop, None, OnOk};
ghost use Rattle.pet_base.specs.Entries.{entry_text};
ghost use Rattle.packet_frame.specs.Frame.{text};
ghost use Rattle.packet_frame.specs.Refusals.{first_fault_in};
ghost use Rattle.packet_frame.specs.declared.format.TheConstants.{OLD_FORMAT};
ghost use Rattle.store_text.specs.Form.{store_tag};
ghost use Rattle.store_text.specs.Store.{store_of, head_in, entries_in};
ghost use Rattle.store_text.specs.declared.format.TheConstants.{STORE_FORM, OLD_STORE_FORM};
ghost use Rattle.store_packets.specs.inside.Reading.{frame_of};
ghost use Rattle.store_packets.specs.inside.Listed.{AreListed, frames_at};

use crate::fits::{LONGER, first_entry};
use crate::packets::StorePackets;
use packet_frame::{FORMAT, OLD_FORMAT};
use pet_base::NoMemory;
use sha2::{Digest, Sha256};
use store_text::STORE_FORM;

/// Appends the store. Where no memory is found, a front of it may stand there.
pub(crate) fn append_today(packets: &StorePackets<'_>, into: &mut Vec<u8>) -> Result<(), NoMemory>
    requires listed { AreListed OLD_STORE_FORM packets.now.count packets.now.entries.now }
    ensures text { OnOk result (into.new.items ≡ into.old.items
        ++ store_of packets.now.session
        (frames_at OLD_STORE_FORM packets.now.count packets.now.entries.now)) }
    ensures front { take (length into.old.items) into.new.items ≡ into.old.items }
{
    let start = into.len();
    append_head(&packets.session, packets.count, into)?;
    append_entries(packets.count, packets.entries, into)?;
    append_tag(start, into)
}

/// Appends all that is before the entries.
fn append_head(session: &[u8; 8], count: u32, into: &mut Vec<u8>) -> Result<(), NoMemory>
    ensures text { OnOk result (into.new.items
        ≡ into.old.items ++ head_in STORE_FORM session.now count) }
    ensures front { take (length into.old.items) into.new.items ≡ into.old.items }
{
    into.extend_from_slice(&STORE_FORM.mark)?;
    into.extend_from_slice(session)?;
    into.extend_from_slice(&count.to_be_bytes())?;
    Ok(())
}

/// Appends the entries of today of these entries.
fn append_entries(count: u32, entries: &[u8], into: &mut Vec<u8>) -> Result<(), NoMemory>
    requires listed { AreListed OLD_STORE_FORM count entries.now }
    ensures text { OnOk result (into.new.items ≡ into.old.items
        ++ entries_in STORE_FORM (frames_at OLD_STORE_FORM count entries.now)) }
    ensures front { take (length into.old.items) into.new.items ≡ into.old.items }
{
    let mut rest = entries;
    for _ in 0..count {
        let (datagram, after) = first_entry(rest);
        append_entry(datagram, into)?;
        rest = after;
    }
    Ok(())
}

/// Appends the entry of today of a datagram of the first version: its bytes between mark and tag, under those of today.
fn append_entry(datagram: &[u8], into: &mut Vec<u8>) -> Result<(), NoMemory>
    requires frame { first_fault_in OLD_FORMAT datagram.now ≡ None }
    ensures text { OnOk result (into.new.items ≡ into.old.items
        ++ entry_text (text (frame_of OLD_STORE_FORM datagram.now))) }
    ensures front { take (length into.old.items) into.new.items ≡ into.old.items }
{
    let length = (datagram.len() + LONGER) as u16;
    let (front, _) = datagram.split_at(datagram.len() - OLD_FORMAT.tag);
    let (_, body) = front.split_at(OLD_FORMAT.mark.len());
    into.extend_from_slice(&length.to_be_bytes())?;
    let begin = into.len();
    into.extend_from_slice(&FORMAT.mark)?;
    into.extend_from_slice(body)?;
    append_tag(begin, into)
}

/// Appends the tag of the bytes from `start` on.
fn append_tag(start: usize, into: &mut Vec<u8>) -> Result<(), NoMemory>
    requires start { start ≤ length into.old.items }
    ensures text { OnOk result (into.new.items
        ≡ into.old.items ++ store_tag STORE_FORM (drop start into.old.items)) }
    ensures front { take (length into.old.items) into.new.items ≡ into.old.items }
{
    let digest = Sha256::digest(&into[start..]);
    into.extend_from_slice(&digest[..STORE_FORM.tag])?;
    Ok(())
}
