//! The lines behind what was printed before.
ghost use Rattle.std.specs.Prelude.{◌≡◌, ◌++◌, OnOk, OnErr};
ghost use Rattle.text_plan.specs.PlanLines.{least_text, send_text};
ghost use Rattle.text_answers.specs.Lines.{receive_text, merged_text, video_text, unwrapped_text, wrapped_text, migrated_text, repaired_text, relay_text};

use crate::room::{
    write_least, write_merged, write_migrated, write_receive, write_relay, write_repaired,
    write_send, write_unwrapped, write_video, write_wrapped,
};
use arrayvec::ArrayVec;
use pet_base::NoMemory;

/// Appends the line of `check`: for how many groups the lists are certificates. After a refusal `into` is as before.
pub fn least_line(groups: u32, into: &mut Vec<u8>) -> Result<(), NoMemory>
    ensures ok { OnOk result (into.new.items ≡ into.old.items ++ least_text groups) }
    ensures err { OnErr result (into.new.items ≡ into.old.items) }
{
    let mut line = ArrayVec::new();
    write_least(groups, &mut line);
    into.extend_from_slice(line.as_slice())?;
    Ok(())
}

/// Appends the line of `send`: the session's number in hexadecimal digits, its groups and datagrams. After a refusal `into` is as before.
pub fn send_line(
    session: &[u8; 8],
    groups: u32,
    datagrams: u32,
    into: &mut Vec<u8>,
) -> Result<(), NoMemory>
    ensures ok { OnOk result (into.new.items ≡ into.old.items ++ send_text session.now groups datagrams) }
    ensures err { OnErr result (into.new.items ≡ into.old.items) }
{
    let mut line = ArrayVec::new();
    write_send(session, groups, datagrams, &mut line);
    into.extend_from_slice(line.as_slice())?;
    Ok(())
}

/// Appends the line of `receive`: how many datagrams were read, packets kept, and layers shown. After a refusal `into` is as before.
pub fn receive_line(read: u32, kept: u32, shown: u32, into: &mut Vec<u8>) -> Result<(), NoMemory>
    ensures ok { OnOk result (into.new.items ≡ into.old.items ++ receive_text read kept shown) }
    ensures err { OnErr result (into.new.items ≡ into.old.items) }
{
    let mut line = ArrayVec::new();
    write_receive(read, kept, shown, &mut line);
    into.extend_from_slice(line.as_slice())?;
    Ok(())
}

/// Appends the line of `merge`: how many datagrams the merged store has. After a refusal `into` is as before.
pub fn merged_line(datagrams: u32, into: &mut Vec<u8>) -> Result<(), NoMemory>
    ensures ok { OnOk result (into.new.items ≡ into.old.items ++ merged_text datagrams) }
    ensures err { OnErr result (into.new.items ≡ into.old.items) }
{
    let mut line = ArrayVec::new();
    write_merged(datagrams, &mut line);
    into.extend_from_slice(line.as_slice())?;
    Ok(())
}

/// Appends the line of `video`: how many bytes the video of the store has. After a refusal `into` is as before.
pub fn video_line(bytes: u64, into: &mut Vec<u8>) -> Result<(), NoMemory>
    ensures ok { OnOk result (into.new.items ≡ into.old.items ++ video_text bytes) }
    ensures err { OnErr result (into.new.items ≡ into.old.items) }
{
    let mut line = ArrayVec::new();
    write_video(bytes, &mut line);
    into.extend_from_slice(line.as_slice())?;
    Ok(())
}

/// Appends the line of `unwrap`: how many bytes the video has. After a refusal `into` is as before.
pub fn unwrapped_line(bytes: u64, into: &mut Vec<u8>) -> Result<(), NoMemory>
    ensures ok { OnOk result (into.new.items ≡ into.old.items ++ unwrapped_text bytes) }
    ensures err { OnErr result (into.new.items ≡ into.old.items) }
{
    let mut line = ArrayVec::new();
    write_unwrapped(bytes, &mut line);
    into.extend_from_slice(line.as_slice())?;
    Ok(())
}

/// Appends the line of `wrap`: how many bytes the system stream has. After a refusal `into` is as before.
pub fn wrapped_line(bytes: u64, into: &mut Vec<u8>) -> Result<(), NoMemory>
    ensures ok { OnOk result (into.new.items ≡ into.old.items ++ wrapped_text bytes) }
    ensures err { OnErr result (into.new.items ≡ into.old.items) }
{
    let mut line = ArrayVec::new();
    write_wrapped(bytes, &mut line);
    into.extend_from_slice(line.as_slice())?;
    Ok(())
}

/// Appends the line of `migrate`: how many datagrams the new store has. After a refusal `into` is as before.
pub fn migrated_line(datagrams: u32, into: &mut Vec<u8>) -> Result<(), NoMemory>
    ensures ok { OnOk result (into.new.items ≡ into.old.items ++ migrated_text datagrams) }
    ensures err { OnErr result (into.new.items ≡ into.old.items) }
{
    let mut line = ArrayVec::new();
    write_migrated(datagrams, &mut line);
    into.extend_from_slice(line.as_slice())?;
    Ok(())
}

/// Appends the line of `repair`: how many groups were whole, and how many packets they have. After a refusal `into` is as before.
pub fn repaired_line(groups: u32, packets: u32, into: &mut Vec<u8>) -> Result<(), NoMemory>
    ensures ok { OnOk result (into.new.items ≡ into.old.items ++ repaired_text groups packets) }
    ensures err { OnErr result (into.new.items ≡ into.old.items) }
{
    let mut line = ArrayVec::new();
    write_repaired(groups, packets, &mut line);
    into.extend_from_slice(line.as_slice())?;
    Ok(())
}

/// Appends the line of `relay`: how many datagrams were read, and how many were sent. After a refusal `into` is as before.
pub fn relay_line(read: u32, sent: u32, into: &mut Vec<u8>) -> Result<(), NoMemory>
    ensures ok { OnOk result (into.new.items ≡ into.old.items ++ relay_text read sent) }
    ensures err { OnErr result (into.new.items ≡ into.old.items) }
{
    let mut line = ArrayVec::new();
    write_relay(read, sent, &mut line);
    into.extend_from_slice(line.as_slice())?;
    Ok(())
}
