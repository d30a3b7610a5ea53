//! The lines in an array. None of these calls takes memory.
ghost use Rattle.std.specs.Prelude.{◌≡◌, []};
ghost use Rattle.text_plan.specs.PlanLines.{least_text, send_text};
ghost use Rattle.text_answers.specs.Lines.{receive_text, merged_text, video_text, unwrapped_text, wrapped_text, migrated_text, repaired_text, relay_text};

use arrayvec::ArrayVec;
use text_pieces::{append_count, append_session, append_text, number_line};

/// Writes the line of `check` to `into`, which must be empty: for how many groups the lists are certificates.
pub fn write_least(groups: u32, into: &mut ArrayVec<u8, 64>)
    requires { into.old.items ≡ [] }
    ensures { into.new.items ≡ least_text groups }
{
    number_line("least ", u64::from(groups), into);
}

/// Writes the line of `send` to `into`, which must be empty: the session's number in hexadecimal digits, its groups and datagrams.
pub fn write_send(session: &[u8; 8], groups: u32, datagrams: u32, into: &mut ArrayVec<u8, 64>)
    requires { into.old.items ≡ [] }
    ensures { into.new.items ≡ send_text session.now groups datagrams }
{
    append_text("session ", into);
    append_session(session, into);
    append_text(" groups ", into);
    append_count(groups, into);
    append_text(" datagrams ", into);
    append_count(datagrams, into);
    append_text("\n", into);
}

/// Writes the line of `receive` to `into`, which must be empty: how many datagrams were read, packets kept, and layers shown.
pub fn write_receive(read: u32, kept: u32, shown: u32, into: &mut ArrayVec<u8, 64>)
    requires { into.old.items ≡ [] }
    ensures { into.new.items ≡ receive_text read kept shown }
{
    append_text("read ", into);
    append_count(read, into);
    append_text(" kept ", into);
    append_count(kept, into);
    append_text(" shown ", into);
    append_count(shown, into);
    append_text("\n", into);
}

/// Writes the line of `merge` to `into`, which must be empty: how many datagrams the merged store has.
pub fn write_merged(datagrams: u32, into: &mut ArrayVec<u8, 64>)
    requires { into.old.items ≡ [] }
    ensures { into.new.items ≡ merged_text datagrams }
{
    number_line("merged ", u64::from(datagrams), into);
}

/// Writes the line of `video` to `into`, which must be empty: how many bytes the video of the store has.
pub fn write_video(bytes: u64, into: &mut ArrayVec<u8, 64>)
    requires { into.old.items ≡ [] }
    ensures { into.new.items ≡ video_text bytes }
{
    number_line("video ", bytes, into);
}

/// Writes the line of `unwrap` to `into`, which must be empty: how many bytes the video has.
pub fn write_unwrapped(bytes: u64, into: &mut ArrayVec<u8, 64>)
    requires { into.old.items ≡ [] }
    ensures { into.new.items ≡ unwrapped_text bytes }
{
    number_line("unwrapped ", bytes, into);
}

/// Writes the line of `wrap` to `into`, which must be empty: how many bytes the system stream has.
pub fn write_wrapped(bytes: u64, into: &mut ArrayVec<u8, 64>)
    requires { into.old.items ≡ [] }
    ensures { into.new.items ≡ wrapped_text bytes }
{
    number_line("wrapped ", bytes, into);
}

/// Writes the line of `migrate` to `into`, which must be empty: how many datagrams the new store has.
pub fn write_migrated(datagrams: u32, into: &mut ArrayVec<u8, 64>)
    requires { into.old.items ≡ [] }
    ensures { into.new.items ≡ migrated_text datagrams }
{
    number_line("migrated ", u64::from(datagrams), into);
}

/// Writes the line of `repair` to `into`, which must be empty: how many groups were whole, and how many packets they have.
pub fn write_repaired(groups: u32, packets: u32, into: &mut ArrayVec<u8, 64>)
    requires { into.old.items ≡ [] }
    ensures { into.new.items ≡ repaired_text groups packets }
{
    append_text("repaired ", into);
    append_count(groups, into);
    append_text(" datagrams ", into);
    append_count(packets, into);
    append_text("\n", into);
}

/// Writes the line of `relay` to `into`, which must be empty: how many datagrams were read, and how many were sent.
pub fn write_relay(read: u32, sent: u32, into: &mut ArrayVec<u8, 64>)
    requires { into.old.items ≡ [] }
    ensures { into.new.items ≡ relay_text read sent }
{
    append_text("read ", into);
    append_count(read, into);
    append_text(" sent ", into);
    append_count(sent, into);
    append_text("\n", into);
}
