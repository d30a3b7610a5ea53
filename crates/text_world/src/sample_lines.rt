//! The lines of `sample`.
ghost use Rattle.std.specs.Prelude.{◌≡◌, ◌≤◌, ◌++◌, length, OnOk, OnErr};
ghost use Rattle.text_world.specs.SampleLines.{contents_text, sample_stream_text, sample_session_text, sample_packets_text, sample_arrivals_text, sample_layer_text, sample_store_text, sample_video_text};

use arrayvec::ArrayVec;
use pet_base::NoMemory;
use text_pieces::{
    append_byte, append_count, append_number, append_session, append_text, number_line,
};

/// Appends the line of the stream: its bytes, and the first eight of their digest. After a refusal `into` is as before.
pub fn sample_stream_line(bytes: u64, digest: &[u8; 8], into: &mut Vec<u8>) -> Result<(), NoMemory>
    ensures ok { OnOk result (into.new.items
        ≡ into.old.items ++ sample_stream_text bytes digest.now) }
    ensures err { OnErr result (into.new.items ≡ into.old.items) }
{
    contents_line("stream ", bytes, digest, into)
}

/// Appends the line of the session: its number. After a refusal `into` is as before.
pub fn sample_session_line(session: &[u8; 8], into: &mut Vec<u8>) -> Result<(), NoMemory>
    ensures ok { OnOk result (into.new.items ≡ into.old.items ++ sample_session_text session.now) }
    ensures err { OnErr result (into.new.items ≡ into.old.items) }
{
    let mut line = ArrayVec::<u8, 64>::new();
    append_text("session ", &mut line);
    append_session(session, &mut line);
    append_text("\n", &mut line);
    into.extend_from_slice(line.as_slice())?;
    Ok(())
}

/// Appends the line of the packets, of which each group has 100: the bytes of a datagram of group 0. After a refusal `into`
/// is as before.
pub fn sample_packets_line(datagram: u32, into: &mut Vec<u8>) -> Result<(), NoMemory>
    ensures ok { OnOk result (into.new.items ≡ into.old.items ++ sample_packets_text datagram) }
    ensures err { OnErr result (into.new.items ≡ into.old.items) }
{
    let mut line = ArrayVec::<u8, 64>::new();
    number_line("packets 100 datagram ", u64::from(datagram), &mut line);
    into.extend_from_slice(line.as_slice())?;
    Ok(())
}

/// Appends the line of the arrivals: how many there are. After a refusal `into` is as before.
pub fn sample_arrivals_line(arrivals: u32, into: &mut Vec<u8>) -> Result<(), NoMemory>
    ensures ok { OnOk result (into.new.items ≡ into.old.items ++ sample_arrivals_text arrivals) }
    ensures err { OnErr result (into.new.items ≡ into.old.items) }
{
    let mut line = ArrayVec::<u8, 64>::new();
    number_line("arrivals ", u64::from(arrivals), &mut line);
    into.extend_from_slice(line.as_slice())?;
    Ok(())
}

/// Appends the line of a layer, counted from 0: the arrivals, counted from 1, that showed it of the first and of the last
/// group. After a refusal `into` is as before.
pub fn sample_layer_line(
    layer: u8,
    first: u32,
    last: u32,
    into: &mut Vec<u8>,
) -> Result<(), NoMemory>
    ensures ok { OnOk result (into.new.items
        ≡ into.old.items ++ sample_layer_text layer first last) }
    ensures err { OnErr result (into.new.items ≡ into.old.items) }
{
    let mut line = ArrayVec::<u8, 64>::new();
    append_text("layer ", &mut line);
    append_byte(layer, &mut line);
    append_text(" first ", &mut line);
    append_count(first, &mut line);
    append_text(" last ", &mut line);
    append_count(last, &mut line);
    append_text("\n", &mut line);
    into.extend_from_slice(line.as_slice())?;
    Ok(())
}

/// Appends the line of the receiver's store: the bytes of its text, and the first eight of their digest. After a refusal
/// `into` is as before.
pub fn sample_store_line(bytes: u64, digest: &[u8; 8], into: &mut Vec<u8>) -> Result<(), NoMemory>
    ensures ok { OnOk result (into.new.items
        ≡ into.old.items ++ sample_store_text bytes digest.now) }
    ensures err { OnErr result (into.new.items ≡ into.old.items) }
{
    contents_line("store ", bytes, digest, into)
}

/// Appends the line of the video of all groups: its bytes, and the first eight of their digest. After a refusal `into` is as
/// before.
pub fn sample_video_line(bytes: u64, digest: &[u8; 8], into: &mut Vec<u8>) -> Result<(), NoMemory>
    ensures ok { OnOk result (into.new.items
        ≡ into.old.items ++ sample_video_text bytes digest.now) }
    ensures err { OnErr result (into.new.items ≡ into.old.items) }
{
    contents_line("video ", bytes, digest, into)
}

/// Appends a line of a word of at most 7 bytes, how many bytes there are, and the first eight of their digest.
fn contents_line(
    word: &str,
    bytes: u64,
    digest: &[u8; 8],
    into: &mut Vec<u8>,
) -> Result<(), NoMemory>
    requires { length word.now ≤ 7 }
    ensures ok { OnOk result (into.new.items
        ≡ into.old.items ++ (word.now ++ contents_text bytes digest.now)) }
    ensures err { OnErr result (into.new.items ≡ into.old.items) }
{
    let mut line = ArrayVec::<u8, 64>::new();
    append_text(word, &mut line);
    append_number(bytes, &mut line);
    append_text(" ", &mut line);
    append_session(digest, &mut line);
    append_text("\n", &mut line);
    into.extend_from_slice(line.as_slice())?;
    Ok(())
}
