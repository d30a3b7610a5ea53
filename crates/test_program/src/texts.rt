//! Words, statuses and lines, each as a text.
use crate::statuses::STATUSES;
use arrayvec::ArrayVec;
use hex::FromHex;
use pet_base::NoMemory;
use pet_text::{
    Command, KeepWords, bound_line, fault_line, least_line, merged_line, migrated_line,
    read_keep_words, read_words, receive_line, relay_line, repaired_line, send_line, shown_line,
    store_line, unwrapped_line, video_line, wrapped_line,
};
use std::alloc::Global;
use test_script::words_of;

/// Whether words are the command that is shown so, as in `WORDS => COMMAND`.
pub(crate) fn is_shown(alloc: Global, about: &str) -> Result<bool, NoMemory> {
    let Some((words, shown)) = about.split_once(" => ") else {
        return Ok(false);
    };
    match read_words(alloc, &words_of(alloc, words)?) {
        Ok(command) => Ok(shown_command(alloc, &command)?.as_str() == shown),
        Err(_) => Ok(false),
    }
}

/// A command, as it is shown.
fn shown_command(alloc: Global, command: &Command) -> Result<String, NoMemory> {
    Ok(format!(in alloc; "{command:?}")?)
}

/// The same of the words of `pet-keep`; words of no form are `Usage`.
pub(crate) fn is_kept(alloc: Global, about: &str) -> Result<bool, NoMemory> {
    let Some((words, shown)) = about.split_once(" => ") else {
        return Ok(false);
    };
    match read_keep_words(alloc, &words_of(alloc, words)?) {
        Ok(words) => Ok(shown_words(alloc, &words)?.as_str() == shown),
        Err(fault) => Ok(fault == pet_text::WordsFault::Usage && shown == "Usage"),
    }
}

/// Words of `pet-keep`, as they are shown.
fn shown_words(alloc: Global, words: &KeepWords) -> Result<String, NoMemory> {
    Ok(format!(in alloc; "{words:?}")?)
}

/// Whether the status of this place in the table has this number and this line, as in `PLACE NUMBER LINE`.
pub(crate) fn is_status(about: &str) -> bool {
    let (at, told) = about.split_once(' ').unwrap_or((about, ""));
    let (code, text) = told.split_once(' ').unwrap_or((told, ""));
    let Some(status) = at.parse::<usize>().ok().and_then(|at| STATUSES.get(at)) else {
        return false;
    };
    let mut line: ArrayVec<u8, 64> = ArrayVec::new();
    fault_line(status, &mut line);
    code.parse() == Ok(status.code()) && is_line(&line, text)
}

/// Whether these bytes are the text and the end of a line, or nothing where there is no text.
fn is_line(line: &[u8], text: &str) -> bool {
    line.strip_suffix(b"\n".as_slice()).unwrap_or(line) == text.as_bytes()
        && (line.is_empty() || line.ends_with(b"\n"))
}

/// The number that is the word at this place, or 0.
fn number(words: &[String], at: usize) -> u64 {
    words
        .get(at)
        .and_then(|word| word.parse().ok())
        .unwrap_or(0)
}

/// That number, where it has 32 bits.
fn count(words: &[String], at: usize) -> u32 {
    u32::try_from(number(words, at)).unwrap_or(0)
}

/// Whether the line of this name, with these numbers and a digest behind them, is this, as in `NAME NUMBERS => LINE`.
pub(crate) fn is_told(alloc: Global, about: &str) -> Result<bool, NoMemory> {
    let Some((words, text)) = about.split_once(" => ") else {
        return Ok(false);
    };
    let words = words_of(alloc, words)?;
    let Some(name) = words.first() else {
        return Ok(false);
    };
    let digest = words
        .last()
        .and_then(|word| <[u8; 8]>::from_hex(word.as_str()).ok())
        .unwrap_or([0; 8]);
    let mut line = Vec::new(alloc);
    append_line(alloc, name.as_str(), &words, &digest, &mut line)?;
    Ok(!text.is_empty() && is_line(&line, text))
}

/// Appends the line of this name, with the numbers that are the other words.
fn append_line(
    alloc: Global,
    name: &str,
    words: &[String],
    digest: &[u8; 8],
    line: &mut Vec<u8>,
) -> Result<(), NoMemory> {
    let (large, first) = (number(words, 1), count(words, 1));
    let (second, third) = (count(words, 2), count(words, 3));
    let receiver = (number(words, if name == "shown" { 2 } else { 1 }) % 8) as u8;
    let layer = (number(words, 4) % 256) as u8;
    let bytes = count(words, 5);
    match name {
        "bound" => bound_line(alloc, u16::try_from(large).unwrap_or(0), line),
        "receive" => receive_line(first, second, third, line),
        "send" => send_line(digest, first, second, line),
        "least" => least_line(first, line),
        "merged" => merged_line(first, line),
        "migrated" => migrated_line(first, line),
        "repaired" => repaired_line(first, second, line),
        "relay" => relay_line(first, second, line),
        "unwrapped" => unwrapped_line(large, line),
        "wrapped" => wrapped_line(large, line),
        "video" => video_line(large, line),
        "shown" => shown_line(alloc, large, receiver, third, layer, bytes, digest, line),
        "store" => store_line(receiver, second, digest, line),
        _ => Ok(()),
    }
}
