//! What stands in the rows of a transcript: words, and parts of bytes.
use crate::{
    OLD_EMPTY_STORE, PLAN, PRIORITIES, STREAM, byte_packets, old_store, old_wide_store, packets,
};
use hex::decode;
use pet_base::NoMemory;
use std::alloc::Global;

/// The words of a command. A word of two quotes is one of no text.
pub fn words_of(alloc: Global, about: &str) -> Result<Vec<String>, NoMemory> {
    let mut words = Vec::new(alloc);
    for word in about.split_whitespace() {
        words.push(word_of(alloc, word)?)?;
    }
    Ok(words)
}

/// A word, in which a `_` stands for a space.
fn word_of(alloc: Global, word: &str) -> Result<String, NoMemory> {
    let mut text = String::new(alloc);
    if word != "''" {
        for letter in word.chars() {
            text.push(if letter == '_' { ' ' } else { letter })?;
        }
    }
    Ok(text)
}

/// Appends the bytes of a part: hex digits, or `@` and the name of what is known, with a number. It answers whether it is one.
pub fn append_part(alloc: Global, part: &str, into: &mut Vec<u8>) -> Result<bool, NoMemory> {
    if let Some(known) = part.strip_prefix('@') {
        let (name, number) = known.split_once(':').unwrap_or((known, "0"));
        return append_known(alloc, name, number.parse().unwrap_or(0), into);
    }
    let Ok(bytes) = decode(alloc, part) else {
        return Ok(false);
    };
    into.extend_from_slice(&bytes)?;
    Ok(true)
}

/// Appends what is known by a name and a number.
fn append_known(
    alloc: Global,
    name: &str,
    number: usize,
    into: &mut Vec<u8>,
) -> Result<bool, NoMemory> {
    match name {
        "stream" => into.extend_from_slice(&STREAM)?,
        "priorities" => into.extend_from_slice(PRIORITIES.as_bytes())?,
        "plan" => into.extend_from_slice(PLAN.as_bytes())?,
        "packet" => into.extend_from_slice(packets().get(number).map_or(&[], |b| b.as_slice()))?,
        "byte" => into.extend_from_slice(byte_packets().get(number).map_or(&[], |b| b.as_slice()))?,
        "old" => into.extend_from_slice(&old_store())?,
        "old_empty" => into.extend_from_slice(&OLD_EMPTY_STORE)?,
        "old_wide" => into.extend_from_slice(&old_wide_store(alloc)?)?,
        "ones" => {
            for _ in 0..number {
                into.push(1)?;
            }
        }
        _ => return Ok(false),
    }
    Ok(true)
}
