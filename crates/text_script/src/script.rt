//! The reading of a script.
ghost use Rattle.std.specs.Prelude.{◌≡◌, ◌<◌, ◌&&◌, nat_lt, if◌then◌else◌, Ok, None, Some, IfOk, IfErr, IfSome};
ghost use Rattle.std.specs.List.{list_all};
ghost use Rattle.text_lines.specs.Digits.{is_digit, value_from};
ghost use Rattle.text_cuts.specs.Cuts.{split_at};
ghost use Rattle.text_script.specs.Script.{receiver_in, value_below, number_below, give_in, join_in, reopen_in, event_in, script_of, IsScriptRefused};

use pet_base::Event;
use std::alloc::{AllocFailed, Global};
use text_cuts::{cut, first_line};
use text_lines::read_number;

/// Why a script is not read.
#[derive(Clone, Copy, Debug, PartialEq, Eq)]
pub enum ScriptFault {
    /// The first line that is no event of the session, counted from 1.
    Line(u64),
    /// There was no memory for the events.
    NoMemory,
}

impl<T: Drop> From<AllocFailed<T>> for ScriptFault {
    ghost use Rattle.text_script.specs.declared.script.ScriptFault.TheVariants.{NoMemory};

    ghost from_gives = { λ _ fault. fault ≡ NoMemory };

    fn from(_e: AllocFailed<T>) -> ScriptFault {
        ScriptFault::NoMemory
    }
}

/// Reads a script of a session of so many groups, and so many packets of each group: an event for each line. It takes a
/// bounded number of steps for each byte.
pub fn read_script(
    alloc: Global,
    bytes: &[u8],
    groups: u32,
    packets: u16,
) -> Result<Vec<Event>, ScriptFault>
    ensures events { IfOk result (λ events. script_of groups packets bytes.now ≡ Ok events.items) }
    ensures refused { IfErr result (IsScriptRefused groups packets bytes.now) }
{
    let mut events = Vec::new(alloc);
    let mut rest = bytes;
    let mut number: u64 = 0;
    while !rest.is_empty() {
        let (line, behind) = first_line(rest);
        number += 1;
        let Some(event) = read_event(line, groups, packets) else {
            return Err(ScriptFault::Line(number));
        };
        events.push(event)?;
        rest = behind;
    }
    Ok(events)
}

/// The event of a line.
fn read_event(line: &[u8], groups: u32, packets: u16) -> Option<Event>
    ensures { result ≡ event_in groups packets (split_at 32 line.now) }
{
    let (word, behind) = cut(line, b' ');
    if word == b"give".as_slice() {
        return read_give(behind?, groups, packets);
    }
    if word == b"join".as_slice() {
        return read_join(behind?);
    }
    if word == b"reopen".as_slice() {
        return read_reopen(behind?);
    }
    None
}

/// What stands behind `give`.
fn read_give(words: &[u8], groups: u32, packets: u16) -> Option<Event>
    ensures { result ≡ give_in groups packets (split_at 32 words.now) }
{
    let (receiver, behind) = cut(words, b' ');
    let (group, behind) = cut(behind?, b' ');
    let (number, more) = cut(behind?, b' ');
    if more.is_some() {
        return None;
    }
    Some(Event::Give {
        receiver: read_receiver(receiver)?,
        group: read_below(group, groups)?,
        number: read_below(number, u32::from(packets))? as u16,
    })
}

/// What stands behind `join`.
fn read_join(words: &[u8]) -> Option<Event>
    ensures { result ≡ join_in (split_at 32 words.now) }
{
    let (receiver, behind) = cut(words, b' ');
    let (other, more) = cut(behind?, b' ');
    if more.is_some() {
        return None;
    }
    Some(Event::Join {
        receiver: read_receiver(receiver)?,
        other: read_receiver(other)?,
    })
}

/// What stands behind `reopen`.
fn read_reopen(words: &[u8]) -> Option<Event>
    ensures { result ≡ reopen_in (split_at 32 words.now) }
{
    let (receiver, more) = cut(words, b' ');
    if more.is_some() {
        return None;
    }
    Some(Event::Reopen {
        receiver: read_receiver(receiver)?,
    })
}

/// The receiver of a letter.
fn read_receiver(word: &[u8]) -> Option<u8>
    ensures { result ≡ receiver_in word.now }
{
    match word {
        [letter @ b'A'..=b'H'] => Some(letter - b'A'),
        _ => None,
    }
}

/// The number below a limit that these digits are, without a leading zero.
fn read_below(digits: &[u8], limit: u32) -> Option<u32>
    ensures number { result ≡ number_below limit digits.now }
    ensures below { IfSome result (λ number. number < limit) }
{
    match digits {
        [] | [b'0', _, ..] => None,
        _ => read_value(digits, limit),
    }
}

/// The number below a limit that these digits are. No digits are the number 0.
fn read_value(digits: &[u8], limit: u32) -> Option<u32>
    ensures number { result ≡ value_below limit digits.now }
    ensures below { IfSome result (λ number. number < limit) }
{
    read_number(digits, limit.checked_sub(1)?)
}
