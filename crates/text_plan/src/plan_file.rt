//! The plan file, which lists the stripe lengths of each group.
ghost use Rattle.std.specs.Prelude.{◌≡◌, ◌≢◌, ℕ, ◌+◌, ◌-◌, ◌*◌, ◌^◌, ◌<◌, ◌&&◌, if◌then◌else◌, nat_lt, List, [], ◌∷◌, length, map, Some, None, Ok, Err, Result, MatchOption, IfOk, IfErr, IfSome, OnOk, option_map};
ghost use Rattle.text_cuts.specs.Cuts.{split_at};
ghost use Rattle.text_plan.specs.PlanFile.{lists_of, number_of, repeat_in, repeats_in, behind_lengths, with_line, behind_lists, IsRefused};

use pet_base::NoMemory;
use std::alloc::{AllocFailed, Global};
use text_cuts::{cut, first_line};
use text_lines::read_number;

/// Stripes on end of one length.
#[derive(Clone, Copy, Debug, PartialEq, Eq)]
pub struct Repeat {
    /// The words of each stripe, at least 1.
    pub length: u32,
    /// How many stripes stand on end, at least 1.
    pub times: u32,
}

/// Why a plan file is not read.
#[derive(Clone, Copy, Debug, PartialEq, Eq)]
pub enum PlanFault {
    /// The first line that begins with `lengths` and has another form, counted from 1 over all lines.
    Text(u64),
    /// There was no memory for the lists.
    NoMemory,
}

impl From<NoMemory> for PlanFault {
    ghost use Rattle.text_plan.specs.declared.plan_file.PlanFault.TheVariants.{NoMemory};

    ghost from_gives = { λ _ fault. fault ≡ NoMemory };

    fn from(_e: NoMemory) -> PlanFault {
        PlanFault::NoMemory
    }
}

impl<T: Drop> From<AllocFailed<T>> for PlanFault {
    ghost use Rattle.text_plan.specs.declared.plan_file.PlanFault.TheVariants.{NoMemory};

    ghost from_gives = { λ _ fault. fault ≡ NoMemory };

    fn from(_e: AllocFailed<T>) -> PlanFault {
        PlanFault::NoMemory
    }
}

/// Reads the lists of a plan file, one for each line that begins with `lengths`, in order. Other lines are skipped. It takes
/// a bounded number of steps for each byte.
pub fn read_plan(alloc: Global, bytes: &[u8]) -> Result<Vec<Vec<Repeat>>, PlanFault>
    ensures lists { IfOk result (λ lists. lists_of bytes.now
        ≡ Ok (map (λ list. list.items) lists.items)) }
    ensures refused { IfErr result (IsRefused bytes.now) }
{
    let mut lists = Vec::new(alloc);
    let mut rest = bytes;
    let mut number: u64 = 0;
    while !rest.is_empty() {
        let (line, behind) = first_line(rest);
        number += 1;
        read_line(alloc, number, line, &mut lists)?;
        rest = behind;
    }
    Ok(lists)
}

/// Reads a line, and keeps its list if it is to have one.
fn read_line(
    alloc: Global,
    number: u64,
    line: &[u8],
    lists: &mut Vec<Vec<Repeat>>,
) -> Result<(), PlanFault>
    ensures ok { OnOk result ((later : Result (List (List Repeat)) ℕ)
        → behind_lists (map (λ list. list.items) lists.old.items) (with_line number line.now later) ≡ behind_lists (map (λ list. list.items) lists.new.items) later) }
    ensures refused { IfErr result (λ fault. fault ≢ PlanFault.NoMemory → (fault ≡ PlanFault.Text number)
        × ((later : Result (List (List Repeat)) ℕ) → with_line number line.now later ≡ Err number)) }
{
    if !line.starts_with(b"lengths") {
        return Ok(());
    }
    let Some(list) = read_list(alloc, &line[7..])? else {
        return Err(PlanFault::Text(number));
    };
    lists.push(list)?;
    Ok(())
}

/// The list that stands behind `lengths`.
fn read_list(alloc: Global, words: &[u8]) -> Result<Option<Vec<Repeat>>, NoMemory>
    ensures { IfOk result (λ list. option_map (λ list. list.items) list
        ≡ behind_lengths words.now) }
{
    match words {
        [b' ', words @ ..] => read_repeats(alloc, words),
        _ => Ok(None),
    }
}

/// The list of words that stand with a space between each two.
fn read_repeats(alloc: Global, words: &[u8]) -> Result<Option<Vec<Repeat>>, NoMemory>
    ensures { IfOk result (λ list. option_map (λ list. list.items) list
        ≡ repeats_in (split_at 32 words.now)) }
{
    let mut list = Vec::new(alloc);
    let mut rest = Some(words);
    while let Some(words) = rest {
        let (word, behind) = cut(words, b' ');
        let Some(repeat) = read_repeat(word) else {
            return Ok(None);
        };
        list.push(repeat)?;
        rest = behind;
    }
    Ok(Some(list))
}

/// The length and the number of times of a word `LENGTHxTIMES`.
fn read_repeat(word: &[u8]) -> Option<Repeat>
    ensures { result ≡ repeat_in (split_at 120 word.now) }
{
    let (size, behind) = cut(word, b'x');
    let (times, more) = cut(behind?, b'x');
    if more.is_some() {
        return None;
    }
    Some(Repeat {
        length: read_positive(size)?,
        times: read_positive(times)?,
    })
}

/// The number from 1 to 4,294,967,295 that these digits are, without a leading zero.
fn read_positive(digits: &[u8]) -> Option<u32>
    ensures { result ≡ number_of digits.now }
{
    match digits {
        [] | [b'0', ..] => None,
        _ => read_number(digits, u32::MAX),
    }
}
