//! Whether the stripe lengths that are listed for a group are those of a certificate of fewest
//! stripes.
ghost use Rattle.std.specs.Prelude.{◌≡◌, ◌+◌, ◌*◌, ◌<◌, ◌≤◌, ◌^◌, ◌↔◌, ◌++◌, false, length, replicate, OnOk, IfOk, IsTrue};
ghost use Rattle.std.specs.List.{list_any};
ghost use Rattle.command_plan.specs.Least.{IsLeast, lengths_in, listed_words, starts_by, has_empty};

use pet_base::NoMemory;
use plan_cert::check;
use std::alloc::Global;
use stripe_plan::Table;
use text_plan::Repeat;

/// Whether stripes of these lengths, on end from word 0 on, have all the words of the table and
/// start at the words of a certificate of fewest stripes. It fails only for want of memory.
pub(crate) fn is_least(alloc: Global, table: &Table, repeats: &[Repeat]) -> Result<bool, NoMemory>
    ensures { IfOk result (λ is. IsTrue is ↔ IsLeast table.now.layers repeats.now) }
{
    if !have_words(repeats, table.words()) || lists_empty_stripe(repeats) {
        return Ok(false);
    }
    let starts = stripe_starts(alloc, repeats)?;
    Ok(check(table, &starts))
}

/// Whether the stripes have so many words together. It stops where they have more.
fn have_words(repeats: &[Repeat], words: u32) -> bool
    ensures { IsTrue result ↔ (listed_words repeats.now ≡ words) }
{
    let mut total = 0u64;
    for repeat in repeats {
        total += u64::from(repeat.times) * u64::from(repeat.length);
        if u64::from(words) < total {
            return false;
        }
    }
    total == u64::from(words)
}

/// Whether a stripe without words is listed.
fn lists_empty_stripe(repeats: &[Repeat]) -> bool
    ensures { result ≡ list_any has_empty repeats.now }
{
    repeats
        .iter()
        .any(|repeat| repeat.length == 0 && 0 < repeat.times)
}

/// The first word of each stripe, at most as many as the stripes have words.
fn stripe_starts(alloc: Global, repeats: &[Repeat]) -> Result<Vec<u32>, NoMemory>
    requires few { listed_words repeats.now < 2 ^ 32 }
    requires some { list_any has_empty repeats.now ≡ false }
    ensures starts { IfOk result (λ starts. starts.items ≡ starts_by 0 (lengths_in repeats.now)) }
    ensures few { IfOk result (λ starts. length starts.items ≤ listed_words repeats.now) }
{
    let mut starts = Vec::new(alloc);
    let mut at = 0;
    for repeat in repeats {
        push_starts(at, repeat, &mut starts)?;
        at += repeat.times * repeat.length;
    }
    Ok(starts)
}

/// Appends the first words of the stripes of one row, the first of which begins at `first`.
fn push_starts(first: u32, repeat: &Repeat, starts: &mut Vec<u32>) -> Result<(), NoMemory>
    requires { first + repeat.now.times * repeat.now.length < 2 ^ 32 }
    ensures { OnOk result (starts.new.items ≡ starts.old.items
        ++ starts_by first (replicate repeat.now.times repeat.now.length)) }
{
    let mut at = first;
    for _ in 0..repeat.times {
        starts.push(at)?;
        at += repeat.length;
    }
    Ok(())
}
