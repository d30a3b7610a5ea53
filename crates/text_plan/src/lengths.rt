//! The lengths line of a plan.
ghost use Rattle.std.specs.Prelude.{◌≡◌, ◌+◌, ◌<◌, ◌≤◌, ◌^◌, ◌++◌, ◌∷◌, ℕ, List, length, replicate, take, OnOk, OnErr, IfOk};
ghost use Rattle.std.specs.List.{flat_map};
ghost use Rattle.text_plan.specs.PlanLines.{plan_lengths, rows_of, row_text, lengths_text};

use pet_base::NoMemory;
use std::alloc::Global;
use stripe_plan::Table;

/// Stripes of a plan on end, all of one length.
#[derive(Clone, Copy)]
struct Row {
    /// The length of each, in words.
    size: u16,
    times: u32,
}

/// Appends the lengths line of the table's plan: the word `lengths` and, for each maximal row of equal adjacent stripe
/// lengths, the length in words and how often it stands. After a refusal `into` is as before.
pub fn lengths_line(alloc: Global, table: &Table, into: &mut Vec<u8>) -> Result<(), NoMemory>
    ensures ok { OnOk result (into.new.items ≡ into.old.items
        ++ lengths_text (plan_lengths table.now.layers)) }
    ensures err { OnErr result (into.new.items ≡ into.old.items) }
{
    let before = into.len();
    let appended = append_line(alloc, table, into);
    if appended.is_err() {
        into.truncate(before);
    }
    appended
}

/// Appends the line, of which a front may stand after a refusal.
fn append_line(alloc: Global, table: &Table, into: &mut Vec<u8>) -> Result<(), NoMemory>
    ensures ok { OnOk result (into.new.items ≡ into.old.items
        ++ lengths_text (plan_lengths table.now.layers)) }
    ensures err { OnErr result (take (length into.old.items) into.new.items ≡ into.old.items) }
{
    into.extend_from_slice(b"lengths")?;
    let mut row = Row { size: 0, times: 0 };
    for (_, size) in table.plan() {
        row = with_stripe(alloc, row, size, into)?;
    }
    append_row(alloc, row, into)?;
    into.push(b'\n')?;
    Ok(())
}

/// The row that has one stripe more, of this length. Where that is another length, the row before it has ended, and is
/// appended.
fn with_stripe(alloc: Global, row: Row, size: u16, into: &mut Vec<u8>) -> Result<Row, NoMemory>
    requires { row.times + 1 < 2 ^ 32 }
    ensures text { IfOk result (λ next. (sizes : List ℕ) → into.new.items ++ flat_map row_text (rows_of (replicate next.times next.size ++ sizes))
        ≡ into.old.items ++ flat_map row_text (rows_of (replicate row.times row.size ++ size ∷ sizes))) }
    ensures few { IfOk result (λ next. next.times ≤ row.times + 1) }
    ensures front { take (length into.old.items) into.new.items ≡ into.old.items }
{
    if size == row.size {
        let times = row.times + 1;
        return Ok(Row { size, times });
    }
    append_row(alloc, row, into)?;
    Ok(Row { size, times: 1 })
}

/// Appends the length of a row's stripes and how often it stands, and nothing of a row without stripes.
fn append_row(alloc: Global, row: Row, into: &mut Vec<u8>) -> Result<(), NoMemory>
    ensures ok { OnOk result (into.new.items ≡ into.old.items
        ++ flat_map row_text (rows_of (replicate row.times row.size))) }
    ensures err { OnErr result (into.new.items ≡ into.old.items) }
{
    if row.times == 0 {
        return Ok(());
    }
    let text = format!(in alloc; " {}x{}", row.size, row.times)?;
    into.extend_from_slice(text.as_bytes())?;
    Ok(())
}
