//! The text of a whole plan.
ghost use Rattle.std.specs.Prelude.{◌≡◌, ℕ, ◌^◌, ◌<◌, ◌≤◌, ◌++◌, length, take, OnOk, OnErr};
ghost use Rattle.text_plan.specs.LayerLines.{AreTablesOf};
ghost use Rattle.text_plan.specs.inside.LayerLines.{layer_line, layer_lines, group_lines};
ghost use Rattle.text_plan.specs.PlanText.{plan_text};

use crate::lengths::lengths_line;
use crate::plan_lines::{plan_group_line, plan_layer_line, plan_session_line};
use pet_base::NoMemory;
use priority_file::Priority;
use std::alloc::Global;
use stripe_plan::{Table, bound, count, datagram_length, stripes};

/// Appends the text of a plan: the line of the session, and for each group, in the order of its tables, a line for the
/// group, one for each of its layers, and one for the lengths of its stripes. After a refusal `into` is as before.
pub fn plan_text(
    alloc: Global,
    session: &[u8; 8],
    priority: &Priority,
    tables: &[Table],
    into: &mut Vec<u8>,
) -> Result<(), NoMemory>
    requires few { length tables.now < 2 ^ 32 }
    requires sized { AreTablesOf priority.now tables.now }
    ensures ok { OnOk result (into.new.items ≡ into.old.items
        ++ plan_text session.now priority.now tables.now) }
    ensures err { OnErr result (into.new.items ≡ into.old.items) }
{
    let before = into.len();
    let appended = append_plan(alloc, session, priority, tables, into);
    if appended.is_err() {
        into.truncate(before);
    }
    appended
}

/// Appends the text, of which a front may stand after a refusal.
fn append_plan(
    alloc: Global,
    session: &[u8; 8],
    priority: &Priority,
    tables: &[Table],
    into: &mut Vec<u8>,
) -> Result<(), NoMemory>
    requires few { length tables.now < 2 ^ 32 }
    requires sized { AreTablesOf priority.now tables.now }
    ensures ok { OnOk result (into.new.items ≡ into.old.items
        ++ plan_text session.now priority.now tables.now) }
    ensures err { OnErr result (take (length into.old.items) into.new.items ≡ into.old.items) }
{
    plan_session_line(alloc, session, tables.len() as u32, priority.packets, into)?;
    for group in 0..tables.len() {
        append_group(alloc, group as u32, priority, &tables[group], into)?;
    }
    Ok(())
}

/// Appends the lines of a group, of which a front may stand after a refusal.
fn append_group(
    alloc: Global,
    group: u32,
    priority: &Priority,
    table: &Table,
    into: &mut Vec<u8>,
) -> Result<(), NoMemory>
    requires { length table.now.layers ≡ length priority.now.layers }
    ensures ok { OnOk result (into.new.items ≡ into.old.items
        ++ group_lines priority.now.layers group table.now.layers) }
    ensures err { OnErr result (take (length into.old.items) into.new.items ≡ into.old.items) }
{
    let words = table.words();
    plan_group_line(
        alloc,
        group,
        words,
        stripes(table),
        bound(table),
        datagram_length(table),
        into,
    )?;
    append_layers(alloc, priority, table, into)?;
    lengths_line(alloc, table, into)
}

/// Appends a line for each layer, of which a front may stand after a refusal.
fn append_layers(
    alloc: Global,
    priority: &Priority,
    table: &Table,
    into: &mut Vec<u8>,
) -> Result<(), NoMemory>
    requires { length table.now.layers ≡ length priority.now.layers }
    ensures ok { OnOk result (into.new.items ≡ into.old.items
        ++ layer_lines priority.now.layers table.now.layers (length table.now.layers)) }
    ensures err { OnErr result (take (length into.old.items) into.new.items ≡ into.old.items) }
{
    for layer in 0..table.layers().len() as u8 {
        append_layer(alloc, layer, priority, table, into)?;
    }
    Ok(())
}

/// Appends the line of a layer.
fn append_layer(
    alloc: Global,
    layer: u8,
    priority: &Priority,
    table: &Table,
    into: &mut Vec<u8>,
) -> Result<(), NoMemory>
    requires known { layer < length table.now.layers }
    requires sized { length table.now.layers ≡ length priority.now.layers }
    ensures ok { OnOk result (into.new.items ≡ into.old.items
        ++ layer_line priority.now.layers table.now.layers layer) }
    ensures err { OnErr result (into.new.items ≡ into.old.items) }
{
    let rule = &priority.layers.as_slice()[usize::from(layer)];
    let size = &table.layers()[usize::from(layer)];
    plan_layer_line(
        alloc,
        layer,
        rule.name.as_str(),
        size,
        count(table, layer),
        into,
    )
}
