//! Reading a priority file.
ghost use Rattle.std.specs.Prelude.{◌≡◌, ◌≢◌, ◌++◌, None, Some, IfOk, IfErr};
ghost use Rattle.priority_file.specs.Kinds.{index_of, lists};
ghost use Rattle.priority_file.specs.Bounds.{listed_kinds, packets_of, packets_out_of_range, need_out_of_range, has_bad_name, head_is_not_first};
ghost use Rattle.priority_file.specs.Refusals.{first_of, number_rows, layer_rows, refusal_of, priorities_of, priorities_of_text};
ghost use Rattle.priority_file.specs.inside.Stages.{read_draft, read_document, read_members, read_bytes, Reads};
ghost use Rattle.toml.specs.View.{table_view};
ghost use Rattle.toml.specs.Parse.{parse_document};

use crate::bounds::{
    any_bad_name, any_kind_twice, any_name_twice, any_need_out_of_range, begins_with_head,
    count_of, is_packets, listed_kinds, misses_kind,
};
use crate::draft::{Draft, draft_of};
use crate::fault::PriorityFault;
use crate::keys::{has_unknown_key, misses_key};
use crate::kinds::{Class, lists};
use crate::priority::Priority;
use crate::rules::rules_of;
use pet_base::{Kind, MAX_LAYERS, MAX_PRIORITY_FILE};
use std::alloc::Global;
use toml::Table;

/// Reads a priority file.
///
/// # Errors
///
/// The first cause, in the order of `PriorityFault`, that holds of the file. `NoMemory` says nothing of the file.
pub fn read_priority(alloc: Global, bytes: &[u8]) -> Result<Priority, PriorityFault>
    ensures accepted { IfOk result (λ p. refusal_of bytes.now ≡ None) }
    ensures stands_for { IfOk result (λ p. p ≡ priorities_of bytes.now) }
    ensures refused { IfErr result (λ f. f ≢ PriorityFault.NoMemory
        → refusal_of bytes.now ≡ Some f) }
{
    read_bytes(alloc, bytes)
}

fn read_bytes(alloc: Global, bytes: &[u8]) -> Result<Priority, PriorityFault>
    ensures { Reads result (read_bytes bytes.now) }
{
    if bytes.len() > MAX_PRIORITY_FILE as usize {
        return Err(PriorityFault::Long);
    }
    match std::str::from_utf8(bytes) {
        Ok(text) => read_text(alloc, text),
        Err(_) => Err(PriorityFault::Text),
    }
}

fn read_text(alloc: Global, text: &str) -> Result<Priority, PriorityFault>
    ensures { Reads result (read_document (parse_document text.now)) }
{
    match toml::table_from_str(alloc, text) {
        Ok(table) => read_table(alloc, &table),
        Err(error) if error.is_memory() => Err(PriorityFault::NoMemory),
        Err(_) => Err(PriorityFault::Text),
    }
}

fn read_table(alloc: Global, document: &Table) -> Result<Priority, PriorityFault>
    ensures { Reads result (read_members (table_view document.now)) }
{
    if has_unknown_key(document) {
        return Err(PriorityFault::UnknownKey);
    }
    if misses_key(document) {
        return Err(PriorityFault::MissingKey);
    }
    let draft = draft_of(alloc, document)?;
    read_draft(alloc, &draft)
}

fn read_draft(alloc: Global, draft: &Draft) -> Result<Priority, PriorityFault>
    ensures { Reads result (read_draft draft.now) }
{
    let kinds = listed_kinds(alloc, draft.layers.as_slice())?;
    match fault_of(draft, kinds.as_slice()) {
        Some(fault) => Err(fault),
        None => Ok(priority_of(draft, lists(kinds.as_slice(), Class::of(Kind::D)))),
    }
}

fn fault_of(draft: &Draft, kinds: &[Class]) -> Option<PriorityFault>
    requires { kinds.now ≡ listed_kinds draft.now }
    ensures { result ≡ first_of (number_rows draft.now ++ layer_rows draft.now) }
{
    if packets_out_of_range(draft) {
        return Some(PriorityFault::PacketsRange);
    }
    if need_out_of_range(draft) {
        return Some(PriorityFault::NeedRange);
    }
    if has_bad_name(draft) {
        return Some(PriorityFault::Name);
    }
    layer_fault_of(draft, kinds)
}

fn layer_fault_of(draft: &Draft, kinds: &[Class]) -> Option<PriorityFault>
    requires { kinds.now ≡ listed_kinds draft.now }
    ensures { result ≡ first_of (layer_rows draft.now) }
{
    if any_kind_twice(kinds) {
        return Some(PriorityFault::KindTwice);
    }
    if misses_kind(kinds) {
        return Some(PriorityFault::KindMissing);
    }
    if head_is_not_first(draft) {
        return Some(PriorityFault::HeadNotFirst);
    }
    if draft.layers.len() > MAX_LAYERS {
        return Some(PriorityFault::TooManyLayers);
    }
    None
}

fn packets_out_of_range(draft: &Draft) -> bool
    ensures { result ≡ packets_out_of_range draft.now }
{
    !is_packets(packets_of(draft))
}

fn need_out_of_range(draft: &Draft) -> bool
    ensures { result ≡ need_out_of_range draft.now }
{
    any_need_out_of_range(packets_of(draft), draft.layers.as_slice())
}

fn has_bad_name(draft: &Draft) -> bool
    ensures { result ≡ has_bad_name draft.now }
{
    let layers = draft.layers.as_slice();
    any_bad_name(layers) || any_name_twice(layers)
}

fn head_is_not_first(draft: &Draft) -> bool
    ensures { result ≡ head_is_not_first draft.now }
{
    !begins_with_head(draft.layers.as_slice())
}

fn packets_of(draft: &Draft) -> u64
    ensures { result ≡ packets_of draft.now }
{
    count_of(draft.packets)
}

fn priority_of(draft: &Draft, d_is_listed: bool) -> Priority
    requires listed { d_is_listed ≡ lists (index_of Kind.D) (listed_kinds draft.now) }
    requires sound { first_of (number_rows draft.now ++ layer_rows draft.now) ≡ None }
    ensures { result ≡ priorities_of_text draft.now }
{
    let packets = packets_of(draft);
    let rules = rules_of(packets, d_is_listed, draft.layers.as_slice());
    match Priority::new(packets as u16, rules) {
        Some(priority) => priority,
        None => unreachable!(),
    }
}
