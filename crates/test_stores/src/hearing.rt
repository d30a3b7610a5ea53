//! Receivers of the example session, and what is made of them.
use crate::shelf::Told;
use field_elements::Gf16Plain;
use field_rows::Rows;
use packet_rebuild::{encoder_of, first_unlike};
use pet_base::{MemoryPlace, NoMemory, Steps};
use pet_field::Gf16Tables;
use pet_receive::Receiver;
use reassemble::assemble;
use std::alloc::Global;
use std::sync::ledger::Ledger;
use store_merge::{merge_stores, read_store, read_store_file, write_store, write_store_file};
use test_script::SESSION;

/// Hands these packets to a receiver, each behind its length.
fn accept_all<F: Rows, L: Ledger>(
    receiver: &mut Receiver<'_, F>,
    entries: &[Vec<u8>],
    steps: &mut Steps<L>,
) -> Result<(), NoMemory> {
    for entry in entries {
        receiver.accept(entry.get(2..).unwrap_or(&[]), steps)?;
    }
    Ok(())
}

/// What a receiver of these packets comes to, whose groups may cost so much: its store, as a file `store`, or the video of group 0, as a
/// file of that name.
pub(crate) fn hear<L: Ledger>(
    alloc: Global,
    (what, limit): (&str, u64),
    entries: &[Vec<u8>],
    place: &mut MemoryPlace,
    steps: &mut Steps<L>,
) -> Told {
    let field = Gf16Plain;
    let mut receiver = Receiver::new(alloc, &field, SESSION, limit);
    accept_all(&mut receiver, entries, steps)?;
    let mut bytes = Vec::new(alloc);
    match what {
        "write_store" => {
            write_store(&receiver, &mut bytes)?;
            place.add("store", &bytes)?;
            Ok(format!(in alloc; "{}", bytes.len())?)
        }
        "assemble" => {
            let answer = assemble(&receiver, 0, &mut bytes);
            place.add("video", &bytes)?;
            Ok(format!(in alloc; "{answer:?}")?)
        }
        _ => {
            let answer = write_store_file(alloc, &receiver, "store", place);
            Ok(format!(in alloc; "{answer:?}")?)
        }
    }
}

/// Of how many groups a receiver of these packets was told, why group 0 has no encoder, or which packet is the first that is unlike what
/// the encoder makes.
pub(crate) fn unlike<L: Ledger>(
    alloc: Global,
    limit: u64,
    entries: &[Vec<u8>],
    steps: &mut Steps<L>,
) -> Told {
    let field = Gf16Tables::new(alloc)?;
    let mut receiver = Receiver::new(alloc, &field, SESSION, limit);
    accept_all(&mut receiver, entries, steps)?;
    let groups = receiver.groups().unwrap_or(0);
    match encoder_of(alloc, &field, &receiver, 0) {
        Ok(encoder) => {
            let unlike = first_unlike(alloc, &receiver, &encoder, steps)?;
            Ok(format!(in alloc; "{groups} Ok({unlike:?})")?)
        }
        Err(fault) => Ok(format!(in alloc; "{groups} Err({fault:?})")?),
    }
}

/// How many packets are kept of a store, or its refusal.
pub(crate) fn read_bytes<L: Ledger>(
    alloc: Global,
    bytes: &[u8],
    limit: u64,
    steps: &mut Steps<L>,
) -> Told {
    let field = Gf16Plain;
    match read_store(alloc, &field, bytes, limit, steps) {
        Ok(receiver) => Ok(format!(in alloc; "Ok({})", receiver.kept())?),
        Err(fault) => Ok(format!(in alloc; "Err({fault:?})")?),
    }
}

/// Whether the store of a file is of the example session, and how many packets are kept of it, or its refusal. What was read is written
/// to another file.
pub(crate) fn read<L: Ledger>(
    alloc: Global,
    name: &str,
    again: &str,
    place: &mut MemoryPlace,
    steps: &mut Steps<L>,
) -> Told {
    let field = Gf16Plain;
    match read_store_file(alloc, &field, name, place, steps) {
        Ok(receiver) => {
            let answer = write_store_file(alloc, &receiver, again, place);
            let is_example = receiver.session() == SESSION;
            Ok(format!(in alloc; "{is_example} {} {answer:?}", receiver.kept())?)
        }
        Err(fault) => Ok(format!(in alloc; "Err({fault:?})")?),
    }
}

/// What merging two stores comes to, with what it appends.
pub(crate) fn merge<L: Ledger>(
    alloc: Global,
    both: (&[u8], &[u8]),
    limit: u64,
    into: &mut Vec<u8>,
    steps: &mut Steps<L>,
) -> Told {
    let answer = merge_stores(alloc, &Gf16Plain, both.0, both.1, limit, into, steps);
    Ok(format!(in alloc; "{answer:?}")?)
}
