//! A store of a session of two groups, read group by group.
use field_elements::Gf16Plain;
use pet_base::{MAX_SESSION, Steps};
use pet_receive::Receiver;
use std::alloc::Global;
use std::sync::ledger::Ledger;
use store_groups::{groups_of, read_groups, receive_packets, split_group};
use store_text::BadStore;

/// Which of the packets 0 to 3 of two groups the receiver has kept.
pub(crate) type Kept = [[bool; 4]; 2];

/// Which the receiver has kept of a group.
fn kept_in(receiver: &Receiver<'_, Gf16Plain>, group: u32) -> [bool; 4] {
    [
        receiver.has(group, 0),
        receiver.has(group, 1),
        receiver.has(group, 2),
        receiver.has(group, 3),
    ]
}

/// Which packets of a store of two groups the receiver of each of them has kept.
pub(crate) fn kept_each<L: Ledger>(
    alloc: Global,
    bytes: &[u8],
    steps: &mut Steps<L>,
) -> Result<[Kept; 2], BadStore> {
    let field = Gf16Plain;
    let packets = read_groups(bytes)?;
    if groups_of(&packets) != 2 {
        return Ok([[[false; 4]; 2]; 2]);
    }
    let (zero, above) = split_group(&packets, 0);
    let (one, _) = split_group(&above, 1);
    let first = receive_packets(alloc, &field, &zero, MAX_SESSION, steps)?;
    let second = receive_packets(alloc, &field, &one, MAX_SESSION, steps)?;
    Ok([
        [kept_in(&first, 0), kept_in(&first, 1)],
        [kept_in(&second, 0), kept_in(&second, 1)],
    ])
}
