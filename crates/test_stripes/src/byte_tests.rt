//! Tables of the byte profile: the plan of a worked one, and their bounds.
use crate::layers_of;
use crate::sizes::{Sizes, sized};
use std::alloc::{AllocError, Global};
use stripe_plan::{ByteTable, Table, TableFault, datagram_length_by, stripes};
use test_script::first_wrong;

/// Stripes on end of one length: how many, and the length.
type Run = (u32, u16);

static WORKED: [Run; 4] = [(23, 2), (3, 3), (2, 5), (1, 3)];

/// Whether the plan's stripes have the lengths of these runs.
fn has_runs(table: &Table, runs: &[Run]) -> bool {
    let mut plan = table.plan();
    for (times, size) in runs {
        for _ in 0..*times {
            let Some((_, length)) = plan.next() else {
                return false;
            };
            if length != *size {
                return false;
            }
        }
    }
    plan.next().is_none()
}

/// Whether the table of layers of 46, 7 and 15 bytes has a word for each of their bytes, and these runs.
fn is_worked(runs: &[Run]) -> bool {
    let layers = layers_of([(46, 2), (7, 3), (15, 5)]);
    match ByteTable::new(6, &layers) {
        Ok(table) => {
            let plan = table.plan();
            table.layers() == layers.as_slice()
                && (plan.packets(), plan.words(), stripes(plan)) == (6, 68, 29)
                && plan.layers() == layers_of([(92, 2), (14, 3), (30, 5)]).as_slice()
                && datagram_length_by(plan, 1) == 88
                && has_runs(plan, runs)
        }
        Err(_) => false,
    }
}

#[test]
fn has_a_word_for_each_byte(rt: HostRuntime) {
    assert!(rt; is_worked(&WORKED));
}

/// Packets and layers, and why there is no such table.
type Refused = (u16, Sizes, Option<TableFault>);

const FEW: Sizes = &[(1, 2), (1, 0)];

const MANY: Sizes = &[(0, 255); 33];

static REFUSED: [Refused; 13] = [
    (0, FEW, Some(TableFault::Packets)),
    (256, MANY, Some(TableFault::Packets)),
    (255, &[], Some(TableFault::Layers)),
    (255, MANY, Some(TableFault::Layers)),
    (255, &[(0, 255); 32], None),
    (2, FEW, Some(TableFault::Need)),
    (2, &[(1, 2), (1, 3)], Some(TableFault::Need)),
    (1, &[(2_097_153, 2)], Some(TableFault::Need)),
    (1, &[(2_097_152, 1), (1, 1)], Some(TableFault::Sum)),
    (
        1,
        &[(2_147_483_648, 1), (2_147_483_648, 1)],
        Some(TableFault::Sum),
    ),
    (1, &[(2_097_152, 1), (0, 1)], Some(TableFault::Wide)),
    // datagrams of 64,999 and 65,001 bytes, if each stripe had two
    (1, &[(32_476, 1)], None),
    (1, &[(32_477, 1)], Some(TableFault::Wide)),
];

/// Whether the layers of a row are refused so.
fn is_refused(alloc: Global, row: &Refused) -> Result<bool, AllocError> {
    let layers = sized(alloc, row.1)?;
    Ok(ByteTable::new(row.0, &layers).err() == row.2)
}

#[test]
fn refuses_by_the_first_broken_bound(rt: HostRuntime) {
    assert_eq!(rt;
        first_wrong(&REFUSED, |row| is_refused(rt.alloc(), row)),
        None
    );
}
