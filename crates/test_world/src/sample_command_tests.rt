//! The command `sample`, whole. The texts are those of two programs in Python: one has the first, and another, which was
//! written for these rows, has both. They make the stream, the plan and the packets of docs/FORMATS.md by tables of
//! logarithms, the store of the packets that arrive, and digests with hashlib.
ghost use Rattle.std.specs.Prelude.{◌≡◌, ◌<◌};

use command_sample::{SampleEnd, sample};
use pet_base::{MAX_SAMPLE_GROUPS, Steps};
use std::alloc::Global;
use std::marker::Brand;
use std::sync::ledger::{Blank, Ledger};

/// A seed and a number of groups, and what `sample` tells of them.
struct Row {
    seed: u64,
    groups: u32,
    text: &'static str,
}

const ROWS: [Row; 2] = [
    Row {
        seed: 1,
        groups: 4,
        text: "stream 287844 5444ccf08ae36683
session f7e45f2bc1f8b346
packets 100 datagram 1001
arrivals 384
layer 0 first 60 last 348
layer 1 first 80 last 368
layer 2 first 95 last 383
store 385184 5965dead3a0fa3a4
video 287844 5444ccf08ae36683
",
    },
    Row {
        seed: u64::MAX,
        groups: 2,
        text: "stream 143922 f02b10ae4ccb0349
session b3732ceab233a310
packets 100 datagram 1001
arrivals 192
layer 0 first 60 last 156
layer 1 first 80 last 176
layer 2 first 95 last 191
store 192608 7af1441d4594a280
video 143922 f02b10ae4ccb0349
",
    },
];

/// Whether `sample` tells the text of the row.
fn tells<L: Ledger>(alloc: Global, row: &Row, blank: Blank) -> bool
    requires name { blank.name ≡ L.name }
    requires parts { blank.parts ≡ L.parts }
    requires some { 0 < blank.parts }
{
    if row.groups == 0 || row.groups > MAX_SAMPLE_GROUPS {
        return false;
    }
    let mut steps = Steps::<L>::new(blank);
    match sample(alloc, row.seed, row.groups, &mut steps) {
        SampleEnd::Done(text) => text.as_slice() == row.text.as_bytes(),
        SampleEnd::NoMemory => false,
    }
}

/// The first row of which `sample` tells something else.
fn first_other(alloc: Global, rows: &[Row]) -> Option<usize> {
    for row in 0..rows.len() {
        if !tells::<Brand>(alloc, &rows[row], Blank::new(1)) {
            return Some(row);
        }
    }
    None
}

#[test]
fn tells_what_was_made_and_received(rt: HostRuntime) {
    assert_eq!(rt; first_other(rt.alloc(), &ROWS), None);
}
