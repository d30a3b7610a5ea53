//! The text of a plan, and the plan file that is read again.
ghost use Rattle.std.specs.Prelude.{◌≡◌, ◌↔◌, length, IsTrue};

use pet_base::NoMemory;
use priority_file::{Priority, read_priority};
use std::alloc::Global;
use stripe_plan::Table;
use test_script::PRIORITIES;
use test_stripes::{layer, layers_of};
use text_plan::{
    PlanFault, Repeat, lengths_line, plan_group_line, plan_layer_line, plan_session_line,
    plan_text, read_plan,
};

/// The lengths and needs of three layers, and their line behind a byte that is there.
type Row = ([(u32, u16); 3], &'static str);

static ROWS: [Row; 5] = [
    ([(46, 2), (7, 3), (15, 5)], ">lengths 2x12 3x1 5x1 3x1\n"),
    ([(46, 8), (7, 2), (15, 5)], ">lengths 8x2 7x1 2x2 5x1 3x1\n"),
    ([(46, 2), (14, 3), (8, 5)], ">lengths 2x12 3x2 4x1\n"),
    ([(20, 2), (0, 3), (0, 5)], ">lengths 2x5\n"),
    ([(0, 2), (0, 3), (0, 5)], ">lengths\n"),
];

/// The line of the layers, behind a byte.
fn lengths_of(alloc: Global, sizes: [(u32, u16); 3]) -> Result<Vec<u8>, NoMemory> {
    let mut text = Vec::from_slice(alloc, b">")?;
    if let Ok(table) = Table::new(8, &layers_of(sizes)) {
        lengths_line(alloc, &table, &mut text)?;
    }
    Ok(text)
}

/// Whether the line is so.
fn is_printed(alloc: Global, (sizes, line): &Row) -> bool {
    match lengths_of(alloc, *sizes) {
        Ok(text) => text.as_slice() == line.as_bytes(),
        Err(NoMemory) => false,
    }
}

/// The number of the first row that has another line.
fn first_other(alloc: Global, cases: &[Row]) -> Option<usize> {
    for row in 0..cases.len() {
        if !is_printed(alloc, &cases[row]) {
            return Some(row);
        }
    }
    None
}

#[test]
fn prints_rows_of_equal_lengths(rt: HostRuntime) {
    assert_eq!(rt; first_other(rt.alloc(), &ROWS), None);
}

/// Plan files, and their lists, or the line that is refused.
type File = (&'static str, Result<&'static [&'static [Repeat]], u64>);

static FILES: [File; 21] = [
    (
        "session 00\ngroup 0\nlengths 2x12 3x1 5x1 3x1\n\nlength 0x0\nlengths 4294967295x1",
        Ok(&[
            &[
                Repeat {
                    length: 2,
                    times: 12,
                },
                Repeat {
                    length: 3,
                    times: 1,
                },
                Repeat {
                    length: 5,
                    times: 1,
                },
                Repeat {
                    length: 3,
                    times: 1,
                },
            ],
            &[Repeat {
                length: 4294967295,
                times: 1,
            }],
        ]),
    ),
    ("", Ok(&[])),
    (
        "xlengths 1x1\nlengths 1x1 1x1",
        Ok(&[&[
            Repeat {
                length: 1,
                times: 1,
            },
            Repeat {
                length: 1,
                times: 1,
            },
        ]]),
    ),
    ("lengths 2x012", Err(1)),
    ("lengths", Err(1)),
    ("lengths\n", Err(1)),
    ("lengths ", Err(1)),
    ("\n\nlengths 2x1 ", Err(3)),
    ("lengths 2x1\nlengths 2x1  2x1\nlengths", Err(2)),
    ("lengths 0x1", Err(1)),
    ("lengths 1x0", Err(1)),
    ("lengths 4294967296x1", Err(1)),
    ("lengths 1x18446744073709551617", Err(1)),
    ("lengths x1", Err(1)),
    ("lengths 1x", Err(1)),
    ("lengths 1", Err(1)),
    ("lengths 1x1x1", Err(1)),
    ("lengths 1X1", Err(1)),
    ("lengths 1x1\r\n", Err(1)),
    ("lengths2x1", Err(1)),
    ("lengthss", Err(1)),
];

/// Whether a plan file has these lists, or is refused at this line.
fn is_read(alloc: Global, (text, wanted): &File) -> bool {
    match (read_plan(alloc, text.as_bytes()), *wanted) {
        (Ok(lists), Ok(wanted)) => {
            lists.len() == wanted.len()
                && lists
                    .iter()
                    .zip(wanted)
                    .all(|(list, wanted)| list.as_slice() == *wanted)
        }
        (Err(PlanFault::Text(line)), Err(wanted)) => line == wanted,
        _ => false,
    }
}

/// The number of the first row that is read otherwise.
fn first_wrong(alloc: Global, cases: &[File]) -> Option<usize> {
    for row in 0..cases.len() {
        if !is_read(alloc, &cases[row]) {
            return Some(row);
        }
    }
    None
}

#[test]
fn reads_the_lists_of_a_plan_or_refuses_a_line(rt: HostRuntime) {
    assert_eq!(rt; first_wrong(rt.alloc(), &FILES), None);
}

const PLAN: &[u8] = b"session 00010203fcfdfeff groups 2 packets 6
group 0 words 35 stripes 15 bound 16 datagram 89
layer 0 base bytes 46 need 2 count 2
layer 1 P bytes 7 need 3 count 3
layer 2 B bytes 15 need 5 count 5
lengths 2x12 3x1 5x1 3x1
group 1 words 10 stripes 5 bound 5 datagram 69
layer 0 base bytes 20 need 2 count 2
layer 1 P bytes 0 need 3 count 1
layer 2 B bytes 0 need 5 count 1
lengths 2x5
";

/// The text of two groups of the example priorities.
fn plan_of_two(alloc: Global) -> Result<Vec<u8>, NoMemory> {
    let mut text = Vec::new(alloc);
    let Ok(priority) = read_priority(alloc, PRIORITIES.as_bytes()) else {
        return Ok(text);
    };
    let Ok(first) = Table::new(6, &layers_of([(46, 2), (7, 3), (15, 5)])) else {
        return Ok(text);
    };
    let Ok(second) = Table::new(6, &layers_of([(20, 2), (0, 3), (0, 5)])) else {
        return Ok(text);
    };
    if has_its_layers(&priority, &first) && has_its_layers(&priority, &second) {
        let session = [0, 1, 2, 3, 0xFC, 0xFD, 0xFE, 0xFF];
        plan_text(alloc, &session, &priority, &[first, second], &mut text)?;
    }
    Ok(text)
}

fn has_its_layers(priority: &Priority, table: &Table) -> bool
    ensures { IsTrue result ↔ (length table.now.layers ≡ length priority.now.layers) }
{
    table.layers().len() == priority.layers.len()
}

#[test]
fn prints_the_plan_of_two_groups(rt: HostRuntime) {
    let text = plan_of_two(rt.alloc()).expect(&rt, "memory");
    assert!(rt; text.as_slice() == PLAN);
}

const SESSION: [u8; 8] = [0xa5, 0xac, 0x94, 0x61, 0xb0, 0x3b, 0xcf, 0x36];

const LINES: &[u8] =
    b"session a5ac9461b03bcf36 groups 1 packets 6\ngroup 0 words 35 stripes 15 bound 16 datagram 89\nlayer 0 base bytes 46 need 2 count 2\n";

/// The lines of a session, a group and a layer.
fn lines(alloc: Global) -> Result<Vec<u8>, NoMemory> {
    let mut text = Vec::new(alloc);
    plan_session_line(alloc, &SESSION, 1, 6, &mut text)?;
    plan_group_line(alloc, 0, 35, 15, 16, 89, &mut text)?;
    plan_layer_line(alloc, 0, "base", &layer(46, 2), 2, &mut text)?;
    Ok(text)
}

#[test]
fn prints_the_lines_of_plan(rt: HostRuntime) {
    let text = lines(rt.alloc()).expect(&rt, "memory");
    assert!(rt; text.as_slice() == LINES);
}
