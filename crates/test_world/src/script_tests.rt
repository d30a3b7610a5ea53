//! Scripts that are read, and those that are not.
use pet_base::Event;
use std::alloc::Global;
use text_script::{ScriptFault, read_script};

/// A script, the groups and packets of the session, and its events or the fault.
type Row = (
    &'static str,
    u32,
    u16,
    Result<&'static [Event], ScriptFault>,
);

static ROWS: [Row; 14] = [
    ("", 1, 6, Ok(&[])),
    (
        "give A 0 5\njoin A A\nreopen H",
        1,
        6,
        Ok(&[
            Event::Give {
                receiver: 0,
                group: 0,
                number: 5,
            },
            Event::Join {
                receiver: 0,
                other: 0,
            },
            Event::Reopen { receiver: 7 },
        ]),
    ),
    (
        "give H 65534 4095\n",
        65_535,
        4_096,
        Ok(&[Event::Give {
            receiver: 7,
            group: 65_534,
            number: 4_095,
        }]),
    ),
    ("give A 0 6\n", 1, 6, Err(ScriptFault::Line(1))),
    ("give A 0 0\ngive A 1 0\n", 1, 6, Err(ScriptFault::Line(2))),
    ("give A 0 0\n", 0, 6, Err(ScriptFault::Line(1))),
    ("give A 0 0\n", 1, 0, Err(ScriptFault::Line(1))),
    ("reopen A\n\n", 1, 6, Err(ScriptFault::Line(2))),
    ("reopen I\n", 1, 6, Err(ScriptFault::Line(1))),
    ("reopen a\n", 1, 6, Err(ScriptFault::Line(1))),
    ("reopen A \n", 1, 6, Err(ScriptFault::Line(1))),
    ("give A 0 01\n", 1, 6, Err(ScriptFault::Line(1))),
    (
        "join A B\njoin A B C\njoin\n",
        1,
        6,
        Err(ScriptFault::Line(2)),
    ),
    (
        "give A 4294967296 0\n",
        65_535,
        6,
        Err(ScriptFault::Line(1)),
    ),
];

/// Whether the script is read so.
fn is_read(alloc: Global, row: &Row) -> bool {
    match (read_script(alloc, row.0.as_bytes(), row.1, row.2), row.3) {
        (Ok(events), Ok(wanted)) => events.as_slice() == wanted,
        (Err(fault), Err(wanted)) => fault == wanted,
        _ => false,
    }
}

/// The number of the first row that is read otherwise.
fn first_other(alloc: Global, rows: &[Row]) -> Option<usize> {
    for row in 0..rows.len() {
        if !is_read(alloc, &rows[row]) {
            return Some(row);
        }
    }
    None
}

#[test]
fn reads_scripts_and_tells_the_first_line_that_is_no_event(rt: HostRuntime) {
    assert_eq!(rt; first_other(rt.alloc(), &ROWS), None);
}
