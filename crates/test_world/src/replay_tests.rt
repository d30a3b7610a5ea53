//! `replay` over files in memory. The digests are those of a program in Python, as in `world_tests`.
ghost use Rattle.std.specs.Prelude.{◌≡◌, ◌<◌};

use command_replay::{ReplayEnd, replay};
use pet_base::{MemoryPlace, NoMemory, Steps};
use std::alloc::{AllocError, Global};
use std::marker::Brand;
use std::sync::ledger::{Blank, Ledger};
use stream_session::SessionFault;
use test_script::{PRIORITIES, STREAM};

/// A text: its front, and bytes that follow it so many times.
type Text = (&'static [u8], &'static [u8], u32);

/// The stream `s`, the priorities `f`, and the script `t`, where it is there.
type Files = (Text, &'static str, Option<Text>);

/// How it ends.
#[derive(Clone, Copy)]
enum End {
    /// With this text.
    Text(&'static str),
    PlaceFault,
    Plan(SessionFault),
    Script(u64),
}

const EXAMPLE: Text = (&STREAM, &[], 0);

/// A head of 64,931 bytes, all of it shown by one of so many packets of 64,999 bytes.
const WIDEST: Text = (&[0, 0, 1, 0xB3], &[0xFF], 64_927);

const AT_THE_LIMIT: &str =
    "packets = 1032\n[[layer]]\nname = \"base\"\nkinds = [\"head\", \"I\"]\nneed = 1\n[[layer]]\nname = \"P\"\nkinds = [\"P\"]\nneed = 1\n[[layer]]\nname = \"B\"\nkinds = [\"B\"]\nneed = 1\n";

const PAST_THE_LIMIT: &str =
    "packets = 1033\n[[layer]]\nname = \"base\"\nkinds = [\"head\", \"I\"]\nneed = 1\n[[layer]]\nname = \"P\"\nkinds = [\"P\"]\nneed = 1\n[[layer]]\nname = \"B\"\nkinds = [\"B\"]\nneed = 1\n";

static ROWS: [(Files, End); 10] = [
    (
        (
            EXAMPLE,
            PRIORITIES,
            Some((
                b"give A 0 0\ngive B 0 1\njoin A B\nreopen A\njoin A B\n",
                &[],
                0,
            )),
        ),
        End::Text(
            "event 3 receiver A group 0 layer 0 bytes 46 digest 194afb7a279a5b89\nstore A datagrams 2 digest e58b8d2bd15ccb4d\nstore B datagrams 1 digest 259dc66123b8ca42\n",
        ),
    ),
    (
        (
            EXAMPLE,
            PRIORITIES,
            Some((
                b"give A 0 0\ngive B 0 1\njoin A B\nreopen A\njoin A B\ngive A 1 0\n",
                &[],
                0,
            )),
        ),
        End::Script(6),
    ),
    (
        (EXAMPLE, PRIORITIES, Some((b"join A A\n", &[], 0))),
        End::Text(""),
    ),
    ((EXAMPLE, PRIORITIES, Some((b"", &[], 0))), End::Text("")),
    (
        (EXAMPLE, PRIORITIES, Some((b"give A 0 6\n", &[], 0))),
        End::Script(1),
    ),
    // of a script that is too long no line is told
    (
        (EXAMPLE, PRIORITIES, Some((b"", b"x", 1_048_576))),
        End::Script(1),
    ),
    (
        (EXAMPLE, PRIORITIES, Some((b"", b"x", 1_048_577))),
        End::Script(0),
    ),
    ((EXAMPLE, PRIORITIES, None), End::PlaceFault),
    // the plan is judged before the script is looked at
    (
        (WIDEST, PAST_THE_LIMIT, None),
        End::Plan(SessionFault::TooLarge(0)),
    ),
    ((WIDEST, AT_THE_LIMIT, None), End::PlaceFault),
];

/// The bytes of a text.
fn bytes_of(alloc: Global, (front, part, times): &Text) -> Result<Vec<u8>, AllocError> {
    let mut bytes = Vec::from_slice(alloc, *front)?;
    for _ in 0..*times {
        bytes.extend_from_slice(*part)?;
    }
    Ok(bytes)
}

/// A place that has these files.
fn place_of(alloc: Global, (stream, priorities, script): &Files) -> Result<MemoryPlace, NoMemory> {
    let mut place = MemoryPlace::new(alloc, Vec::new(alloc));
    place.add("s", &bytes_of(alloc, stream)?)?;
    place.add("f", priorities.as_bytes())?;
    if let Some(text) = script {
        place.add("t", &bytes_of(alloc, text)?)?;
    }
    Ok(place)
}

/// Whether it ends so.
fn is_end(ended: &ReplayEnd, end: End) -> bool {
    match end {
        End::Text(text) => match ended {
            ReplayEnd::Done(bytes) => bytes.as_slice() == text.as_bytes(),
            _ => false,
        },
        End::PlaceFault => *ended == ReplayEnd::PlaceFault,
        End::Plan(fault) => *ended == ReplayEnd::BadPlan(fault),
        End::Script(line) => *ended == ReplayEnd::BadScript(line),
    }
}

/// Whether `replay` of these files ends so.
fn ends<L: Ledger>(alloc: Global, row: &(Files, End), blank: Blank) -> Result<bool, NoMemory>
    requires name { blank.name ≡ L.name }
    requires parts { blank.parts ≡ L.parts }
    requires some { 0 < blank.parts }
{
    let mut steps = Steps::<L>::new(blank);
    let mut place = place_of(alloc, &row.0)?;
    let ended = replay(alloc, "s", "f", "t", &mut place, &mut steps);
    Ok(is_end(&ended, row.1))
}

/// The number of the first row that ends otherwise.
fn first_other(alloc: Global, rows: &[(Files, End)]) -> Option<usize> {
    for row in 0..rows.len() {
        if !ends::<Brand>(alloc, &rows[row], Blank::new(1)).unwrap_or(false) {
            return Some(row);
        }
    }
    None
}

#[test]
fn prints_what_a_script_shows_and_leaves_or_tells_its_first_line_that_is_no_event(rt: HostRuntime) {
    assert_eq!(rt; first_other(rt.alloc(), &ROWS), None);
}
