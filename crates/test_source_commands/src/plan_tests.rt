//! `plan` and `check` over objects in memory. Plans and session numbers were computed outside.
use crate::cases::{ALL_GO, Files, NO_TYPE, Run, Stream, is_so};
use command_plan::CheckEnd;
use mpeg_scan::Scan;
use pet_base::NoMemory;
use priority_file::PriorityFault;
use session_source::SourceFault;
use std::alloc::Global;
use stream_session::SessionFault;
use test_script::{PLAN, PRIORITIES, STREAM, first_wrong};

/// The example stream; a head and an I picture; heads in one piece of 64,931 and of 64,933 bytes; groups of ten bytes.
const EXAMPLE: Stream = (&STREAM, &[], 0);

const ONE_PICTURE: Stream = (&[0, 0, 1, 0xB3, 0, 0, 1, 0, 0, 8, 0x44], &[], 0);

const WIDEST: Stream = (&[0, 0, 1, 0xB3], &[0xFF], 64_927);

const TOO_WIDE: Stream = (&[0, 0, 1, 0xB3], &[0xFF], 64_929);

const MANY: Stream = (&[], &[0, 0, 1, 0xB8, 0, 0, 1, 0, 0, 8], 65_536);

const EMPTY: Stream = (&[], &[], 0);

/// A priority file without layers.
const NO_LAYERS: &str = "packets = 4097\n";

/// One packet, which shows all layers.
const ALL_IN_ONE: &str =
    "packets = 1\n[[layer]]\nname = \"base\"\nkinds = [\"head\", \"I\"]\nneed = 1\n[[layer]]\nname = \"P\"\nkinds = [\"P\"]\nneed = 1\n[[layer]]\nname = \"B\"\nkinds = [\"B\"]\nneed = 1\n";

/// The plan of one picture under the example priorities, and of the longest head in one packet.
const ONE_PICTURE_PLAN: &str =
    "session f835625a4d0ea4d0 groups 1 packets 6\ngroup 0 words 10 stripes 5 bound 5 datagram 69\nlayer 0 base bytes 20 need 2 count 2\nlayer 1 P bytes 0 need 3 count 1\nlayer 2 B bytes 0 need 5 count 1\nlengths 2x5\n";

const WIDEST_PLAN: &str =
    "session 2fabc19ee8bc385e groups 1 packets 1\ngroup 0 words 32470 stripes 32470 bound 32470 datagram 64999\nlayer 0 base bytes 64940 need 1 count 1\nlayer 1 P bytes 0 need 1 count 1\nlayer 2 B bytes 0 need 1 count 1\nlengths 1x32470\n";

/// The example priorities with needs that fall and rise, and with the first B picture in the layer of the P pictures.
const NEEDS_IN_ANY_ORDER: &str =
    "packets = 8\n[[layer]]\nname = \"base\"\nkinds = [\"head\", \"I\"]\nneed = 8\n[[layer]]\nname = \"P\"\nkinds = [\"P\"]\nneed = 2\n[[layer]]\nname = \"B\"\nkinds = [\"B\"]\nneed = 5\n";

const FIRST_B_WITH_P: &str =
    "packets = 6\n[[layer]]\nname = \"base\"\nkinds = [\"head\", \"I\"]\nneed = 2\n[[layer]]\nname = \"P\"\nkinds = [\"P\", \"B1\"]\nneed = 3\n[[layer]]\nname = \"B\"\nkinds = [\"B\"]\nneed = 5\n";

/// The plans of the example stream under these.
const ANY_ORDER_PLAN: &str =
    "session cc3127311cef160f groups 1 packets 8\ngroup 0 words 35 stripes 7 bound 7 datagram 73\nlayer 0 base bytes 46 need 8 count 8\nlayer 1 P bytes 7 need 2 count 2\nlayer 2 B bytes 15 need 5 count 5\nlengths 8x2 7x1 2x2 5x1 3x1\n";

const FIRST_B_PLAN: &str =
    "session 7155c4f4ede0094a groups 1 packets 6\ngroup 0 words 34 stripes 15 bound 16 datagram 89\nlayer 0 base bytes 46 need 2 count 2\nlayer 1 P bytes 14 need 3 count 3\nlayer 2 B bytes 8 need 5 count 4\nlengths 2x12 3x2 4x1\n";

const PLANNED: Run = Run::Plan(Ok(PLAN));

const NO_PLACE: Run = Run::Plan(Err(SourceFault::Failed));

const CHECKED: Run = Run::Check(CheckEnd::Done(1));

const NO_PLACE_CHECKED: Run = Run::Check(CheckEnd::PlaceFault);

/// Files, and the command with its end. No file is made, and nothing is printed or sent.
type Row = (Files, Run);

/// The number of the first of these rows that is not so.
fn first_other(alloc: Global, rows: &[Row]) -> Option<usize> {
    first_wrong(
        rows,
        |(files, run)| is_so(alloc, &(*files, ALL_GO, *run, None, 0)),
    )
}

/// Streams and priorities, and their plan or why there is none.
static PLANS: [Row; 10] = [
    ((Some(EXAMPLE), Some(PRIORITIES), None), PLANNED),
    (
        (Some(EXAMPLE), Some(NEEDS_IN_ANY_ORDER), None),
        Run::Plan(Ok(ANY_ORDER_PLAN)),
    ),
    (
        (Some(EXAMPLE), Some(FIRST_B_WITH_P), None),
        Run::Plan(Ok(FIRST_B_PLAN)),
    ),
    // one run, and two empty layers
    (
        (Some(ONE_PICTURE), Some(PRIORITIES), None),
        Run::Plan(Ok(ONE_PICTURE_PLAN)),
    ),
    (
        (Some(WIDEST), Some(ALL_IN_ONE), None),
        Run::Plan(Ok(WIDEST_PLAN)),
    ),
    (
        (Some(TOO_WIDE), Some(ALL_IN_ONE), None),
        Run::Plan(Err(SourceFault::Plan(SessionFault::TooWide(0)))),
    ),
    (
        (Some(MANY), Some(PRIORITIES), None),
        Run::Plan(Err(SourceFault::Plan(SessionFault::TooManyGroups))),
    ),
    (
        (Some(EMPTY), Some(PRIORITIES), None),
        Run::Plan(Err(SourceFault::Stream(Scan::Empty))),
    ),
    (
        (Some((NO_TYPE, &[], 0)), Some(PRIORITIES), None),
        Run::Plan(Err(SourceFault::Stream(Scan::PictureType(4, 5)))),
    ),
    // a bad priority file comes before a bad stream
    (
        (Some(EMPTY), Some(NO_LAYERS), None),
        Run::Plan(Err(SourceFault::Priority(PriorityFault::MissingKey))),
    ),
];

#[test]
fn plans_or_refuses_a_stream(rt: HostRuntime) {
    assert_eq!(rt; first_other(rt.alloc(), &PLANS), None);
}

const NOT_LEAST: Run = Run::Check(CheckEnd::NotLeast(0));

/// Plan files of the example session.
static CHECKS: [Row; 7] = [
    ((Some(EXAMPLE), Some(PRIORITIES), Some(PLAN)), CHECKED),
    (
        (
            Some(EXAMPLE),
            Some(PRIORITIES),
            Some("lengths 2x11 1x1 3x1 1x1 5x1 3x1\n"),
        ),
        NOT_LEAST,
    ),
    (
        (Some(EXAMPLE), Some(PRIORITIES), Some("lengths 2x012\n")),
        Run::Check(CheckEnd::Text(1)),
    ),
    (
        (Some(EXAMPLE), Some(PRIORITIES), Some("")),
        Run::Check(CheckEnd::Lines(0)),
    ),
    (
        (
            Some(EXAMPLE),
            Some(PRIORITIES),
            Some("lengths 2x12 3x1 5x1 3x1\nlengths 2x12 3x1 5x1 3x1"),
        ),
        Run::Check(CheckEnd::Lines(2)),
    ),
    // too few words, and too many
    (
        (
            Some(EXAMPLE),
            Some(PRIORITIES),
            Some("lengths 2x12 3x1 5x1\n"),
        ),
        NOT_LEAST,
    ),
    (
        (
            Some(EXAMPLE),
            Some(PRIORITIES),
            Some("lengths 2x12 3x1 5x1 3x1 4294967295x4294967295\n"),
        ),
        NOT_LEAST,
    ),
];

#[test]
fn checks_plans_of_the_example(rt: HostRuntime) {
    assert_eq!(rt; first_other(rt.alloc(), &CHECKS), None);
}

/// Files that are missing or bad, each judged before the next is read.
static JUDGED: [Row; 10] = [
    ((None, None, None), NO_PLACE_CHECKED),
    ((None, None, None), NO_PLACE),
    // a bad priority file, and a stream that is missing
    (
        (None, Some(NO_LAYERS), None),
        Run::Check(CheckEnd::BadPriority(PriorityFault::MissingKey)),
    ),
    (
        (None, Some(NO_LAYERS), None),
        Run::Plan(Err(SourceFault::Priority(PriorityFault::MissingKey))),
    ),
    ((None, Some(PRIORITIES), None), NO_PLACE_CHECKED),
    ((None, Some(PRIORITIES), None), NO_PLACE),
    // a bad stream, and a plan file that is missing
    (
        (Some(EMPTY), Some(PRIORITIES), None),
        Run::Check(CheckEnd::BadStream(Scan::Empty)),
    ),
    (
        (Some(EMPTY), Some(PRIORITIES), None),
        Run::Plan(Err(SourceFault::Stream(Scan::Empty))),
    ),
    ((Some(EXAMPLE), Some(PRIORITIES), None), NO_PLACE_CHECKED),
    ((Some(EXAMPLE), Some(PRIORITIES), None), PLANNED),
];

#[test]
fn judges_one_file_after_the_other(rt: HostRuntime) {
    assert_eq!(rt; first_other(rt.alloc(), &JUDGED), None);
}

const ALL: Files = (Some(EXAMPLE), Some(PRIORITIES), Some(PLAN));

/// The call of the place that fails, and the command with its end.
type Failing = (&'static [u64], Run);

/// Whether a run of all three files ends so.
fn fails_so(alloc: Global, (calls, run): &Failing) -> Result<bool, NoMemory> {
    is_so(alloc, &(ALL, [*calls, &[]], *run, None, 0))
}

/// Of each file there are three calls: it is entered, has all its bytes taken, and is at its end.
static FAILING: [Failing; 17] = [
    (&[0], NO_PLACE_CHECKED),
    (&[1], NO_PLACE_CHECKED),
    (&[2], NO_PLACE_CHECKED),
    (&[3], NO_PLACE_CHECKED),
    (&[4], NO_PLACE_CHECKED),
    (&[5], NO_PLACE_CHECKED),
    (&[6], NO_PLACE_CHECKED),
    (&[7], NO_PLACE_CHECKED),
    (&[8], NO_PLACE_CHECKED),
    (&[9], CHECKED),
    (&[0], NO_PLACE),
    (&[1], NO_PLACE),
    (&[2], NO_PLACE),
    (&[3], NO_PLACE),
    (&[4], NO_PLACE),
    (&[5], NO_PLACE),
    (&[6], PLANNED),
];

#[test]
fn fails_where_a_call_of_the_outside_does(rt: HostRuntime) {
    assert_eq!(rt;
        first_wrong(&FAILING, |row| fails_so(rt.alloc(), row)),
        None
    );
}
