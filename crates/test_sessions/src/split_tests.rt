//! The example stream in groups and layers, and the limits.
use arrayvec::ArrayVec;
use layer_split::{
    GroupCut, NamedRun, Run, SplitFault, Splitter, layer_bytes, message, read_run_table, split,
};
use pet_base::{Kind, MAX_LAYERS, NoMemory};
use std::alloc::Global;
use test_script::STREAM;
use test_streams::{EXAMPLE_PIECES, piece, pieces_on_end, priority_of, three_layers};

const P: u32 = 4;

const B: u32 = 8;

const HEAD_I_D: u32 = 1 + 2 + 16;

/// The bit of a place of the P pictures, and of one of the B pictures.
const P9: u32 = 1 << 13;

const B1: u32 = 1 << 14;

/// The kinds and places of layers 1 and 2; pieces that stand on end, each a kind, its code and its bytes; and for each
/// group its runs, a layer, a start and a length each, and the lengths of its layers. Layer 0 has the other kinds.
type Split = (
    u32,
    u32,
    &'static [(Kind, u8, u64)],
    &'static [(&'static [(u8, u64, u32)], [u32; 3])],
);

static SPLIT: [Split; 6] = [
    (
        P,
        B,
        &EXAMPLE_PIECES,
        &[(
            &[(0, 0, 18), (1, 18, 7), (2, 25, 15), (0, 40, 4)],
            [46, 7, 15],
        )],
    ),
    (
        P + B1,
        B,
        &EXAMPLE_PIECES,
        &[(
            &[(0, 0, 18), (1, 18, 14), (2, 32, 8), (0, 40, 4)],
            [46, 14, 8],
        )],
    ),
    // places are counted from 1 in each group
    (
        P + B1,
        B,
        &[
            (Kind::Head, 0xB8, 5),
            (Kind::P, 0, 6),
            (Kind::B, 0, 6),
            (Kind::B, 0, 6),
            (Kind::Head, 0xB8, 5),
            (Kind::B, 0, 6),
            (Kind::P, 0, 6),
        ],
        &[
            (&[(0, 0, 5), (1, 5, 12), (2, 17, 6)], [24, 12, 6]),
            (&[(0, 23, 5), (1, 28, 12)], [19, 12, 0]),
        ],
    ),
    // the tenth picture goes with its kind
    (
        P,
        B + P9,
        &[(Kind::P, 0, 6); 10],
        &[(&[(1, 0, 48), (2, 48, 6), (1, 54, 6)], [19, 54, 6])],
    ),
    // layers without pieces are empty
    (
        P,
        B,
        &[(Kind::Head, 0xB3, 4), (Kind::I, 0, 7)],
        &[(&[(0, 0, 11)], [20, 0, 0])],
    ),
    // a head behind a picture begins a group
    (
        P,
        B,
        &[
            (Kind::Head, 0xB8, 5),
            (Kind::I, 0, 6),
            (Kind::Head, 0xB8, 5),
            (Kind::I, 0, 6),
        ],
        &[(&[(0, 0, 11)], [20, 0, 0]), (&[(0, 11, 11)], [20, 0, 0])],
    ),
];

/// Whether a group has these runs, and layers of these lengths.
pub(crate) fn is_cut(cut: &GroupCut, runs: &[(u8, u64, u32)], lengths: &[u32; 3]) -> bool {
    cut.lengths.as_slice() == lengths.as_slice()
        && cut.runs.len() == runs.len()
        && cut
            .runs
            .iter()
            .zip(runs)
            .all(|(run, wanted)| (run.layer, run.at, run.len) == *wanted)
}

/// The groups of such a stream.
fn cuts_of(alloc: Global, (second, third, kinds, _): &Split) -> Result<Vec<GroupCut>, SplitFault> {
    let rules = [(HEAD_I_D, 2), (*second, 3), (*third, 5)];
    match (priority_of(6, &rules), pieces_on_end(alloc, kinds)) {
        (Some(priority), Ok(pieces)) => split(alloc, &pieces, &priority),
        _ => Err(SplitFault::NoMemory),
    }
}

/// Whether a stream has these groups.
fn is_split(alloc: Global, case: &Split) -> bool {
    match cuts_of(alloc, case) {
        Ok(cuts) => {
            cuts.len() == case.3.len()
                && cuts
                    .iter()
                    .zip(case.3)
                    .all(|(cut, (runs, lengths))| is_cut(cut, runs, lengths))
        }
        Err(_) => false,
    }
}

/// The number of the first row that is split otherwise.
fn first_wrong(alloc: Global, cases: &[Split]) -> Option<usize> {
    for row in 0..cases.len() {
        if !is_split(alloc, &cases[row]) {
            return Some(row);
        }
    }
    None
}

#[test]
fn splits_streams_into_groups_and_layers(rt: HostRuntime) {
    assert_eq!(rt; first_wrong(rt.alloc(), &SPLIT), None);
}

/// The runs of the example stream.
const RUNS: [Run; 4] = [
    Run {
        layer: 0,
        at: 0,
        len: 18,
    },
    Run {
        layer: 1,
        at: 18,
        len: 7,
    },
    Run {
        layer: 2,
        at: 25,
        len: 15,
    },
    Run {
        layer: 0,
        at: 40,
        len: 4,
    },
];

/// Its run table.
const TABLE: [u8; 24] = [
    0, 0, 0, 4, 0, 0, 0, 0, 0x12, 1, 0, 0, 0, 7, 2, 0, 0, 0, 0x0F, 0, 0, 0, 0, 4,
];

/// Layer 0 of the example stream, and its message behind that.
fn layer_and_message(alloc: Global) -> Result<Vec<u8>, NoMemory> {
    let runs = Vec::from_array(alloc, RUNS)?;
    let mut lengths: ArrayVec<u32, MAX_LAYERS> = ArrayVec::new();
    lengths.push(46);
    lengths.push(7);
    lengths.push(15);
    let mut cut = GroupCut { runs, lengths };
    cut.rebase(0);
    let mut bytes = Vec::new(alloc);
    layer_bytes(&STREAM, &cut, 0, &mut bytes)?;
    message(&STREAM, &cut, &mut bytes)?;
    Ok(bytes)
}

/// Whether these are a layer of 46 bytes that begins with the run table, and a message of 70 whose layer 1 stands at 46.
fn are_layer_and_message(bytes: &[u8]) -> bool {
    bytes.len() == 116
        && bytes.starts_with(&TABLE)
        && bytes.get(92..100) == Some([0, 0, 1, 0, 0, 0x10, 0x55, 0].as_slice())
}

#[test]
fn gives_the_layers_and_the_message_of_the_example_stream(rt: HostRuntime) {
    let bytes = layer_and_message(rt.alloc()).expect(&rt, "memory");
    assert!(rt; are_layer_and_message(&bytes));
}

/// A layer 0 of 46 bytes that begins with the run table of the example stream.
const LAYER_0: [u8; 46] = [
    0, 0, 0, 4, 0, 0, 0, 0, 0x12, 1, 0, 0, 0, 7, 2, 0, 0, 0, 0x0F, 0, 0, 0, 0, 4, 0, 0, 0, 0, 0, 0,
    0, 0, 0, 0, 0, 0, 0, 0, 0, 0, 0, 0, 0, 0, 0, 0,
];

const NAMED: [NamedRun; 4] = [
    NamedRun { layer: 0, len: 18 },
    NamedRun { layer: 1, len: 7 },
    NamedRun { layer: 2, len: 15 },
    NamedRun { layer: 0, len: 4 },
];

/// Whether the run table of such a layer 0 fits layers of these lengths, and has the runs; or whether it does not fit.
fn fits(alloc: Global, lengths: &[u32; 3], fits: bool) -> bool {
    match read_run_table(alloc, &LAYER_0, lengths) {
        Ok(Some(runs)) => fits && runs.as_slice() == NAMED.as_slice(),
        Ok(None) => !fits,
        Err(NoMemory) => false,
    }
}

#[test]
fn reads_the_run_table_of_the_example_stream(rt: HostRuntime) {
    assert!(rt; fits(rt.alloc(), &[46, 7, 15], true));
    assert!(rt; fits(rt.alloc(), &[46, 8, 14], false));
}

/// Why a stream of one head of so many bytes is refused.
fn fault_of(alloc: Global, length: u64) -> Option<SplitFault> {
    match three_layers(6, [2, 3, 5]) {
        Some(priority) => split(alloc, &[piece(Kind::Head, 0xB3, 0, length)], &priority).err(),
        None => Some(SplitFault::NoMemory),
    }
}

#[test]
fn refuses_a_group_of_one_byte_too_many(rt: HostRuntime) {
    assert!(rt; fault_of(rt.alloc(), 4_194_295).is_none());
    assert!(rt;
        matches!(
            fault_of(rt.alloc(), 4_194_296),
            Some(SplitFault::GroupTooLong(0))
        )
    );
}

/// Adds so many groups of a head and a picture.
fn add_groups(splitter: &mut Splitter, count: u32) -> Result<(), SplitFault> {
    for _group in 0..count {
        splitter.add(&piece(Kind::Head, 0xB8, 0, 4))?;
        splitter.add(&piece(Kind::I, 0, 4, 6))?;
    }
    Ok(())
}

/// Whether the head of a group too many is refused, and the end of the stream behind it, for the groups.
fn refuses_again(mut splitter: Splitter) -> bool {
    add_groups(&mut splitter, 65_535).is_ok()
        && matches!(
            splitter.add(&piece(Kind::Head, 0xB8, 0, 4)),
            Err(SplitFault::TooManyGroups)
        )
        && matches!(splitter.finish(), Err(SplitFault::TooManyGroups))
}

#[test]
fn refuses_one_group_too_many_again_at_the_next_call(rt: HostRuntime) {
    let priority = three_layers(6, [2, 3, 5]).expect(&rt, "a priority");
    let splitter = Splitter::new(rt.alloc(), &priority).expect(&rt, "memory");
    assert!(rt; refuses_again(splitter));
}
