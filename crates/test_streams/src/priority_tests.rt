//! What the contracts are read against: files that were judged by hand.
use crate::priority_of;
use pet_base::Kind;
use priority_file::{KindSet, LayerRule, Priority, PriorityFault, read_priority};
use std::alloc::{AllocError, Global};
use test_script::first_wrong;

/// Spellings of the example priorities.
static SPELLINGS: [&str; 4] = [
    "packets = 6\n[[layer]]\nname = \"base\"\nkinds = [\"head\", \"I\"]\nneed = 2\n[[layer]]\nname = \"P\"\nkinds = [\"P\"]\nneed = 3\n[[layer]]\nname = \"B\"\nkinds = [\"B\"]\nneed = 5\n",
    "packets = 6\nlayer = [{name = 'base', kinds = ['head', 'I'], need = 2}, {name = 'P', kinds = ['P'], need = 3}, {name = 'B', kinds = ['B'], need = 5}]\n",
    "\"packets\" = 0x6 # packets of a group\r\n[[ \"layer\" ]]\r\n'name' = \"\"\"base\"\"\"\r\nkinds = [\r\n'I', # I before head\r\n'head', ]\r\n\"need\" = +2\r\n[[layer]]\r\nneed = 3\r\nname = 'P'\r\nkinds = ['P']\r\n[['layer']]\r\npercent = 84\r\nname = \"\\u0042\"\r\nkinds = [\"B\"]\r\n",
    "layer = [{kinds = ['head', 'I', 'D'], need = 0b10, name = 'base'}, {percent = 50, name = 'P', kinds = ['P']}, {name = 'B', kinds = ['B'], need = 5}]\npackets = 6\n",
];

/// The bits of the kinds and places of each layer, and its need.
type Rules = &'static [(u32, u16)];

/// An accepted file, and its layers.
type Read = (&'static str, Rules);

static READ: [Read; 8] = [
    (
        "packets = 6\nlayer = [{name = 'base', kinds = ['head', 'I'], percent = 1}, {name = 'P', kinds = ['P'], need = 3}, {name = 'B', kinds = ['B'], percent = 99}]\n",
        &[(19, 1), (4, 3), (8, 5)],
    ),
    (
        "packets = 4096\nlayer = [{name = 'base', kinds = ['head', 'I'], need = 1}, {name = 'abcdefghijklmn-_', kinds = ['P'], percent = 50}, {name = '+', kinds = ['B'], need = 4096}]\n",
        &[(19, 1), (4, 2048), (8, 4096)],
    ),
    (
        "packets = 8\nlayer = [{name = 'base', kinds = ['head', 'I'], need = 8}, {name = 'P', kinds = ['P'], need = 2}, {name = 'B', kinds = ['B'], need = 5}]\n",
        &[(19, 8), (4, 2), (8, 5)],
    ),
    (
        "packets = 6\nlayer = [{name = 'base', kinds = ['head', 'I'], need = 2}, {name = 'P', kinds = ['P'], need = 3}, {name = 'B', kinds = ['B'], need = 5}, {name = 'n0', kinds = [], need = 6}, {name = 'n1', kinds = [], need = 6}]\n",
        &[(19, 2), (4, 3), (8, 5), (0, 6), (0, 6)],
    ),
    (
        "packets = 1\nlayer = [{name = 'base', kinds = ['head', 'I', 'P', 'B', 'D'], percent = 100}]\n",
        &[(31, 1)],
    ),
    (FIRST_B_WITH_P, &[(19, 2), (16_388, 3), (8, 5)]),
    (
        "packets = 6\nlayer = [{name = 'base', kinds = ['P9', 'head', 'I', 'P1'], need = 2}, {name = 'P', kinds = ['P', 'B1'], need = 3}, {name = 'B', kinds = ['B', 'D', 'B9'], need = 5}]\n",
        &[(8_227, 2), (16_388, 3), (4_194_328, 5)],
    ),
    (
        "packets = 6\nlayer = [{name = 'all', kinds = ['head', 'I', 'P', 'B', 'D', 'P1', 'P2', 'P3', 'P4', 'P5', 'P6', 'P7', 'P8', 'P9', 'B1', 'B2', 'B3', 'B4', 'B5', 'B6', 'B7', 'B8', 'B9'], need = 2}]\n",
        &[(8_388_607, 2)],
    ),
];

/// A file, and why it is refused.
type Refused = (&'static str, PriorityFault);

/// One file for each refusal, each with one cause.
static REFUSED: [Refused; 28] = [
    ("packets = ", PriorityFault::Text),
    (
        "more = 1\npackets = 6\nlayer = [{name = 'base', kinds = ['head', 'I'], need = 2}, {name = 'P', kinds = ['P'], need = 3}, {name = 'B', kinds = ['B'], need = 5}]\n",
        PriorityFault::UnknownKey,
    ),
    (
        "packets = 6\nlayer = [{name = 'base', kinds = ['head', 'I', 'P', 'B', 'B'], need = 2}]\n",
        PriorityFault::KindTwice,
    ),
    (
        "packets = 6\nlayer = [{name = 'base', kinds = ['head', 'I'], need = 2}, {name = 'P', kinds = ['P'], need = 3}, {name = 'B', kinds = ['B'], need = 5, more = 1}]\n",
        PriorityFault::UnknownKey,
    ),
    (
        "packets = 6\nlayer = [{name = 'base', kinds = ['head', 'I'], need = 2}, {name = 'P', kinds = ['P'], need = 3}, {name = 'B', kinds = ['B'], need = 5, percent = 50}]\n",
        PriorityFault::UnknownKey,
    ),
    ("packets = 6\n", PriorityFault::MissingKey),
    (
        "packets = 6\nlayer = [{name = 'base', kinds = ['head', 'I'], need = 2}, {name = 'P', kinds = ['P'], need = 3}, {name = 'B', kinds = ['B']}]\n",
        PriorityFault::MissingKey,
    ),
    (
        "packets = 6.0\nlayer = [{name = 'base', kinds = ['head', 'I'], need = 2}, {name = 'P', kinds = ['P'], need = 3}, {name = 'B', kinds = ['B'], need = 5}]\n",
        PriorityFault::WrongType,
    ),
    ("packets.most = 6\nlayer = []\n", PriorityFault::WrongType),
    (
        "packets = 6\nlayer = [{name = 'base', kinds = ['head', 'I'], need = 2}, {name = 'P', kinds = ['P'], need = 3}, {name = 'B', kinds = ['B'], need = 5}, 3]\n",
        PriorityFault::WrongType,
    ),
    (
        "packets = 6\nlayer = [{name = 'base', kinds = ['head', 'I'], need = 2}, {name = 'P', kinds = ['P'], need = 3}, {name = 'B', kinds = ['B', 'A'], need = 5}]\n",
        PriorityFault::WrongType,
    ),
    (
        "packets = -6\nlayer = [{name = 'base', kinds = ['head', 'I'], need = 2}, {name = 'P', kinds = ['P'], need = 3}, {name = 'B', kinds = ['B'], need = 5}]\n",
        PriorityFault::PacketsRange,
    ),
    (
        "packets = 4097\nlayer = [{name = 'base', kinds = ['head', 'I'], need = 2}, {name = 'P', kinds = ['P'], need = 3}, {name = 'B', kinds = ['B'], need = 5}]\n",
        PriorityFault::PacketsRange,
    ),
    (
        "packets = 6\nlayer = [{name = 'base', kinds = ['head', 'I'], need = 2}, {name = 'P', kinds = ['P'], need = 3}, {name = 'B', kinds = ['B'], need = 7}]\n",
        PriorityFault::NeedRange,
    ),
    (
        "packets = 6\nlayer = [{name = 'base', kinds = ['head', 'I'], need = 2}, {name = 'P', kinds = ['P'], need = 3}, {name = 'B', kinds = ['B'], percent = 101}]\n",
        PriorityFault::NeedRange,
    ),
    (
        "packets = 6\nlayer = [{name = 'base', kinds = ['head', 'I'], need = 2}, {name = 'P', kinds = ['P'], need = 3}, {name = 'B ', kinds = ['B'], need = 5}]\n",
        PriorityFault::Name,
    ),
    (
        "packets = 6\nlayer = [{name = 'base', kinds = ['head', 'I'], need = 2}, {name = 'P', kinds = ['P'], need = 3}, {name = 'abcdefghijklmnopq', kinds = ['B'], need = 5}]\n",
        PriorityFault::Name,
    ),
    (
        "packets = 6\nlayer = [{name = 'base', kinds = ['head', 'I'], need = 2}, {name = 'P', kinds = ['P'], need = 3}, {name = 'P', kinds = ['B'], need = 5}]\n",
        PriorityFault::Name,
    ),
    (
        "packets = 6\nlayer = [{name = 'base', kinds = ['head', 'I'], need = 2}, {name = 'P', kinds = ['P'], need = 3}, {name = 'B', kinds = ['B', 'P'], need = 5}]\n",
        PriorityFault::KindTwice,
    ),
    (
        "packets = 6\nlayer = [{name = 'base', kinds = ['head', 'I'], need = 2}, {name = 'P', kinds = ['P'], need = 3}, {name = 'B', kinds = ['B', 'B'], need = 5}]\n",
        PriorityFault::KindTwice,
    ),
    (
        "packets = 6\nlayer = [{name = 'base', kinds = ['head', 'I'], need = 2}, {name = 'P', kinds = ['P'], need = 3}, {name = 'B', kinds = ['D'], need = 5}]\n",
        PriorityFault::KindMissing,
    ),
    (
        "packets = 6\nlayer = [{name = 'base', kinds = ['I'], need = 2}, {name = 'P', kinds = ['P', 'head'], need = 3}, {name = 'B', kinds = ['B'], need = 5}]\n",
        PriorityFault::HeadNotFirst,
    ),
    (
        "packets = 6\nlayer = [{name = 'base', kinds = ['head', 'I'], need = 2}, {name = 'P', kinds = ['P', 'P1', 'P1'], need = 3}, {name = 'B', kinds = ['B'], need = 5}]\n",
        PriorityFault::KindTwice,
    ),
    (
        "packets = 6\nlayer = [{name = 'base', kinds = ['head', 'I', 'B2'], need = 2}, {name = 'P', kinds = ['P'], need = 3}, {name = 'B', kinds = ['B', 'B2'], need = 5}]\n",
        PriorityFault::KindTwice,
    ),
    (
        "packets = 6\nlayer = [{name = 'base', kinds = ['head', 'I'], need = 2}, {name = 'P', kinds = ['P', 'P0'], need = 3}, {name = 'B', kinds = ['B'], need = 5}]\n",
        PriorityFault::WrongType,
    ),
    (
        "packets = 6\nlayer = [{name = 'base', kinds = ['head', 'I'], need = 2}, {name = 'P', kinds = ['P'], need = 3}, {name = 'B', kinds = ['B', 'B10'], need = 5}]\n",
        PriorityFault::WrongType,
    ),
    (
        "packets = 6\nlayer = [{name = 'base', kinds = ['head', 'I', 'I1'], need = 2}, {name = 'P', kinds = ['P'], need = 3}, {name = 'B', kinds = ['B'], need = 5}]\n",
        PriorityFault::WrongType,
    ),
    (
        "packets = 6\nlayer = [{name = 'base', kinds = ['head', 'I'], need = 2}, {name = 'P', kinds = ['P1', 'P2'], need = 3}, {name = 'B', kinds = ['B'], need = 5}]\n",
        PriorityFault::KindMissing,
    ),
];

/// Files with two causes or more, of which the first is the answer.
static REFUSED_FIRST: [Refused; 15] = [
    ("more = 1\npackets = ", PriorityFault::Text),
    (
        "packets = 99999999999999999999\nmore = 1\n",
        PriorityFault::Text,
    ),
    ("layer = [{more = 1}]\n", PriorityFault::UnknownKey),
    (
        "packets = 6\nlayer = 3\nmore = 1\n",
        PriorityFault::UnknownKey,
    ),
    (
        "packets = 'six'\nlayer = [3, {name = 1}]\n",
        PriorityFault::MissingKey,
    ),
    (
        "packets = 0\nlayer = {name = 'base'}\n",
        PriorityFault::WrongType,
    ),
    (
        "packets = 0\nlayer = [{name = 'base', kinds = ['head', 'I'], need = 0}, {name = 'P', kinds = ['P'], need = 3}, {name = 'B', kinds = ['B'], need = 5}]\n",
        PriorityFault::PacketsRange,
    ),
    (
        "packets = 6\nlayer = [{name = 'base', kinds = ['head', 'I'], need = 0}, {name = '', kinds = ['P'], need = 3}, {name = 'B', kinds = ['B'], need = 5}]\n",
        PriorityFault::NeedRange,
    ),
    (
        "packets = 6\nlayer = [{name = 'base', kinds = ['head', 'I'], need = 2}, {name = '', kinds = ['I'], need = 3}, {name = 'B', kinds = ['B'], need = 5}]\n",
        PriorityFault::Name,
    ),
    (
        "packets = 6\nlayer = [{name = 'base', kinds = ['head', 'I'], need = 2}, {name = 'P', kinds = ['P'], need = 3}, {name = 'b a', kinds = ['B'], need = 1}]\n",
        PriorityFault::Name,
    ),
    (
        "packets = 6\nlayer = [{name = 'base', kinds = ['head', 'I'], need = 2}, {name = 'P', kinds = ['I'], need = 3}, {name = 'B', kinds = ['B'], need = 5}]\n",
        PriorityFault::KindTwice,
    ),
    (
        "packets = 6\nlayer = [{name = 'base', kinds = ['I'], need = 2}, {name = 'P', kinds = ['P'], need = 3}, {name = 'B', kinds = ['B'], need = 5}]\n",
        PriorityFault::KindMissing,
    ),
    (
        "packets = 6\nlayer = [{name = 'base', kinds = ['I'], need = 5}, {name = 'P', kinds = ['P', 'head'], need = 3}, {name = 'B', kinds = ['B'], need = 5}]\n",
        PriorityFault::HeadNotFirst,
    ),
    (
        "packets = 4097\nlayer = [{name = 'base', kinds = ['head', 'I'], need = 2}, {name = 'P', kinds = ['P', 'P0'], need = 3}, {name = 'B', kinds = ['B'], need = 5}]\n",
        PriorityFault::WrongType,
    ),
    (
        "packets = 6\nlayer = [{name = 'base', kinds = ['head', 'I', 'P1', 'P1'], need = 2}, {name = 'B', kinds = ['B'], need = 5}]\n",
        PriorityFault::KindTwice,
    ),
];

/// The example priorities with the first B picture of a group beside the P pictures.
const FIRST_B_WITH_P: &str =
    "packets = 6\nlayer = [{name = 'base', kinds = ['head', 'I'], need = 2}, {name = 'P', kinds = ['P', 'B1'], need = 3}, {name = 'B', kinds = ['B'], need = 5}]\n";

/// Packets, layers, and whether these are a priority.
type Made = (u16, Rules, bool);

static MADE: [Made; 12] = [
    (8, &[(19, 8), (4, 2), (8, 5)], true),
    (4_096, &[(31, 4_096)], true),
    (4_097, &[(31, 1)], false),
    (0, &[(31, 1)], false),
    (6, &[(31, 7)], false),
    (6, &[(31, 0)], false),
    (6, &[(19, 2), (16_388, 3), (8, 5)], true),
    (6, &[(16_403, 2), (16_388, 3), (8, 5)], false),
    (6, &[(19, 2), (4, 3), (12, 5)], false),
    (6, &[(19, 2), (36, 3)], false),
    (6, &[(18, 2), (13, 3)], false),
    (6, &[], false),
];

fn fault_of(alloc: Global, bytes: &[u8]) -> Option<PriorityFault> {
    read_priority(alloc, bytes).err()
}

fn is_rule(rule: &LayerRule, name: &str, bits: u32, need: u16) -> bool {
    rule.name.as_str() == name && rule.kinds.bits == bits && rule.need == need
}

fn is_example(priority: &Priority) -> bool {
    match priority.layers.as_slice() {
        [base, p, b] => {
            priority.packets == 6
                && is_rule(base, "base", 19, 2)
                && is_rule(p, "P", 4, 3)
                && is_rule(b, "B", 8, 5)
        }
        _ => false,
    }
}

/// Whether these are layers of these kinds and places and of these needs.
fn has_layers(layers: &[LayerRule], wanted: &[(u32, u16)]) -> bool {
    layers.len() == wanted.len()
        && layers.iter().zip(wanted.iter()).all(|(rule, (bits, need))| rule.kinds.bits == *bits
            && rule.need == *need)
}

/// A file of one layer with every kind, and of an empty layer for each name of one byte.
fn with_empty_layers(alloc: Global, names: &[u8]) -> Result<Vec<u8>, AllocError> {
    let mut text = Vec::new(alloc);
    text.extend_from_slice(
        b"packets = 6\nlayer = [{name = 'all', kinds = ['head', 'I', 'P', 'B'], need = 2}",
    )?;
    for name in names {
        text.extend_from_slice(b", {name = '")?;
        text.push(*name)?;
        text.extend_from_slice(b"', kinds = [], need = 6}")?;
    }
    text.extend_from_slice(b"]\n")?;
    Ok(text)
}

fn spaces(alloc: Global, count: usize) -> Result<Vec<u8>, AllocError> {
    let mut bytes = Vec::new(alloc);
    bytes.resize(count, b' ')?;
    Ok(bytes)
}

/// Whether a text is read as a priority of the example, with these layers of a D picture and of the first B picture.
fn is_read_as_example(alloc: Global, text: &str) -> Result<bool, PriorityFault> {
    let priority = read_priority(alloc, text.as_bytes())?;
    Ok(
        is_example(&priority)
            && priority.layer_of(Kind::D, 0) == 0
            && priority.layer_of(Kind::B, 1) == 2,
    )
}

#[test]
fn reads_each_spelling_of_the_example_priorities(rt: HostRuntime) {
    assert_eq!(rt;
        first_wrong(&SPELLINGS, |row| is_read_as_example(rt.alloc(), row)),
        None
    );
}

/// Whether the file of a row is read as a priority with its layers.
fn is_read(alloc: Global, row: &Read) -> Result<bool, PriorityFault> {
    let priority = read_priority(alloc, row.0.as_bytes())?;
    Ok(has_layers(priority.layers.as_slice(), row.1))
}

#[test]
fn reads_kinds_places_and_needs(rt: HostRuntime) {
    assert_eq!(rt; first_wrong(&READ, |row| is_read(rt.alloc(), row)), None);
}

/// The layers of the first, the second and the tenth B picture of a group, of the first P picture and of the first I picture.
fn layers_by_place(alloc: Global, text: &str) -> Option<[u8; 5]> {
    let priority = read_priority(alloc, text.as_bytes()).ok()?;
    Some([
        priority.layer_of(Kind::B, 1),
        priority.layer_of(Kind::B, 2),
        priority.layer_of(Kind::B, 10),
        priority.layer_of(Kind::P, 1),
        priority.layer_of(Kind::I, 1),
    ])
}

/// Whether the set of the P pictures and of the first B picture of a group has that kind and that place alone.
fn has_p_and_first_b_alone() -> bool {
    let set = KindSet { bits: 16_388 };
    set.has(Kind::P)
        && !set.has(Kind::B)
        && set.has_place(Kind::B, 1)
        && !set.has_place(Kind::P, 1)
        && !set.has_place(Kind::B, 9)
}

#[test]
fn gives_a_listed_place_its_layer(rt: HostRuntime) {
    let layers = layers_by_place(rt.alloc(), FIRST_B_WITH_P);
    assert_eq!(rt; layers, Some([1, 2, 2, 1, 0]));
    assert!(rt; has_p_and_first_b_alone());
}

/// Whether the layers of a row are a priority exactly where that is told.
fn is_made(row: &Made) -> bool {
    priority_of(row.0, row.1).is_some() == row.2
}

#[test]
fn makes_a_priority_within_its_bounds(rt: HostRuntime) {
    assert_eq!(rt; MADE.iter().position(|row| !is_made(row)), None);
}

/// Why files of 32 layers and of 33 are refused.
fn faults_of_layers(alloc: Global) -> Result<[Option<PriorityFault>; 2], AllocError> {
    let most = with_empty_layers(alloc, b"abcdefghijklmnopqrstuvwxyz01234")?;
    let more = with_empty_layers(alloc, b"abcdefghijklmnopqrstuvwxyz012345")?;
    Ok([fault_of(alloc, &most), fault_of(alloc, &more)])
}

#[test]
fn reads_at_most_32_layers(rt: HostRuntime) {
    let told = faults_of_layers(rt.alloc());
    assert_eq!(rt; told, Ok([None, Some(PriorityFault::TooManyLayers)]));
}

/// Whether the file of a row is refused for its cause.
fn is_refused(alloc: Global, row: &Refused) -> bool {
    fault_of(alloc, row.0.as_bytes()) == Some(row.1)
}

#[test]
fn refuses_by_the_first_cause(rt: HostRuntime) {
    assert_eq!(rt;
        REFUSED.iter().position(|row| !is_refused(rt.alloc(), row)),
        None
    );
    assert_eq!(rt;
        REFUSED_FIRST
            .iter()
            .position(|row| !is_refused(rt.alloc(), row)),
        None
    );
}

/// Why files are refused that are no text, of 65,536 spaces, and of one more.
fn faults_of_bytes(alloc: Global) -> Result<[Option<PriorityFault>; 3], AllocError> {
    let longest = spaces(alloc, 65_536)?;
    let longer = spaces(alloc, 65_537)?;
    Ok([
        fault_of(alloc, b"# \xff\n"),
        fault_of(alloc, &longest),
        fault_of(alloc, &longer),
    ])
}

#[test]
fn refuses_bytes_that_are_no_text_and_a_file_past_the_limit(rt: HostRuntime) {
    let told = faults_of_bytes(rt.alloc());
    assert_eq!(rt;
        told,
        Ok([
            Some(PriorityFault::Text),
            Some(PriorityFault::MissingKey),
            Some(PriorityFault::Long)
        ])
    );
}
