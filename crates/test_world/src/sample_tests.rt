//! The packets that arrive in `sample`, and what it prints of them. A program in Python has both: it makes the stream, the
//! layers, the plan and the packets of docs/FORMATS.md by tables of logarithms, the store of the packets that arrive, and
//! digests with hashlib.
use command_sample::{Contents, Figures, Showing, arrival_order, summary};

const ORDER: [u16; 96] = [
    0, 37, 11, 48, 85, 22, 59, 96, 33, 70, 7, 44, 81, 18, 55, 92, 29, 66, 3, 40, 77, 14, 51, 88,
    25, 62, 36, 73, 10, 47, 84, 21, 58, 95, 32, 69, 6, 43, 80, 17, 54, 91, 28, 65, 2, 39, 76, 13,
    50, 87, 61, 98, 35, 72, 9, 46, 83, 20, 57, 94, 31, 68, 5, 42, 79, 16, 53, 90, 27, 64, 1, 38,
    75, 12, 86, 23, 60, 97, 34, 71, 8, 45, 82, 19, 56, 93, 30, 67, 4, 41, 78, 15, 52, 89, 26, 63,
];

#[test]
fn hands_on_the_packets_of_a_group(rt: HostRuntime) {
    assert!(rt; arrival_order().as_slice() == ORDER.as_slice());
}

const STREAM: Contents = Contents {
    bytes: 287_844,
    digest: [0x54, 0x44, 0xCC, 0xF0, 0x8A, 0xE3, 0x66, 0x83],
};

/// What comes of `sample 1 4`.
const FIGURES: Figures = Figures {
    stream: STREAM,
    session: [0xF7, 0xE4, 0x5F, 0x2B, 0xC1, 0xF8, 0xB3, 0x46],
    datagram: 1001,
    arrivals: 384,
    base: Showing {
        first: 60,
        last: 348,
    },
    predicted: Showing {
        first: 80,
        last: 368,
    },
    between: Showing {
        first: 95,
        last: 383,
    },
    store: Contents {
        bytes: 385_184,
        digest: [0x59, 0x65, 0xDE, 0xAD, 0x3A, 0x0F, 0xA3, 0xA4],
    },
    video: STREAM,
};

const SUMMARY: &str = "stream 287844 5444ccf08ae36683
session f7e45f2bc1f8b346
packets 100 datagram 1001
arrivals 384
layer 0 first 60 last 348
layer 1 first 80 last 368
layer 2 first 95 last 383
store 385184 5965dead3a0fa3a4
video 287844 5444ccf08ae36683
";

#[test]
fn prints_the_summary(rt: HostRuntime) {
    let text = summary(rt.alloc(), &FIGURES).expect(&rt, "memory");
    assert!(rt; text.as_slice() == SUMMARY.as_bytes());
}
