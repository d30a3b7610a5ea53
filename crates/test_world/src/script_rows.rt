//! Scripts of a session of two groups, and what its receivers are shown and keep. A program in Python made the scripts from a
//! number, and has the rest by plain sets of pairs: a layer is shown at 2, 3 or 5 numbers of its group.

/// A script, the layers that its events show, each with the event's number, the receiver and the group, and how many
/// packets each receiver has kept.
pub(crate) struct Row {
    pub(crate) script: &'static str,
    pub(crate) shown: &'static [(usize, u8, u32, u8)],
    pub(crate) kept: [u32; 8],
}

pub(crate) static ROWS: [Row; 10] = [
    Row {
        script: "give B 1 3\njoin B A\ngive A 0 2\ngive A 0 3\ngive B 0 3\njoin B A\ngive A 0 2\nreopen A\n\
            give A 0 4\ngive B 0 4\nreopen B\ngive A 0 4\n",
        shown: &[(4, 0, 0, 0), (6, 1, 0, 0), (9, 0, 0, 1), (10, 1, 0, 1)],
        kept: [3, 4, 0, 0, 0, 0, 0, 0],
    },
    Row {
        script: "give B 1 1\nreopen A\njoin A A\ngive A 0 2\ngive A 1 4\ngive A 1 2\nreopen A\ngive B 1 2\n\
            give B 1 1\njoin B A\ngive A 0 1\ngive A 0 0\n",
        shown: &[
            (6, 0, 1, 0),
            (8, 1, 1, 0),
            (10, 1, 1, 1),
            (11, 0, 0, 0),
            (12, 0, 0, 1),
        ],
        kept: [5, 4, 0, 0, 0, 0, 0, 0],
    },
    Row {
        script: "reopen A\ngive A 0 5\ngive A 0 2\ngive A 1 0\njoin B A\ngive B 0 5\njoin A A\ngive A 1 1\n\
            give B 1 2\ngive A 0 5\ngive B 1 1\nreopen B\n",
        shown: &[
            (3, 0, 0, 0),
            (5, 1, 0, 0),
            (8, 0, 1, 0),
            (9, 1, 1, 0),
            (11, 1, 1, 1),
        ],
        kept: [4, 5, 0, 0, 0, 0, 0, 0],
    },
    Row {
        script: "join B B\ngive B 1 0\ngive C 0 0\njoin C B\njoin B C\ngive C 1 1\ngive C 1 2\nreopen A\n\
            join B C\nreopen B\ngive A 1 5\ngive B 1 4\njoin A A\ngive A 1 5\ngive A 0 5\njoin C B\n\
            give A 1 3\ngive C 1 2\n",
        shown: &[
            (6, 2, 1, 0),
            (7, 2, 1, 1),
            (9, 1, 1, 0),
            (9, 1, 1, 1),
            (17, 0, 1, 0),
        ],
        kept: [3, 5, 5, 0, 0, 0, 0, 0],
    },
    Row {
        script: "give C 0 2\njoin C B\ngive B 1 0\ngive B 0 4\ngive A 0 0\ngive C 1 4\ngive A 1 1\n\
            reopen B\ngive B 1 2\ngive C 1 0\ngive C 0 2\ngive A 1 1\ngive A 0 2\nreopen C\njoin C B\n\
            give C 0 1\nreopen C\njoin B C\n",
        shown: &[
            (9, 1, 1, 0),
            (10, 2, 1, 0),
            (13, 0, 0, 0),
            (15, 2, 0, 0),
            (15, 2, 1, 1),
            (16, 2, 0, 1),
            (18, 1, 0, 0),
            (18, 1, 0, 1),
            (18, 1, 1, 1),
        ],
        kept: [3, 6, 6, 0, 0, 0, 0, 0],
    },
    Row {
        script: "join B C\njoin B B\ngive C 1 2\ngive B 1 1\njoin C C\ngive C 1 2\njoin A B\ngive B 0 2\n\
            give B 0 0\njoin C C\ngive C 1 4\njoin A C\njoin C B\ngive A 0 4\ngive A 1 4\nreopen B\n\
            join B A\ngive C 1 1\n",
        shown: &[
            (9, 1, 0, 0),
            (11, 2, 1, 0),
            (12, 0, 1, 0),
            (12, 0, 1, 1),
            (13, 2, 0, 0),
            (13, 2, 1, 1),
            (17, 1, 0, 1),
            (17, 1, 1, 0),
            (17, 1, 1, 1),
        ],
        kept: [4, 6, 5, 0, 0, 0, 0, 0],
    },
    Row {
        script: "give A 1 1\njoin C C\njoin A B\ngive A 0 4\ngive A 0 3\ngive B 0 5\ngive B 1 0\n\
            give C 1 2\ngive A 0 2\nreopen C\nreopen B\njoin B B\ngive A 1 0\njoin C B\ngive A 1 3\n\
            give C 1 1\nreopen B\nreopen A\n",
        shown: &[
            (5, 0, 0, 0),
            (9, 0, 0, 1),
            (13, 0, 1, 0),
            (14, 2, 1, 0),
            (15, 0, 1, 1),
            (16, 2, 1, 1),
        ],
        kept: [6, 2, 4, 0, 0, 0, 0, 0],
    },
    Row {
        script: "join C C\nreopen A\ngive C 1 2\ngive E 0 3\ngive F 0 5\ngive E 1 5\ngive D 1 0\njoin G H\n\
            reopen B\ngive F 1 0\njoin G H\ngive B 0 5\njoin C C\ngive D 1 2\njoin C G\ngive F 1 1\n\
            give C 1 2\ngive B 1 2\ngive G 0 2\njoin E C\njoin C E\njoin F E\nreopen A\ngive C 1 5\n\
            give C 0 2\ngive H 1 2\ngive D 1 1\ngive C 0 5\n",
        shown: &[
            (14, 3, 1, 0),
            (16, 5, 1, 0),
            (20, 4, 1, 0),
            (21, 2, 1, 0),
            (22, 5, 0, 0),
            (22, 5, 1, 1),
            (25, 2, 0, 0),
            (27, 3, 1, 1),
            (28, 2, 0, 1),
        ],
        kept: [0, 2, 5, 3, 3, 6, 1, 1],
    },
    Row {
        script: "give C 0 4\nreopen A\ngive E 1 3\njoin D A\ngive B 1 1\njoin D F\ngive F 1 2\ngive F 0 1\n\
            join H G\njoin E C\ngive B 1 3\ngive H 0 5\ngive A 1 4\njoin E G\njoin B C\nreopen E\n\
            join C E\nreopen F\ngive G 1 0\ngive B 1 1\nreopen B\ngive F 0 2\nreopen B\ngive E 1 5\n\
            give B 1 5\nreopen G\njoin C E\ngive A 1 0\n",
        shown: &[
            (11, 1, 1, 0),
            (22, 5, 0, 0),
            (24, 4, 1, 0),
            (25, 1, 1, 1),
            (27, 2, 1, 0),
            (28, 0, 1, 0),
        ],
        kept: [2, 4, 3, 0, 3, 3, 1, 1],
    },
    Row {
        script: "give H 1 4\ngive B 1 4\ngive D 0 4\njoin H E\nreopen H\njoin G G\ngive D 1 3\ngive B 0 0\n\
            reopen G\njoin G F\ngive H 1 5\njoin H B\ngive D 1 4\nreopen B\ngive G 0 4\nreopen D\n\
            give F 1 0\njoin E B\nreopen C\ngive F 0 2\nreopen G\njoin F G\nreopen D\ngive D 1 5\n\
            reopen A\ngive B 0 3\ngive H 0 5\njoin B H\n",
        shown: &[
            (11, 7, 1, 0),
            (13, 3, 1, 0),
            (22, 5, 0, 0),
            (24, 3, 1, 1),
            (26, 1, 0, 0),
            (27, 7, 0, 0),
            (28, 1, 0, 1),
            (28, 1, 1, 0),
        ],
        kept: [0, 5, 0, 4, 2, 3, 1, 4],
    },
];
