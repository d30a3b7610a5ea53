//! The stream and the priorities, and what they come to.

/// A sequence header, a group of pictures header, an I, a P and two B pictures, and an end code.
pub const STREAM: [u8; 44] = [
    0x00, 0x00, 0x01, 0xB3, 0x11, 0x22, 0x00, 0x00, 0x01, 0xB8, 0x33, 0x00, 0x00, 0x01, 0x00, 0x00,
    0x08, 0x44, 0x00, 0x00, 0x01, 0x00, 0x00, 0x10, 0x55, 0x00, 0x00, 0x01, 0x00, 0x00, 0x18, 0x66,
    0x00, 0x00, 0x01, 0x00, 0x00, 0x18, 0x77, 0x77, 0x00, 0x00, 0x01, 0xB7,
];

/// Three layers: headers and I pictures of need 2, P pictures of need 3, B pictures of need 5, out of 6 packets.
pub const PRIORITIES: &str =
    "packets = 6\n[[layer]]\nname = \"base\"\nkinds = [\"head\", \"I\"]\nneed = 2\n[[layer]]\nname = \"P\"\nkinds = [\"P\"]\nneed = 3\n[[layer]]\nname = \"B\"\nkinds = [\"B\"]\nneed = 5\n";

/// The session number of the stream and the priorities.
pub const SESSION: [u8; 8] = [0xA5, 0xAC, 0x94, 0x61, 0xB0, 0x3B, 0xCF, 0x36];

/// The plan text of the session.
pub const PLAN: &str =
    "session a5ac9461b03bcf36 groups 1 packets 6\ngroup 0 words 35 stripes 15 bound 16 datagram 89\nlayer 0 base bytes 46 need 2 count 2\nlayer 1 P bytes 7 need 3 count 3\nlayer 2 B bytes 15 need 5 count 5\nlengths 2x12 3x1 5x1 3x1\n";
