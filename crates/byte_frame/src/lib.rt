//! The table, the frame and the encoder of the byte profile.
//!
//! A word of the byte profile has one byte. A `ByteTable` has the layers' own lengths, and its plan is that of the table of twice
//! the lengths; a `ByteFrame` tells these lengths and has one byte for each stripe of that plan. Both are instances of the tables
//! and frames of every format, and stand with them in `stripe_plan` and `packet_frame`; this crate gives them out. A `ByteEncoder`
//! makes the packets of a group as such frames: it is a `PacketEncoder` of that format over a field of 256 elements. `packet` appends
//! exactly the text of the frame with the defined payload, counts exactly one step for each byte of the layers, and leaves what it
//! appends to as it was where it finds no memory.
#![tactic(auto)]

mod encoder;

pub use encoder::ByteEncoder;
pub use packet_frame::{ByteFrame, FrameFault, read_byte_frame};
pub use stripe_plan::{ByteTable, LayerSize, TableFault};
