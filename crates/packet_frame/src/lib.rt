//! The frame of one packet: its fields in its bytes, and back.
//!
//! A frame is a session number, the number of groups, a group with its table, a packet's number and a payload of one
//! word for each stripe of the table's plan. It has one text, which ends with a tag by SHA-256. `read_frame` accepts
//! exactly the texts of frames and answers the first refusal of other bytes; `write_frame` appends the text of a
//! frame, which is read back as that frame. Where the payload is made in its place, `begin_frame` appends what is before it,
//! and `end_frame` the tag.
//!
//! A format of frames is a value, `Format`: `read_text` and `write_text` are the one reader and the one writer of every
//! format, and the calls above are instances. `read_old_frame` reads the frames of the first version, and `read_byte_frame`
//! those of the byte profile, which have one byte for each stripe of a plan of twice the lengths. Where a caller goes by any
//! format, `read_planned`, `begin_planned` and `end_planned` read and write a frame by its plan's table.
#![tactic(auto)]

mod byte;
mod fault;
mod format;
mod frame;
mod old;
mod parts;
mod planned;
mod read;
mod text;
mod write;

pub use byte::{ByteFrame, read_byte_frame};
pub use fault::{Field1, FrameFault};
pub use format::{BYTE_FORMAT, FORMAT, Format, OLD_FORMAT, formats_are};
pub use frame::{Frame, Header};
pub use old::{OldFrame, read_old_frame};
pub use parts::{Head, Parts};
pub use planned::{begin_planned, read_planned};
pub use read::read_frame;
pub use text::read_text;
pub use write::{
    append, begin_frame, end_frame, end_planned, frame_length, write_frame, write_text,
};
