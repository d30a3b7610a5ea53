//! A complete group made again: the encoder of a group that a receiver has kept, and whether what is kept is what that makes.
//!
//! `encoder_of` takes the layers that a receiver shows of a group as the group's message, each in whole words, and answers the
//! encoder of that message, which makes every packet of the group; or why there is none: the group is not open, or a layer is not
//! shown, and which is the least. `first_unlike` is the least number of a packet that is kept with another payload than the
//! encoder makes. Where the packets are those of a session whose messages have the byte 0 past each odd end, the encoder makes the
//! session's own packets, and none is unlike (`pet_repair` has the laws). Packets are made range by range (`next_count`,
//! `make_range`), since a group may have more of them than fit into memory.
#![tactic(auto)]

mod encoder;
mod fault;
mod message;
mod ranges;
mod unlike;

pub use encoder::encoder_of;
pub use fault::RepairFault;
pub use ranges::{MadeRange, at_once, make_frame, make_range, next_count};
pub use unlike::{find_unlike, first_unlike};
