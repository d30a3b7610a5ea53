//! The receiver of one session of the byte profile, and the command `breceive`.
//!
//! A `ByteReceiver` judges datagrams and keeps packets as frames of the byte profile: it is a `PacketReceiver` of that format, over a
//! field of 256 elements, and promises of that format what that one does of any. `breceive_loop` is the reading of `packet_reading`
//! with that format and field: `specs/ReceivesBytes.antt` says what it leaves at each of its ends, and `specs/BytesReceived.antt` is
//! its headline, which is that of `receive` over byte sessions and without a store.
#![tactic(auto)]

mod breceive;
mod receiver;

pub use breceive::{ByteEnd, breceive_loop};
pub use packet_verdicts::{LayerSet, Verdict};
pub use receiver::ByteReceiver;
