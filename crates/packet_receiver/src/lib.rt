//! The receiver of one session of any format, over any field whose elements are the format's words: it judges datagrams,
//! keeps the packets of the session, and lends out each layer as soon as enough packets of its group are kept.
//!
//! A profile's receiver is one of these with its format, as `pet_receive` is that of FORMAT: what it promises is here, by the
//! format (`verdict_in`, `after_in`) and the width of the field (`IsKeptSetBy`). The verdict of a datagram is the defined one by
//! the set of packets kept so far, and every verdict but `Kept` changes nothing. A layer is shown from the very packet on that
//! brings its group to the layer's count, and its bytes are those of the only words that have the kept payloads as their
//! values; where the kept packets are those of a message, they are the message's. A receiver whose words have two bytes takes
//! in what another has kept, all of it or nothing. Memory is taken only where a group is opened, and by `absorb` for its
//! answer.
#![tactic(auto)]

mod checks;
mod has_packets;
mod joining;
mod judge;
mod keeping;
mod opening;
mod receiver;
mod shown;
mod tag;
mod totals;

pub use receiver::PacketReceiver;
