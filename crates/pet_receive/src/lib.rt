//! The receiver of one session: it judges datagrams, keeps the packets of the session, and lends out each layer as soon
//! as enough packets of its group are kept.
//!
//! It is the receiver of any format (`packet_receiver`) with FORMAT, over a field whose elements have two bytes. The verdict of
//! a datagram is the defined one by the set of packets kept so far, and every verdict but `Kept` changes nothing. A layer is
//! shown from the very packet on that brings its group to the layer's count, and its bytes are those of the only words that have
//! the kept payloads as their values; where the kept packets are those of a message, they are the message's. A receiver takes in
//! what another has kept, all of it or nothing. Memory is taken only where a group is opened, and by `absorb` for its answer.
#![tactic(auto)]

mod receiver;

pub use packet_verdicts::{Absorb, LayerSet, Verdict};
pub use receiver::Receiver;
