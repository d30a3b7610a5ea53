//! One open group: the packets that are kept of it, what they tell of each stripe, and its message as far as it is known.
//!
//! An `OpenGroup` takes all its memory when it is opened. Each packet that it keeps adds its point to the state of
//! every stripe, within a bound on the steps. The words of a stripe that is known stand in its state alone until a layer
//! that has one of them is shown, and are written into the message with the very packet that shows it. So a layer can be
//! lent out as soon as as many packets are kept as its count says, with no more work. There is room for the whole
//! message, and it is written no further than the last stripe of a layer that is shown. With the packet that makes the
//! last stripe known every layer is shown, and the states are given back.
//! `specs/OpenGroup.antt` says what is held after packets of some numbers in their order, and `specs/ShownBytes.antt`
//! which bytes a shown layer has: those of the only words that have the kept payloads as their values, and a message's
//! where the kept packets are that message's. All of this holds over any lawful field whose elements have at most two bytes
//! and that has a point for each packet.
#![tactic(auto)]

mod group;
mod hashing;
mod learn;
mod tags;
mod write;

pub use group::OpenGroup;
pub use tags::tag_in;
