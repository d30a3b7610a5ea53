//! The loop that sends the packets of one group of a session.
//!
//! `put_group` sends exactly the packets of an encoder's group on a route, by number: to a file as their entries, each the
//! length of a packet in two bytes and then the packet, or by a link as they are; where it stops the first of them are there.
//! `specs/laws/DatagramLaws.antt` says for callers how the packets of ranges and groups go together, and that the entries of
//! all groups in order are the datagram file of the session (`packet_session`).
#![tactic(auto)]

mod group;

pub use group::put_group;
