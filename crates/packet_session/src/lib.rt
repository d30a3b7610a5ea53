//! What the packets of a session are.
//!
//! `specs/Payload.antt` defines what a packet carries: for each stripe of the table's plan in order, the value at the packet's
//! point of the polynomial that has the stripe's words as its coefficients. `specs/Session.antt` defines a session and all of
//! its packets, and `specs/Encoding.antt` the frames of one group by number, which an encoder makes. The definitions take a
//! field's coding and hold at any width. `specs/laws/SessionLaws.antt` says that the list of a session's packets has each of
//! them and nothing else, and that each is a frame. `specs/Datagrams.antt` defines the datagrams of a group and the datagram
//! file of a session, over the field of 65,536 elements, and `specs/laws/SentLaws.antt` says that what is read of that file is
//! the session's packets, each accepted and in order. `group_cost` is what a group's packets take of the bytes that a session may
//! have.
#![tactic(auto)]

mod cost;

pub use cost::{group_cost, group_cost_by};
