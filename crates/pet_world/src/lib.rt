//! A world of receivers of one session.
//!
//! A world has up to eight receivers, and the encoders of all groups of the session. Packets are handed to a receiver, receivers
//! take in what others have kept, and are written as stores and read again. `specs/ReceivedSets.antt` says which packets each
//! receiver has met, as plain sets of pairs, and which layers each event shows; `specs/World.antt` says that the receivers of a
//! world have kept just these. `step` answers exactly what its event shows, whatever came before. No event is stored, and no set.
//!
//! The laws in `specs/laws/` say it of lists of events (`ManyEvents`): no layer is shown twice to one receiver, by a join, a
//! reopening or a packet (`ShownOnce`), and each answer has its layers by group, then layer (`InOrder`).
#![tactic(auto)]

mod fault;
mod packet;
mod receivers;
mod shown;
mod world;

pub use fault::WorldFault;
pub use pet_base::{Event, Shown};
pub use world::{MAX_RECEIVERS, World, limits_are};
