//! The commands `repair` and `relay`: a complete group gives back every packet.
//!
//! `repair` reads a store and sends, of each group all of whose layers are shown, all its packets. What it leaves at each of its ends
//! stands in `specs/Repairs.antt`; over packets of one session that is all packets of the session's complete groups. `relay` reads
//! datagrams and sends each that is kept at its arrival, and the other packets of its group where with it the group is complete. What it
//! leaves at each of its ends stands in `specs/Relays.antt`, and arrival by arrival in `specs/Arrival.antt`; over packets of one session
//! that is what the rule of `specs/Relay.antt` sends. The encoder of a kept group, and the check of what is kept against it, are
//! those of `packet_rebuild`.
#![tactic(auto)]

mod again;
mod arriving;
mod relay;
mod relaying;
mod repair;
mod repairing;
mod whole;

pub use packet_rebuild::{RepairFault, encoder_of, first_unlike};
pub use relay::{RelayEnd, relay_loop};
pub use repair::{RepairEnd, repair_loop};
