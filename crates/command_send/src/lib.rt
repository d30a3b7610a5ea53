//! The commands `send` and `bsend`: each sends the packets of the session that a stream and a priority
//! file are to a datagram file or by a link, `bsend` those of the byte profile. `send_by` does so in any
//! format, and both stand on it.
//!
//! What it leaves at each of its ends stands in `specs/Sends.antt`; `specs/SendsSession.antt` says
//! when it is done. The stream is read twice, and none of it is held but the group that has not
//! ended and the last portion: the first reading gives each group's mark and table, and the second
//! sends each group whose mark and table are those. The first failure of a file or of the link ends
//! it (`specs/Failures.antt` says which ends tell of one).
#![tactic(auto)]

mod command;
mod fault;
mod job;
mod second;
mod sent_group;
mod session;
mod table;

pub use command::{SendEnd, bsend, send, send_by};
pub use sent_group::Change;
pub use session::Sent;
