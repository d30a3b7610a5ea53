//! The command `receive`: it reads datagrams from a file or receives them by a link, writes the
//! layers of a session to another file as they are shown, and then the store of all packets that it
//! has kept. The reading, up to the store, is that of `packet_reading`, with the format of today.
//!
//! What it leaves at each of its ends stands in `specs/Receives.antt`: which datagrams were read or
//! have left the link, that LAYERS has their layers text or a front of it, that STORE then has the
//! store of what was kept or a front of it, the numbers of what was read, what may be blamed, and
//! how many field steps were counted at most. It prints the port at which a link receives, and
//! nothing else. The first failure of a file or of the link ends it
//! (`specs/Failures.antt` says which ends tell of one). That LAYERS names exactly the layers that
//! STORE shows, each once, stands in `specs/NamedLayers.antt`. The headline stands in
//! `specs/ReceivesSession.antt`: for every session, and every list of datagrams whose frames with
//! the session's number are packets of the session, LAYERS has each shown layer's exact bytes once,
//! numbered by the arrival that showed it, STORE is the store of the session's packets that were
//! met, the end is Done exactly where every layer is shown, and the packets carry the fewest
//! stripes.
#![tactic(auto)]

mod command;
mod reading;

pub use command::{ReceiveEnd, receive};
pub use packet_reading::Totals;
