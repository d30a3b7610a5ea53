//! Where the datagrams of a command come from or go to: a datagram file, or an address of a link.
//!
//! `next_datagram` receives one datagram of either, and `specs/Coming.antt` says what it did to the datagrams that are still to
//! come, told or not: a datagram has left them, or there are none. `open_route` makes a route ready to take datagrams, and
//! `put_datagram` sends one: `specs/Sending.antt` says what was sent, to a file as an entry, of which a front may stand there after a
//! failure, and by a link as it is. A failure is told as one of the place or of the link, and `specs/RouteFaults.antt` says which
//! cause each has. `is_host_and_port` judges the text of an address (`specs/Address.antt`), and `bound_line` is the line of the
//! port at which a link receives (`specs/Bound.antt`). The laws for callers stand in `specs/laws/`.
#![tactic(auto)]

mod address;
mod bound;
mod fault;
mod receiving;
mod route;
mod sending;

pub use address::is_host_and_port;
pub use bound::bound_line;
pub use fault::{RouteFailed, RouteStop};
pub use receiving::next_datagram;
pub use route::{Route, route_at};
pub use sending::{open_route, put_datagram, put_entry};
