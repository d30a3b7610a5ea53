//! The command `sample`: it makes a stream of a number, hands the packets of its session that arrive to one receiver, and
//! tells what was made, handed on and received.
//!
//! `specs/Samples.antt` says what it tells. `arrival_order` is the order in which the packets of a group arrive
//! (`specs/Arrivals.antt`), `specs/Showings.antt` when they show a layer, and `summary` the text of what was made and
//! received (`specs/Summary.antt`). It uses no file, and only want of memory ends it otherwise.
#![tactic(auto)]

mod command;
mod made;
mod order;
mod printed;
mod receiving;
mod told;

pub use command::{SampleEnd, sample};
pub use order::{PACKETS, arrival_order};
pub use printed::{Contents, Figures, Showing, summary};
