//! The program `pet-keep` as one call: `keep` opens a journal, keeps the packets that come from a file or a link, each in the
//! journal before the next is taken, and writes the store of all of them.
#![tactic(auto)]

mod command;
mod end;
mod keeping;
mod opened;
mod starting;
mod status;
mod stop;

pub use command::keep;
pub use disk_ends::FileDisk;
pub use end::KeepEnd;
pub use outside_disk::{Disk, MemoryDisk};
pub use starting::{start, start_words};
pub use status::KeepStatus;
pub use store_keeper::{KeepFault, Keeper, StartFault};
