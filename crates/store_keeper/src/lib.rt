//! A receiver whose packets stand in a journal before they are acknowledged.
//!
//! Meets the definitions in `specs/`: the kept set that a journal's text stands for (`Journal`), and what the calls of a keeper
//! do and leave (`Keeper`). At each moment of `accept` a crash leaves a journal of what was kept before, or of that and the one
//! packet; once `Kept` is answered it leaves one that has the packet. At each moment of `start` it leaves a journal that stands
//! for what one stood for that a crash could have left at its beginning. A call that failed at the disk stops the keeper:
//! from then on nothing changes. A failure comes only where the disk's count of faults rose in the call.
#![tactic(auto)]

mod keeper;
mod kept_frames;

pub use keeper::Keeper;
pub use store_journal::{KeepFault, StartFault};
