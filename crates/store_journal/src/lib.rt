//! A journal of frames on a disk that may crash.
//!
//! Meets the definitions in `specs/`: the text of a journal and the set that it stands for (`Text`), a journal that is whole on its
//! disk and what adding a frame leaves (`AtRest`), and what opening one answers and leaves (`Opening`). The set is that of any
//! receiver (`Receive`): the journal knows of a frame only whether it is kept.
//!
//! A frame counts from the write on that opens its gate, one byte, which stood closed on the disk with the whole frame behind it.
//! So at each moment of `append` a crash leaves the frames from before, or these and the one more; and at each moment of `open` it
//! leaves what is read as a text is that a crash could have left at first.
#![tactic(auto)]

mod adding;
mod fault;
mod mending;
mod opening;
mod reading;
mod receive;

pub use adding::append;
pub use fault::{KeepFault, StartFault};
pub use opening::open;
pub use receive::Receive;
