//! The command `video`: it reads a store, and writes the video that its packets show to OUT.
//!
//! What it leaves at each of its ends stands in `specs/Videos.antt`: the store is read and judged,
//! and OUT is made then; the videos of the session's groups follow in order, up to the first group
//! whose run table does not fit. `specs/StoreVideo.antt` says what the video of a group of a store
//! is; a group whose layer 0 is not shown gives nothing. Beside the bytes of the store one group is
//! held at a time: a receiver of its packets alone, and its video.
//! Nothing is printed: the end carries the number of bytes. The first failure of a file ends it.
//! `specs/VideosSession.antt` says when it is done: a store of packets of a stream's session always
//! has a video, the bytes of the stream that are shown (`specs/StreamVideo.antt`), and the whole
//! stream where every layer is.
#![tactic(auto)]

mod command;
mod files;

pub use command::{VideoEnd, video};
