//! The lines that commands print of what they did: of `check`, `send`, `receive`, `merge`, `video`, `unwrap`, `wrap`, `migrate`, `repair`
//! and `relay`. Each call of a line appends exactly the defined line to what was printed before, or leaves that as it was; the call that
//! writes it to an array leaves it there and takes no memory.
#![tactic(auto)]

mod lines;
mod room;

pub use lines::{
    least_line, merged_line, migrated_line, receive_line, relay_line, repaired_line, send_line,
    unwrapped_line, video_line, wrapped_line,
};
pub use room::{
    write_least, write_merged, write_migrated, write_receive, write_relay, write_repaired,
    write_send, write_unwrapped, write_video, write_wrapped,
};
