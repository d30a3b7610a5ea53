//! The printed lines of `replay` and of `sample`.
//!
//! Each call appends exactly the line that `specs/` defines, or leaves what it was to extend as it was.
#![tactic(auto)]

mod replay_lines;
mod sample_lines;

pub use replay_lines::{shown_line, store_line};
pub use sample_lines::{
    sample_arrivals_line, sample_layer_line, sample_packets_line, sample_session_line,
    sample_store_line, sample_stream_line, sample_video_line,
};
