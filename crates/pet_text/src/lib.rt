//! The texts of the program: the command words that it takes; and, given out again, the lines that the commands print, of
//! `text_answers`, the statuses of `text_status`, the text of `plan` of `text_plan`, the script of `text_script`, the lines of `replay`
//! and `sample` of `text_world`, the stream of `sample` of `stream_sample`, and the line of a link's port of `outside_routes`.
//!
//! `read_words` reads exactly the words of a form, and `read_keep_words` those of `pet-keep`.
#![tactic(auto)]

mod end;
mod files;
mod keep_words;
mod name;
mod numbers;
mod session;
mod told;
mod words;

pub use end::End;
pub use keep_words::{KeepWords, read_keep_words};
pub use name::Name;
pub use outside_routes::bound_line;
pub use stream_sample::sample_stream;
pub use stream_session::GroupMark;
pub use text_answers::{
    least_line, merged_line, migrated_line, receive_line, relay_line, repaired_line, send_line,
    unwrapped_line, video_line, wrapped_line, write_least, write_merged, write_migrated,
    write_receive, write_relay, write_repaired, write_send, write_unwrapped, write_video,
    write_wrapped,
};
pub use text_plan::{
    PlanFault, Repeat, lengths_line, plan_group_line, plan_layer_line, plan_session_line, read_plan,
};
pub use text_script::{ScriptFault, read_script};
pub use text_status::{PlanKind, Status, fault_line};
pub use text_world::{
    sample_arrivals_line, sample_layer_line, sample_packets_line, sample_session_line,
    sample_store_line, sample_stream_line, sample_video_line, shown_line, store_line,
};
pub use told::put_line;
pub use words::{Command, WordsFault, read_words};
