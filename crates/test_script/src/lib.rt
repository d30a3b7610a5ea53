//! What the tests share: transcripts and what carries out their rows, files in memory, and the example session.
//!
//! A transcript is one `static` text. A row of it is a verb and what the verb is about, and is right or wrong. A family of calls
//! has a type with one verb for each, and one test, which runs its transcript and shows the first rows that are wrong.
//!
//! The example session is a stream, priorities, their plan and their packets, also as stores of the first version, and those of the
//! byte profile. It was made outside, by programs of another language; the old stores by `data/old_stores.py`. No program of this
//! repository uses this crate; `examples/` has the stream and the priorities as files.
#![tactic(auto)]

mod byte_entries;
mod desk;
mod entries;
mod old_stores;
mod parts;
mod quiet;
mod rows;
mod source;
mod transcript;
mod untold;
mod watch;

pub use byte_entries::{BYTE_ENTRY_LENGTH, byte_packets};
pub use desk::Desk;
pub use entries::{ENTRY_LENGTH, packets};
pub use old_stores::{OLD_EMPTY_STORE, old_store, old_wide_store};
pub use parts::{append_part, words_of};
pub use quiet::Quiet;
pub use rows::{first_number_wrong, first_wrong};
pub use source::{PLAN, PRIORITIES, SESSION, STREAM};
pub use transcript::{MOST_WRONG, Rows, wrong_rows};
pub use untold::Untold;
pub use watch::{Watch, Watched};
