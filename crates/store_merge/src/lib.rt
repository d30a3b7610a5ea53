//! Stores read, written and merged: the text and the file of all packets that a receiver has kept of one session.
//!
//! A store is a function of the set of packets (`store_text`): two receivers that have kept the same packets write the same
//! bytes, whatever the order in which these came. `read_store` reads the receiver of a store, or answers its first refusal;
//! `write_store` appends the store of a receiver, or nothing where there is no memory; `read_store_file` and `write_store_file`
//! do it with a file, which is written entry by entry, and made once there is room for an entry.
//!
//! `merge_stores` reads the first, then the second, joins them and writes the store of both; `specs/Merged.antt` defines what
//! two texts come to, or why there is no store of both. `specs/laws/` says for callers that the merged stores do not tell in
//! which order, how often or which two first they were merged. `migrate_store`, which takes a store of the first version over,
//! is that of `store_packets`, given out here.
//! `take_entries` is the step of the reading, for what reads a part of a store (`store_groups`).
#![tactic(auto)]

mod fault;
mod merge;
mod put;
mod read;
mod read_files;
mod write;
mod write_files;

pub use fault::MergeFault;
pub use merge::merge_stores;
pub use read::{read_store, take_entries};
pub use read_files::{StoreStop, read_store_file};
pub use store_packets::{MigrateFault, migrate_store};
pub use store_text::{BadStore, StoreKind};
pub use write::write_store;
pub use write_files::write_store_file;
