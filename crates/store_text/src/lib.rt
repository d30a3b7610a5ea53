//! The text of a store: the file of all packets that a receiver has kept of one session.
//!
//! A form of stores is a value, `StoreForm`: its mark, the bytes of its tag and the format of its frames. The text, what is read
//! of bytes and the first refusal are one function over it, and the stores of today and those of the first version are instances.
//! `specs/Store.antt` defines the text of the packets that are kept, by group, then number, so equal sets have equal texts.
//! `specs/Refusals.antt` defines what is read of bytes, and the first refusal of bytes that are no store. The laws in
//! `specs/laws` say that what is written is read again as the same set, that what is read is written so, and how long a store
//! is. `put_head`, `put_hashed` and `put_tag` put the parts of a store to an output, one after the other.
#![tactic(auto)]

mod fault;
mod format;
mod put;

pub use fault::{BadStore, StoreKind};
pub use format::{HEAD_LENGTH, MARK, OLD_STORE_FORM, STORE_FORM, StoreForm, forms_are};
pub use put::{put_hashed, put_head, put_tag};
