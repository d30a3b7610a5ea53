//! Sets of kept packets of one session: the verdict of a datagram by such a set, the set after it, and the union of two.
//!
//! `specs/KeptSet.antt` says what a kept set is, `specs/Verdicts.antt` what the verdict of a datagram is, and
//! `specs/Union.antt` what two sets come to and why they cannot be joined; `specs/laws/` has their laws: a union of sets that
//! can be joined is a kept set again, the same whichever set comes first, and joining is associative. The crate has the types
//! of these answers, `Verdict`, `LayerSet` and `Absorb`, answers what can be told by the packets of one group, and reads the
//! group and the number of a datagram that is a frame. It takes no memory but to put newly shown layers into a list.
#![tactic(auto)]

mod clash;
mod datagram;
mod judge;
mod layers;
mod shown;
mod union;
mod verdict;

pub use clash::clash_in;
pub use datagram::{group_of, named_group, named_number, number_of};
pub use judge::{is_other_count, judge_in, shown_next};
pub use layers::{one_if_whole, shown_layers};
pub use shown::push_shown;
pub use union::Absorb;
pub use verdict::{LayerSet, Verdict};
