//! A store group by group: the packets of one group at a time, and a receiver of these alone.
//!
//! `read_groups` judges the bytes of a file as the reading of a whole store does, and takes no memory: the packets lend the
//! bytes. `groups_of` says how many groups their session has, `split_group` cuts the packets of a group off the front of those
//! that are left, and `receive_packets` makes a receiver of them. So beside the bytes of the file no more is held than what one
//! group takes. `specs/Groups.antt` says which packets these are, and `specs/laws/GroupLaws.antt` for callers that the group has
//! in such a receiver what it has in one of the whole store.
#![tactic(auto)]

mod groups;

pub use groups::{GroupPackets, groups_of, read_groups, receive_packets, split_group};
