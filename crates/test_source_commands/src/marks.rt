//! Marks of groups, which were made outside, and the end of `send` where they differ.
ghost use Rattle.std.specs.Prelude.{◌≡◌};

use command_send::{Change, SendEnd};
use stream_session::GroupMark;

/// The marks of the example stream, and of that stream with 0x34 at offset 10.
pub const EXAMPLE_MARK: GroupMark = GroupMark {
    length: 44,
    digest: [0x95, 0xEC, 0x98, 0x51, 0x62, 0xB5, 0xB4, 0x18],
};

pub const CHANGED_MARK: GroupMark = GroupMark {
    length: 44,
    digest: [0x5C, 0x02, 0x93, 0x2E, 0x5D, 0x5D, 0x06, 0x78],
};

/// The marks of the three groups of `GROUPS`.
pub const FIRST_MARK: GroupMark = GroupMark {
    length: 11,
    digest: [0xBA, 0x9B, 0xE9, 0xCE, 0x6C, 0xD4, 0x21, 0x69],
};

pub const SECOND_MARK: GroupMark = GroupMark {
    length: 11,
    digest: [0x9E, 0x28, 0x34, 0xBC, 0x33, 0x23, 0x0F, 0xBD],
};

pub const THIRD_MARK: GroupMark = GroupMark {
    length: 11,
    digest: [0x38, 0x7B, 0x49, 0x89, 0x48, 0xD5, 0x4B, 0xBD],
};

/// The mark of a group that is not found.
pub const NO_MARK: GroupMark = GroupMark {
    length: 0,
    digest: [0; 8],
};

/// The end where the marks of this group differ.
pub fn changed_at(group: u32, first: GroupMark, second: GroupMark) -> SendEnd
    ensures { result ≡ SendEnd.Changed (record { group = group; first = first; second = second }) }
{
    SendEnd::Changed(Change {
        group,
        first,
        second,
    })
}
