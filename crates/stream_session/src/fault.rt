//! Why a stream has no session.

/// Why an accepted stream has no session under a priority: the first cause that holds, in this order.
#[derive(Clone, Copy, Debug, PartialEq, Eq)]
pub enum SessionFault {
    /// The priority has so many packets, more than 255, in the byte profile.
    ManyPackets(u16),
    /// The layers of this group, counted from 0, have more than 4,194,304 bytes, run table included.
    GroupTooLong(u32),
    /// More than 65,535 groups, of which the first 65,535 are not too long.
    TooManyGroups,
    /// The layers of this group, counted from 0, have more than 2,097,152 bytes, run table included, in the byte profile.
    ByteLong(u32),
    /// The datagrams of this group, counted from 0, would have more than 65,000 bytes, at two bytes for each stripe.
    TooWide(u32),
    /// With this group the packets times their datagram lengths, summed from group 0, pass 536,870,912 bytes, or
    /// the lower limit at which the session is judged.
    TooLarge(u32),
    /// No memory was found. Nothing is said of the stream.
    NoMemory,
}
