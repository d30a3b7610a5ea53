//! What a datagram names.
ghost use Rattle.std.specs.Prelude.{◌≡◌, ◌≤◌, length, None};
ghost use Rattle.packet_frame.specs.Refusals.{first_fault};
ghost use Rattle.packet_verdicts.specs.Group.{group_in, number_in};

use pet_base::HEAD_LENGTH;

/// Where the number of the group stands in a frame.
const GROUP: usize = 16;

/// Where the packet's number stands.
const NUMBER: usize = 22;

/// The group of a datagram that is known to be a frame, as one is that was kept: read at its place, with nothing checked
/// again.
pub fn group_of(datagram: &[u8]) -> u32
    requires { first_fault datagram.now ≡ None }
    ensures { result ≡ group_in datagram.now }
{
    named_group(datagram)
}

/// The packet's number in a datagram that is known to be a frame: read at its place, with nothing checked again.
pub fn number_of(datagram: &[u8]) -> u16
    requires { first_fault datagram.now ≡ None }
    ensures { result ≡ number_in datagram.now }
{
    named_number(datagram)
}

/// The group that stands in a datagram which has all that is before the layers, as a frame of any format has.
pub fn named_group(datagram: &[u8]) -> u32
    requires { HEAD_LENGTH ≤ length datagram.now }
    ensures { result ≡ group_in datagram.now }
{
    u32::from_be_bytes([
        datagram[GROUP],
        datagram[GROUP + 1],
        datagram[GROUP + 2],
        datagram[GROUP + 3],
    ])
}

/// The packet's number that stands in such a datagram.
pub fn named_number(datagram: &[u8]) -> u16
    requires { HEAD_LENGTH ≤ length datagram.now }
    ensures { result ≡ number_in datagram.now }
{
    u16::from_be_bytes([datagram[NUMBER], datagram[NUMBER + 1]])
}
