//! The packets of a group that arrive.
ghost use Rattle.std.specs.Prelude.{◌≡◌};
ghost use Rattle.command_sample.specs.Arrivals.{arrivals_of_group};

use arrayvec::ArrayVec;

/// The packets of each group.
pub const PACKETS: u16 = 100;

/// How many of them arrive.
pub(crate) const ARRIVING: u32 = 96;

/// How far one number is from the next, modulo the packets.
const STRIDE: u16 = 37;

/// Of so many numbers one is lost.
const LOST_OF: u16 = 25;

/// The remainder of those that are lost.
const LOST: u16 = 24;

/// The numbers of the packets of a group that arrive, in the order in which they do: 96.
pub fn arrival_order() -> ArrayVec<u16, 100>
    ensures { result.items ≡ arrivals_of_group }
{
    let mut order = ArrayVec::new();
    for place in 0..PACKETS {
        let number = STRIDE * place % PACKETS;
        if number % LOST_OF != LOST {
            order.push(number);
        }
    }
    order
}
