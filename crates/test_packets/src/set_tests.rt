//! A packet of the example session that is put into a set.
ghost use Rattle.std.specs.Prelude.{◌≡◌, length};

use crate::group_fixtures::header_of;
use packet_set::{PacketSet, Put};
use std::alloc::Global;
use std::test::Fail;
use stripe_plan::datagram_length;
use test_script::packets;

/// The packet that is put.
const FOUR: usize = 4;

/// Whether this payload of the packet is put into a set, and lent by it.
fn is_put(alloc: Global, payload: &[u8]) -> Result<bool, Fail>
    requires { length payload.now ≡ 30 }
{
    let header = header_of(6, 5)?;
    if header.table.layers().len() != 3 || datagram_length(&header.table) != 89 {
        return Ok(false);
    }
    let mut set = PacketSet::new(alloc, &header)?;
    let put = set.put(4, payload);
    Ok(
        put == Put::New
            && set.has(4)
            && set.len() == 1
            && set.payload(4) == Some(payload)
            && set.header().group == 0,
    )
}

#[test]
fn puts_a_packet_into_a_set(rt: HostRuntime) -> Result<(), Fail> {
    let packet = packets()[FOUR];
    assert!(rt; is_put(rt.alloc(), &packet[45..75])?);
    Ok(())
}
