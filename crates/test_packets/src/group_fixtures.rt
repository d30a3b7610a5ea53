//! The group of the example stream, which several tests send.
ghost use Rattle.std.specs.Prelude.{◌≡◌, IfOk};

use packet_frame::Header;
use std::test::Fail;
use stripe_plan::{LayerSize, Table};
use test_script::SESSION;

/// The message of the group, under the example priorities.
pub const MESSAGE: [u8; 70] = [
    0x00, 0x00, 0x00, 0x04, 0x00, 0x00, 0x00, 0x00, 0x12, 0x01, 0x00, 0x00, 0x00, 0x07, 0x02, 0x00,
    0x00, 0x00, 0x0F, 0x00, 0x00, 0x00, 0x00, 0x04, 0x00, 0x00, 0x01, 0xB3, 0x11, 0x22, 0x00, 0x00,
    0x01, 0xB8, 0x33, 0x00, 0x00, 0x01, 0x00, 0x00, 0x08, 0x44, 0x00, 0x00, 0x01, 0xB7, 0x00, 0x00,
    0x01, 0x00, 0x00, 0x10, 0x55, 0x00, 0x00, 0x00, 0x01, 0x00, 0x00, 0x18, 0x66, 0x00, 0x00, 0x01,
    0x00, 0x00, 0x18, 0x77, 0x77, 0x00,
];

/// Its layers: 2, 3 and 5 of 6 packets show them.
pub const LAYERS: [LayerSize; 3] = [
    LayerSize {
        length: 46,
        need: 2,
    },
    LayerSize { length: 7, need: 3 },
    LayerSize {
        length: 15,
        need: 5,
    },
];

/// The header of the group in so many packets, with this need of its last layer: the example session has 6 and 5.
pub fn header_of(packets: u16, last_need: u16) -> Result<Header, Fail>
    ensures groups { IfOk result (λ header. header.groups ≡ 1) }
    ensures group { IfOk result (λ header. header.group ≡ 0) }
    ensures packets { IfOk result (λ header. header.table.packets ≡ packets) }
{
    let mut layers = LAYERS;
    layers[2].need = last_need;
    Ok(Header {
        session: SESSION,
        groups: 1,
        group: 0,
        table: Table::new(packets, &layers)?,
    })
}
