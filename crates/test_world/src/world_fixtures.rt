//! Worlds of a session of one or two groups, each of them the example stream's.
ghost use Rattle.std.specs.Prelude.{◌≡◌, ◌≤◌, ◌<◌, IfOk, length};
ghost use Rattle.pet_world.specs.ReceivedSets.{nothing_met};
ghost use Rattle.pet_world.specs.World.{HaveMet};
ghost use Rattle.field_elements.specs.Gf16.{gf16_coding};
ghost use Rattle.test_world.specs.Groups.{IsGroupAt};

use field_elements::Gf16Plain;
use packet_frame::Header;
use pet_base::MAX_SESSION;
use pet_encode::Encoder;
use pet_world::World;
use std::alloc::Global;
use std::test::Fail;
use stripe_plan::{LayerSize, Table};
use test_script::SESSION;

/// The message of the example stream's group, under the example priorities.
pub const MESSAGE: [u8; 70] = [
    0x00, 0x00, 0x00, 0x04, 0x00, 0x00, 0x00, 0x00, 0x12, 0x01, 0x00, 0x00, 0x00, 0x07, 0x02, 0x00,
    0x00, 0x00, 0x0F, 0x00, 0x00, 0x00, 0x00, 0x04, 0x00, 0x00, 0x01, 0xB3, 0x11, 0x22, 0x00, 0x00,
    0x01, 0xB8, 0x33, 0x00, 0x00, 0x01, 0x00, 0x00, 0x08, 0x44, 0x00, 0x00, 0x01, 0xB7, 0x00, 0x00,
    0x01, 0x00, 0x00, 0x10, 0x55, 0x00, 0x00, 0x00, 0x01, 0x00, 0x00, 0x18, 0x66, 0x00, 0x00, 0x01,
    0x00, 0x00, 0x18, 0x77, 0x77, 0x00,
];

/// Its layers: 2, 3 and 5 of 6 packets show them.
const LAYERS: [LayerSize; 3] = [
    LayerSize {
        length: 46,
        need: 2,
    },
    LayerSize { length: 7, need: 3 },
    LayerSize {
        length: 15,
        need: 5,
    },
];

/// The encoder of one of so many groups.
pub fn group_encoder<'f>(
    alloc: Global,
    f: &'f Gf16Plain,
    groups: u32,
    group: u32,
) -> Result<Encoder<'f, Gf16Plain>, Fail>
    requires groups { groups ≤ 2 }
    requires group { group < groups }
    ensures { IfOk result (λ e. IsGroupAt groups group e) }
{
    let header = Header {
        session: SESSION,
        groups,
        group,
        table: Table::new(6, &LAYERS)?,
    };
    let encoder = Encoder::new(alloc, f, header, &MESSAGE)?;
    let _ = encoder.header();
    Ok(encoder)
}

/// A world of so many receivers of a session of one group.
pub fn world_of_one<'f>(
    alloc: Global,
    f: &'f Gf16Plain,
    receivers: u8,
) -> Result<World<'f, Gf16Plain>, Fail>
    requires some { 0 < receivers }
    requires few { receivers ≤ 8 }
    ensures many { IfOk result (λ w. length w.receivers ≡ receivers) }
    ensures nothing { IfOk result (λ w. HaveMet gf16_coding w (nothing_met receivers)) }
{
    let mut encoders = Vec::new(alloc);
    encoders.push(group_encoder(alloc, f, 1, 0)?)?;
    Ok(World::new(alloc, f, encoders, receivers, MAX_SESSION)?)
}

/// A world of so many receivers of a session of two groups.
pub fn world_of_two<'f>(
    alloc: Global,
    f: &'f Gf16Plain,
    receivers: u8,
) -> Result<World<'f, Gf16Plain>, Fail>
    requires some { 0 < receivers }
    requires few { receivers ≤ 8 }
    ensures many { IfOk result (λ w. length w.receivers ≡ receivers) }
    ensures nothing { IfOk result (λ w. HaveMet gf16_coding w (nothing_met receivers)) }
{
    let mut encoders = Vec::new(alloc);
    encoders.push(group_encoder(alloc, f, 2, 0)?)?;
    encoders.push(group_encoder(alloc, f, 2, 1)?)?;
    Ok(World::new(alloc, f, encoders, receivers, MAX_SESSION)?)
}
