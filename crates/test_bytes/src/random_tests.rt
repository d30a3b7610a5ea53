//! Random sessions of the byte profile, against the word profile's plan of tables of twice the lengths.
ghost use Rattle.std.specs.Prelude.{◌≡◌, ◌<◌, IfOk};
ghost use Rattle.std.specs.Vec.{vec_len};

use byte_frame::{ByteEncoder, ByteTable, LayerSize};
use field_rows::Rows;
use gf8::Gf8Tables;
use pet_base::{MAX_SESSION, Steps};
use pet_byte::ByteReceiver;
use std::alloc::{AllocError, Global};
use std::marker::Brand;
use std::sync::ledger::{Blank, Ledger};
use std::test::Fail;
use stripe_plan::{Table, counts, stripes};
use test_script::SESSION;

/// How many sessions are drawn.
const SESSIONS: u32 = 200;

/// The next byte of a linear congruence.
fn draw(state: &mut u64) -> u8 {
    *state = state
        .wrapping_mul(6_364_136_223_846_793_005)
        .wrapping_add(1_442_695_040_888_963_407);
    let [_, drawn, _, _, _, _, _, _] = state.to_be_bytes();
    drawn
}

/// A layer of 1 to 64 bytes, which needs up to four packets more than the one before.
fn layer_behind(state: &mut u64, need: u16) -> LayerSize {
    LayerSize {
        length: u32::from(draw(state) & 63).wrapping_add(1),
        need: need
            .wrapping_add(u16::from(draw(state) & 3))
            .wrapping_add(1),
    }
}

/// The layer of twice the length.
fn doubled(layer: &LayerSize) -> LayerSize {
    LayerSize {
        length: layer.length.wrapping_mul(2),
        need: layer.need,
    }
}

/// So many bytes.
fn message_of(alloc: Global, state: &mut u64, count: usize) -> Result<Vec<u8>, AllocError>
    ensures { IfOk result (λ v. vec_len v ≡ count) }
{
    let mut message = vec![in alloc; 0u8; count]?;
    for i in 0..count {
        message[i] = draw(state);
    }
    Ok(message)
}

/// Whether each layer is shown exactly where so many packets came as its count says, as its bytes of the message.
fn shows<F: Rows>(
    receiver: &ByteReceiver<'_, F>,
    layers: &[LayerSize],
    counts: &[u16],
    message: &[u8],
    came: u16,
) -> bool {
    let mut rest = message;
    let mut number: u8 = 0;
    for layer in layers {
        let Some((own, behind)) = rest.split_at_checked(layer.length as usize) else {
            return false;
        };
        let Some(count) = counts.get(usize::from(number)) else {
            return false;
        };
        let right = match receiver.layer(0, number) {
            Some(bytes) => *count <= came && bytes == own,
            None => came < *count,
        };
        if !right {
            return false;
        }
        rest = behind;
        number = number.wrapping_add(1);
    }
    true
}

/// Whether a session that is drawn is planned as the word profile plans twice its lengths, and is received as it was sent: the
/// packets of odd numbers first, or those of even ones, a fourth of them lost.
fn is_received<L: Ledger>(
    alloc: Global,
    field: &Gf8Tables,
    state: &mut u64,
    blank: Blank,
) -> Result<bool, Fail>
    requires name { blank.name ≡ L.name }
    requires parts { blank.parts ≡ L.parts }
    requires some { 0 < blank.parts }
{
    let first = layer_behind(state, 0);
    let second = layer_behind(state, first.need);
    let third = layer_behind(state, second.need);
    let packets = third.need.wrapping_add(u16::from(draw(state) & 7));
    let twice = [doubled(&first), doubled(&second), doubled(&third)];
    let layers = [first, second, third];
    let table = ByteTable::new(packets, &layers)?;
    let words = Table::new(packets, &twice)?;
    if stripes(table.plan()) != stripes(&words) {
        return Ok(false);
    }
    let counts = counts(&words);
    let message = message_of(alloc, state, table.plan().words() as usize)?;
    let encoder = ByteEncoder::new(alloc, field, SESSION, 1, 0, table, &message)?;
    let mut receiver = ByteReceiver::new(alloc, field, SESSION, MAX_SESSION);
    let mut steps = Steps::<L>::new(blank);
    let turn = u16::from(draw(state));
    let mut came: u16 = 0;
    for half in 0..2u16 {
        for number in 0..packets {
            if (number ^ half ^ turn) & 1 == 0 || draw(state) & 3 == 0 {
                continue;
            }
            let mut frame = Vec::new(alloc);
            encoder.packet(number, &mut frame, &mut steps)?;
            receiver.accept(&frame, &mut steps)?;
            came = came.wrapping_add(1);
            if !shows(&receiver, &layers, counts.as_slice(), &message, came) {
                return Ok(false);
            }
        }
    }
    Ok(receiver.complete() == (receiver.shown() == 3))
}

/// Whether the next session is received so, with a counter of its own.
fn is_next_received(alloc: Global, field: &Gf8Tables, state: &mut u64) -> Result<bool, Fail> {
    is_received::<Brand>(alloc, field, state, Blank::new(1))
}

#[test]
fn receives_random_sessions_as_they_were_sent(rt: HostRuntime) -> Result<(), Fail> {
    let field = Gf8Tables::new();
    let mut state: u64 = 46;
    for session in 0..SESSIONS {
        let received = is_next_received(rt.alloc(), &field, &mut state)?;
        assert!(rt; received, "session {session}");
    }
    Ok(())
}
