//! A frame of a format by its plan's table, which is that of the layers whose words the plan cuts. So a caller goes by a `Table`
//! whatever the format is; the bytes tell the lengths that the format asks for.
ghost use Rattle.std.specs.Prelude.{◌≡◌, ℕ, ◌+◌, ◌*◌, ◌<◌, ◌≤◌, List, [], ◌++◌, length, map, drop, None, Some, MatchResult, IfOk, OnOk, OnErr, vec_len, vec_capacity};
ghost use Rattle.pet_base.specs.declared.limits.TheConstants.{HEAD_LENGTH, LAYER_LENGTH};
ghost use Rattle.stripe_plan.specs.Layers.{plan_ends};
ghost use Rattle.stripe_plan.specs.Sizes.{ArePlanBounds};
ghost use Rattle.packet_frame.specs.Format.{IsFormat};
ghost use Rattle.packet_frame.specs.Frame.{IsFrameBy, text_before_payload};
ghost use Rattle.packet_frame.specs.Planned.{planned_fields, by_text, halved, IsPlanTableIn, IsPlannedFrame};
ghost use Rattle.packet_frame.specs.Refusals.{first_fault_in};
ghost use Rattle.packet_frame.specs.View.{view, fields_with};

use crate::fault::FrameFault;
use crate::format::Format;
use crate::frame::{Frame, Header};
use crate::parts::Head;
use crate::text::read_text;
use crate::write::begin_text;
use arrayvec::ArrayVec;
use pet_base::{MAX_GROUPS, MAX_LAYERS, NoMemory};
use stripe_plan::{LayerSize, plan_table, stripes};

/// Reads a frame of a format by its plan's table, or answers the first refusal of its bytes. It takes no memory.
pub fn read_planned<'a>(format: &Format, bytes: &'a [u8]) -> Result<Frame<'a>, FrameFault>
    requires format { IsFormat format.now }
    requires plan { ArePlanBounds format.now.bounds }
    ensures refused { MatchResult result (λ _. first_fault_in format.now bytes.now ≡ None)
        (λ fault. first_fault_in format.now bytes.now ≡ Some fault) }
    ensures fields { IfOk result (λ frame. view frame ≡ planned_fields format.now bytes.now) }
    ensures ranges { IfOk result (λ frame. IsFrameBy format.now.word (view frame)) }
    ensures few { IfOk result (λ frame. frame.header.table.packets ≤ format.now.bounds.packets) }
{
    let parts = read_text(format, bytes)?;
    let head = parts.head;
    let session = head.session;
    let table = plan_table(&format.bounds, head.packets, &parts.layers);
    Ok(Frame {
        header: Header {
            session,
            groups: head.groups,
            group: head.group,
            table,
        },
        number: head.number,
        payload: parts.payload,
    })
}

/// Begins the text of a frame of a format, by its plan's table: appends all that is before its payload. The room for the whole
/// text is taken before the first byte.
pub fn begin_planned(
    format: &Format,
    header: &Header,
    number: u16,
    into: &mut Vec<u8>,
) -> Result<(), NoMemory>
    requires format { IsFormat format.now }
    requires table { IsPlanTableIn format.now.bounds header.now.table.packets
        header.now.table.layers }
    requires groups { header.now.groups ≤ MAX_GROUPS }
    requires group { header.now.group < header.now.groups }
    requires number { number < header.now.table.packets }
    ensures ok { OnOk result (into.new.items ≡ into.old.items
        ++ text_before_payload format.now (by_text format.now (fields_with header.now number []))) }
    ensures err { OnErr result (into.new.items ≡ into.old.items) }
    ensures room { OnOk result (vec_len into.new
        + format.now.word * length (plan_ends header.now.table.layers) + format.now.tag
        ≤ vec_capacity into.new) }
    ensures capacity { vec_capacity into.old ≤ vec_capacity into.new }

    // It fails only where there is not the room of the whole text.
    ensures full { OnErr result (vec_capacity into.old < vec_len into.old
        + (HEAD_LENGTH + LAYER_LENGTH * length header.now.table.layers
        + format.now.word * length (plan_ends header.now.table.layers) + format.now.tag)) }

    // With any payload of this length it is a frame of the format.
    ensures ranges { (payload : List ℕ)
        → length payload ≡ format.now.word * length (plan_ends header.now.table.layers)
        → IsPlannedFrame format.now (fields_with header.now number payload) }
{
    let head = Head {
        session: header.session,
        groups: header.groups,
        group: header.group,
        packets: header.table.packets(),
        number,
    };
    let payload = format.word * stripes(&header.table) as usize;
    if format.bounds.doubled {
        begin_text(format, &head, &halves(header.table.layers()), payload, into)
    } else {
        begin_text(format, &head, header.table.layers(), payload, into)
    }
}

/// The layers of half the lengths.
fn halves(layers: &[LayerSize]) -> ArrayVec<LayerSize, MAX_LAYERS>
    requires { length layers.now ≤ MAX_LAYERS }
    ensures { result.items ≡ map halved layers.now }
{
    let mut halves = ArrayVec::new();
    for layer in layers {
        halves.push(LayerSize {
            length: layer.length / 2,
            need: layer.need,
        });
    }
    halves
}
