//! The lines of `plan`.
ghost use Rattle.std.specs.Prelude.{◌≡◌, ◌<◌, ◌++◌, OnOk, OnErr, IfOk, string_bytes};
ghost use Rattle.text_plan.specs.PlanLines.{hex_digit, hex_text, plan_session_text, plan_group_text, plan_layer_text};

use pet_base::NoMemory;
use std::alloc::Global;
use stripe_plan::LayerSize;

/// Appends the line of a session: its number in hexadecimal digits, its groups, and the packets of each. After a refusal
/// `into` is as before.
pub fn plan_session_line(
    alloc: Global,
    session: &[u8; 8],
    groups: u32,
    packets: u16,
    into: &mut Vec<u8>,
) -> Result<(), NoMemory>
    ensures ok { OnOk result (into.new.items ≡ into.old.items
        ++ plan_session_text session.now groups packets) }
    ensures err { OnErr result (into.new.items ≡ into.old.items) }
{
    let session = hexadecimal(alloc, session)?;
    let line = format!(in alloc; "session {session} groups {groups} packets {packets}\n")?;
    into.extend_from_slice(line.as_bytes())?;
    Ok(())
}

/// Appends the line of a group, counted from 0: its words, the stripes of its plan and their bound, and the bytes of its
/// datagrams. After a refusal `into` is as before.
pub fn plan_group_line(
    alloc: Global,
    group: u32,
    words: u32,
    stripes: u32,
    bound: u32,
    datagram: u32,
    into: &mut Vec<u8>,
) -> Result<(), NoMemory>
    ensures ok { OnOk result (into.new.items ≡ into.old.items
        ++ plan_group_text group words stripes bound datagram) }
    ensures err { OnErr result (into.new.items ≡ into.old.items) }
{
    let line = format!(in alloc;
        "group {group} words {words} stripes {stripes} bound {bound} datagram {datagram}\n"
    )?;
    into.extend_from_slice(line.as_bytes())?;
    Ok(())
}

/// Appends the line of a layer, counted from 0: its name, its bytes and the packets that it needs, and the number of
/// packets from which it is shown. After a refusal `into` is as before.
pub fn plan_layer_line(
    alloc: Global,
    layer: u8,
    name: &str,
    size: &LayerSize,
    count: u16,
    into: &mut Vec<u8>,
) -> Result<(), NoMemory>
    ensures ok { OnOk result (into.new.items ≡ into.old.items
        ++ plan_layer_text layer name.now size.now count) }
    ensures err { OnErr result (into.new.items ≡ into.old.items) }
{
    let LayerSize { length, need } = *size;
    let line = format!(in alloc;
        "layer {layer} {name} bytes {length} need {need} count {count}\n"
    )?;
    into.extend_from_slice(line.as_bytes())?;
    Ok(())
}

/// Bytes in lower-case hexadecimal digits, two each, the high one first.
fn hexadecimal(alloc: Global, bytes: &[u8]) -> Result<String, NoMemory>
    ensures { IfOk result (λ text. string_bytes text ≡ hex_text bytes.now) }
{
    let mut text = String::new(alloc);
    for byte in bytes {
        text.push(hexadecimal_digit(byte / 16) as char)?;
        text.push(hexadecimal_digit(byte % 16) as char)?;
    }
    Ok(text)
}

/// The lower-case hexadecimal digit of a value, which must be below 16.
pub fn hexadecimal_digit(value: u8) -> u8
    requires { value < 16 }
    ensures { result ≡ hex_digit value }
{
    if value < 10 {
        b'0' + value
    } else {
        b'a' + value - 10
    }
}
