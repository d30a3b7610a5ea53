//! A world of receivers under the events of a script.
ghost use Rattle.std.specs.Prelude.{◌≡◌, ◌<◌, ◌≤◌, All, None, length, IfOk, OnOk};
ghost use Rattle.field_elements.specs.Gf16.{gf16_coding};
ghost use Rattle.packet_session.specs.Session.{IsSession};
ghost use Rattle.pet_world.specs.ReceivedSets.{Sets, nothing_met};
ghost use Rattle.pet_world.specs.World.{HaveMet, refusal_in};
ghost use Rattle.command_replay.specs.ReplayText.{replay_text};
ghost use Rattle.command_replay.specs.inside.Held.{IsHeld, AreKnown, held_session};
ghost use Rattle.command_replay.specs.inside.Playing.{IsPlayed, ArePlayed, session_in};

use crate::encoders::session_encoders;
use crate::lines::{append_layers, append_stores};
use pet_base::{Event, MAX_REPLAY_SESSION, NoMemory, Steps};
use pet_field::Gf16Tables;
use pet_world::{MAX_RECEIVERS, World, WorldFault};
use session_source::WholeSource;
use std::alloc::Global;
use std::sync::ledger::Ledger;

/// The text of the events of a script of the session.
pub(crate) fn play<L: Ledger>(
    alloc: Global,
    whole: WholeSource,
    events: &[Event],
    steps: &mut Steps<L>,
) -> Result<Vec<u8>, NoMemory>
    requires held { IsHeld whole }
    requires known { AreKnown (held_session whole) events.now }
    ensures text { IfOk result (λ text. text.items ≡ replay_text (held_session whole) events.now) }
{
    let field = Gf16Tables::new(alloc)?;
    let mut world = world_of(alloc, &field, whole)?;
    let mut text = Vec::new(alloc);
    play_events(alloc, &mut world, events, &mut text, steps)?;
    append_stores(alloc, &world, &mut text)?;
    Ok(text)
}

/// A world of eight receivers of the session, which have kept nothing. Of the stream nothing is held then.
fn world_of<'f>(
    alloc: Global,
    field: &'f Gf16Tables,
    whole: WholeSource,
) -> Result<World<'f, Gf16Tables>, NoMemory>
    requires held { IsHeld whole }
    ensures session { IfOk result (λ world. session_in world ≡ held_session whole) }
    ensures lawful { IfOk result (λ world. IsSession 2 (session_in world)) }
    ensures many { IfOk result (λ world. length world.receivers ≡ MAX_RECEIVERS) }
    ensures nothing { IfOk result (λ world. HaveMet gf16_coding world (nothing_met MAX_RECEIVERS)) }
{
    are_bytes(&whole.bytes);
    let encoders = session_encoders(alloc, field, &whole)?;
    World::new(alloc, field, encoders, MAX_RECEIVERS, MAX_REPLAY_SESSION)
}

/// What a stream has are bytes. It does nothing.
fn are_bytes(stream: &[u8])
    ensures { All (λ b. b < 256) stream.now }
{
    let _stream = stream;
}

/// Carries out the events one by one, numbered from 1, and appends the lines of what they show.
fn play_events<L: Ledger>(
    alloc: Global,
    world: &mut World<'_, Gf16Tables>,
    events: &[Event],
    text: &mut Vec<u8>,
    steps: &mut Steps<L>,
) -> Result<(), NoMemory>
    requires session { IsSession 2 (session_in world.old) }
    requires few { length world.old.receivers ≤ MAX_RECEIVERS }
    requires known { All (λ event. refusal_in world.old event ≡ None) events.now }
    requires met { (sets : Sets) × HaveMet gf16_coding world.old sets }
    ensures played { OnOk result (ArePlayed world.old events.now text.old.items world.new text.new.items) }
{
    for index in 0..events.len() {
        play_event(alloc, world, index as u64 + 1, events[index], text, steps)?;
    }
    Ok(())
}

/// Carries out the event of this number, and appends the lines of what it shows.
fn play_event<L: Ledger>(
    alloc: Global,
    world: &mut World<'_, Gf16Tables>,
    number: u64,
    event: Event,
    text: &mut Vec<u8>,
    steps: &mut Steps<L>,
) -> Result<(), NoMemory>
    requires session { IsSession 2 (session_in world.old) }
    requires few { length world.old.receivers ≤ MAX_RECEIVERS }
    requires known { refusal_in world.old event ≡ None }
    requires met { (sets : Sets) × HaveMet gf16_coding world.old sets }
    ensures played { OnOk result (IsPlayed world.old number event text.old.items world.new text.new.items) }
{
    match world.step(event, steps) {
        Ok(shown) => append_layers(alloc, world, number, &shown, text),
        Err(fault) => Err(not_stepped(fault)),
    }
}

/// Why an event of the world was not carried out.
fn not_stepped(fault: WorldFault) -> NoMemory
    requires { fault ≡ WorldFault.NoMemory }
{
    let _ = fault;
    NoMemory
}
