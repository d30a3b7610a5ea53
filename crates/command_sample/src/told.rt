//! What is told of what was made and received.
ghost use Rattle.std.specs.Prelude.{◌≡◌, ◌+◌, ◌<◌, ◌≤◌, ◌++◌, length, slice_get, Some, OnOk, IfOk};
ghost use Rattle.pet_base.specs.declared.limits.TheConstants.{MAX_SAMPLE_GROUPS};
ghost use Rattle.packet_session.specs.Session.{SessionGroup};
ghost use Rattle.pet_receive.specs.Arrivals.{kept_set};
ghost use Rattle.store_text.specs.Store.{store_text};
ghost use Rattle.command_sample.specs.Arrivals.{arrivals_of};
ghost use Rattle.command_sample.specs.SampleSession.{whole_group_video, whole_session_video};
ghost use Rattle.command_sample.specs.SampleSteps.{sample_steps};
ghost use Rattle.command_sample.specs.Samples.{contents_of, AreEnds, Samples, showing_of};
ghost use Rattle.command_sample.specs.inside.Making.{IsMade, figures_made, session_made};
ghost use Rattle.command_sample.specs.inside.Receiving.{HasReceived};

use crate::made::{Made, make};
use crate::order::ARRIVING;
use crate::printed::{Contents, Figures, Showing, summary};
use crate::receiving::receive_all;
use pet_base::{MAX_SESSION, NoMemory, Steps};
use pet_field::Gf16Tables;
use pet_receive::Receiver;
use reassemble::{Assemble, assemble};
use sha2::{Digest, Sha256};
use std::alloc::Global;
use std::sync::ledger::Ledger;
use store_merge::write_store;
use stripe_plan::{count, datagram_length};

/// The text that tells what was made of the seed, handed on and received.
pub(crate) fn tell<L: Ledger>(
    alloc: Global,
    seed: u64,
    groups: u32,
    steps: &mut Steps<L>,
) -> Result<Vec<u8>, NoMemory>
    requires some { 0 < groups }
    requires few { groups ≤ MAX_SAMPLE_GROUPS }
    ensures samples { IfOk result (λ text. Samples seed groups text.items) }
    ensures cost { steps.new ≤ steps.old + sample_steps seed groups }
{
    let made = make(alloc, seed, groups)?;
    let field = Gf16Tables::new(alloc)?;
    let mut receiver = Receiver::new(alloc, &field, made.plan.number, MAX_SESSION);
    receive_all(alloc, &field, &made, &mut receiver, steps)?;
    let store = store_contents(alloc, &receiver)?;
    let video = video_contents(alloc, &made, &receiver)?;
    let figures = figures_of(&made, store, video);
    summary(alloc, &figures)
}

/// What the receiver's store has.
fn store_contents(alloc: Global, receiver: &Receiver<'_, Gf16Tables>) -> Result<Contents, NoMemory>
    ensures { IfOk result (λ contents. contents
        ≡ contents_of (store_text (kept_set receiver.now))) }
{
    let mut text = Vec::new(alloc);
    write_store(receiver, &mut text)?;
    Ok(contents_of(&text))
}

/// What the video of all groups has.
fn video_contents(
    alloc: Global,
    made: &Made,
    receiver: &Receiver<'_, Gf16Tables>,
) -> Result<Contents, NoMemory>
    requires made { IsMade made.now }
    requires received { HasReceived (session_made made.now)
        (arrivals_of (length made.now.cuts.items)) receiver.now }
    ensures { IfOk result (λ contents. contents
        ≡ contents_of (whole_session_video (session_made made.now))) }
{
    let mut video = Vec::new(alloc);
    for group in 0..made.cuts.len() as u32 {
        append_video(made, receiver, group, &mut video)?;
    }
    Ok(contents_of(&video))
}

/// Appends the video of a group, of which all layers are shown.
fn append_video(
    made: &Made,
    receiver: &Receiver<'_, Gf16Tables>,
    group: u32,
    video: &mut Vec<u8>,
) -> Result<(), NoMemory>
    requires made { IsMade made.now }
    requires received { HasReceived (session_made made.now)
        (arrivals_of (length made.now.cuts.items)) receiver.now }
    requires group { group < length made.now.cuts.items }
    ensures { OnOk result ((g : SessionGroup) → slice_get (session_made made.now).groups group ≡ Some g
        → video.new.items ≡ video.old.items ++ whole_group_video g) }
{
    match assemble(receiver, group, video) {
        Ok(_) => Ok(()),
        Err(fault) => match fault {
            Assemble::NoMemory => Err(NoMemory),
            _ => unreachable!(),
        },
    }
}

/// How many bytes there are, and the first eight of their digest.
fn contents_of(bytes: &[u8]) -> Contents
    ensures { result ≡ contents_of bytes.now }
{
    let digest: [u8; 32] = Sha256::digest(bytes);
    let mut first = [0u8; 8];
    first.copy_from_slice(&digest[..8]);
    Contents {
        bytes: bytes.len() as u64,
        digest: first,
    }
}

/// What is told of what was made, of a store and of a video.
fn figures_of(made: &Made, store: Contents, video: Contents) -> Figures
    requires made { IsMade made.now }
    ensures { (first last : SessionGroup) → AreEnds (length made.now.cuts.items) (session_made made.now) first last
        → result ≡ figures_made made.now first last store video }
{
    Figures {
        stream: contents_of(&made.stream),
        session: made.plan.number,
        datagram: datagram_length(&made.plan.tables[0]),
        arrivals: ARRIVING * made.cuts.len() as u32,
        base: showing(made, 0),
        predicted: showing(made, 1),
        between: showing(made, 2),
        store,
        video,
    }
}

/// By which arrivals the layer of the first and of the last group is shown: by as many of the group as its count says,
/// behind those of the groups before.
fn showing(made: &Made, layer: u8) -> Showing
    requires made { IsMade made.now }
    requires layer { layer < 3 }
    ensures { (first last : SessionGroup) → AreEnds (length made.now.cuts.items) (session_made made.now) first last
        → result ≡ showing_of (length made.now.cuts.items) first last layer }
{
    let last = made.plan.tables.len() - 1;
    Showing {
        first: u32::from(count(&made.plan.tables[0], layer)),
        last: ARRIVING * last as u32 + u32::from(count(&made.plan.tables[last], layer)),
    }
}
