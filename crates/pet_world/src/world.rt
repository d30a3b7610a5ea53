//! The world.
ghost use Rattle.std.specs.Prelude.{◌≡◌, ◌≢◌, ◌+◌, ◌<◌, ◌≤◌, length, IfOk, IfErr, OnOk, OnErr, None, unwrap_or, slice_get, option_copied};
ghost use Rattle.pet_base.specs.declared.limits.TheConstants.{MAX_PACKETS};
ghost use Rattle.packet_session.specs.Session.{IsSession, Fits};
ghost use Rattle.packet_session.specs.Datagrams.{AreEncoders};
ghost use Rattle.pet_world.specs.ReceivedSets.{nothing_met, AreInOrder, has_receivers, is_in_session};
ghost use Rattle.pet_world.specs.World.{HaveMet, IsCarriedOut, refusal_in, event_steps};
ghost use Rattle.pet_world.specs.inside.EventDone.{IsDone};
ghost use Rattle.packet_met.specs.EncodedSession.{encoded_session};

use crate::fault::WorldFault;
use crate::packet::{datagram_of, has_packet};
use crate::receivers::{absorb_at, accept_at, empty_receivers, reopen_at};
use crate::shown::{most_layers, shown_by_verdict, shown_of_pairs};
use field_rows::Rows;
use packet_verdicts::Absorb;
use pet_base::{Event, MAX_LAYERS, NoMemory, Shown, Steps};
use pet_encode::Encoder;
use pet_receive::Receiver;
use std::alloc::Global;
use std::marker::Model;
use std::sync::ledger::Ledger;
use store_text::BadStore;

/// The most receivers of a world.
pub const MAX_RECEIVERS: u8 = 8;

/// The number of the limit. Definitions name the constant alone, so without this clause every proof would hold of another
/// number too. It does nothing.
pub fn limits_are()
    ensures { MAX_RECEIVERS ≡ 8 }
{}

/// Receivers of one session, and what makes the session's packets.
#[derive(Drop)]
pub struct World<'f, F: Rows> {
    alloc: Global,
    field: &'f F,
    /// The encoders of the session's groups, in order.
    encoders: Vec<Encoder<'f, F>>,
    /// What the open groups of each receiver may cost.
    limit: u64,
    receivers: Vec<Receiver<'f, F>>,
}

impl<'f, F: Rows> Model for World<'f, F> {
    ghost use Rattle.pet_world.specs.World.{WorldState, IsWorld, world_of};

    ghost Value = { WorldState F.Elem };

    ghost view = { λ w. world_of w.encoders.items w.limit w.receivers.items };

    ghost invariant = { λ w. IsWorld F.COUNT F.coding
        (world_of w.encoders.items w.limit w.receivers.items) };
}

impl<'f, F: Rows> World<'f, F> {
    /// A world of so many receivers that have kept nothing, 1 to `MAX_RECEIVERS`. The encoders are those of one session's
    /// groups, in order, and the session's packets have at most `limit` bytes. It fails only for want of memory.
    pub fn new(
        alloc: Global,
        f: &'f F,
        encoders: Vec<Encoder<'f, F>>,
        receivers: u8,
        limit: u64,
    ) -> Result<World<'f, F>, NoMemory>
        requires width { F.coding.width ≡ 2 }
        requires points { MAX_PACKETS ≤ F.COUNT }
        requires some { 0 < receivers }
        requires few { receivers ≤ MAX_RECEIVERS }
        requires session { IsSession F.coding.width (encoded_session encoders.items) }
        requires encoders { AreEncoders (encoded_session encoders.items) encoders.items }
        requires fits { Fits (encoded_session encoders.items) limit }
        ensures encoders { IfOk result (λ w. w.encoders ≡ encoders.entry.items) }
        ensures limit { IfOk result (λ w. w.limit ≡ limit) }
        ensures many { IfOk result (λ w. length w.receivers ≡ receivers) }
        ensures nothing { IfOk result (λ w. HaveMet F.coding w (nothing_met receivers)) }
    {
        let session = session_in(&encoders);
        let empty = empty_receivers(alloc, f, session, limit, receivers)?;
        Ok(World {
            alloc,
            field: f,
            encoders,
            limit,
            receivers: empty,
        })
    }

    /// Carries out an event, and answers the layers that it shows to its receiver, by group, then layer, none twice. Give
    /// hands the receiver the session's packet, Join has it take in what another has kept, and Reopen writes its store and
    /// replaces it by what is read of it. After a fault the world is as before.
    pub fn step<L: Ledger>(
        &mut self,
        event: Event,
        steps: &mut Steps<L>,
    ) -> Result<Vec<Shown>, WorldFault>
        ensures stepped { IfOk result (λ shown. IsCarriedOut F.coding self.old event shown.items
            self.new) }
        ensures order { IfOk result (λ shown. AreInOrder shown.items) }
        ensures judged { OnOk result (refusal_in self.old event ≡ None) }
        ensures refused { IfErr result (λ fault. fault
            ≡ unwrap_or (refusal_in self.old event) WorldFault.NoMemory) }
        ensures unchanged { OnErr result (self.new ≡ self.old) }
        ensures cost { OnOk result (steps.new ≤ steps.old + event_steps self.old event) }
    {
        match self.refusal(event) {
            Some(fault) => Err(fault),
            None => Ok(self.carry_out(event, steps)?),
        }
    }

    /// The receiver of a number, where there is one.
    pub fn receiver(&self, receiver: u8) -> Option<&Receiver<'f, F>>
        ensures { option_copied result ≡ slice_get self.now.receivers receiver }
    {
        self.receivers.get(usize::from(receiver))
    }

    /// Why an event cannot be carried out, whatever memory there is.
    #[tactic(auto, unfolding(crate::specs::ReceivedSets::event_refusal))]
    fn refusal(&self, event: Event) -> Option<WorldFault>
        ensures { result ≡ refusal_in self.now event }
    {
        if !are_there(self.receivers.len(), event) {
            return Some(WorldFault::UnknownReceiver);
        }
        if !gives_its_packet(&self.encoders, event) {
            return Some(WorldFault::OutOfRange);
        }
        None
    }

    /// Carries out an event that is not refused.
    fn carry_out<L: Ledger>(
        &mut self,
        event: Event,
        steps: &mut Steps<L>,
    ) -> Result<Vec<Shown>, NoMemory>
        requires { refusal_in self.old event ≡ None }
        ensures done { IfOk result (λ shown. IsDone F.coding self.old event
            shown.items self.new steps.old steps.new) }
        ensures unchanged { OnErr result (self.new ≡ self.old) }
    {
        match event {
            Event::Give {
                receiver,
                group,
                number,
            } => self.give(receiver, group, number, steps),
            Event::Join { receiver, other } => self.join(receiver, other, steps),
            Event::Reopen { receiver } => self.reopen(receiver, steps),
        }
    }

    /// Hands a packet of the session to a receiver.
    fn give<L: Ledger>(
        &mut self,
        receiver: u8,
        group: u32,
        number: u16,
        steps: &mut Steps<L>,
    ) -> Result<Vec<Shown>, NoMemory>
        requires { refusal_in self.old (Event.Give receiver group number) ≡ None }
        ensures done { IfOk result (λ shown. IsDone F.coding self.old (Event.Give receiver group number)
            shown.items self.new steps.old steps.new) }
        ensures unchanged { OnErr result (self.new ≡ self.old) }
    {
        let datagram = datagram_of(self.alloc, &self.encoders, group, number, steps)?;
        let room = Vec::with_capacity(self.alloc, MAX_LAYERS)?;
        let verdict = accept_at(&mut self.receivers, usize::from(receiver), &datagram, steps)?;
        Ok(shown_by_verdict(room, receiver, group, verdict))
    }

    /// Has a receiver take in what another has kept.
    fn join<L: Ledger>(
        &mut self,
        receiver: u8,
        other: u8,
        steps: &mut Steps<L>,
    ) -> Result<Vec<Shown>, NoMemory>
        requires { refusal_in self.old (Event.Join receiver other) ≡ None }
        ensures done { IfOk result (λ shown. IsDone F.coding self.old (Event.Join receiver other)
            shown.items self.new steps.old steps.new) }
        ensures unchanged { OnErr result (self.new ≡ self.old) }
    {
        if receiver == other {
            // A field is touched, so that what the type promises of itself is known here.
            let _ = &self.limit;
            return Ok(Vec::new(self.alloc));
        }
        self.join_other(receiver, other, steps)
    }

    /// Has a receiver take in what another has kept, which is not the same.
    fn join_other<L: Ledger>(
        &mut self,
        receiver: u8,
        other: u8,
        steps: &mut Steps<L>,
    ) -> Result<Vec<Shown>, NoMemory>
        requires known { refusal_in self.old (Event.Join receiver other) ≡ None }
        requires apart { receiver ≢ other }
        ensures done { IfOk result (λ shown. IsDone F.coding self.old (Event.Join receiver other)
            shown.items self.new steps.old steps.new) }
        ensures unchanged { OnErr result (self.new ≡ self.old) }
    {
        let room = Vec::with_capacity(self.alloc, most_layers(&self.encoders))?;
        let here = usize::from(receiver);
        let there = usize::from(other);
        let session = session_in(&self.encoders);
        let empty = Receiver::new(self.alloc, self.field, session, self.limit);
        let layers = match absorb_at(&mut self.receivers, empty, here, there, steps) {
            Ok(layers) => layers,
            Err(fault) => return Err(not_joined(fault)),
        };
        Ok(shown_of_pairs(room, receiver, &layers))
    }

    /// Writes the store of a receiver, and replaces the receiver by what is read of it.
    fn reopen<L: Ledger>(
        &mut self,
        receiver: u8,
        steps: &mut Steps<L>,
    ) -> Result<Vec<Shown>, NoMemory>
        requires { refusal_in self.old (Event.Reopen receiver) ≡ None }
        ensures done { IfOk result (λ shown. IsDone F.coding self.old (Event.Reopen receiver)
            shown.items self.new steps.old steps.new) }
        ensures unchanged { OnErr result (self.new ≡ self.old) }
    {
        let here = usize::from(receiver);
        let limit = self.limit;
        match reopen_at(
            self.alloc,
            self.field,
            &mut self.receivers,
            here,
            limit,
            steps,
        ) {
            Ok(()) => {}
            Err(fault) => return Err(not_reopened(fault)),
        }
        Ok(Vec::new(self.alloc))
    }
}

/// Why two receivers of one session were not joined.
fn not_joined(fault: Absorb) -> NoMemory
    requires { fault ≡ Absorb.NoMemory }
{
    let _ = fault;
    NoMemory
}

/// Why the store of a receiver was not read.
fn not_reopened(fault: BadStore) -> NoMemory
    requires { fault ≡ BadStore.NoMemory }
{
    let _ = fault;
    NoMemory
}

/// The number of the session.
fn session_in<F: Rows>(encoders: &[Encoder<'_, F>]) -> [u8; 8]
    requires { 0 < length encoders.now }
    ensures { result ≡ (encoded_session encoders.now).number }
{
    encoders[0].header().session
}

/// Whether all receivers that an event names are there, of so many.
fn are_there(many: usize, event: Event) -> bool
    ensures { result ≡ has_receivers many event }
{
    match event {
        Event::Give { receiver, .. } | Event::Reopen { receiver } => usize::from(receiver) < many,
        Event::Join { receiver, other } => {
            usize::from(receiver) < many && usize::from(other) < many
        }
    }
}

/// Whether the packet that an event gives is one of the session's.
fn gives_its_packet<F: Rows>(encoders: &[Encoder<'_, F>], event: Event) -> bool
    ensures { result ≡ is_in_session (encoded_session encoders.now) event }
{
    match event {
        Event::Give { group, number, .. } => has_packet(encoders, group, number),
        Event::Join { .. } | Event::Reopen { .. } => true,
    }
}
