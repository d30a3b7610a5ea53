//! The receiver of one session.
ghost use Rattle.std.specs.Prelude.{◌≡◌, ◌≢◌, None, IfErr, map, ◌↔◌, ℕ, ◌+◌, ◌≤◌, false, true, List, [], ◌∷◌, ◌++◌, Some, IsSome, IsTrue, IfOk, IfSome, OnOk, OnErr, option_copied, option_map};
ghost use Rattle.pet_base.specs.declared.limits.TheConstants.{MAX_PACKETS};
ghost use Rattle.packet_frame.specs.declared.format.TheConstants.{FORMAT};
ghost use Rattle.packet_frame.specs.Refusals.{fields_of};
ghost use Rattle.packet_set.specs.Packets.{Packets};
ghost use Rattle.pet_interp.specs.Progressive.{step_bound};
ghost use Rattle.packet_session.specs.Session.{IsMessage, bytes_of_layer};
ghost use Rattle.packet_verdicts.specs.KeptSet.{IsKeptSet, empty_set, open_group, payload_of, Keeps, count_kept, kept_in_all, told_by};
ghost use Rattle.packet_verdicts.specs.Verdicts.{verdict_of, is_kept, opens, after};
ghost use Rattle.pet_receive.specs.Arrivals.{Order, HasKept, kept_set, numbers_of, layers_of, stripe_lengths};
ghost use Rattle.pet_receive.specs.Tags.{kept_tag};
ghost use Rattle.pet_receive.specs.UnionSteps.{union_steps};
ghost use Rattle.packet_verdicts.specs.Union.{union, absorb_fault, new_pairs, shown_by_union};
ghost use Rattle.pet_receive.specs.ShownBytes.{IsShown, IsShownBytes, Agrees, IsComplete, shown_in_all};

use field_rows::Rows;
use packet_frame::{FORMAT, Header};
use packet_receiver::PacketReceiver;
use packet_verdicts::{Absorb, Verdict};
use pet_base::{NoMemory, Steps};
use std::alloc::Global;
use std::marker::Model;
use std::sync::ledger::Ledger;

/// What was kept of one session, and what it shows.
#[derive(Drop)]
pub struct Receiver<'f, F: Rows> {
    /// The receiver of FORMAT, over a field whose elements have two bytes.
    core: PacketReceiver<'f, F>,
}

impl<'f, F: Rows> Model for Receiver<'f, F> {
    ghost use Rattle.std.specs.Prelude.{◌≡◌};
    ghost use Rattle.packet_frame.specs.declared.format.TheConstants.{FORMAT};
    ghost use Rattle.pet_receive.specs.Arrivals.{ReceiverState};

    ghost Value = { ReceiverState F.Elem };

    ghost view = { λ r. r.core };

    ghost invariant = { λ r. (r.core.format ≡ FORMAT) × (F.coding.width ≡ 2) };
}

impl<'f, F: Rows> Receiver<'f, F> {
    /// A receiver of the session of this number that has kept nothing. Its open groups may cost at most `limit`: packets
    /// times datagram length, summed. The field writes an element in two bytes, and has a point for each packet number.
    /// It takes no memory.
    pub fn new(alloc: Global, f: &'f F, session: [u8; 8], limit: u64) -> Receiver<'f, F>
        requires width { F.coding.width ≡ 2 }
        requires points { MAX_PACKETS ≤ F.COUNT }
        ensures empty { kept_set result ≡ empty_set session limit }
        ensures order { HasKept F.is_element F.coding result [] }
        ensures sound { IsKeptSet (kept_set result) }
    {
        Receiver {
            core: PacketReceiver::new(alloc, f, FORMAT, session, limit),
        }
    }

    /// The receiver that this one is, of FORMAT over a field whose elements have two bytes. It takes no memory.
    pub fn of(core: PacketReceiver<'f, F>) -> Receiver<'f, F>
        requires format { core.format ≡ FORMAT }
        requires width { F.coding.width ≡ 2 }
        ensures { result ≡ core.entry }
    {
        Receiver { core }
    }

    /// Judges a datagram, and keeps the packet where the verdict is `Kept`. Every other verdict changes nothing and counts
    /// no step. It takes memory, and may find none, only where the datagram would open a group; then nothing changes. A
    /// kept packet counts at most (q + 1)(2r + 1) steps, where r packets of its group were kept before and q of the
    /// group's stripes are longer than r.
    pub fn accept<L: Ledger>(
        &mut self,
        datagram: &[u8],
        steps: &mut Steps<L>,
    ) -> Result<Verdict, NoMemory>
        ensures verdict { IfOk result (λ v. v ≡ verdict_of (kept_set self.old) datagram.now) }
        ensures kept { OnOk result (kept_set self.new ≡ after (kept_set self.old) datagram.now) }
        ensures unchanged { IfOk result (λ v. is_kept v ≡ false → (self.new ≡ self.old)
            × (steps.new ≡ steps.old)) }
        ensures memory { OnErr result ((self.new ≡ self.old) × (steps.new ≡ steps.old)
            × (is_kept (verdict_of (kept_set self.old) datagram.now) ≡ true)
            × (opens (kept_set self.old) (fields_of datagram.now) ≡ true)) }
        ensures order { IfOk result (λ v. is_kept v ≡ true → (order : Order) → HasKept F.is_element F.coding self.old order
            → HasKept F.is_element F.coding self.new (order ++ (((fields_of datagram.now).group, (fields_of datagram.now).number) ∷ []))) }
        ensures cost { IfOk result (λ v. is_kept v ≡ true
            → steps.new ≤ steps.old + step_bound
            (count_kept (kept_set self.old) (fields_of datagram.now).group)
            (stripe_lengths (fields_of datagram.now).layers)) }
        ensures sound { IsKeptSet (kept_set self.new) }
    {
        self.core.accept(datagram, steps)
    }

    /// Takes in all packets that the other receiver has kept, by group, then number, and answers the layers that are shown now
    /// and were not before, by group, then layer. It takes all its memory before it keeps the first packet, and a refusal
    /// changes nothing. Each packet that is added counts at most (q + 1)(2r + 1) steps, where r packets of its group were kept
    /// before it and q of the group's stripes are longer than r.
    pub fn absorb<L: Ledger>(
        &mut self,
        other: &Receiver<'f, F>,
        steps: &mut Steps<L>,
    ) -> Result<Vec<(u32, u8)>, Absorb>
        ensures refused { IfErr result (λ fault. fault ≢ Absorb.NoMemory
            → absorb_fault (kept_set self.old) (kept_set other.now) ≡ Some fault) }
        ensures unchanged { OnErr result ((self.new ≡ self.old) × (steps.new ≡ steps.old)) }
        ensures joined { OnOk result (absorb_fault (kept_set self.old) (kept_set other.now) ≡ None) }
        ensures kept { OnOk result (kept_set self.new ≡ union (kept_set self.old) (kept_set other.now)) }
        ensures shown { IfOk result (λ shown. map (λ s. (s.0, s.1)) shown.items ≡ shown_by_union (kept_set self.old) (kept_set other.now)) }
        ensures order { OnOk result ((order : Order) → HasKept F.is_element F.coding self.old order
            → HasKept F.is_element F.coding self.new (order ++ new_pairs (kept_set self.old) (kept_set other.now))) }
        ensures cost { OnOk result (steps.new ≤ steps.old
            + union_steps (kept_set self.old) (kept_set other.now)) }
        ensures sound { IsKeptSet (kept_set self.new) }
    {
        self.core.absorb(&other.core, steps)
    }

    /// The bytes of a layer of a group, where it is shown. It takes no memory.
    pub fn layer(&self, group: u32, layer: u8) -> Option<&[u8]>
        ensures shown { IsSome result ↔ IsShown (kept_set self.now) group layer }
        ensures bytes { (order : Order) (p : Packets) → HasKept F.is_element F.coding self.now order → open_group (kept_set self.now) group ≡ Some p
            → IfSome result (λ bytes. IsShownBytes F.is_element F.coding p (numbers_of order group) layer bytes.now) }
        ensures agreed { (p : Packets) (message : List ℕ) → open_group (kept_set self.now) group ≡ Some p → IsMessage F.coding.width (layers_of p) message → Agrees F.coding p message
            → IfSome result (λ bytes. bytes.now ≡ bytes_of_layer F.coding.width (layers_of p) message layer) }
    {
        self.core.layer(group, layer)
    }

    /// Whether something is kept and every layer of every group of the session is shown. It takes no memory.
    pub fn complete(&self) -> bool
        ensures { IsTrue result ↔ IsComplete (kept_set self.now) }
    {
        self.core.complete()
    }

    /// How many packets of a group are kept. It takes no memory.
    pub fn count(&self, group: u32) -> u16
        ensures { result ≡ count_kept (kept_set self.now) group }
    {
        self.core.count(group)
    }

    /// Whether a packet of a group is kept. It takes no memory.
    pub fn has(&self, group: u32, number: u16) -> bool
        ensures { IsTrue result ↔ Keeps (kept_set self.now) group number }
    {
        self.core.has(group, number)
    }

    /// The payload of a packet of a group, where it is kept. It takes no memory.
    pub fn packet(&self, group: u32, number: u16) -> Option<&[u8]>
        ensures { option_copied result ≡ payload_of (kept_set self.now) group number }
    {
        self.core.packet(group, number)
    }

    /// The tag of a kept packet's frame. It takes no memory.
    pub fn tag(&self, group: u32, number: u16) -> Option<[u8; 16]>
        ensures { result ≡ kept_tag (kept_set self.now) group number }
    {
        self.core.tag(group, number)
    }

    /// What the packets of a group share, where one is kept. It takes no memory.
    pub fn header(&self, group: u32) -> Option<&Header>
        ensures { option_copied result ≡ option_map (λ p. p.header) (open_group (kept_set self.now) group) }
    {
        self.core.header(group)
    }

    /// How many groups the session has, where a packet is kept. Whatever a receiver holds is a kept set, and stands for an order
    /// of arrival. It takes no memory.
    pub fn groups(&self) -> Option<u32>
        ensures value { result ≡ told_by (kept_set self.now) }
        ensures sound { IsKeptSet (kept_set self.now) }
        ensures stands { (order : Order) × HasKept F.is_element F.coding self.now order }
    {
        self.core.groups()
    }

    /// The session's number. It takes no memory.
    pub fn session(&self) -> [u8; 8]
        ensures { result ≡ (kept_set self.now).session }
    {
        self.core.session()
    }

    /// How many packets are kept. It takes no memory.
    pub fn kept(&self) -> u32
        ensures { result ≡ kept_in_all (kept_set self.now) }
    {
        self.core.kept()
    }

    /// How many layers are shown. It takes no memory.
    pub fn shown(&self) -> u32
        ensures { result ≡ shown_in_all (kept_set self.now) }
    {
        self.core.shown()
    }
}
