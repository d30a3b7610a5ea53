//! The receiver of one session of the byte profile.
ghost use Rattle.std.specs.Prelude.{◌≡◌, ◌↔◌, ℕ, ◌+◌, ◌≤◌, false, true, List, [], ◌∷◌, ◌++◌, Some, IsSome, IsTrue, IfOk, IfSome, OnOk, OnErr};
ghost use Rattle.packet_frame.specs.declared.format.TheConstants.{BYTE_FORMAT};
ghost use Rattle.packet_frame.specs.Planned.{planned_fields};
ghost use Rattle.packet_set.specs.Packets.{Packets};
ghost use Rattle.pet_interp.specs.Progressive.{step_bound};
ghost use Rattle.packet_session.specs.Session.{IsMessage, bytes_of_layer};
ghost use Rattle.packet_verdicts.specs.KeptSet.{IsKeptSetBy, empty_set, open_group, Keeps, count_kept, kept_in_all};
ghost use Rattle.packet_verdicts.specs.Verdicts.{verdict_in, is_kept, opens, after_in};
ghost use Rattle.packet_receiver.specs.Arrivals.{Order, HasKept, kept_set, numbers_of, layers_of, stripe_lengths};
ghost use Rattle.packet_receiver.specs.ShownBytes.{IsShown, IsShownBytes, Agrees, IsComplete, shown_in_all};

use field_rows::Rows;
use packet_frame::BYTE_FORMAT;
use packet_receiver::PacketReceiver;
use packet_verdicts::Verdict;
use pet_base::{NoMemory, Steps};
use std::alloc::Global;
use std::marker::Model;
use std::sync::ledger::Ledger;

/// What was kept of one session of the byte profile, and what it shows.
#[derive(Drop)]
pub struct ByteReceiver<'f, F: Rows> {
    /// The receiver of BYTE_FORMAT, over a field whose elements have one byte.
    core: PacketReceiver<'f, F>,
}

impl<'f, F: Rows> Model for ByteReceiver<'f, F> {
    ghost use Rattle.std.specs.Prelude.{◌≡◌};
    ghost use Rattle.packet_frame.specs.declared.format.TheConstants.{BYTE_FORMAT};
    ghost use Rattle.packet_receiver.specs.Arrivals.{ReceiverState};

    ghost Value = { ReceiverState F.Elem };

    ghost view = { λ r. r.core };

    ghost invariant = { λ r. (r.core.format ≡ BYTE_FORMAT) × (F.coding.width ≡ 1) };
}

impl<'f, F: Rows> ByteReceiver<'f, F> {
    /// A receiver of the session of this number that has kept nothing. Its open groups may cost at most `limit`: packets
    /// times the length of a frame, summed. The field has 256 elements, each written in a byte. It takes no memory.
    pub fn new(alloc: Global, f: &'f F, session: [u8; 8], limit: u64) -> ByteReceiver<'f, F>
        requires width { F.coding.width ≡ 1 }
        requires points { F.COUNT ≡ 256 }
        ensures empty { kept_set result ≡ empty_set session limit }
        ensures order { HasKept F.is_element F.coding result [] }
        ensures sound { IsKeptSetBy 1 (kept_set result) }
    {
        ByteReceiver {
            core: PacketReceiver::new(alloc, f, BYTE_FORMAT, session, limit),
        }
    }

    /// Judges a datagram, and keeps the packet where the verdict is `Kept`. Every other verdict changes nothing and counts
    /// no step. It takes memory, and may find none, only where the datagram would open a group; then nothing changes. A
    /// kept packet counts at most (q + 1)(2r + 1) steps, where r packets of its group were kept before and q of the
    /// group's stripes are longer than r.
    pub fn accept<L: Ledger>(
        &mut self,
        datagram: &[u8],
        steps: &mut Steps<L>,
    ) -> Result<Verdict, NoMemory>
        ensures verdict { IfOk result (λ v. v
            ≡ verdict_in BYTE_FORMAT (kept_set self.old) datagram.now) }
        ensures kept { OnOk result (kept_set self.new
            ≡ after_in BYTE_FORMAT (kept_set self.old) datagram.now) }
        ensures unchanged { IfOk result (λ v. is_kept v ≡ false → (self.new ≡ self.old)
            × (steps.new ≡ steps.old)) }
        ensures memory { OnErr result ((self.new ≡ self.old) × (steps.new ≡ steps.old)
            × (is_kept (verdict_in BYTE_FORMAT (kept_set self.old) datagram.now) ≡ true)
            × (opens (kept_set self.old) (planned_fields BYTE_FORMAT datagram.now) ≡ true)) }
        ensures order { IfOk result (λ v. is_kept v ≡ true → (order : Order) → HasKept F.is_element F.coding self.old order
            → HasKept F.is_element F.coding self.new (order ++ (((planned_fields BYTE_FORMAT datagram.now).group, (planned_fields BYTE_FORMAT datagram.now).number) ∷ []))) }
        ensures cost { IfOk result (λ v. is_kept v ≡ true
            → steps.new ≤ steps.old + step_bound
            (count_kept (kept_set self.old) (planned_fields BYTE_FORMAT datagram.now).group)
            (stripe_lengths (planned_fields BYTE_FORMAT datagram.now).layers)) }
        ensures sound { IsKeptSetBy 1 (kept_set self.new) }
    {
        self.core.accept(datagram, steps)
    }

    /// The bytes of a layer of a group, where it is shown. It takes no memory.
    pub fn layer(&self, group: u32, layer: u8) -> Option<&[u8]>
        ensures shown { IsSome result ↔ IsShown (kept_set self.now) group layer }
        ensures bytes { (order : Order) (p : Packets) → HasKept F.is_element F.coding self.now order → open_group (kept_set self.now) group ≡ Some p
            → IfSome result (λ bytes. IsShownBytes F.is_element F.coding p (numbers_of order group) layer bytes.now) }
        ensures agreed { (p : Packets) (message : List ℕ) → open_group (kept_set self.now) group ≡ Some p → IsMessage F.coding.width (layers_of p) message → Agrees F.coding p message
            → IfSome result (λ bytes. bytes.now ≡ bytes_of_layer F.coding.width (layers_of p) message layer) }
    {
        self.core.layer(group, layer)
    }

    /// Whether something is kept and every layer of every group of the session is shown. It takes no memory.
    pub fn complete(&self) -> bool
        ensures { IsTrue result ↔ IsComplete (kept_set self.now) }
    {
        self.core.complete()
    }

    /// How many packets of a group are kept. It takes no memory.
    pub fn count(&self, group: u32) -> u16
        ensures { result ≡ count_kept (kept_set self.now) group }
    {
        self.core.count(group)
    }

    /// Whether a packet of a group is kept. It takes no memory.
    pub fn has(&self, group: u32, number: u16) -> bool
        ensures { IsTrue result ↔ Keeps (kept_set self.now) group number }
    {
        self.core.has(group, number)
    }

    /// How many packets are kept. It takes no memory.
    pub fn kept(&self) -> u32
        ensures { result ≡ kept_in_all (kept_set self.now) }
    {
        self.core.kept()
    }

    /// How many layers are shown. It takes no memory.
    pub fn shown(&self) -> u32
        ensures { result ≡ shown_in_all (kept_set self.now) }
    {
        self.core.shown()
    }
}
