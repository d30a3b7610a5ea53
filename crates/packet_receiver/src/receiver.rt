//! The receiver of one session, of any format.
ghost use Rattle.std.specs.Prelude.{◌≡◌, ◌≢◌, None, IfErr, map, ◌↔◌, ℕ, ◌+◌, ◌≤◌, false, true, List, [], ◌∷◌, ◌++◌, Some, IsSome, IsTrue, IfOk, IfSome, OnOk, OnErr, option_copied, option_map};
ghost use Rattle.std.specs.Option.{option_or};
ghost use Rattle.stripe_plan.specs.Sizes.{ArePlanBounds};
ghost use Rattle.packet_frame.specs.Format.{IsFormat};
ghost use Rattle.packet_frame.specs.Frame.{IsFrameBy};
ghost use Rattle.packet_frame.specs.Planned.{planned_fields};
ghost use Rattle.packet_frame.specs.View.{view};
ghost use Rattle.packet_set.specs.Packets.{Packets};
ghost use Rattle.pet_interp.specs.Progressive.{step_bound};
ghost use Rattle.packet_session.specs.Session.{IsMessage, bytes_of_layer};
ghost use Rattle.packet_verdicts.specs.KeptSet.{IsKeptSetBy, empty_set, open_group, payload_of, Keeps, count_kept, kept_in_all, keep_by, told_by, cost_kept};
ghost use Rattle.packet_verdicts.specs.Verdicts.{verdict_in, frame_verdict_by, is_kept, opens, after_in};
ghost use Rattle.packet_receiver.specs.Arrivals.{Order, HasKept, kept_set, numbers_of, layers_of, stripe_lengths};
ghost use Rattle.packet_receiver.specs.Tags.{frame_tag, kept_tag};
ghost use Rattle.packet_receiver.specs.UnionSteps.{union_steps};
ghost use Rattle.packet_verdicts.specs.Union.{union, absorb_fault, new_pairs, shown_by_union};
ghost use Rattle.packet_receiver.specs.ShownBytes.{IsShown, IsShownBytes, Agrees, IsComplete, shown_in_all};

use crate::checks::{cost_with, find_clash, packets_in};
use crate::joining::take_in;
use crate::judge::judge_group;
use crate::keeping::keep_frame;
use crate::tag::read_tag;
use crate::totals::{Count, total};
use field_rows::Rows;
use packet_frame::{Format, Frame, Header, read_planned};
use packet_group::OpenGroup;
use packet_set::PacketSet;
use packet_verdicts::{Absorb, Verdict, is_other_count};
use pet_base::{NoMemory, Steps};
use std::alloc::Global;
use std::collections::BTreeMap;
use std::marker::Model;
use std::sync::ledger::Ledger;

/// What was kept of one session, and what it shows.
#[derive(Drop)]
pub struct PacketReceiver<'f, F: Rows> {
    /// Where the memory of open groups comes from.
    alloc: Global,
    /// The field of the words.
    field: &'f F,
    /// The format of its frames.
    format: Format,
    /// The session's number.
    session: [u8; 8],
    /// What the open groups may cost.
    limit: u64,
    /// The open groups by number.
    groups: BTreeMap<u32, OpenGroup<'f, F>>,
    /// How many groups the session has, where a packet is kept.
    told: Option<u32>,
    /// Packets times datagram length, summed over the open groups.
    cost: u64,
}

impl<'f, F: Rows> Model for PacketReceiver<'f, F> {
    ghost use Rattle.packet_receiver.specs.Arrivals.{ReceiverState};
    ghost use Rattle.packet_receiver.specs.Receiving.{IsReceiver};

    ghost Value = { ReceiverState F.Elem };

    ghost view = { λ r. record { format = r.format; session = r.session; limit = r.limit; groups = r.groups.entries } };

    ghost invariant = { λ r. IsReceiver F.is_element F.COUNT F.coding (record { format = r.format; session = r.session; limit = r.limit; groups = r.groups.entries }) r.told r.cost };
}

impl<'f, F: Rows> PacketReceiver<'f, F> {
    /// A receiver of the session of this number that has kept nothing. Its open groups may cost at most `limit`: packets
    /// times datagram length, summed. An element of the field is a word of the format, and the field has a point for each
    /// packet number. It takes no memory.
    pub fn new(
        alloc: Global,
        f: &'f F,
        format: Format,
        session: [u8; 8],
        limit: u64,
    ) -> PacketReceiver<'f, F>
        requires format { IsFormat format }
        requires plan { ArePlanBounds format.bounds }
        requires word { format.word ≡ F.coding.width }
        requires points { format.bounds.packets ≤ F.COUNT }
        ensures format { result.format ≡ format }
        ensures empty { kept_set result ≡ empty_set session limit }
        ensures order { HasKept F.is_element F.coding result [] }
        ensures sound { IsKeptSetBy F.coding.width (kept_set result) }
    {
        PacketReceiver {
            alloc,
            field: f,
            format,
            session,
            limit,
            groups: BTreeMap::new(alloc),
            told: None,
            cost: 0,
        }
    }

    /// Judges a datagram, and keeps the packet where the verdict is `Kept`. Every other verdict changes nothing and counts
    /// no step. It takes memory, and may find none, only where the datagram would open a group; then nothing changes. A
    /// kept packet counts at most (q + 1)(2r + 1) steps, where r packets of its group were kept before and q of the
    /// group's stripes are longer than r.
    pub fn accept<L: Ledger>(
        &mut self,
        datagram: &[u8],
        steps: &mut Steps<L>,
    ) -> Result<Verdict, NoMemory>
        ensures verdict { IfOk result (λ v. v ≡ verdict_in self.old.format (kept_set self.old) datagram.now) }
        ensures kept { OnOk result (kept_set self.new ≡ after_in self.old.format (kept_set self.old) datagram.now) }
        ensures unchanged { IfOk result (λ v. is_kept v ≡ false → (self.new ≡ self.old)
            × (steps.new ≡ steps.old)) }
        ensures memory { OnErr result ((self.new ≡ self.old) × (steps.new ≡ steps.old)
            × (is_kept (verdict_in self.old.format (kept_set self.old) datagram.now) ≡ true)
            × (opens (kept_set self.old) (planned_fields self.old.format datagram.now) ≡ true)) }
        ensures order { IfOk result (λ v. is_kept v ≡ true → (order : Order) → HasKept F.is_element F.coding self.old order
            → HasKept F.is_element F.coding self.new (order ++ (((planned_fields self.old.format datagram.now).group, (planned_fields self.old.format datagram.now).number) ∷ []))) }
        ensures cost { IfOk result (λ v. is_kept v ≡ true
            → steps.new ≤ steps.old + step_bound
            (count_kept (kept_set self.old) (planned_fields self.old.format datagram.now).group)
            (stripe_lengths (planned_fields self.old.format datagram.now).layers)) }
        ensures sound { IsKeptSetBy F.coding.width (kept_set self.new) }
        ensures format { self.new.format ≡ self.old.format }
    {
        let format = &self.format;
        match read_planned(format, datagram) {
            Ok(frame) => {
                let tag = read_tag(format, datagram);
                self.take(&frame, tag, steps)
            }
            Err(_) => Ok(Verdict::Damaged),
        }
    }

    /// Takes in all packets that the other receiver has kept, by group, then number, and answers the layers that are shown now
    /// and were not before, by group, then layer. It takes all its memory before it keeps the first packet, and a refusal
    /// changes nothing. Each packet that is added counts at most (q + 1)(2r + 1) steps, where r packets of its group were kept
    /// before it and q of the group's stripes are longer than r.
    pub fn absorb<L: Ledger>(
        &mut self,
        other: &PacketReceiver<'f, F>,
        steps: &mut Steps<L>,
    ) -> Result<Vec<(u32, u8)>, Absorb>
        requires width { F.coding.width ≡ 2 }
        ensures refused { IfErr result (λ fault. fault ≢ Absorb.NoMemory
            → absorb_fault (kept_set self.old) (kept_set other.now) ≡ Some fault) }
        ensures unchanged { OnErr result ((self.new ≡ self.old) × (steps.new ≡ steps.old)) }
        ensures joined { OnOk result (absorb_fault (kept_set self.old) (kept_set other.now) ≡ None) }
        ensures kept { OnOk result (kept_set self.new ≡ union (kept_set self.old) (kept_set other.now)) }
        ensures shown { IfOk result (λ shown. map (λ s. (s.0, s.1)) shown.items ≡ shown_by_union (kept_set self.old) (kept_set other.now)) }
        ensures order { OnOk result ((order : Order) → HasKept F.is_element F.coding self.old order
            → HasKept F.is_element F.coding self.new (order ++ new_pairs (kept_set self.old) (kept_set other.now))) }
        ensures cost { OnOk result (steps.new ≤ steps.old
            + union_steps (kept_set self.old) (kept_set other.now)) }
        ensures sound { IsKeptSetBy F.coding.width (kept_set self.new) }
        ensures format { self.new.format ≡ self.old.format }
    {
        let cost = self.fit(other)?;
        let shown = take_in(
            self.alloc,
            self.field,
            &mut self.groups,
            &other.groups,
            steps,
        )?;
        self.told = told_by_either(self.told, other.told);
        self.cost = cost;
        Ok(shown)
    }

    /// The bytes of a layer of a group, where it is shown. It takes no memory.
    pub fn layer(&self, group: u32, layer: u8) -> Option<&[u8]>
        ensures shown { IsSome result ↔ IsShown (kept_set self.now) group layer }
        ensures bytes { (order : Order) (p : Packets) → HasKept F.is_element F.coding self.now order → open_group (kept_set self.now) group ≡ Some p
            → IfSome result (λ bytes. IsShownBytes F.is_element F.coding p (numbers_of order group) layer bytes.now) }
        ensures agreed { (p : Packets) (message : List ℕ) → open_group (kept_set self.now) group ≡ Some p → IsMessage F.coding.width (layers_of p) message → Agrees F.coding p message
            → IfSome result (λ bytes. bytes.now ≡ bytes_of_layer F.coding.width (layers_of p) message layer) }
    {
        match self.groups.get(&group) {
            Some(open) => open.layer(layer),
            None => None,
        }
    }

    /// Whether something is kept and every layer of every group of the session is shown. It takes no memory.
    pub fn complete(&self) -> bool
        ensures { IsTrue result ↔ IsComplete (kept_set self.now) }
    {
        match self.told {
            Some(groups) => total(Count::Whole, &self.groups) == groups,
            None => false,
        }
    }

    /// How many packets of a group are kept. It takes no memory.
    pub fn count(&self, group: u32) -> u16
        ensures { result ≡ count_kept (kept_set self.now) group }
    {
        match self.packets(group) {
            Some(packets) => packets.len(),
            None => 0,
        }
    }

    /// Whether a packet of a group is kept. It takes no memory.
    pub fn has(&self, group: u32, number: u16) -> bool
        ensures { IsTrue result ↔ Keeps (kept_set self.now) group number }
    {
        match self.packets(group) {
            Some(packets) => packets.has(number),
            None => false,
        }
    }

    /// The payload of a packet of a group, where it is kept. It takes no memory.
    pub fn packet(&self, group: u32, number: u16) -> Option<&[u8]>
        ensures { option_copied result ≡ payload_of (kept_set self.now) group number }
    {
        match self.packets(group) {
            Some(packets) => packets.payload(number),
            None => None,
        }
    }

    /// The tag of a kept packet's frame, as frames are written today. It takes no memory.
    pub fn tag(&self, group: u32, number: u16) -> Option<[u8; 16]>
        ensures { result ≡ kept_tag (kept_set self.now) group number }
    {
        match self.groups.get(&group) {
            Some(open) => open.tag(number),
            None => None,
        }
    }

    /// What the packets of a group share, where one is kept. It takes no memory.
    pub fn header(&self, group: u32) -> Option<&Header>
        ensures { option_copied result ≡ option_map (λ p. p.header) (open_group (kept_set self.now) group) }
    {
        match self.packets(group) {
            Some(packets) => Some(packets.header()),
            None => None,
        }
    }

    /// How many groups the session has, where a packet is kept. Whatever a receiver holds is a kept set, and stands for an order
    /// of arrival. It takes no memory.
    pub fn groups(&self) -> Option<u32>
        ensures value { result ≡ told_by (kept_set self.now) }
        ensures sound { IsKeptSetBy F.coding.width (kept_set self.now) }
        ensures stands { (order : Order) × HasKept F.is_element F.coding self.now order }
    {
        self.told
    }

    /// The session's number. It takes no memory.
    pub fn session(&self) -> [u8; 8]
        ensures { result ≡ (kept_set self.now).session }
    {
        self.session
    }

    /// How many packets are kept. It takes no memory.
    pub fn kept(&self) -> u32
        ensures { result ≡ kept_in_all (kept_set self.now) }
    {
        let groups = &self.groups;
        total(Count::Packets, groups)
    }

    /// How many layers are shown. It takes no memory.
    pub fn shown(&self) -> u32
        ensures { result ≡ shown_in_all (kept_set self.now) }
    {
        let groups = &self.groups;
        total(Count::Shown, groups)
    }

    /// The packets that are kept of a group, where it is open.
    fn packets(&self, group: u32) -> Option<&PacketSet>
        ensures { option_copied result ≡ open_group (kept_set self.now) group }
    {
        packets_in(&self.groups, group)
    }

    /// What the open groups cost with those of the other, or why the two cannot be joined.
    fn fit(&self, other: &PacketReceiver<'f, F>) -> Result<u64, Absorb>
        requires width { F.coding.width ≡ 2 }
        ensures refused { IfErr result (λ fault. absorb_fault (kept_set self.now) (kept_set other.now) ≡ Some fault) }
        ensures joined { OnOk result (absorb_fault (kept_set self.now) (kept_set other.now) ≡ None) }
        ensures cost { IfOk result (λ cost. cost ≡ cost_kept (union (kept_set self.now) (kept_set other.now))) }
    {
        if self.session != other.session {
            return Err(Absorb::OtherSession);
        }
        if let Some(clash) = find_clash(self.told, &self.groups, &other.groups) {
            return Err(clash);
        }
        match cost_with(&self.groups, &other.groups, self.limit, self.cost) {
            Ok(cost) => Ok(cost),
            Err(group) => Err(Absorb::Full(group)),
        }
    }

    /// Judges a frame, and keeps it where the verdict is `Kept`, with its tag, where that is told.
    fn take<L: Ledger>(
        &mut self,
        frame: &Frame<'_>,
        tag: Option<[u8; 16]>,
        steps: &mut Steps<L>,
    ) -> Result<Verdict, NoMemory>
        requires frame { IsFrameBy F.coding.width (view frame.now) }
        requires tag { IfSome tag (λ bytes. bytes ≡ frame_tag (view frame.now)) }
        requires points { frame.now.header.table.packets ≤ F.COUNT }
        ensures verdict { IfOk result (λ v. v
            ≡ frame_verdict_by F.coding.width (kept_set self.old) (view frame.now)) }
        ensures kept { IfOk result (λ v. is_kept v ≡ true
            → kept_set self.new ≡ keep_by F.coding.width (kept_set self.old) (view frame.now)) }
        ensures unchanged { IfOk result (λ v. is_kept v ≡ false → (self.new ≡ self.old)
            × (steps.new ≡ steps.old)) }
        ensures memory { OnErr result ((self.new ≡ self.old) × (steps.new ≡ steps.old)
            × (is_kept (frame_verdict_by F.coding.width (kept_set self.old) (view frame.now)) ≡ true)
            × (opens (kept_set self.old) (view frame.now) ≡ true)) }
        ensures order { IfOk result (λ v. is_kept v ≡ true → (order : Order) → HasKept F.is_element F.coding self.old order
            → HasKept F.is_element F.coding self.new (order ++ ((frame.now.header.group, frame.now.number) ∷ []))) }
        ensures cost { IfOk result (λ v. is_kept v ≡ true
            → steps.new ≤ steps.old + step_bound
            (count_kept (kept_set self.old) frame.now.header.group)
            (stripe_lengths frame.now.header.table.layers)) }
        ensures sound { IsKeptSetBy F.coding.width (kept_set self.new) }
        ensures format { self.new.format ≡ self.old.format }
    {
        match self.judge(frame) {
            Verdict::Kept(shown) => {
                self.keep(frame, tag, steps)?;
                Ok(Verdict::Kept(shown))
            }
            refused => Ok(refused),
        }
    }

    /// The verdict of a frame.
    fn judge(&self, frame: &Frame<'_>) -> Verdict
        ensures verdict { result ≡ frame_verdict_by F.coding.width (kept_set self.now) (view frame.now) }
        ensures sound { IsKeptSetBy F.coding.width (kept_set self.now) }
    {
        if frame.header.session != self.session {
            return Verdict::Foreign;
        }
        if is_other_count(self.told, frame.header.groups) {
            return Verdict::Clash;
        }
        judge_group(
            packets_in(&self.groups, frame.header.group),
            frame,
            F::WIDTH as u32,
            self.limit,
            self.cost,
        )
    }

    /// Keeps a frame whose verdict is `Kept`, and its tag, where that is told.
    fn keep<L: Ledger>(
        &mut self,
        frame: &Frame<'_>,
        tag: Option<[u8; 16]>,
        steps: &mut Steps<L>,
    ) -> Result<(), NoMemory>
        requires frame { IsFrameBy F.coding.width (view frame.now) }
        requires tag { IfSome tag (λ bytes. bytes ≡ frame_tag (view frame.now)) }
        requires points { frame.now.header.table.packets ≤ F.COUNT }
        requires kept { is_kept (frame_verdict_by F.coding.width (kept_set self.old) (view frame.now)) ≡ true }
        ensures kept { OnOk result (kept_set self.new ≡ keep_by F.coding.width (kept_set self.old) (view frame.now)) }
        ensures err { OnErr result ((self.new ≡ self.old) × (steps.new ≡ steps.old)
            × (opens (kept_set self.old) (view frame.now) ≡ true)) }
        ensures order { OnOk result ((order : Order) → HasKept F.is_element F.coding self.old order
            → HasKept F.is_element F.coding self.new (order ++ ((frame.now.header.group, frame.now.number) ∷ []))) }
        ensures cost { OnOk result (steps.new
            ≤ steps.old + step_bound (count_kept (kept_set self.old) frame.now.header.group)
            (stripe_lengths frame.now.header.table.layers)) }
        ensures sound { IsKeptSetBy F.coding.width (kept_set self.new) }
        ensures format { self.new.format ≡ self.old.format }
    {
        let more = keep_frame(self.alloc, self.field, &mut self.groups, frame, tag, steps)?;
        self.cost += more;
        self.told = Some(frame.header.groups);
        Ok(())
    }
}

/// The number of groups that was told here, or else there.
fn told_by_either(here: Option<u32>, there: Option<u32>) -> Option<u32>
    ensures { result ≡ option_or here there }
{
    match here {
        Some(count) => Some(count),
        None => there,
    }
}
