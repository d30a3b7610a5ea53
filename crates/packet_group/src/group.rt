//! One open group: its packets, its stripes and its message.
ghost use Rattle.std.specs.Prelude.{◌≡◌, ◌↔◌, ℕ, ◌+◌, ◌*◌, ◌<◌, ◌≤◌, List, [], ◌∷◌, ◌++◌, length, map, None, IsSome, IfOk, IfSome, ◌^◌, sum_by, vec_capacity};
ghost use Rattle.stripe_plan.specs.Layers.{needs_of, plan_stripes, words_of};
ghost use Rattle.packet_session.specs.Session.{IsMessage, bytes_of_layer, bytes_in_layer};
ghost use Rattle.stripe_plan.specs.Sizes.{IsTable};
ghost use Rattle.packet_set.specs.Packets.{slot_at, with_packet, payload_length, no_packets_of};
ghost use Rattle.pet_interp.specs.Progressive.{step_bound};
ghost use Rattle.packet_group.specs.OpenGroup.{count_in, HoldsAfter, layers_of, stripe_lengths};
ghost use Rattle.packet_group.specs.ShownBytes.{IsShownIn, IsShownBytes, Agrees};
ghost use Rattle.packet_group.specs.Tags.{IsTagOf, AreTagsOf, tag_at};
ghost use Rattle.packet_group.specs.Written.{ReachesLayer, whole_message};

use crate::hashing::tag_of_packet;
use crate::learn::learn;
use crate::tags::{no_tags, tag_in};
use field_rows::Rows;
use packet_frame::Header;
use packet_set::PacketSet;
use pet_base::{NoMemory, Steps};
use pet_interp::Progress;
use std::alloc::Global;
use std::marker::Model;
use std::sync::ledger::Ledger;
use stripe_plan::{LayerSize, Table, first_word, layer_words};

/// The packets that are kept of one group, what is known of its stripes, and the words of its message as far as its
/// layers are shown.
#[derive(Drop)]
pub struct OpenGroup<'f, F: Rows> {
    /// The field of the words.
    field: &'f F,
    /// The packets.
    packets: PacketSet,
    /// What is known of each stripe of the plan, given back with the packet that makes the last one known.
    progress: Option<Progress<'f, F>>,
    /// The field's width in bytes a word. A stripe's words stand here from the packet on that shows a layer that has one
    /// of them. There is room for all words, and bytes are written no further than the end of the last such stripe.
    message: Vec<u8>,
    /// For each number the tag of the kept packet's frame, where it was told.
    tags: Vec<Option<[u8; 16]>>,
}

impl<'f, F: Rows> Model for OpenGroup<'f, F> {
    ghost use Rattle.std.specs.Prelude.{vec_capacity};
    ghost use Rattle.packet_group.specs.OpenGroup.{GroupState};
    ghost use Rattle.packet_group.specs.Stored.{state_of, IsStored};

    ghost Value = { GroupState F.Elem };

    ghost view = { λ g. state_of F.coding g.packets g.message.items g.progress };

    ghost invariant = { λ g. IsStored F.coding g.packets g.progress (vec_capacity g.message) g.message.items g.tags.items };
}

impl<'f, F: Rows> OpenGroup<'f, F> {
    /// A group of this header that has kept no packet. It takes all the memory that the group will need, and fails only
    /// where there is not so much. An element of the field has at most two bytes.
    pub fn open(alloc: Global, field: &'f F, header: &Header) -> Result<OpenGroup<'f, F>, NoMemory>
        requires width { F.coding.width ≤ 2 }
        ensures packets { IfOk result (λ g. g.packets ≡ no_packets_of F.coding.width header.now) }
        ensures held { IfOk result (λ g. HoldsAfter F.is_element F.coding g []) }
    {
        let lengths = lengths_of_stripes(alloc, &header.table)?;
        let progress = Progress::new(alloc, field, &lengths)?;
        let packets = PacketSet::of_words(alloc, header, F::WIDTH)?;
        let message = message_room(alloc, &header.table, F::WIDTH)?;
        let tags = no_tags(alloc, header.table.packets())?;
        Ok(OpenGroup {
            field,
            packets,
            progress: Some(progress),
            message,
            tags,
        })
    }

    /// Keeps the packet of a number that is not kept yet and is below the group's number of packets. Its payload has a word
    /// of the field for each stripe of the plan. It takes no memory.
    pub fn keep<L: Ledger>(&mut self, number: u16, payload: &[u8], steps: &mut Steps<L>)
        requires points { self.old.packets.header.table.packets ≤ F.COUNT }
        requires held { (numbers : List ℕ) × HoldsAfter F.is_element F.coding self.old numbers }
        requires table { IsTable self.old.packets.header.table.packets
            (layers_of self.old.packets) }
        requires slots { length self.old.packets.slots ≡ self.old.packets.header.table.packets }
        requires number { number < self.old.packets.header.table.packets }
        requires absent { slot_at self.old.packets number ≡ None }
        requires word { self.old.packets.word ≡ F.coding.width }
        requires payload { length payload.now ≡ payload_length self.old.packets }
        ensures packets { self.new.packets ≡ with_packet self.old.packets number payload.now }
        ensures held { (numbers : List ℕ) → HoldsAfter F.is_element F.coding
            self.old numbers → HoldsAfter F.is_element F.coding self.new
            (numbers ++ (number ∷ [])) }
        ensures cost { steps.new ≤ steps.old + step_bound (count_in self.old.packets)
            (stripe_lengths (layers_of self.old.packets)) }
    {
        self.packets.put(number, payload);
        let x = self.field.point(u32::from(number));
        let progress = self.progress.take();
        self.progress = learn(
            self.field,
            &self.packets,
            x,
            payload,
            progress,
            &mut self.message,
            steps,
        );
    }

    /// Keeps the tag of a kept packet's frame beside the packet. Of what is held of the group it changes nothing. It takes no
    /// memory.
    pub fn keep_tag(&mut self, number: u16, tag: [u8; 16])
        requires { IsTagOf self.old.packets number tag }
        ensures { self.new ≡ self.old }
    {
        let at = usize::from(number);
        if at < self.tags.len() {
            self.tags[at] = Some(tag);
        }
    }

    /// The tag of the frame of a kept packet: the one that is kept beside the packet, and where none is, made anew. It takes no
    /// memory.
    pub fn tag(&self, number: u16) -> Option<[u8; 16]>
        ensures { result ≡ tag_at self.now.packets number }
    {
        let payload = self.packets.payload(number)?;
        match tag_in(&self.tags, number) {
            Some(tag) => Some(tag),
            None => Some(tag_of_packet(self.packets.header(), number, payload)),
        }
    }

    /// The tags that are kept, by number.
    pub fn tags(&self) -> &[Option<[u8; 16]>]
        ensures { AreTagsOf self.now.packets result.now }
    {
        &self.tags
    }

    /// The packets that are kept.
    pub fn packets(&self) -> &PacketSet
        ensures { result.now ≡ self.now.packets }
    {
        &self.packets
    }

    /// The bytes of a layer, where the group has it and as many packets are kept as its count says. The first layer is 0.
    pub fn layer(&self, layer: u8) -> Option<&[u8]>
        requires points { self.now.packets.header.table.packets ≤ F.COUNT }
        requires held { (numbers : List ℕ) × HoldsAfter F.is_element F.coding self.now numbers }
        ensures shown { IsSome result ↔ IsShownIn self.now.packets layer }
        ensures bytes { (numbers : List ℕ) → HoldsAfter F.is_element F.coding self.now numbers → IfSome result
            (λ bytes. IsShownBytes F.is_element F.coding self.now.packets
            numbers layer bytes.now) }
        ensures agreed { (message : List ℕ) → IsMessage F.coding.width (layers_of self.now.packets) message → Agrees F.coding self.now.packets message
            → IfSome result (λ bytes. bytes.now ≡ bytes_of_layer F.coding.width (layers_of self.now.packets) message layer) }
    {
        let counts = self.packets.counts();
        if usize::from(layer) >= counts.len() || self.packets.len() < counts[usize::from(layer)] {
            return None;
        }
        let layers = self.packets.header().table.layers();
        Some(layer_bytes(&self.message, layers, layer, F::WIDTH))
    }
}

/// The lengths of the stripes of the plan.
fn lengths_of_stripes(alloc: Global, table: &Table) -> Result<Vec<u16>, NoMemory>
    ensures { IfOk result (λ lengths. lengths.items ≡ stripe_lengths table.now.layers) }
{
    let mut lengths = Vec::new(alloc);
    for (_, length) in table.plan() {
        lengths.push(length)?;
    }
    Ok(lengths)
}

/// Room for a message of words of `width` bytes, of which nothing is written.
fn message_room(alloc: Global, table: &Table, width: usize) -> Result<Vec<u8>, NoMemory>
    ensures nothing { IfOk result (λ message. message.items ≡ []) }
    ensures room { IfOk result (λ message. length (needs_of table.now.layers) * width ≤ vec_capacity message) }
{
    match (table.words() as usize).checked_mul(width) {
        Some(size) => {
            let mut message = Vec::new(alloc);
            message.reserve_exact(size)?;
            Ok(message)
        }
        None => Err(NoMemory),
    }
}

/// The bytes of a layer in a message of words of `width` bytes, which is written at least up to the layer's end. A layer without
/// bytes may stand behind what is written.
fn layer_bytes<'a>(message: &'a [u8], layers: &[LayerSize], layer: u8, width: usize) -> &'a [u8]
    requires reached { ReachesLayer width layers.now layer message.now }
    requires few { sum_by words_of layers.now < 2 ^ 32 }
    requires layer { layer < length layers.now }
    ensures { result.now ≡ bytes_of_layer width layers.now (whole_message width layers.now message.now) layer }
{
    let size = layer_size(&layers[usize::from(layer)], width);
    if size == 0 {
        return &[];
    }
    let start = first_word(layers, usize::from(layer)) as usize * width;
    &message[start..start + size]
}

/// How many bytes a layer has, by words of `width` bytes.
fn layer_size(layer: &LayerSize, width: usize) -> usize
    requires { words_of layer.now * width < 2 ^ 64 }
    ensures { result ≡ bytes_in_layer width layer.now }
{
    (layer.length as usize).min(layer_words(layer) as usize * width)
}
