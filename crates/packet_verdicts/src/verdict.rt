//! What a receiver answers to a datagram.
ghost use Rattle.std.specs.Prelude.{◌≡◌, ◌==◌};
ghost use Rattle.std.specs.Int.{bit_at};

/// A set of layers of one group: layer j is the bit of value 2 to the power j.
#[derive(Clone, Copy, Debug, PartialEq, Eq)]
pub struct LayerSet {
    /// The bits, one for each layer.
    pub bits: u32,
}

impl LayerSet {
    /// Whether the set has the layer.
    pub fn has(self, layer: u8) -> bool
        ensures { result ≡ (bit_at self.bits layer == 1) }
    {
        layer < 32 && (self.bits >> layer) & 1 == 1
    }
}

/// The verdict of a datagram, the first that holds.
#[derive(Clone, Copy, Debug, PartialEq, Eq)]
pub enum Verdict {
    /// The bytes are no frame.
    Damaged,
    /// The frame is of another session.
    Foreign,
    /// The frame contradicts what is kept: it names another number of groups, another table for an open group, or
    /// another payload for a number that is kept.
    Clash,
    /// The frame is kept already.
    Repeated,
    /// The frame's group is not open, and with it the open groups would cost more than the limit.
    Full,
    /// The frame is kept now, and these layers of its group are shown now and were not before.
    Kept(LayerSet),
}
