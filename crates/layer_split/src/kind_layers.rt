//! The layers of a priority, as a splitter keeps them.
ghost use Rattle.std.specs.Prelude.{◌≡◌, ◌<◌, map};
ghost use Rattle.std.specs.List.{range_with_len};
ghost use Rattle.priority_file.specs.Priority.{layer_of};
ghost use Rattle.layer_split.specs.Splitting.{AreOf, layer_at, layer_in};

use pet_base::Kind;
use priority_file::{LAST_PLACE, Priority};
use std::array;

/// The places that are told apart: those that a priority can list, from 1 on, and all further ones as one.
const PLACES: usize = LAST_PLACE as usize + 1;

/// The layer of each kind and place, and how many layers there are.
#[derive(Clone, Copy)]
pub struct KindLayers {
    pub head: u8,
    pub i: u8,
    pub d: u8,
    /// The layers of the P pictures at the places that can be listed, and of all further ones.
    pub p: [u8; PLACES],
    /// The same of the B pictures.
    pub b: [u8; PLACES],
    pub count: usize,
}

impl KindLayers {
    /// Those of this priority.
    pub fn new(priority: &Priority) -> KindLayers
        ensures { AreOf result priority.now }
    {
        KindLayers {
            head: priority.layer_of(Kind::Head, 1),
            i: priority.layer_of(Kind::I, 1),
            d: priority.layer_of(Kind::D, 1),
            p: layers_of(priority, Kind::P),
            b: layers_of(priority, Kind::B),
            count: priority.layers.len(),
        }
    }

    /// The number of the layer that has this kind, at this place from 1 on where it is P or B.
    pub fn layer_of(&self, kind: Kind, place: u32) -> u8
        requires { 0 < place }
        ensures { result ≡ layer_in self.now kind place }
    {
        match kind {
            Kind::Head => self.head,
            Kind::I => self.i,
            Kind::P => layer_at(&self.p, place),
            Kind::B => layer_at(&self.b, place),
            Kind::D => self.d,
        }
    }
}

/// The layers of a kind at the places from 1 on.
fn layers_of(priority: &Priority, kind: Kind) -> [u8; PLACES]
    ensures { result ≡ map (layer_of priority.now kind) (range_with_len 1 PLACES) }
{
    array::from_fn(|index| priority.layer_of(kind, index as u32 + 1))
}

/// The layer of this place, from 1 on.
fn layer_at(table: &[u8; PLACES], place: u32) -> u8
    requires { 0 < place }
    ensures { result ≡ layer_at table.now place }
{
    table[(place as usize).min(PLACES) - 1]
}
