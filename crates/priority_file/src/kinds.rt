//! Kinds and places, the words that list them, and sets of them.
ghost use Rattle.std.specs.Prelude.{◌≡◌, ◌<◌, ◌≤◌, ◌^◌, true, nat_lt, not, ◌&&◌, bit_or, bytes_eq, position, map};
ghost use Rattle.std.specs.List.{list_any};
ghost use Rattle.priority_file.specs.declared.kinds.TheConstants.{LAST_PLACE, CLASSES};
ghost use Rattle.priority_file.specs.Kinds.{index_of, has_places, place_index, has_class, has_kind, has_place, bits_of, lists};
ghost use Rattle.priority_file.specs.Draft.{class_named};

use pet_base::Kind;
use std::marker::Model;

/// The last P picture of a group that has a place of its own, counted from 1, and the last B picture that has one.
pub const LAST_PLACE: u8 = 9;

/// The bit of D, which is the last of the kinds.
const LAST_KIND: u8 = 4;

/// How many kinds and places there are.
const CLASSES: usize = 23;

/// The words of a priority file, in the order of the bits of what they list.
const KIND_WORDS: [&str; CLASSES] = [
    "head", "I", "P", "B", "D", "P1", "P2", "P3", "P4", "P5", "P6", "P7", "P8", "P9", "B1", "B2",
    "B3", "B4", "B5", "B6", "B7", "B8", "B9",
];

/// A kind, or a place of the P or of the B pictures of a group. It is named by its bit in a set.
#[derive(Clone, Copy, PartialEq, Eq)]
pub(crate) struct Class {
    index: u8,
}

impl Model for Class {
    ghost use Rattle.std.specs.Prelude.{ℕ, ◌<◌};
    ghost use Rattle.priority_file.specs.declared.kinds.TheConstants.{CLASSES};

    ghost Value = { ℕ };

    ghost view = { λ c. c.index };

    ghost invariant = { λ c. c.index < CLASSES };

    ghost inverse = { λ n. record { index = n } };
}

impl Class {
    /// The class that a kind is.
    pub fn of(kind: Kind) -> Class
        ensures { result ≡ index_of kind }
    {
        match kind {
            Kind::Head => Class { index: 0 },
            Kind::I => Class { index: 1 },
            Kind::P => Class { index: 2 },
            Kind::B => Class { index: 3 },
            Kind::D => Class { index: LAST_KIND },
        }
    }

    /// The class of the P or B picture with this number, where that is a place.
    pub fn at(kind: Kind, place: u32) -> Option<Class>
        ensures { result ≡ place_index kind place }
    {
        match kind {
            Kind::P if is_place(place) => Some(Class {
                index: LAST_KIND + place as u8,
            }),
            Kind::B if is_place(place) => Some(Class {
                index: LAST_KIND + LAST_PLACE + place as u8,
            }),
            _ => None,
        }
    }

    /// Its bit's number, from 0.
    pub fn index(self) -> u8
        ensures value { result ≡ self }
        ensures within { result < CLASSES }
    {
        self.index
    }

    fn bit(self) -> u32
        ensures { result ≡ 2 ^ self }
    {
        1u32 << self.index
    }
}

fn is_place(number: u32) -> bool
    ensures { result ≡ (nat_lt 0 number && not (nat_lt LAST_PLACE number)) }
{
    number > 0 && number <= LAST_PLACE as u32
}

/// A set of kinds and of places. The bits of Head, I, P, B and D are 1, 2, 4, 8 and 16; that of the k-th P picture of a
/// group is 2 to the power 4 + k, and that of the k-th B picture 2 to the power 13 + k.
#[derive(Clone, Copy, PartialEq, Eq, Debug, Default)]
pub struct KindSet {
    pub bits: u32,
}

impl KindSet {
    /// Whether the kind is in the set.
    pub fn has(&self, kind: Kind) -> bool
        ensures { result ≡ has_kind self.now.bits kind }
    {
        self.has_class(Class::of(kind))
    }

    /// Whether the set has the place of the P or B picture with this number, from 1 to `LAST_PLACE`.
    pub fn has_place(&self, kind: Kind, place: u8) -> bool
        requires kind { has_places kind ≡ true }
        requires first { 0 < place }
        requires last { place ≤ LAST_PLACE }
        ensures { result ≡ has_place self.now.bits kind place }
    {
        match Class::at(kind, place as u32) {
            Some(class) => self.has_class(class),
            None => unreachable!(),
        }
    }

    /// Whether the kind or place is in the set.
    pub(crate) fn has_class(&self, class: Class) -> bool
        ensures { result ≡ has_class self.now.bits class }
    {
        self.bits & class.bit() != 0
    }

    /// The set with one more kind or place.
    pub(crate) fn with(self, class: Class) -> KindSet
        ensures { result.bits ≡ bit_or self.bits (2 ^ class) }
    {
        KindSet {
            bits: self.bits | class.bit(),
        }
    }

    /// The set of these kinds and places.
    pub(crate) fn of(classes: &[Class]) -> KindSet
        ensures { result.bits ≡ bits_of classes.now }
    {
        let mut set = KindSet::default();
        for class in classes {
            set = set.with(*class);
        }
        set
    }
}

/// The kind or place that a word of `kinds` lists.
pub(crate) fn class_named(word: &str) -> Option<Class>
    ensures { result ≡ class_named word.now }
{
    match position_of(&KIND_WORDS, word) {
        Some(index) => Some(Class { index: index as u8 }),
        None => None,
    }
}

/// The place of a word in a list of words.
pub(crate) fn position_of(words: &[&str], word: &str) -> Option<usize>
    ensures { result ≡ position (λ w. bytes_eq word.now w.now) words.now }
{
    words.iter().position(|known| word == *known)
}

/// Whether the class is listed.
pub(crate) fn lists(classes: &[Class], class: Class) -> bool
    ensures { result ≡ lists class classes.now }
{
    classes.contains(&class)
}
