//! The encoder of one group, over any format of frames and any field whose elements are the format's words.
//!
//! A `PacketEncoder` keeps the header of a group, and the words of its message as elements of a field, laid out in blocks of
//! stripes. Packet `number` is the frame of the format whose payload has, for each stripe of the table's plan in order, the value at
//! the number's point of the polynomial that has the stripe's words as its coefficients, as `packet_session` defines it.
//! `packet` appends exactly the text of that frame, counts exactly one step for each word of the table, and leaves what it
//! appends to as it was where it finds no memory. `range` appends the frames of a range of numbers, and `all` those of the
//! group, from the values of all stripes at all their points, which `field_values` gives. An encoder of one format and its words
//! is a struct with a `PacketEncoder` of that format.
#![tactic(auto)]

mod encoder;
mod laid;
mod values;

pub use encoder::PacketEncoder;
pub use laid::{laid_words, plan_blocks};
pub use values::{append_elements, stripe_values};
