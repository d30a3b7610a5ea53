//! The encoder of one group of a session.
//!
//! An `Encoder` makes the packets of a group as the frames that are written today: it is a `PacketEncoder` of that format, over a
//! field of words of two bytes with a point for each number that a packet may have. Packet `number` is the frame whose payload
//! has, for each stripe of the table's plan in order, the value at the number's point of the polynomial that has the stripe's words
//! as its coefficients, as `packet_session` defines it. `packet` appends exactly the text of that frame, counts exactly one step for
//! each word of the table, and leaves what it appends to as it was where it finds no memory. `range` appends the frames of a range
//! of numbers, and `all` those of the group, from the values of all stripes at all their points.
#![tactic(auto)]

mod encoder;

pub use encoder::Encoder;
