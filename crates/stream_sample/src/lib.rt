//! The stream that `sample` makes of a number.
//!
//! `sample_stream` appends so many groups of made pictures, whose bytes a generator of numbers fills: `specs/Filler.antt` says
//! which bytes, and `specs/SampleStream.antt` which stream.
#![tactic(auto)]

mod filler;
mod groups;

pub use filler::Filler;
pub use groups::{HEADERS, PICTURE_HEAD, PICTURES, Picture, sample_stream, sample_stream_is};
