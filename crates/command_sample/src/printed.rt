//! The text that `sample` prints.
ghost use Rattle.std.specs.Prelude.{◌≡◌, ◌++◌, IfOk, OnOk};
ghost use Rattle.command_sample.specs.Summary.{made_text, layers_text, summary_of};

use pet_base::NoMemory;
use std::alloc::Global;
use text_world::{
    sample_arrivals_line, sample_layer_line, sample_packets_line, sample_session_line,
    sample_store_line, sample_stream_line, sample_video_line,
};

/// Bytes, as they are told.
#[derive(Clone, Copy, Debug, PartialEq, Eq)]
pub struct Contents {
    /// How many there are.
    pub bytes: u64,
    /// The first eight bytes of their SHA-256 digest (FIPS 180-4).
    pub digest: [u8; 8],
}

/// The arrivals, counted from 1, that showed a layer.
#[derive(Clone, Copy, Debug, PartialEq, Eq)]
pub struct Showing {
    /// Of the first group.
    pub first: u32,
    /// Of the last group.
    pub last: u32,
}

/// What was made and received.
#[derive(Clone, Copy, Debug, PartialEq, Eq)]
pub struct Figures {
    pub stream: Contents,
    /// The number of the stream's session.
    pub session: [u8; 8],
    /// The bytes of a packet of group 0.
    pub datagram: u32,
    /// How many packets arrived.
    pub arrivals: u32,
    /// When layer 0 was shown, of headers and I pictures.
    pub base: Showing,
    /// When layer 1 was shown, of P pictures.
    pub predicted: Showing,
    /// When layer 2 was shown, of B pictures.
    pub between: Showing,
    /// The text of the receiver's store.
    pub store: Contents,
    /// The video of all groups.
    pub video: Contents,
}

/// The text of these figures.
pub fn summary(alloc: Global, figures: &Figures) -> Result<Vec<u8>, NoMemory>
    ensures { IfOk result (λ text. text.items ≡ summary_of figures.now) }
{
    let mut text = Vec::new(alloc);
    append_begin(figures, &mut text)?;
    append_layers(figures, &mut text)?;
    sample_store_line(figures.store.bytes, &figures.store.digest, &mut text)?;
    sample_video_line(figures.video.bytes, &figures.video.digest, &mut text)?;
    Ok(text)
}

/// Appends the lines of what was made and handed on.
fn append_begin(figures: &Figures, into: &mut Vec<u8>) -> Result<(), NoMemory>
    ensures { OnOk result (into.new.items ≡ into.old.items ++ made_text figures.now) }
{
    sample_stream_line(figures.stream.bytes, &figures.stream.digest, into)?;
    sample_session_line(&figures.session, into)?;
    sample_packets_line(figures.datagram, into)?;
    sample_arrivals_line(figures.arrivals, into)?;
    Ok(())
}

/// Appends the lines of the layers.
fn append_layers(figures: &Figures, into: &mut Vec<u8>) -> Result<(), NoMemory>
    ensures { OnOk result (into.new.items ≡ into.old.items ++ layers_text figures.now) }
{
    sample_layer_line(0, figures.base.first, figures.base.last, into)?;
    sample_layer_line(1, figures.predicted.first, figures.predicted.last, into)?;
    sample_layer_line(2, figures.between.first, figures.between.last, into)?;
    Ok(())
}
