//! The video of a group, put together of the layers that a receiver shows.
//!
//! `specs/Video.antt` defines it of the layers' bytes alone: the runs that the run table of layer 0 names, in the order of the
//! stream, as far as their layers are among the leading ones. `assemble` appends exactly that for the leading layers that are
//! all shown (`specs/Leading.antt`), answers how many these are, and refuses exactly where layer 0 is not shown or has no run
//! table that fits. After a refusal the vector is as before.
//!
//! The laws in `specs/laws/` say it of the runs that a group was cut into: their run table is read back and fits (`TableRead`,
//! `TableFits`), the video of the leading layers is the runs of these, as the stream has them (`VideoOfCut`, `MessageLayers`),
//! and with all layers it is the group's bytes of the stream (`RunsOnEnd`, `WholeVideo`).
#![tactic(auto)]

mod fault;
mod leading;
mod video;

pub use fault::Assemble;
pub use video::assemble;
