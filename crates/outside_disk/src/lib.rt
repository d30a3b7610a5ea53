//! One file on a disk that may crash: a trait, a file in memory that has it, and writes that are on the disk when they are done.
//!
//! Meets the definitions in `specs/`: what a disk is seen as and what its calls do to that (`Disk`), what a file in memory shows
//! (`Memory`, by the record of its calls, `Events`), and which of its calls fail (`Calls`).
//!
//! A disk is seen as the bytes that a read gives and as its images: what a crash may leave, now and at each moment since an
//! earlier one. Until a sync that succeeds, any bytes may stand in what was written or cut off; after it, what a read gives is
//! the only image. A call fails only where the disk's count of faults rose in it. `specs/laws` has how calls go on from each
//! other. A file in memory tells all of that, and keeps all its images by a record of its calls.
#![tactic(auto)]

mod calls;
mod disk;
mod event;
mod memory;
mod through;

pub use disk::Disk;
pub use memory::MemoryDisk;
pub use through::{cut_through, write_through};
