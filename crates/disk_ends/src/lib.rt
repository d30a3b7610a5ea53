//! A journal's real file, as `Disk` of `outside_disk`, and the files of the machine but for one that no name of it makes.
//!
//! Meets the traits of `outside_disk` and `pet_base`, as the ends of `pet_ends` do. Nothing is told of what the file holds. Each
//! end keeps a count, up to the last value of a u64, that rises at each failure. These few lines are the edge at which the journal
//! trusts the operating system.
#![tactic(auto)]

mod file_disk;
mod lazy_file;
mod sparing_place;

pub use file_disk::FileDisk;
pub use sparing_place::SparingPlace;
