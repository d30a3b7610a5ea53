//! The real ends of the program: files, a UDP socket and standard output, as `Place`, `Link` and `Sink` of `pet_base`.
//!
//! Meets the traits of `pet_base`. Nothing is told of what the machine's files hold, of their names, of datagrams and
//! their addresses; of what was printed the output tells what its writer
//! does. Each end keeps a count, up to the last value of a u64, that rises at each
//! failure. A write goes on until all bytes are written, a datagram is sent whole or it is a failure, and what a signal
//! interrupts is tried again. Of a file or an address that fails, one line on standard error says which and why. These few lines
//! are the edge at which the program trusts the operating system.
#![tactic(auto)]

mod datagrams;
mod fault_count;
mod file_place;
mod inbox;
mod met_files;
mod notices;
mod printer;
mod standard_out;
mod transfer;
mod udp_link;
mod waiting;

pub use fault_count::FaultCount;
pub use file_place::FilePlace;
pub use printer::Printer;
pub use standard_out::StandardOut;
pub use udp_link::UdpLink;
