//! Where datagrams come from or go to, in a command word.
ghost use Rattle.std.specs.Prelude.{◌≡◌, IfOk, option_map, option_copied};
ghost use Rattle.outside_routes.specs.Way.{way_of};
ghost use Rattle.pet_text.specs.Words.{file_of, udp_of, end_of};
ghost use Rattle.pet_text.specs.Ends.{end_in, way_in};

use crate::name::Name;
use outside_routes::{Route, is_host_and_port};
use std::alloc::{AllocError, Global};

/// Where datagrams come from or go to.
#[derive(Drop, Debug)]
pub enum End {
    /// A datagram file of this name.
    File(Name),
    /// An address of the link: a host, a colon and a port.
    Udp(Name),
}

impl End {
    /// The same, as commands take it.
    pub fn route(&self) -> Route<'_>
        ensures { way_of result ≡ way_in self.now }
    {
        match self {
            End::File(name) => Route::File(name.as_str()),
            End::Udp(address) => Route::Udp(address.as_str()),
        }
    }
}

/// Where datagrams come from or go to by this word: a file behind `file:`, or an address behind `udp:` whose port is no less than
/// `least`.
pub(crate) fn read_end(word: &str, least: u16) -> Option<Route<'_>>
    ensures { option_map end_in result ≡ end_of least word.now }
{
    if let Some(name) = file_name(word) {
        return Some(Route::File(name));
    }
    let address = udp_address(word, least)?;
    Some(Route::Udp(address))
}

/// The same, with a copy of its text.
pub(crate) fn own_end(alloc: Global, end: Route<'_>) -> Result<End, AllocError>
    ensures { IfOk result (λ owned. owned ≡ end_in end.entry) }
{
    match end {
        Route::File(name) => Ok(End::File(Name::new(alloc, name)?)),
        Route::Udp(address) => Ok(End::Udp(Name::new(alloc, address)?)),
    }
}

/// The name behind `file:`.
fn file_name(word: &str) -> Option<&str>
    ensures { option_copied result ≡ file_of word.now }
{
    match word.strip_prefix("file:") {
        Some(name) if !name.is_empty() => Some(name),
        _ => None,
    }
}

/// The address behind `udp:`, whose port is no less than `least`.
fn udp_address(word: &str, least: u16) -> Option<&str>
    ensures { option_copied result ≡ udp_of least word.now }
{
    match word.strip_prefix("udp:") {
        Some(address) if is_host_and_port(address, least) => Some(address),
        _ => None,
    }
}
