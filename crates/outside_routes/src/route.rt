//! Where datagrams come from or go to.
ghost use Rattle.std.specs.Prelude.{◌≡◌};
ghost use Rattle.outside_routes.specs.Way.{way_at, way_of};

/// Where datagrams come from or go to.
#[derive(Clone, Copy, Debug, PartialEq, Eq)]
pub enum Route<'a> {
    /// The datagram file of this name.
    File(&'a str),
    /// The link, at this address: a host, a colon and a port.
    Udp(&'a str),
}

/// The link at this address, or the datagram file of this name.
pub fn route_at(udp: bool, name: &str) -> Route<'_>
    ensures { way_of result ≡ way_at udp name.now }
{
    if udp {
        Route::Udp(name)
    } else {
        Route::File(name)
    }
}
