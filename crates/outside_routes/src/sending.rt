//! Sending datagrams to a route.
ghost use Rattle.std.specs.Prelude.{◌≡◌, ◌∷◌, [], ◌≤◌, length, drop, OnOk, OnErr, IfErr};
ghost use Rattle.outside_routes.specs.RouteFaults.{IsFailure, IsStop, AimedFailed, of_place, of_link, stop_of_a_place, stop_of_a_link};
ghost use Rattle.pet_base.specs.Causes.{stops};
ghost use Rattle.pet_base.specs.LinkSeen.{LinkStops};
ghost use Rattle.pet_base.specs.Seen.{PlaceStops};
ghost use Rattle.outside_routes.specs.Sending.{routes, Sends, SendsPart, IsOpen, OnlyGrows, OutputFailed, SendingFailed, StopsUnsent, IsOpened, OnlyOpens, IsUnopened, CreatingFailed};
ghost use Rattle.pet_base.specs.Entries.{entry_text};
ghost use Rattle.outside_routes.specs.Way.{way_of};

use crate::fault::{RouteFailed, RouteStop};
use crate::route::Route;
use pet_base::{Link, MAX_ENTRY, NoMemory, Place};

/// The bytes of an entry before its datagram, which tell how long that is.
const ENTRY_HEAD: usize = 2;

/// Makes a route ready to take datagrams: the file is made empty and is the output, or the link is aimed.
///
/// # Errors
///
/// The file could not be made, or the address cannot be used; no file has then changed.
pub fn open_route<P: Place, K: Link>(
    to: Route<'_>,
    place: &mut P,
    link: &mut K,
) -> Result<(), RouteFailed>
    ensures opened { OnOk result (IsOpened (way_of to.entry) (routes P.Place K.Link place.old link.old)
        (routes P.Place K.Link place.new link.new)) }
    ensures unopened { OnErr result (IsUnopened (way_of to.entry) (routes P.Place K.Link place.old link.old)
        (routes P.Place K.Link place.new link.new)) }
    ensures others { OnlyOpens (routes P.Place K.Link place.old link.old)
        (routes P.Place K.Link place.new link.new) }
    ensures cause { IfErr result (IsFailure (CreatingFailed (way_of to.entry) (P.seen place.old) (P.seen place.new))
        (AimedFailed (way_of to.entry) (K.seen link.old) (K.seen link.new))) }
    ensures once_place { PlaceStops (stops of_place result) (P.seen place.old) (P.seen place.new) }
    ensures once_link { LinkStops (stops of_link result) (K.seen link.old) (K.seen link.new) }
{
    match to {
        Route::File(name) => match place.create(name) {
            Ok(()) => Ok(()),
            Err(_) => Err(RouteFailed::Place),
        },
        Route::Udp(address) => match link.aim(address) {
            Ok(()) => Ok(()),
            Err(_) => Err(RouteFailed::Link),
        },
    }
}

/// Sends one datagram, which stands in the entry behind the two bytes of its length: the entry is put to the output, or the link
/// sends the datagram.
///
/// # Errors
///
/// The object that the route leads to failed. A front of the entry may then stand in the file.
pub fn put_entry<P: Place, K: Link>(
    to: Route<'_>,
    place: &mut P,
    link: &mut K,
    entry: &[u8],
) -> Result<(), RouteFailed>
    requires open { IsOpen (way_of to) (routes P.Place K.Link place.old link.old) }
    requires entry { entry.now ≡ entry_text (drop 2 entry.now) }
    ensures sends { OnOk result (Sends (way_of to.entry) (drop 2 entry.now ∷ [])
        (routes P.Place K.Link place.old link.old) (routes P.Place K.Link place.new link.new)) }
    ensures part { OnErr result (SendsPart (way_of to.entry) (drop 2 entry.now ∷ [])
        (routes P.Place K.Link place.old link.old) (routes P.Place K.Link place.new link.new)) }
    ensures others { OnlyGrows (routes P.Place K.Link place.old link.old)
        (routes P.Place K.Link place.new link.new) }
    ensures cause { IfErr result (IsFailure (OutputFailed (way_of to.entry) (P.seen place.old) (P.seen place.new))
        (SendingFailed (way_of to.entry) (K.seen link.old) (K.seen link.new))) }
    ensures once_place { PlaceStops (stops of_place result) (P.seen place.old) (P.seen place.new) }
    ensures once_link { LinkStops (stops of_link result) (K.seen link.old) (K.seen link.new) }
{
    match to {
        Route::File(_) => match place.put(entry) {
            Ok(()) => Ok(()),
            Err(_) => Err(RouteFailed::Place),
        },
        Route::Udp(_) => match link.send(&entry[ENTRY_HEAD..]) {
            Ok(()) => Ok(()),
            Err(_) => Err(RouteFailed::Link),
        },
    }
}

/// Sends one datagram. The buffer is emptied first, and is then its entry.
///
/// # Errors
///
/// There was no memory, and nothing was sent; or the object that the route leads to failed, and a front of the entry may stand in
/// the file.
pub fn put_datagram<P: Place, K: Link>(
    to: Route<'_>,
    place: &mut P,
    link: &mut K,
    datagram: &[u8],
    entry: &mut Vec<u8>,
) -> Result<(), RouteStop>
    requires open { IsOpen (way_of to) (routes P.Place K.Link place.old link.old) }
    requires short { length datagram.now ≤ MAX_ENTRY }
    ensures sends { OnOk result (Sends (way_of to.entry) (datagram.now ∷ [])
        (routes P.Place K.Link place.old link.old) (routes P.Place K.Link place.new link.new)) }
    ensures part { OnErr result (SendsPart (way_of to.entry) (datagram.now ∷ [])
        (routes P.Place K.Link place.old link.old) (routes P.Place K.Link place.new link.new)) }
    ensures others { OnlyGrows (routes P.Place K.Link place.old link.old)
        (routes P.Place K.Link place.new link.new) }
    ensures cause { IfErr result (IsStop
        (OutputFailed (way_of to.entry) (P.seen place.old) (P.seen place.new))
        (SendingFailed (way_of to.entry) (K.seen link.old) (K.seen link.new)) ⊥) }
    ensures unsent { IfErr result (StopsUnsent (routes P.Place K.Link place.old link.old)
        (routes P.Place K.Link place.new link.new)) }
    ensures once_place { PlaceStops (stops stop_of_a_place result) (P.seen place.old)
        (P.seen place.new) }
    ensures once_link { LinkStops (stops stop_of_a_link result) (K.seen link.old)
        (K.seen link.new) }
{
    write_entry(datagram, entry)?;
    put_entry(to, place, link, entry)?;
    Ok(())
}

/// Makes the buffer the entry of one datagram.
fn write_entry(datagram: &[u8], entry: &mut Vec<u8>) -> Result<(), NoMemory>
    requires { length datagram.now ≤ MAX_ENTRY }
    ensures { OnOk result (entry.new.items ≡ entry_text datagram.now) }
{
    let length = datagram.len() as u16;
    entry.clear();
    entry.extend_from_slice(&length.to_be_bytes())?;
    entry.extend_from_slice(datagram)?;
    Ok(())
}
