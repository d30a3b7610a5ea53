//! The objects of the outside as one value that is lent to a command.
ghost use Rattle.std.specs.Prelude.{◌≡◌};

use crate::link::Link;
use crate::place::Place;
use crate::sink::Sink;
use crate::steps::Steps;
use std::sync::ledger::Ledger;

/// A place, a link, an output and a counter, lent for one call. What they show together is `seen` of it.
///
/// Each reference has a lifetime of its own: where two share one, the function that makes the value gets no proof. A
/// signature elides them: `outside: &mut Outside<P, K, S, L>`.
#[derive(Drop)]
pub struct Outside<'p, 'k, 's, 'l, P: Place, K: Link, S: Sink, L: Ledger> {
    /// The files.
    pub place: &'p mut P,
    /// The socket.
    pub link: &'k mut K,
    /// Where text is printed.
    pub out: &'s mut S,
    /// The counter of field steps.
    pub steps: &'l mut Steps<L>,
    /// True of every value. A struct with a ghost field has its bounds in its type, so that `seen` needs no argument but
    /// the value.
    ghost bounded: { P.seen place.now ≡ P.seen place.now },
}
