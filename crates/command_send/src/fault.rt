//! Why `send` stops.
ghost use Rattle.std.specs.Prelude.{◌≡◌, ◌≢◌};
ghost use Rattle.command_send.specs.inside.SendParts.{IsEndOf, IsEndOfStop, end_of_refusal};

use crate::command::SendEnd;
use crate::sent_group::Change;
use outside_routes::RouteStop;
use pet_base::NoMemory;
use session_source::SourceFault;

/// Why `send` stops.
#[derive(Clone, Copy, Debug, PartialEq, Eq)]
pub(crate) enum SendFault {
    /// There was no memory, or a file could not be made, read again or written, or the link not aimed or not sent by.
    Stopped(RouteStop),
    /// There is no session.
    Source(SourceFault),
    /// The least group whose mark was another when the stream was read again.
    Changed(Change),
}

impl From<NoMemory> for SendFault {
    ghost use Rattle.outside_routes.specs.declared.fault.RouteStop.TheVariants.{NoMemory as no_memory};
    ghost use Rattle.command_send.specs.declared.fault.SendFault.TheVariants.{Stopped};

    ghost from_gives = { λ _ fault. fault ≡ Stopped no_memory };

    fn from(_e: NoMemory) -> SendFault {
        SendFault::Stopped(RouteStop::NoMemory)
    }
}

impl From<SourceFault> for SendFault {
    ghost use Rattle.command_send.specs.declared.fault.SendFault.TheVariants.{Source};

    ghost from_gives = { λ source fault. fault ≡ Source source };

    fn from(source: SourceFault) -> SendFault {
        SendFault::Source(source)
    }
}

impl From<RouteStop> for SendFault {
    ghost use Rattle.command_send.specs.declared.fault.SendFault.TheVariants.{Stopped};

    ghost from_gives = { λ stop fault. fault ≡ Stopped stop };

    fn from(stop: RouteStop) -> SendFault {
        SendFault::Stopped(stop)
    }
}

impl SendFault {
    /// The end that it makes. No output is used, so none can have failed.
    pub(crate) fn end(&self) -> SendEnd
        requires { self.now ≢ SendFault.Stopped RouteStop.Out }
        ensures { IsEndOf self.now result }
    {
        match self {
            SendFault::Stopped(stop) => end_of_stop(*stop),
            SendFault::Source(fault) => end_of_source(fault),
            SendFault::Changed(change) => SendEnd::Changed(*change),
        }
    }
}

/// The end that a failure or want of memory makes.
fn end_of_stop(stop: RouteStop) -> SendEnd
    requires { stop ≢ RouteStop.Out }
    ensures { IsEndOfStop stop result }
{
    match stop {
        RouteStop::NoMemory => SendEnd::NoMemory,
        RouteStop::Place => SendEnd::PlaceFault,
        RouteStop::Link => SendEnd::LinkFault,
        RouteStop::Out => unreachable!(),
    }
}

/// The end that whatever stops the reading of both files makes.
fn end_of_source(fault: &SourceFault) -> SendEnd
    ensures { result ≡ end_of_refusal fault.now }
{
    match fault {
        SourceFault::NoMemory => SendEnd::NoMemory,
        SourceFault::Failed => SendEnd::PlaceFault,
        SourceFault::Priority(fault) => SendEnd::BadPriority(*fault),
        SourceFault::Stream(scan) => SendEnd::BadStream(*scan),
        SourceFault::Plan(fault) => SendEnd::BadPlan(*fault),
    }
}
