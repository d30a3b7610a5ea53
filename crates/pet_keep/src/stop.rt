//! Why a run of `keep` stops early.
ghost use Rattle.std.specs.Prelude.{◌≡◌};
ghost use Rattle.pet_keep.specs.inside.SoFar.{end_of};

use crate::end::KeepEnd;
use outside_routes::{RouteFailed, RouteStop};
use pet_base::Stop;
use store_keeper::KeepFault;

/// Why a run stops early, once its journal is open.
#[derive(Clone, Copy)]
pub(crate) enum KeepStop {
    /// No memory was found.
    NoMemory,
    /// A call of the place failed.
    Place,
    /// A call of the link failed.
    Link,
    /// A call of the output failed.
    Out,
    /// A call of the disk failed.
    Disk,
}

impl From<RouteStop> for KeepStop {
    ghost use Rattle.pet_keep.specs.inside.SoFar.{of_route};

    ghost from_gives = { λ stop to. to ≡ of_route stop };

    fn from(stop: RouteStop) -> KeepStop {
        match stop {
            RouteStop::NoMemory => KeepStop::NoMemory,
            RouteStop::Place => KeepStop::Place,
            RouteStop::Link => KeepStop::Link,
            RouteStop::Out => KeepStop::Out,
        }
    }
}

impl From<RouteFailed> for KeepStop {
    ghost use Rattle.pet_keep.specs.inside.SoFar.{of_failed};

    ghost from_gives = { λ failed to. to ≡ of_failed failed };

    fn from(failed: RouteFailed) -> KeepStop {
        match failed {
            RouteFailed::Place => KeepStop::Place,
            RouteFailed::Link => KeepStop::Link,
        }
    }
}

impl From<Stop> for KeepStop {
    ghost use Rattle.pet_keep.specs.inside.SoFar.{of_stop};

    ghost from_gives = { λ stop to. to ≡ of_stop stop };

    fn from(stop: Stop) -> KeepStop {
        match stop {
            Stop::NoMemory => KeepStop::NoMemory,
            Stop::Failed => KeepStop::Place,
        }
    }
}

impl From<KeepFault> for KeepStop {
    ghost use Rattle.pet_keep.specs.inside.SoFar.{of_fault};

    ghost from_gives = { λ fault to. to ≡ of_fault fault };

    fn from(fault: KeepFault) -> KeepStop {
        match fault {
            KeepFault::NoMemory => KeepStop::NoMemory,
            KeepFault::Stopped | KeepFault::DiskFault => KeepStop::Disk,
        }
    }
}

/// The end of a run that stops early.
pub(crate) fn end_of_stop(stop: KeepStop) -> KeepEnd
    ensures { result ≡ end_of stop }
{
    match stop {
        KeepStop::NoMemory => KeepEnd::NoMemory,
        KeepStop::Place => KeepEnd::PlaceFault,
        KeepStop::Link => KeepEnd::LinkFault,
        KeepStop::Out => KeepEnd::OutFault,
        KeepStop::Disk => KeepEnd::DiskFault,
    }
}
