//! Why work with datagrams stops early.
ghost use Rattle.std.specs.Prelude.{◌≡◌};

use pet_base::{Failed, NoMemory, Stop};
use std::alloc::AllocError;

/// A call of the outside failed, and the count of faults of that object rose in the call.
#[derive(Clone, Copy, Debug, PartialEq, Eq)]
pub enum RouteFailed {
    /// It was a call of the place.
    Place,
    /// It was a call of the link.
    Link,
}

/// Why a command on datagrams stops early.
#[derive(Clone, Copy, Debug, PartialEq, Eq)]
pub enum RouteStop {
    /// No memory was found.
    NoMemory,
    /// A call of the place failed.
    Place,
    /// A call of the link failed.
    Link,
    /// A call of the output failed.
    Out,
}

impl From<AllocError> for RouteStop {
    ghost use Rattle.outside_routes.specs.declared.fault.RouteStop.TheVariants.{NoMemory};

    ghost from_gives = { λ _ stop. stop ≡ NoMemory };

    fn from(_e: AllocError) -> RouteStop {
        RouteStop::NoMemory
    }
}

impl From<NoMemory> for RouteStop {
    ghost use Rattle.outside_routes.specs.declared.fault.RouteStop.TheVariants.{NoMemory};

    ghost from_gives = { λ _ stop. stop ≡ NoMemory };

    fn from(_e: NoMemory) -> RouteStop {
        RouteStop::NoMemory
    }
}

impl From<Stop> for RouteStop {
    ghost use Rattle.outside_routes.specs.RouteFaults.{stop_of_place};

    ghost from_gives = { λ stop to. to ≡ stop_of_place stop };

    fn from(stop: Stop) -> RouteStop {
        match stop {
            Stop::NoMemory => RouteStop::NoMemory,
            Stop::Failed => RouteStop::Place,
        }
    }
}

impl From<Failed> for RouteStop {
    ghost use Rattle.outside_routes.specs.declared.fault.RouteStop.TheVariants.{Place};

    ghost from_gives = { λ _ stop. stop ≡ Place };

    fn from(_e: Failed) -> RouteStop {
        RouteStop::Place
    }
}

impl From<RouteFailed> for RouteStop {
    ghost use Rattle.outside_routes.specs.RouteFaults.{stop_of_route};

    ghost from_gives = { λ failed to. to ≡ stop_of_route failed };

    fn from(failed: RouteFailed) -> RouteStop {
        match failed {
            RouteFailed::Place => RouteStop::Place,
            RouteFailed::Link => RouteStop::Link,
        }
    }
}
