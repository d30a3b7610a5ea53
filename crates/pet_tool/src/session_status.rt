//! The status of a stream that has no session.
ghost use Rattle.std.specs.Prelude.{◌≡◌, ◌≢◌};
ghost use Rattle.pet_tool.specs.Statuses.{status_of_session};

use pet_base::MAX_GROUPS;
use pet_text::{PlanKind, Status};
use stream_session::SessionFault;

/// The status of a stream that has no session.
pub(crate) fn session_status(fault: &SessionFault) -> Status
    ensures status { result ≡ status_of_session fault.now }
    ensures known { result ≢ Status.Usage }
{
    match fault {
        SessionFault::ManyPackets(packets) => {
            Status::BadPlan(PlanKind::ManyPackets, u64::from(*packets))
        }
        SessionFault::GroupTooLong(group) => {
            Status::BadPlan(PlanKind::GroupTooLong, u64::from(*group))
        }
        SessionFault::TooManyGroups => {
            Status::BadPlan(PlanKind::TooManyGroups, u64::from(MAX_GROUPS))
        }
        SessionFault::ByteLong(group) => Status::BadPlan(PlanKind::ByteLong, u64::from(*group)),
        SessionFault::TooWide(group) => Status::BadPlan(PlanKind::TooWide, u64::from(*group)),
        SessionFault::TooLarge(group) => Status::BadPlan(PlanKind::TooLarge, u64::from(*group)),
        SessionFault::NoMemory => Status::NoMemory,
    }
}
