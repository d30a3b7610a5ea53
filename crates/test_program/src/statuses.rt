//! Statuses, whose lines a transcript shows by their places here.
use mpeg_scan::Scan;
use mpeg_system::System;
use pet_text::{PlanKind, Status};
use priority_file::PriorityFault;
use store_text::StoreKind;
use stream_session::GroupMark;

const FIRST: GroupMark = GroupMark {
    length: 34,
    digest: [1; 8],
};

const NONE: GroupMark = GroupMark {
    length: 0,
    digest: [0; 8],
};

/// Statuses.
pub(crate) static STATUSES: [Status; 27] = [
    Status::Done,
    Status::Incomplete,
    Status::LinkFault,
    Status::BadStream(Scan::PictureType(4, 5)),
    Status::BadStream(Scan::TooLong),
    Status::BadStream(Scan::Empty),
    Status::BadPriority(PriorityFault::KindTwice),
    Status::BadPlan(PlanKind::TooManyGroups, 65_535),
    Status::BadPlan(PlanKind::Lines, 2),
    Status::BadStore(1, 24, StoreKind::Cut),
    Status::BadStore(2, 18_446_744_073_709_551_615, StoreKind::Session),
    Status::OtherSession,
    Status::Clash(3, 65_535),
    Status::BadTable(65_534),
    Status::NotLeast(0),
    Status::Changed(0, FIRST, NONE),
    Status::Full(4_294_967_295),
    Status::AlreadyNew,
    Status::TooWide(65_534),
    Status::Unlike(65_534, 4_095),
    Status::BadScript(0),
    Status::BadScript(18_446_744_073_709_551_615),
    Status::BadSystem(System::NotUnit(18_446_744_073_709_551_615, 184)),
    Status::BadSystem(System::NoStart(7)),
    Status::BadSystem(System::Cut(63)),
    Status::BadSystem(System::NoVideo),
    Status::BadSystem(System::TooLong),
];
