//! How the program ends.
ghost use Rattle.std.specs.Prelude.{◌≡◌, ◌+◌, ◌≤◌, [], ◌++◌, length, codes, decimal};
ghost use Rattle.arrayvec.specs.ArrayVec.{array_vec_len};
ghost use Rattle.text_status.specs.declared.status.Status.TheVariants.{BadStream, BadPriority, BadPlan, BadStore, Clash, BadSystem, Unlike};
ghost use Rattle.text_status.specs.Statuses.{code_of, scan_text, system_text, priority_text, plan_kind_text, store_kind_text, fault_text};

use arrayvec::ArrayVec;
use mpeg_scan::Scan;
use mpeg_system::System;
use pet_base::MAX_STREAM;
use priority_file::PriorityFault;
use store_text::StoreKind;
use stream_session::GroupMark;
use text_pieces::{append_byte, append_number, append_text, number_line};

/// Why a stream has no plan, or a plan file is refused. Each kind comes with a number.
#[derive(Clone, Copy, Debug, PartialEq, Eq)]
pub enum PlanKind {
    /// The priority has so many packets, more than 255, in the byte profile.
    ManyPackets,
    /// The layers of the group of this number have more than 4,194,304 bytes.
    GroupTooLong,
    /// There are more than 65,535 groups; the number is 65,535.
    TooManyGroups,
    /// The layers of the group of this number have more than 2,097,152 bytes, in the byte profile.
    ByteLong,
    /// The datagrams of the group of this number would be longer than 65,000 bytes.
    TooWide,
    /// With the group of this number the session passes 536,870,912 bytes.
    TooLarge,
    /// The plan file has more than 268,435,456 bytes; the number is 0.
    PlanLong,
    /// The number is that of the first line of lengths of another form, counted from 1 over all lines.
    Text,
    /// The number of lines of lengths, which is not that of the groups.
    Lines,
}

impl PlanKind {
    /// The name that a fault line gives the kind.
    fn name(&self) -> &'static str
        ensures text { result.now ≡ plan_kind_text self.now }
        ensures len { length result.now ≤ 13 }
    {
        match self {
            PlanKind::ManyPackets => "ManyPackets",
            PlanKind::GroupTooLong => "GroupTooLong",
            PlanKind::TooManyGroups => "TooManyGroups",
            PlanKind::ByteLong => "ByteLong",
            PlanKind::TooWide => "TooWide",
            PlanKind::TooLarge => "TooLarge",
            PlanKind::PlanLong => "PlanLong",
            PlanKind::Text => "Text",
            PlanKind::Lines => "Lines",
        }
    }
}

/// The status of a run.
#[derive(Clone, Copy, Debug, PartialEq, Eq)]
pub enum Status {
    /// The command did all that it is for.
    Done,
    /// The words have the form of no command.
    Usage,
    /// There was no memory.
    NoMemory,
    /// A file could not be read or written.
    PlaceFault,
    /// The link could not receive or send.
    LinkFault,
    /// A line could not be printed.
    OutFault,
    /// The stream is refused.
    BadStream(Scan),
    /// The priority file is refused.
    BadPriority(PriorityFault),
    /// There is no plan, or the plan file is refused; the number is what the kind says.
    BadPlan(PlanKind, u64),
    /// A store is refused: the first or the second, as 1 or 2; the place of the byte, counted from 0; and the kind.
    BadStore(u8, u64, StoreKind),
    /// A store is of another session.
    OtherSession,
    /// The packet of this group and number contradicts others of its session.
    Clash(u32, u16),
    /// The input ended before every layer was shown.
    Incomplete,
    /// The input has 16,777,216 datagrams or more.
    TurnsSpent,
    /// Layer 0 of this group, the first such, is shown and has no run table that fits the group's layers.
    BadTable(u32),
    /// The listed lengths of this group, the first such, are not proved to be of the fewest stripes.
    NotLeast(u32),
    /// The stream changed while it was sent: this group, the first such, and its marks in the first pass and in the second.
    Changed(u32, GroupMark, GroupMark),
    /// With this group the groups would cost more than the limit.
    Full(u32),
    /// The system stream is refused.
    BadSystem(System),
    /// The store is one of today already.
    AlreadyNew,
    /// The datagrams of this group, the first such, would be longer than 65,000 bytes.
    TooWide(u32),
    /// This line of the script, counted from 1, is the first that is no event of the session; 0 where the script has more
    /// than 1,048,576 bytes.
    BadScript(u64),
    /// The packet of this group and number is kept with another payload than the group's other packets give.
    Unlike(u32, u16),
}

impl Status {
    /// The exit status of the program, from 0 to 21, and 24.
    pub fn code(&self) -> u8
        ensures { result ≡ code_of self.now }
    {
        match self {
            Status::Done => 0,
            Status::Usage => 1,
            Status::NoMemory => 2,
            Status::PlaceFault => 3,
            Status::LinkFault => 4,
            Status::OutFault => 5,
            Status::BadStream(_) => 6,
            Status::BadPriority(_) => 7,
            Status::BadPlan(_, _) => 8,
            Status::BadStore(_, _, _) => 9,
            Status::OtherSession => 10,
            Status::Clash(_, _) => 11,
            Status::Incomplete => 12,
            Status::TurnsSpent => 13,
            Status::BadTable(_) => 15,
            Status::NotLeast(_) => 16,
            Status::Changed(_, _, _) => 17,
            Status::Full(_) => 19,
            Status::BadSystem(_) => 24,
            Status::AlreadyNew => 18,
            Status::TooWide(_) => 20,
            Status::BadScript(_) => 14,
            Status::Unlike(_, _) => 21,
        }
    }
}

/// Leaves the line that tells of the status in `into`, which must be empty; nothing for `Done` and `OutFault`. It takes
/// no memory, and no line has more than 64 bytes.
pub fn fault_line(status: &Status, into: &mut ArrayVec<u8, 64>)
    requires { into.old.items ≡ [] }
    ensures { into.new.items ≡ fault_text status.now }
{
    match status {
        Status::Done | Status::OutFault => {}
        Status::Usage => append_text("fault usage\n", into),
        Status::NoMemory => append_text("fault memory\n", into),
        Status::PlaceFault => append_text("fault place\n", into),
        Status::LinkFault => append_text("fault link\n", into),
        Status::BadStream(fault) => stream_fault(fault, into),
        Status::BadPriority(fault) => priority_fault(fault, into),
        Status::BadPlan(kind, number) => plan_fault(*kind, *number, into),
        Status::BadStore(which, at, kind) => store_fault(*which, *at, *kind, into),
        Status::OtherSession => append_text("fault session\n", into),
        Status::Clash(group, number) => clash_fault(*group, *number, into),
        Status::Incomplete => append_text("fault incomplete\n", into),
        Status::TurnsSpent => append_text("fault turns\n", into),
        Status::BadTable(group) => number_line("fault table ", u64::from(*group), into),
        Status::NotLeast(group) => number_line("fault least ", u64::from(*group), into),
        Status::Changed(group, _, _) => number_line("fault changed ", u64::from(*group), into),
        Status::Full(group) => number_line("fault full ", u64::from(*group), into),
        Status::BadSystem(fault) => system_fault(fault, into),
        Status::AlreadyNew => append_text("fault version\n", into),
        Status::TooWide(group) => number_line("fault wide ", u64::from(*group), into),
        Status::BadScript(line) => number_line("fault script ", *line, into),
        Status::Unlike(group, number) => unlike_fault(*group, *number, into),
    }
}

/// The line of a refused stream.
fn stream_fault(fault: &Scan, into: &mut ArrayVec<u8, 64>)
    requires { into.old.items ≡ [] }
    ensures { into.new.items ≡ fault_text (BadStream fault.now) }
{
    append_text("fault stream ", into);
    append_scan(fault, into);
    append_text("\n", into);
}

/// Appends the kind of a stream's refusal, and where it stands.
fn append_scan(fault: &Scan, into: &mut ArrayVec<u8, 64>)
    requires { array_vec_len into.old ≤ 20 }
    ensures text { into.new.items ≡ into.old.items ++ scan_text fault.now }
    ensures len { array_vec_len into.new ≤ array_vec_len into.old + 36 }
{
    match fault {
        Scan::Empty => append_text("Empty 0", into),
        Scan::NoHead(at) => append_numbered("NoHead ", *at, into),
        Scan::System(at) => append_numbered("System ", *at, into),
        Scan::PictureType(at, kind) => append_pair("PictureType ", *at, *kind, into),
        Scan::ShortPicture(at) => append_numbered("ShortPicture ", *at, into),
        Scan::TooLong => append_numbered("TooLong ", MAX_STREAM, into),
        Scan::NoMemory => append_text("NoMemory 0", into),
    }
}

/// Appends a text of at most 13 bytes, and a number.
fn append_numbered(text: &str, number: u64, into: &mut ArrayVec<u8, 64>)
    requires begun { array_vec_len into.old ≤ 20 }
    requires short { length text.now ≤ 13 }
    ensures text { into.new.items ≡ into.old.items ++ text.now ++ decimal number }
    ensures len { array_vec_len into.new ≤ array_vec_len into.old + length text.now + 20 }
{
    append_text(text, into);
    append_number(number, into);
}

/// Appends a text of at most 12 bytes, a number, and a byte behind it.
fn append_pair(text: &str, number: u64, byte: u8, into: &mut ArrayVec<u8, 64>)
    requires begun { array_vec_len into.old ≤ 20 }
    requires short { length text.now ≤ 12 }
    ensures text { into.new.items ≡ into.old.items ++ text.now ++ decimal number ++ codes " " ++ decimal byte }
    ensures len { array_vec_len into.new ≤ array_vec_len into.old + 36 }
{
    append_numbered(text, number, into);
    append_text(" ", into);
    append_byte(byte, into);
}

/// The line of a refused system stream.
fn system_fault(fault: &System, into: &mut ArrayVec<u8, 64>)
    requires { into.old.items ≡ [] }
    ensures { into.new.items ≡ fault_text (BadSystem fault.now) }
{
    append_text("fault system ", into);
    append_system(fault, into);
    append_text("\n", into);
}

/// Appends the kind of a system stream's refusal, and where it stands.
fn append_system(fault: &System, into: &mut ArrayVec<u8, 64>)
    requires { array_vec_len into.old ≤ 20 }
    ensures text { into.new.items ≡ into.old.items ++ system_text fault.now }
    ensures len { array_vec_len into.new ≤ array_vec_len into.old + 36 }
{
    match fault {
        System::NoStart(at) => append_numbered("NoStart ", *at, into),
        System::NotUnit(at, code) => append_pair("NotUnit ", *at, *code, into),
        System::Pack(at) => append_numbered("Pack ", *at, into),
        System::Cut(at) => append_numbered("Cut ", *at, into),
        System::Header(at) => append_numbered("Header ", *at, into),
        System::NoVideo => append_text("NoVideo 0", into),
        System::TooLong => append_numbered("TooLong ", MAX_STREAM, into),
        System::NoMemory => append_text("NoMemory 0", into),
    }
}

/// The line of a refused priority file.
fn priority_fault(fault: &PriorityFault, into: &mut ArrayVec<u8, 64>)
    requires { into.old.items ≡ [] }
    ensures { into.new.items ≡ fault_text (BadPriority fault.now) }
{
    append_text("fault priority ", into);
    append_text(priority_name(fault), into);
    append_text("\n", into);
}

/// The name that a fault line gives the refusal of a priority file.
fn priority_name(fault: &PriorityFault) -> &'static str
    ensures text { result.now ≡ priority_text fault.now }
    ensures len { length result.now ≤ 13 }
{
    match fault {
        PriorityFault::Long => "Long",
        PriorityFault::Text => "Text",
        PriorityFault::UnknownKey => "UnknownKey",
        PriorityFault::MissingKey => "MissingKey",
        PriorityFault::WrongType => "WrongType",
        PriorityFault::PacketsRange => "PacketsRange",
        PriorityFault::NeedRange => "NeedRange",
        PriorityFault::Name => "Name",
        PriorityFault::KindTwice => "KindTwice",
        PriorityFault::KindMissing => "KindMissing",
        PriorityFault::HeadNotFirst => "HeadNotFirst",
        PriorityFault::TooManyLayers => "TooManyLayers",
        PriorityFault::NoMemory => "NoMemory",
    }
}

/// The line of a plan that is not there, or of a refused plan file.
fn plan_fault(kind: PlanKind, number: u64, into: &mut ArrayVec<u8, 64>)
    requires { into.old.items ≡ [] }
    ensures { into.new.items ≡ fault_text (BadPlan kind number) }
{
    append_text("fault plan ", into);
    append_text(kind.name(), into);
    append_text(" ", into);
    append_number(number, into);
    append_text("\n", into);
}

/// The line of a refused store.
fn store_fault(which: u8, at: u64, kind: StoreKind, into: &mut ArrayVec<u8, 64>)
    requires { into.old.items ≡ [] }
    ensures { into.new.items ≡ fault_text (BadStore which at kind) }
{
    append_text("fault store ", into);
    append_byte(which, into);
    append_text(" ", into);
    append_text(store_name(kind), into);
    append_text(" ", into);
    append_number(at, into);
    append_text("\n", into);
}

/// The name that a fault line gives the refusal of a store.
fn store_name(kind: StoreKind) -> &'static str
    ensures text { result.now ≡ store_kind_text kind }
    ensures len { length result.now ≤ 7 }
{
    match kind {
        StoreKind::Cut => "Cut",
        StoreKind::Magic => "Magic",
        StoreKind::Frame => "Frame",
        StoreKind::Session => "Session",
        StoreKind::Order => "Order",
        StoreKind::Clash => "Clash",
        StoreKind::Full => "Full",
        StoreKind::Rest => "Rest",
        StoreKind::Tag => "Tag",
    }
}

/// The line of a packet that contradicts others.
fn clash_fault(group: u32, number: u16, into: &mut ArrayVec<u8, 64>)
    requires { into.old.items ≡ [] }
    ensures { into.new.items ≡ fault_text (Clash group number) }
{
    append_text("fault clash ", into);
    append_number(u64::from(group), into);
    append_text(" ", into);
    append_number(u64::from(number), into);
    append_text("\n", into);
}

/// The line of a packet that is not the one that its group gives.
fn unlike_fault(group: u32, number: u16, into: &mut ArrayVec<u8, 64>)
    requires { into.old.items ≡ [] }
    ensures { into.new.items ≡ fault_text (Unlike group number) }
{
    append_text("fault unlike ", into);
    append_number(u64::from(group), into);
    append_text(" ", into);
    append_number(u64::from(number), into);
    append_text("\n", into);
}
