//! What is to be sent: what the first reading of both files found, the field and the format in which its packets are made, and
//! where they go.
ghost use Rattle.std.specs.Prelude.{◌≡◌, ◌≤◌, length};
ghost use Rattle.pet_base.specs.declared.limits.TheConstants.{MAX_GROUPS};
ghost use Rattle.command_send.specs.inside.Coded.{ArePlanTables};

use outside_routes::Route;
use packet_frame::Format;
use session_source::MarkedSource;

/// The session that the first reading found, with a mark for each of its groups, the field in which they are coded, the format of
/// their frames, and where their packets go.
#[derive(Drop)]
pub(crate) struct Job<'f, 'a, F> {
    pub(crate) found: MarkedSource,
    pub(crate) field: &'f F,
    pub(crate) format: Format,
    pub(crate) to: Route<'a>,
    ghost as_many: { length found.marks.items ≡ length found.source.tables.items },
    ghost few: { length found.source.tables.items ≤ MAX_GROUPS },
    ghost planned: { ArePlanTables format found.source.tables.items },
}
