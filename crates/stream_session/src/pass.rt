//! The first pass over a stream.
ghost use Rattle.std.specs.Prelude.{◌≡◌, ◌≢◌, ◌<◌, ◌≤◌, ◌^◌, ◌++◌, ℕ, List, [], length, take, OnOk, IfOk, IfErr};
ghost use Rattle.pet_base.specs.declared.limits.TheConstants.{MAX_SESSION};
ghost use Rattle.packet_frame.specs.declared.format.Format.{Format};
ghost use Rattle.mpeg_scan.specs.declared.piece.Piece.{Piece};
ghost use Rattle.mpeg_scan.specs.declared.refusal.Scan.{Scan};
ghost use Rattle.mpeg_scan.specs.Refusals.{IsRefusal};
ghost use Rattle.sha2.specs.Hashers.{Holds256};
ghost use Rattle.priority_file.specs.Priority.{Priorities};
ghost use Rattle.stream_session.specs.Planning.{HasPlanned};
ghost use Rattle.stream_session.specs.Number.{hashed};
ghost use Rattle.stream_session.specs.Passing.{HasPassed, IsPlanOf, IsPlanIn, IsStreamFault, IsStreamFaultIn, IsPlanBy, IsPlanFault};
ghost use Rattle.stream_session.specs.Tables.{IsSessionFormat};

use crate::fault::SessionFault;
use crate::planner::Planner;
use crate::reader::StreamReader;
use mpeg_scan::{Piece, Scan, Scanner};
use packet_frame::{FORMAT, Format};
use pet_base::{MAX_SESSION, NoMemory};
use priority_file::Priority;
use sha2::{Digest, Sha256};
use std::alloc::Global;
use stripe_plan::Table;

/// The number of a session, and the tables of its groups.
#[derive(Drop)]
pub struct SessionPlan {
    /// The first eight bytes of a digest of the priority file and the stream.
    pub number: [u8; 8],
    /// One for each group, in order.
    pub tables: Vec<Table>,
}

/// Why a stream is no session under a priority.
#[derive(Clone, Copy, Debug, PartialEq, Eq)]
pub enum StreamFault {
    /// It is refused, as `Scan` says. `Scan::NoMemory` never stands here.
    Stream(Scan),
    /// It is accepted, and has no plan. `SessionFault::NoMemory` never stands here.
    Plan(SessionFault),
    /// No memory was found.
    NoMemory,
}

impl From<NoMemory> for StreamFault {
    ghost use Rattle.stream_session.specs.declared.pass.StreamFault.TheVariants.{NoMemory};

    ghost from_gives = { λ _ fault. fault ≡ NoMemory };

    fn from(_e: NoMemory) -> StreamFault {
        StreamFault::NoMemory
    }
}

/// The first pass over a stream: it is scanned, hashed and cut portion by portion, and no bytes of it are held.
#[derive(Drop)]
pub struct Pass {
    scanner: Scanner,
    planner: Planner,
    hasher: Sha256,
    /// Those that the last portion gave; none between calls.
    pieces: Vec<Piece>,
    refused: Option<Scan>,
}

impl Pass {
    /// A pass that has read nothing. `file` has the bytes of the priority file.
    pub fn new(alloc: Global, priority: &Priority, file: &[u8]) -> Result<Pass, NoMemory>
        requires { length file.now < 2 ^ 32 }
        ensures { IfOk result (λ pass. HasPassed pass priority.now file.now []) }
    {
        let planner = Planner::new(alloc, priority)?;
        Ok(Pass {
            scanner: Scanner::new(),
            planner,
            hasher: hasher_of(file),
            pieces: Vec::new(alloc),
            refused: None,
        })
    }

    /// Reads the next portion of the stream. A refusal of the stream is kept until the end.
    pub fn add(&mut self, portion: &[u8]) -> Result<(), NoMemory>
        ensures { OnOk result ((priority : Priorities) (file stream : List ℕ) → HasPassed self.old priority file stream
            → HasPassed self.new priority file (stream ++ portion.now)) }
    {
        if self.refused.is_some() {
            return Ok(());
        }
        match self.scanner.feed(portion, &mut self.pieces) {
            Ok(()) => {
                self.hasher.update(portion);
                add_all(&mut self.planner, &self.pieces)?;
                self.pieces.clear();
                Ok(())
            }
            Err(scan) => match scan {
                Scan::NoMemory => Err(NoMemory),
                _ => {
                    self.refused = Some(scan);
                    Ok(())
                }
            },
        }
    }

    /// Ends the stream, and answers its session.
    ///
    /// # Errors
    ///
    /// The refusal of the stream, or else that of its plan.
    #[tactic(auto, using(crate::specs::laws::FormatLaws::today_is))]
    pub fn finish(self) -> Result<SessionPlan, StreamFault>
        ensures plan { IfOk result (λ plan. (priority : Priorities) (file stream : List ℕ) → HasPassed self priority file stream
            → IsPlanOf plan priority file stream) }
        ensures refused { IfErr result (λ fault. (priority : Priorities) (file stream : List ℕ) → HasPassed self priority file stream
            → IsStreamFault priority stream fault) }
    {
        self.finish_in(&FORMAT, MAX_SESSION)
    }

    /// The same in a format, where a session may have so many bytes, at most `MAX_SESSION`.
    ///
    /// # Errors
    ///
    /// The refusal of the stream, or else that of its plan.
    pub fn finish_in(self, format: &Format, limit: u64) -> Result<SessionPlan, StreamFault>
        requires format { IsSessionFormat format.now }
        requires limit { limit ≤ MAX_SESSION }
        ensures plan { IfOk result (λ plan. (priority : Priorities) (file stream : List ℕ) → HasPassed self priority file stream
            → IsPlanIn format.now limit plan priority file stream) }
        ensures refused { IfErr result (λ fault. (priority : Priorities) (file stream : List ℕ) → HasPassed self priority file stream
            → IsStreamFaultIn format.now limit priority stream fault) }
    {
        if let Some(scan) = self.refused {
            return Err(StreamFault::Stream(scan));
        }
        let mut scanner = self.scanner;
        let mut pieces = self.pieces;
        match scanner.finish(&mut pieces) {
            Ok(()) => plan_of(self.planner, self.hasher, &pieces, format, limit),
            Err(scan) => Err(scan_fault(scan)),
        }
    }
}

impl StreamReader for Pass {
    type Answer = SessionPlan;

    ghost limit = { MAX_SESSION };

    ghost has_read = { HasPassed };

    ghost answers = { λ t plan. IsPlanIn t MAX_SESSION plan };

    fn begin(alloc: Global, priority: &Priority, file: &[u8]) -> Result<Pass, NoMemory> {
        Pass::new(alloc, priority, file)
    }

    fn read(&mut self, portion: &[u8]) -> Result<(), NoMemory> {
        self.add(portion)
    }

    fn end(self, format: &Format) -> Result<SessionPlan, StreamFault> {
        self.finish_in(format, MAX_SESSION)
    }
}

/// The same refusal, as one against a session.
fn scan_fault(scan: Scan) -> StreamFault
    ensures { (t : Format) (limit : ℕ) (priority : Priorities) (stream : List ℕ) → (scan ≢ Scan.NoMemory → IsRefusal stream scan)
        → IsStreamFaultIn t limit priority stream result }
{
    match scan {
        Scan::NoMemory => StreamFault::NoMemory,
        _ => StreamFault::Stream(scan),
    }
}

/// The plan of an accepted stream, by a planner that is still to be given its last pieces, and a hasher that has read all,
/// where a session may have so many bytes.
fn plan_of(
    mut planner: Planner,
    hasher: Sha256,
    last: &[Piece],
    format: &Format,
    limit: u64,
) -> Result<SessionPlan, StreamFault>
    requires format { IsSessionFormat format.now }
    requires limit { limit ≤ MAX_SESSION }
    ensures plan { IfOk result (λ plan. (priority : Priorities) (given : List Piece) (message : List ℕ) → HasPlanned planner priority given
        → Holds256 hasher message → IsPlanBy format.now limit plan priority (given ++ last.now) message) }
    ensures refused { IfErr result (λ fault. (priority : Priorities) (given : List Piece) → HasPlanned planner priority given
        → IsPlanFault format.now limit priority (given ++ last.now) fault) }
{
    add_all(&mut planner, last)?;
    match planner.finish_in(format, limit) {
        Ok(tables) => Ok(SessionPlan {
            number: first_eight(hasher.finalize()),
            tables,
        }),
        Err(SessionFault::NoMemory) => Err(StreamFault::NoMemory),
        Err(fault) => Err(StreamFault::Plan(fault)),
    }
}

/// Hands these pieces to the planner.
fn add_all(planner: &mut Planner, pieces: &[Piece]) -> Result<(), NoMemory>
    ensures { OnOk result ((priority : Priorities) (given : List Piece) → HasPlanned planner.old priority given
        → HasPlanned planner.new priority (given ++ pieces.now)) }
{
    for piece in pieces {
        planner.add(piece)?;
    }
    Ok(())
}

/// A hasher that has read the length of the priority file in four bytes, and the priority file.
pub(crate) fn hasher_of(file: &[u8]) -> Sha256
    requires { length file.now < 2 ^ 32 }
    ensures { Holds256 result (hashed file.now []) }
{
    let mut hasher = Sha256::new();
    hasher.update(&(file.len() as u32).to_be_bytes());
    hasher.update(file);
    hasher
}

/// The first eight bytes of a digest.
pub(crate) fn first_eight(digest: [u8; 32]) -> [u8; 8]
    ensures { result ≡ take 8 digest }
{
    let mut first = [0u8; 8];
    first.copy_from_slice(&digest[..8]);
    first
}
