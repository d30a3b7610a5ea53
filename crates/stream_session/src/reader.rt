//! What reads a stream portion by portion, and answers of it.
ghost use Rattle.std.specs.Prelude.{◌<◌, ◌^◌, ◌++◌, ℕ, List, [], length, OnOk, IfOk, IfErr};
ghost use Rattle.mpeg_scan.specs.Refusals.{IsAccepted};
ghost use Rattle.priority_file.specs.Priority.{Priorities};
ghost use Rattle.stream_session.specs.Passing.{IsStreamFaultIn};
ghost use Rattle.stream_session.specs.Tables.{IsSessionFormat};
ghost use Rattle.packet_frame.specs.declared.format.Format.{Format};

use crate::pass::StreamFault;
use packet_frame::Format;
use pet_base::NoMemory;
use priority_file::Priority;
use std::alloc::Global;

/// Reads a stream that comes in portions of any size, under a priority.
pub trait StreamReader: Drop {
    /// What it answers of the stream.
    type Answer;

    /// How many bytes a session may have.
    ghost limit: { ℕ };

    /// Under this priority, of a priority file of these bytes, it has read this stream.
    ghost has_read: { Self → Priorities → List ℕ → List ℕ → Type 0 };

    /// This is what it answers in a format of an accepted stream, under this priority, of a priority file of these bytes.
    ghost answers: { Format → Self.Answer → Priorities → List ℕ → List ℕ → Type 0 };

    /// A reader that has read nothing. `file` has the bytes of the priority file.
    fn begin(alloc: Global, priority: &Priority, file: &[u8]) -> Result<Self, NoMemory>
        requires { length file.now < 2 ^ 32 }
        ensures { IfOk result (λ reader. has_read reader priority.now file.now []) };

    /// Reads the next portion of the stream. A refusal of the stream is kept until the end.
    fn read(&mut self, portion: &[u8]) -> Result<(), NoMemory>
        ensures { OnOk result ((priority : Priorities) (file stream : List ℕ) → has_read self.old priority file stream
            → has_read self.new priority file (stream ++ portion.now)) };

    /// Ends the stream, and answers of it in a format.
    ///
    /// # Errors
    ///
    /// The refusal of the stream, or else that of its plan.
    fn end(self, format: &Format) -> Result<Self::Answer, StreamFault>
        requires { IsSessionFormat format.now }
        ensures answer { IfOk result (λ answer. (priority : Priorities) (file stream : List ℕ) → has_read self priority file stream
            → IsAccepted stream × answers format.now answer priority file stream) }
        ensures refused { IfErr result (λ fault. (priority : Priorities) (file stream : List ℕ) → has_read self priority file stream
            → IsStreamFaultIn format.now limit priority stream fault) };
}
