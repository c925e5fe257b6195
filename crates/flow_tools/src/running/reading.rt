//! One pass over an input: a reader gets each piece before the next is read.
ghost use Rattle.std.specs.Prelude.{◌≡◌, ◌++◌, ℕ, List, [], None};
ghost use Rattle.std.specs.declared.option.Option.{Option};
ghost use Rattle.flow_text.specs.declared.faults.FaultCode.{FaultCode};
ghost use Rattle.flow_tools.specs.streams.Streams.{over};
ghost use Rattle.flow_tools.specs.running.Reading.{FeedsOn, FinishesAs, IsRead, is_solution, stop_for};

use crate::running::jobs::Stop;
use crate::streams::Input;
use flow_text::ReadFault;

/// Which input of a run a text is.
#[derive(Clone, Copy)]
pub(crate) enum Role {
    /// The problem.
    Problem,
    /// The solution that is checked.
    Solution,
}

/// A reader that is fed a text in pieces: of a problem, or of a solution of a problem with so many nodes.
pub(crate) trait Reader {
    /// What an accepted text stands for.
    type Parsed;

    /// The reader was fed these bytes, of a text about so many nodes, and refused none of them.
    ghost reads: { Self → ℕ → List ℕ → Type 0 };

    /// The fault that stands however the text goes on.
    ghost early: { ℕ → List ℕ → Option (ℕ × FaultCode) };

    /// The whole text has this fault.
    ghost has_fault: { ℕ → List ℕ → ℕ × FaultCode → Type 0 };

    /// The whole text is accepted, and stands for this.
    ghost accepts: { ℕ → List ℕ → Self.Parsed → Type 0 };

    /// Takes the next piece of the text.
    fn feed(&mut self, piece: &[u8]) -> Result<(), ReadFault>
        ensures { (n : ℕ) (b : List ℕ) → reads self.old n b
            → FeedsOn (early n (b ++ piece.now)) (reads self.new n (b ++ piece.now)) result };

    /// Takes the end of the text.
    fn finish(self) -> Result<Self::Parsed, ReadFault>
        ensures { (n : ℕ) (b : List ℕ) → reads self n b → FinishesAs (has_fault n b) (accepts n b) result };

    /// A text that was fed without a refusal has no early fault.
    ghost quiet: { (r : Self) (n : ℕ) (b : List ℕ) → reads r n b → early n b ≡ None };
}

/// Reads an input to its end, or to the first fault or refusal, after which nothing more is pulled.
///
/// # Errors
///
/// Why the run stops: a fault of the text, `ReadFailed` where a pull failed, or `OutOfMemory` where the reader was
/// refused memory.
pub(crate) fn read_all<I: Input, R: Reader + Drop>(
    input: &mut I,
    reader: R,
    role: Role,
) -> Result<R::Parsed, Stop>
    ensures { (n : ℕ) → R.reads reader n [] → IsRead (R.early n) (R.has_fault n) (R.accepts n)
        (over (I.state input.old) (I.state input.new)) (is_solution role) result }
{
    let mut reader = reader;
    let mut buf = [0u8; 4096];
    loop {
        match input.pull(&mut buf) {
            Err(_) => return Err(Stop::ReadFailed),
            Ok(0) => break,
            Ok(count) => match reader.feed(&buf[..count]) {
                Ok(()) => {}
                Err(fault) => return Err(stop_of(fault, role)),
            },
        }
    }
    match reader.finish() {
        Ok(value) => Ok(value),
        Err(fault) => Err(stop_of(fault, role)),
    }
}

/// What a run stops with where a reader refuses.
fn stop_of(fault: ReadFault, role: Role) -> Stop
    ensures { result ≡ stop_for (is_solution role) fault }
{
    match fault {
        ReadFault::Fault { line, code } => Stop::Fault {
            solution: match role {
                Role::Problem => false,
                Role::Solution => true,
            },
            line,
            code,
        },
        ReadFault::OutOfMemory => Stop::OutOfMemory,
    }
}
