//! The reader of solutions.
ghost use Rattle.std.specs.Prelude.{◌≡◌, ◌++◌, [], List, ℕ, Some, None, Err, IsErrOf, IfOk, length, ◌≤◌};
ghost use Rattle.flow_text.specs.Lines.{ended};
ghost use Rattle.flow_text.specs.Solution.{stated_of, solution};
ghost use Rattle.flow_text.specs.Reading.{Refuses};
ghost use Rattle.flow_text.specs.SolutionReading.{ReadsSolution, FeedsSolution, FinishesSolution, IsWithinLimits};
ghost use Rattle.flow_text.specs.SolutionReading.{written_in, lent_lines};
ghost use Rattle.flow_text.specs.declared.faults.ReadFault.{ReadFault};

use crate::faults::ReadFault;
use crate::limits::MOST_FLOW_LINES;
use crate::machine::Machine;
use crate::solution_lines::SolutionLines;
use crate::solutions::{FlowLine, Solution};
use std::alloc::Global;
use std::marker::Model;

/// Reads a solution of the DIMACS maximum flow format (1990) from the pieces of its text, however it is cut.
///
/// It keeps at most `LONGEST_LINE` bytes of an unfinished line, and none of a comment; and one record for each flow
/// line.
#[derive(Drop)]
pub struct SolutionReader {
    machine: Machine<SolutionLines>,
}

impl Model for SolutionReader {
    ghost use Rattle.flow_text.specs.SolutionReading.{SolutionSoFar};
    ghost use Rattle.flow_text.specs.Reading.{State};

    ghost Value = { State SolutionSoFar };

    ghost view = { λ r. r.machine };
}

impl SolutionReader {
    /// A reader that has read nothing, for a problem with this many nodes. It takes no memory.
    pub fn new(alloc: Global, nodes: u32) -> SolutionReader
        ensures { ReadsSolution nodes result [] }
    {
        SolutionReader {
            machine: Machine::new(SolutionLines::new(alloc, nodes)),
        }
    }

    /// Takes the next piece of the text, which may begin and end anywhere.
    ///
    /// # Errors
    ///
    /// The early fault of the pieces so far, where they have one: the first fault of a line that has ended, or
    /// `LineTooLong` of the unfinished line. Or `OutOfMemory`, where the memory for a line was refused. After an error
    /// every later call answers the same.
    pub fn feed(&mut self, piece: &[u8]) -> Result<(), ReadFault>
        ensures fed { (nodes : ℕ) (b : List ℕ) → ReadsSolution nodes self.old b
            → FeedsSolution nodes (b ++ piece.now) result self.new }
        ensures refused { (fault : ReadFault) → Refuses self.old fault → (result ≡ Err fault) × Refuses self.new fault }
    {
        self.machine.feed(piece)
    }

    /// The solution, where the text ends here. It is within the limits of the format.
    ///
    /// # Errors
    ///
    /// The first fault of the text, or `OutOfMemory`.
    pub fn finish(self) -> Result<Solution, ReadFault>
        ensures whole { (nodes : ℕ) (b : List ℕ) → ReadsSolution nodes self b
            → FinishesSolution (solution b nodes) result }
        ensures limits { (nodes : ℕ) (b : List ℕ) → ReadsSolution nodes self b
            → IfOk result (λ found. IsWithinLimits nodes (written_in found)) }
        ensures refused { (fault : ReadFault) → Refuses self fault → IsErrOf result fault }
    {
        match self.machine.finish() {
            Ok(lines) => Ok(lines.into_solution()),
            Err(fault) => Err(fault),
        }
    }

    /// The flow lines that have ended, at most `MOST_FLOW_LINES`, none after an error. It takes no memory.
    pub fn lines(&self) -> &[FlowLine]
        ensures lent { result.now ≡ lent_lines self.now }
        ensures most { length result.now ≤ MOST_FLOW_LINES }
        ensures ended { (nodes : ℕ) (b : List ℕ) → ReadsSolution nodes self.now b
            → result.now ≡ (stated_of (ended b)).lines }
    {
        match self.machine.judge() {
            None => &[],
            Some(lines) => lines.lines(),
        }
    }
}
