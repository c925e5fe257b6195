//! The reader of problems.
ghost use Rattle.std.specs.Prelude.{◌≡◌, ◌++◌, [], List, ℕ, Some, None, Err, IsErrOf, MatchOption, IfSome, length, ◌≤◌};
ghost use Rattle.flow_text.specs.Lines.{ended};
ghost use Rattle.flow_text.specs.Problem.{known_of, problem};
ghost use Rattle.flow_text.specs.Reading.{Refuses};
ghost use Rattle.flow_text.specs.ProblemReading.{Reads, Feeds, Finishes, known_net, lent_net};
ghost use Rattle.flow_text.specs.declared.faults.ReadFault.{ReadFault};

use crate::faults::ReadFault;
use crate::machine::Machine;
use crate::problem_lines::ProblemLines;
use flow_net::{MOST_PROBLEM_ARCS, MOST_PROBLEM_NODES, Network, Problem};
use std::alloc::Global;
use std::marker::Model;

/// Reads a maximum flow problem of the DIMACS format (1990) from the pieces of its text, however it is cut.
///
/// It keeps at most `LONGEST_LINE` bytes of an unfinished line, and none of a comment; one arc for each arc line, and
/// at most two records for each node line. What a problem line declares takes no memory.
#[derive(Drop)]
pub struct ProblemReader {
    machine: Machine<ProblemLines>,
}

impl Model for ProblemReader {
    ghost use Rattle.flow_text.specs.Problem.{Known};
    ghost use Rattle.flow_text.specs.Reading.{State};

    ghost Value = { State Known };

    ghost view = { λ r. r.machine };
}

impl ProblemReader {
    /// A reader that has read nothing. It takes no memory.
    pub fn new(alloc: Global) -> ProblemReader
        ensures { Reads result [] }
    {
        ProblemReader {
            machine: Machine::new(ProblemLines::new(alloc)),
        }
    }

    /// Takes the next piece of the text, which may begin and end anywhere.
    ///
    /// # Errors
    ///
    /// The early fault of the pieces so far, where they have one: the first fault of a line that has ended, or
    /// `LineTooLong` of the unfinished line. Or `OutOfMemory`, where the memory for a line was refused. After an error
    /// every later call answers the same.
    pub fn feed(&mut self, piece: &[u8]) -> Result<(), ReadFault>
        ensures fed { (b : List ℕ) → Reads self.old b → Feeds (b ++ piece.now) result self.new }
        ensures refused { (fault : ReadFault) → Refuses self.old fault → (result ≡ Err fault) × Refuses self.new fault }
    {
        self.machine.feed(piece)
    }

    /// The problem, where the text ends here.
    ///
    /// # Errors
    ///
    /// The first fault of the text, or `OutOfMemory`.
    pub fn finish(self) -> Result<Problem, ReadFault>
        ensures whole { (b : List ℕ) → Reads self b → Finishes (problem b) result }
        ensures refused { (fault : ReadFault) → Refuses self fault → IsErrOf result fault }
    {
        match self.machine.finish() {
            Ok(lines) => Ok(lines.into_problem()),
            Err(fault) => Err(fault),
        }
    }

    /// The network so far: the nodes that the problem line declares, and the arcs of the arc lines that have ended.
    /// There is none before a problem line has ended, and none after an error. It has at most `MOST_PROBLEM_NODES` nodes
    /// and `MOST_PROBLEM_ARCS` arcs, and takes no memory.
    pub fn net(&self) -> Option<&Network>
        ensures lent { MatchOption result (lent_net self.now ≡ None) (λ net. lent_net self.now ≡ Some net.now) }
        ensures most { IfSome result (λ net. length net.now.arcs ≤ MOST_PROBLEM_ARCS) }
        ensures nodes_most { IfSome result (λ net. net.now.nodes ≤ MOST_PROBLEM_NODES) }
        ensures ended { (b : List ℕ) → Reads self.now b → MatchOption result (known_net (known_of (ended b)) ≡ None)
            (λ net. known_net (known_of (ended b)) ≡ Some net.now) }
    {
        match self.machine.judge() {
            None => None,
            Some(lines) => lines.net(),
        }
    }
}
