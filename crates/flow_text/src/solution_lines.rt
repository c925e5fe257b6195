//! The judge of the lines of a solution.
ghost use Rattle.std.specs.Prelude.{◌≡◌, ◌≤◌, [], ◌∷◌, ◌++◌, List, ℕ, Some, None, is_some, true, length, IfOk};
ghost use Rattle.std.specs.Prelude.{MatchResult};
ghost use Rattle.flow_text.specs.Tests.{first_failed};
ghost use Rattle.flow_text.specs.Solution.{value_tests, flow_tests};
ghost use Rattle.flow_text.specs.SolutionReading.{solution_tests, so_far_of, so_far_rules, stated_in};
ghost use Rattle.flow_text.specs.SolutionReading.{given_of, flow_of, KeepsLine, with_solution_record, written_in};
ghost use Rattle.flow_text.specs.SolutionReading.{written_of, IsWithinLimits};
ghost use Rattle.flow_text.specs.Reading.{Judges};

use crate::faults::FaultCode;
use crate::limits::{GREATEST_VALUE, MOST_FLOW_LINES};
use crate::line_fields::Fields;
use crate::machine::{Judge, Refusal};
use crate::records::{ends_in, is_word, number_in, one};
use crate::solutions::{FlowLine, Solution};
use crate::usual_lines::usual_line;
use std::alloc::Global;
use std::marker::Model;

/// What `s VALUE` says behind its letter.
#[tactic(auto, unfolding(crate::specs::Solution::value_tests))]
fn value_in(others: Fields<'_>) -> Result<u128, FaultCode>
    ensures tests { (kind : List ℕ) → MatchResult result
        (λ value. (first_failed (value_tests (kind ∷ others.entry)) ≡ None) × (value ≡ given_of (kind ∷ others.entry)))
        (λ e. first_failed (value_tests (kind ∷ others.entry)) ≡ Some e) }
    ensures most { IfOk result (λ value. value ≤ GREATEST_VALUE) }
{
    let Some(value) = one(others) else {
        return Err(FaultCode::WrongFields);
    };
    number_in(value, 0, GREATEST_VALUE, FaultCode::ValueOutOfRange)
}

/// The judge of the lines of a solution to a problem with a given number of nodes.
#[derive(Drop)]
pub(crate) struct SolutionLines {
    nodes: u32,
    value: Option<u128>,
    lines: Vec<FlowLine>,
}

impl Model for SolutionLines {
    ghost use Rattle.flow_text.specs.SolutionReading.{written_of, SolutionSoFar, IsWithinLimits};

    ghost Value = { SolutionSoFar };

    ghost view = { λ s. record { nodes = s.nodes; value = s.value; lines = s.lines.items } };

    ghost invariant = { λ s. IsWithinLimits s.nodes
        (written_of (record { value = s.value; lines = s.lines.items })) };
}

impl SolutionLines {
    /// The judge before the first line. It takes no memory.
    #[tactic(auto, unfolding(crate::specs::Solution::stated_of))]
    pub(crate) fn new(alloc: Global, nodes: u32) -> SolutionLines
        ensures { result ≡ so_far_of nodes [] }
    {
        SolutionLines {
            nodes,
            value: None,
            lines: Vec::new(alloc),
        }
    }

    /// Judges a solution line, and keeps its value.
    fn solution_line(&mut self, others: Fields<'_>) -> Result<(), Refusal>
        ensures { (kind : List ℕ) → Judges (first_failed (solution_tests self.old (kind ∷ others.entry)))
            (record self.old { value = Some (given_of (kind ∷ others.entry)) }) result self.new }
    {
        if self.value.is_some() {
            return Err(Refusal::Code(FaultCode::SecondSolutionLine));
        }
        match value_in(others) {
            Ok(value) => {
                self.value = Some(value);
                Ok(())
            }
            Err(code) => Err(Refusal::Code(code)),
        }
    }

    /// Judges a flow line, and keeps it.
    fn flow_line(&mut self, others: Fields<'_>) -> Result<(), Refusal>
        ensures { (kind : List ℕ) → Judges
            (first_failed (flow_tests self.old.nodes (stated_in self.old) (kind ∷ others.entry)))
            (record self.old { lines = self.old.lines ++ flow_of (kind ∷ others.entry) ∷ [] }) result self.new }
    {
        if self.value.is_none() {
            return Err(Refusal::Code(FaultCode::SolutionLineMissing));
        }
        if self.lines.len() >= MOST_FLOW_LINES {
            return Err(Refusal::Code(FaultCode::TooManyFlowLines));
        }
        match ends_in(others, self.nodes, FaultCode::FlowOutOfRange) {
            Ok((src, dst, flow)) => match self.lines.push(FlowLine { src, dst, flow }) {
                Ok(()) => Ok(()),
                Err(_) => Err(Refusal::Memory),
            },
            Err(code) => Err(Refusal::Code(code)),
        }
    }

    /// Keeps a flow line that has no fault, and tells whether it did.
    #[inline(always)]
    fn keep_line(&mut self, src: u64, dst: u64, flow: u64) -> Result<bool, Refusal>
        ensures { KeepsLine self.old (record { src = src; dst = dst; flow = flow }) result self.new }
    {
        let nodes = u64::from(self.nodes);
        if src < 1 || nodes < src || dst < 1 || nodes < dst {
            return Ok(false);
        }
        if self.value.is_none() || self.lines.len() >= MOST_FLOW_LINES {
            return Ok(false);
        }
        let line = FlowLine {
            src: src as u32,
            dst: dst as u32,
            flow,
        };
        if self.lines.reserve(1).is_err() {
            return Err(Refusal::Memory);
        }
        self.lines.push_reserved(line);
        Ok(true)
    }

    /// The flow lines so far.
    pub(crate) fn lines(&self) -> &[FlowLine]
        ensures lines { result.now ≡ self.now.lines }
        ensures most { length result.now ≤ MOST_FLOW_LINES }
    {
        self.lines.as_slice()
    }

    /// The solution, where the end of input has no fault.
    pub(crate) fn into_solution(self) -> Solution
        requires { is_some self.value ≡ true }
        ensures written { written_in result ≡ written_of (stated_in self) }
        ensures limits { IsWithinLimits self.nodes (written_in result) }
    {
        let SolutionLines {
            nodes: _,
            value,
            lines,
        } = self;
        match value {
            None => unreachable!(),
            Some(value) => Solution { value, lines },
        }
    }
}

impl Judge for SolutionLines {
    ghost rules = { so_far_rules };

    ghost with_record = { with_solution_record };

    fn judge_fields(&mut self, letter: &[u8], others: Fields<'_>) -> Result<(), Refusal> {
        if is_word(letter, b"s") {
            self.solution_line(others)
        } else if is_word(letter, b"f") {
            self.flow_line(others)
        } else {
            Err(Refusal::Code(FaultCode::UnknownLine))
        }
    }

    #[inline(always)]
    fn judge_usual(&mut self, text: &[u8]) -> Result<Option<usize>, Refusal> {
        let Some((src, dst, flow, at)) = usual_line(text, b'f') else {
            return Ok(None);
        };
        match self.keep_line(src, dst, flow) {
            Ok(true) => Ok(Some(at)),
            Ok(false) => Ok(None),
            Err(refusal) => Err(refusal),
        }
    }

    fn end_fault(&self) -> Option<FaultCode> {
        match self.value {
            None => Some(FaultCode::SolutionLineMissing),
            Some(_) => None,
        }
    }
}
