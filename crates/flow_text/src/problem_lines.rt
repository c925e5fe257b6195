//! The judge of the lines of a problem.
ghost use Rattle.std.specs.Prelude.{◌≡◌, ◌≤◌, [], ◌∷◌, ◌++◌, List, ℕ, Some, None, true, false, length, IfOk, IfSome};
ghost use Rattle.std.specs.Prelude.{MatchOption, MatchResult};
ghost use Rattle.flow_text.specs.Tests.{first_failed};
ghost use Rattle.flow_text.specs.Terminals.{is_marked, with_mark};
ghost use Rattle.flow_text.specs.Problem.{Known, known_of, size_tests, node_tests, arc_tests, end_tests, problem_rules};
ghost use Rattle.flow_text.specs.Problem.{instance_of};
ghost use Rattle.flow_text.specs.ProblemReading.{problem_tests, mark_tests};
ghost use Rattle.flow_text.specs.ProblemReading.{size_of, node_of, arc_of, KeepsArc, known_with, with_node};
ghost use Rattle.flow_text.specs.ProblemReading.{with_terminal, with_problem_record, known_net};
ghost use Rattle.flow_text.specs.Reading.{Judges};

use crate::faults::FaultCode;
use crate::line_fields::Fields;
use crate::machine::{Judge, Refusal};
use crate::records::{ends_in, is_word, number_in, three, two};
use crate::terminals::Terminals;
use crate::usual_lines::usual_line;
use flow_net::{Arc, FEWEST_NODES, MOST_PROBLEM_ARCS, MOST_PROBLEM_NODES, Network, Problem};
use std::alloc::Global;
use std::marker::Model;

/// What `p max NODES ARCS` says behind its letter: NODES and ARCS.
#[tactic(auto, unfolding(crate::specs::Problem::size_tests))]
fn size_in(others: Fields<'_>) -> Result<(u32, u32), FaultCode>
    ensures tests { (kind : List ℕ) → MatchResult result
        (λ size. (first_failed (size_tests (kind ∷ others.entry)) ≡ None) × (size ≡ size_of (kind ∷ others.entry)))
        (λ e. first_failed (size_tests (kind ∷ others.entry)) ≡ Some e) }
    ensures nodes_least { IfOk result (λ size. FEWEST_NODES ≤ size.0) }
    ensures nodes_most { IfOk result (λ size. size.0 ≤ MOST_PROBLEM_NODES) }
    ensures arcs_most { IfOk result (λ size. size.1 ≤ MOST_PROBLEM_ARCS) }
{
    let Some((max, nodes, arcs)) = three(others) else {
        return Err(FaultCode::WrongFields);
    };
    if !is_word(max, b"max") {
        return Err(FaultCode::NotMax);
    }
    let nodes = number_in(
        nodes,
        FEWEST_NODES as u128,
        MOST_PROBLEM_NODES as u128,
        FaultCode::NodesOutOfRange,
    );
    let arcs = number_in(
        arcs,
        0,
        MOST_PROBLEM_ARCS as u128,
        FaultCode::ArcsOutOfRange,
    );
    match (nodes, arcs) {
        (Ok(nodes), Ok(arcs)) => Ok((nodes as u32, arcs as u32)),
        (Err(code), _) => Err(code),
        (_, Err(code)) => Err(code),
    }
}

/// What `n ID s` or `n ID t` says behind its letter: the node, and whether it is a source.
#[tactic(auto, unfolding(crate::specs::ProblemReading::mark_tests))]
fn mark_in(others: Fields<'_>, nodes: u32, marks: &Terminals) -> Result<(u32, bool), FaultCode>
    ensures tests { (kind : List ℕ) → MatchResult result
        (λ mark. (first_failed (mark_tests nodes marks.now (kind ∷ others.entry)) ≡ None)
        × (mark.0 ≡ node_of (kind ∷ others.entry))
        × (with_mark marks.now mark.0 mark.1 ≡ with_node marks.now (kind ∷ others.entry)))
        (λ e. first_failed (mark_tests nodes marks.now (kind ∷ others.entry)) ≡ Some e) }
    ensures least { IfOk result (λ mark. 1 ≤ mark.0) }
    ensures most { IfOk result (λ mark. mark.0 ≤ nodes) }
    ensures unmarked { IfOk result (λ mark. is_marked marks.now mark.0 ≡ false) }
{
    let Some((node, letter)) = two(others) else {
        return Err(FaultCode::WrongFields);
    };
    let node = number_in(node, 1, nodes as u128, FaultCode::NodeOutOfRange)? as u32;
    let is_source = letter == b"s".as_slice();
    if !is_source && letter != b"t".as_slice() {
        return Err(FaultCode::NotTerminal);
    }
    if marks.contains(node) {
        return Err(FaultCode::AlreadyTerminal);
    }
    Ok((node, is_source))
}

/// What the lines say once a problem line has ended.
#[derive(Drop)]
struct Declared {
    net: Network,
    arcs: u32,
    terminals: Terminals,
}

impl Model for Declared {
    ghost use Rattle.flow_text.specs.ProblemReading.{ProblemSoFar, KeepsDeclared};

    ghost Value = { ProblemSoFar };

    ghost view = { λ d. record { nodes = d.net.nodes; declared = d.arcs; marks = d.terminals; arcs = d.net.arcs } };

    ghost invariant = { λ d. KeepsDeclared d.net d.arcs d.terminals };
}

impl Declared {
    /// What a problem line with these numbers declares: no terminal and no arc yet.
    fn new(alloc: Global, nodes: u32, arcs: u32) -> Declared
        requires nodes_least { FEWEST_NODES ≤ nodes }
        requires nodes_most { nodes ≤ MOST_PROBLEM_NODES }
        requires arcs_most { arcs ≤ MOST_PROBLEM_ARCS }
        ensures { result ≡
            record { nodes = nodes; declared = arcs; marks = record { sources = []; sinks = [] }; arcs = [] } }
    {
        Declared {
            net: Network::new(alloc, nodes),
            arcs,
            terminals: Terminals::new(alloc),
        }
    }

    /// The arcs so far.
    fn net(&self) -> &Network
        ensures known { known_net (known_with self.now) ≡ Some result.now }
        ensures most { length result.now.arcs ≤ MOST_PROBLEM_ARCS }
        ensures nodes_most { result.now.nodes ≤ MOST_PROBLEM_NODES }
    {
        &self.net
    }

    /// Judges a node line, and keeps its terminal.
    fn node_line(&mut self, others: Fields<'_>) -> Result<(), Refusal>
        ensures { (kind : List ℕ) → Judges (first_failed (node_tests (known_with self.old) (kind ∷ others.entry)))
            (record self.old { marks = with_node self.old.marks (kind ∷ others.entry) }) result self.new }
    {
        if !self.net.is_empty() {
            return Err(Refusal::Code(FaultCode::NodeLineAfterArcLine));
        }
        match mark_in(others, self.net.nodes(), &self.terminals) {
            Ok((node, is_source)) => match self.terminals.add(node, is_source) {
                Ok(()) => Ok(()),
                Err(_) => Err(Refusal::Memory),
            },
            Err(code) => Err(Refusal::Code(code)),
        }
    }

    /// Judges an arc line, and keeps its arc.
    fn arc_line(&mut self, others: Fields<'_>) -> Result<(), Refusal>
        ensures { (kind : List ℕ) → Judges (first_failed (arc_tests (known_with self.old) (kind ∷ others.entry)))
            (record self.old { arcs = self.old.arcs ++ arc_of (kind ∷ others.entry) ∷ [] }) result self.new }
    {
        if self.terminals.lacks_one() {
            return Err(Refusal::Code(FaultCode::TerminalsMissing));
        }
        if self.net.len() >= self.arcs {
            return Err(Refusal::Code(FaultCode::TooManyArcs));
        }
        match ends_in(others, self.net.nodes(), FaultCode::CapacityOutOfRange) {
            Ok((src, dst, cap)) => match self.net.push(Arc { src, dst, cap }) {
                Ok(()) => Ok(()),
                Err(_) => Err(Refusal::Memory),
            },
            Err(code) => Err(Refusal::Code(code)),
        }
    }

    /// Keeps an arc whose line has no fault, and tells whether it did.
    #[inline(always)]
    fn keep_arc(&mut self, src: u64, dst: u64, cap: u64) -> Result<bool, Refusal>
        ensures { KeepsArc self.old (record { src = src; dst = dst; cap = cap }) result self.new }
    {
        let nodes = u64::from(self.net.nodes());
        if src < 1 || nodes < src || dst < 1 || nodes < dst {
            return Ok(false);
        }
        if self.terminals.lacks_one() || self.net.len() >= self.arcs {
            return Ok(false);
        }
        let arc = Arc {
            src: src as u32,
            dst: dst as u32,
            cap,
        };
        match self.net.push(arc) {
            Ok(()) => Ok(true),
            Err(_) => Err(Refusal::Memory),
        }
    }

    /// The fault of the end of input.
    fn end_fault(&self) -> Option<FaultCode>
        ensures { result ≡ first_failed (end_tests (known_with self.now)) }
    {
        if self.terminals.lacks_one() {
            Some(FaultCode::TerminalsMissing)
        } else if self.net.len() < self.arcs {
            Some(FaultCode::TooFewArcs)
        } else {
            None
        }
    }

    /// The problem, where the end of input has no fault.
    fn into_problem(self) -> Problem
        requires { first_failed (end_tests (known_with self)) ≡ None }
        ensures { result ≡ instance_of (known_with self) }
    {
        let Declared {
            net,
            arcs: _,
            terminals,
        } = self;
        let (sources, sinks) = terminals.into_parts();
        Problem::new(net, sources, sinks)
    }
}

/// The judge of the lines of a problem. It keeps the network so far, which takes memory for each arc line alone.
#[derive(Drop)]
pub(crate) struct ProblemLines {
    alloc: Global,
    declared: Option<Declared>,
}

impl Model for ProblemLines {
    ghost use Rattle.flow_text.specs.Problem.{Known};
    ghost use Rattle.flow_text.specs.ProblemReading.{known_from};

    ghost Value = { Known };

    ghost view = { λ p. known_from p.declared };
}

impl ProblemLines {
    /// The judge before the first line. It takes no memory.
    #[tactic(auto, unfolding(crate::specs::Problem::known_of))]
    pub(crate) fn new(alloc: Global) -> ProblemLines
        ensures { result ≡ known_of [] }
    {
        ProblemLines {
            alloc,
            declared: None,
        }
    }

    /// Judges a problem line, and keeps what it declares.
    fn problem_line(&mut self, others: Fields<'_>) -> Result<(), Refusal>
        ensures { (kind : List ℕ) → Judges (first_failed (problem_tests self.old (kind ∷ others.entry)))
            (record self.old { size = Some (size_of (kind ∷ others.entry)) }) result self.new }
    {
        if self.declared.is_some() {
            return Err(Refusal::Code(FaultCode::SecondProblemLine));
        }
        match size_in(others) {
            Ok((nodes, arcs)) => {
                self.declared = Some(Declared::new(self.alloc, nodes, arcs));
                Ok(())
            }
            Err(code) => Err(Refusal::Code(code)),
        }
    }

    /// Judges a node line.
    fn node_line(&mut self, others: Fields<'_>) -> Result<(), Refusal>
        ensures { (kind : List ℕ) → Judges (first_failed (node_tests self.old (kind ∷ others.entry)))
            (with_terminal self.old (kind ∷ others.entry)) result self.new }
    {
        let Some(declared) = &mut self.declared else {
            return Err(Refusal::Code(FaultCode::ProblemLineMissing));
        };
        declared.node_line(others)
    }

    /// Judges an arc line.
    fn arc_line(&mut self, others: Fields<'_>) -> Result<(), Refusal>
        ensures { (kind : List ℕ) → Judges (first_failed (arc_tests self.old (kind ∷ others.entry)))
            (record self.old { arcs = self.old.arcs ++ arc_of (kind ∷ others.entry) ∷ [] }) result self.new }
    {
        let Some(declared) = &mut self.declared else {
            return Err(Refusal::Code(FaultCode::ProblemLineMissing));
        };
        declared.arc_line(others)
    }

    /// The network so far, if a problem line has ended.
    pub(crate) fn net(&self) -> Option<&Network>
        ensures known { MatchOption result (known_net self.now ≡ None) (λ net. known_net self.now ≡ Some net.now) }
        ensures most { IfSome result (λ net. length net.now.arcs ≤ MOST_PROBLEM_ARCS) }
        ensures nodes_most { IfSome result (λ net. net.now.nodes ≤ MOST_PROBLEM_NODES) }
    {
        match &self.declared {
            None => None,
            Some(declared) => Some(declared.net()),
        }
    }

    /// The problem, where the end of input has no fault.
    pub(crate) fn into_problem(self) -> Problem
        requires { first_failed (end_tests self) ≡ None }
        ensures { result ≡ instance_of self }
    {
        match self.declared {
            None => unreachable!(),
            Some(declared) => declared.into_problem(),
        }
    }
}

impl Judge for ProblemLines {
    ghost rules = { problem_rules };

    ghost with_record = { with_problem_record };

    fn judge_fields(&mut self, letter: &[u8], others: Fields<'_>) -> Result<(), Refusal> {
        if is_word(letter, b"p") {
            self.problem_line(others)
        } else if is_word(letter, b"n") {
            self.node_line(others)
        } else if is_word(letter, b"a") {
            self.arc_line(others)
        } else {
            Err(Refusal::Code(FaultCode::UnknownLine))
        }
    }

    #[inline(always)]
    fn judge_usual(&mut self, text: &[u8]) -> Result<Option<usize>, Refusal> {
        let Some(declared) = &mut self.declared else {
            return Ok(None);
        };
        let Some((src, dst, cap, at)) = usual_line(text, b'a') else {
            return Ok(None);
        };
        match declared.keep_arc(src, dst, cap) {
            Ok(true) => Ok(Some(at)),
            Ok(false) => Ok(None),
            Err(refusal) => Err(refusal),
        }
    }

    fn end_fault(&self) -> Option<FaultCode> {
        match &self.declared {
            None => Some(FaultCode::ProblemLineMissing),
            Some(declared) => declared.end_fault(),
        }
    }
}
