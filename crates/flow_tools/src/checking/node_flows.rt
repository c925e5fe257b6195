//! The sums of flow lines at each node.
ghost use Rattle.std.specs.Prelude.{◌≡◌, ℕ, [], ◌+◌, ◌-◌, ◌-ℤ◌, ◌<◌, ◌≤◌, ◌^◌, ◌||◌, List, pos, length, slice_index};
ghost use Rattle.std.specs.Prelude.{slice_set, sum_by, IfOk, IfSome, MatchOption};
ghost use Rattle.std.specs.List.{All};
ghost use Rattle.flow_net.specs.declared.limits.TheConstants.{MOST_NODES};
ghost use Rattle.flow_net.specs.Nets.{Instance};
ghost use Rattle.flow_net.specs.Limits.{AreTerminals, AreDistinct};
ghost use Rattle.flow_net.specs.NodeSets.{one_of};
ghost use Rattle.flow_net.specs.MarkedNodes.{marked};
ghost use Rattle.flow_text.specs.SolutionReading.{IsLineWithin};
ghost use Rattle.flow_text.specs.declared.limits.TheConstants.{MOST_FLOW_LINES};
ghost use Rattle.flow_text.specs.declared.solutions.FlowLine.{FlowLine};
ghost use Rattle.flow_tools.specs.checking.SolutionFlows.{lines_into, lines_out_of};
ghost use Rattle.flow_tools.specs.checking.Verdicts.{IsBalanced};
ghost use Rattle.flow_tools.specs.checking.FirstFaults.{IsFirstUnbalanced};
ghost use Rattle.flow_tools.specs.checking.NodeSums.{IsCellOf, AreNodeFlows, HaveOneMore, at_node, IsFirstUnequal};
ghost use Rattle.flow_tools.specs.checking.NodeSums.{AreEqualUnless};

use crate::cells::filled;
use flow_net::{Network, OutOfMemory};
use flow_text::FlowLine;
use std::alloc::Global;

/// What enters each node and what leaves it, cell `v - 1` for node `v`.
#[derive(Drop)]
pub struct NodeFlows {
    /// What enters each node.
    pub into: Vec<u128>,
    /// What leaves each node.
    pub out: Vec<u128>,
}

/// Adds a flow to a node's cell.
fn raise(cells: &mut Vec<u128>, node: u32, flow: u64)
    requires node { IsCellOf (length cells.old.items) node }
    requires fits { slice_index cells.old.items (node - 1) + flow < 2 ^ 128 }
    ensures { let old = cells.old.items in
        cells.new.items ≡ slice_set old (node - 1) (slice_index old (node - 1) + flow) }
{
    let i = node as usize - 1;
    cells[i] += flow as u128;
}

impl NodeFlows {
    /// The sums of no lines.
    ///
    /// # Errors
    ///
    /// `OutOfMemory` where the memory, 32 bytes for each node, was refused.
    pub fn new(alloc: Global, nodes: u32) -> Result<NodeFlows, OutOfMemory>
        ensures { IfOk result (λ flows. AreNodeFlows nodes [] flows.into.items flows.out.items) }
    {
        let into = filled(alloc, 0u128, nodes as usize)?;
        let out = filled(alloc, 0u128, nodes as usize)?;
        Ok(NodeFlows { into, out })
    }

    /// Adds a line's flow to the cells of its two nodes.
    pub fn add(&mut self, line: FlowLine)
        requires dst { IsCellOf (length self.old.into.items) line.dst }
        requires src { IsCellOf (length self.old.out.items) line.src }
        requires into_fits { slice_index self.old.into.items (line.dst - 1) + line.flow < 2 ^ 128 }
        requires out_fits { slice_index self.old.out.items (line.src - 1) + line.flow < 2 ^ 128 }
        ensures { (n : ℕ) (lines more : List FlowLine) → HaveOneMore lines line more
            → AreNodeFlows n lines self.old.into.items self.old.out.items
            → AreNodeFlows n more self.new.into.items self.new.out.items }
    {
        raise(&mut self.into, line.dst, line.flow);
        raise(&mut self.out, line.src, line.flow);
    }

    /// The least node, neither source nor sink, of which what enters it isn't what leaves it.
    ///
    /// # Errors
    ///
    /// `OutOfMemory` where the memory, a byte for each node, was refused.
    pub fn first_unbalanced(
        &self,
        alloc: Global,
        net: &Network,
        s: &[u32],
        t: &[u32],
    ) -> Result<Option<u32>, OutOfMemory>
        requires into { length self.now.into.items ≡ net.now.nodes }
        requires out { length self.now.out.items ≡ net.now.nodes }
        requires terminals { AreTerminals net.now s.now t.now }
        ensures node { IfOk result (λ found. IfSome found (IsCellOf net.now.nodes)) }
        ensures balance { let p : Instance = record { net = net.now; sources = s.now; sinks = t.now } in
            (lines : List FlowLine) → AreNodeFlows net.now.nodes lines self.now.into.items self.now.out.items
            → IfOk result (λ found. MatchOption found (IsBalanced p lines) (IsFirstUnbalanced p lines)) }
    {
        let marks = terminals(alloc, net, s, t)?;
        Ok(first_unequal(marks.as_slice(), self.into.as_slice(), self.out.as_slice()))
    }

    /// What leaves some nodes, none twice, less what enters them.
    pub fn outflow_of(&self, nodes: &[u32]) -> i128
        requires same { length self.now.out.items ≡ length self.now.into.items }
        requires within { All (IsCellOf (length self.now.into.items)) nodes.now }
        requires distinct { AreDistinct nodes.now }
        requires fit { (sum_by (at_node self.now.into.items) nodes.now < 2 ^ 127)
            × (sum_by (at_node self.now.out.items) nodes.now < 2 ^ 127) }
        ensures { (n : ℕ) (lines : List FlowLine) → AreNodeFlows n lines self.now.into.items self.now.out.items
            → result ≡ pos (lines_out_of (one_of nodes.now) lines) -ℤ pos (lines_into (one_of nodes.now) lines) }
    {
        let out = sum_at(self.out.as_slice(), nodes);
        let into = sum_at(self.into.as_slice(), nodes);
        out as i128 - into as i128
    }
}

/// What enters and what leaves each node, by the flow lines.
pub(crate) fn node_flows(
    alloc: Global,
    nodes: u32,
    lines: &[FlowLine],
) -> Result<NodeFlows, OutOfMemory>
    requires few { length lines.now ≤ MOST_FLOW_LINES }
    requires within { All (IsLineWithin nodes) lines.now }
    ensures { IfOk result (λ flows. AreNodeFlows nodes lines.now flows.into.items flows.out.items) }
{
    let mut flows = NodeFlows::new(alloc, nodes)?;
    for line in lines {
        flows.add(*line);
    }
    Ok(flows)
}

/// Marks the nodes of a list.
fn mark(cells: &mut [bool], nodes: &[u32])
    requires { All (IsCellOf (length cells.old)) nodes.now }
    ensures { (v : ℕ) → marked cells.new v ≡ (marked cells.old v || one_of nodes.now v) }
{
    for node in nodes {
        cells[*node as usize - 1] = true;
    }
}

/// Marks the sources and the sinks, cell `v - 1` for node `v`.
fn terminals(alloc: Global, net: &Network, s: &[u32], t: &[u32]) -> Result<Vec<bool>, OutOfMemory>
    requires { AreTerminals net.now s.now t.now }
    ensures len { IfOk result (λ cells. length cells.items ≡ net.now.nodes) }
    ensures few { IfOk result (λ cells. length cells.items ≤ MOST_NODES) }
    ensures marked { IfOk result (λ cells. (v : ℕ) → marked cells.items v ≡ (one_of s.now v || one_of t.now v)) }
{
    let mut cells = filled(alloc, false, net.nodes() as usize)?;
    mark(cells.as_mut_slice(), s);
    mark(cells.as_mut_slice(), t);
    Ok(cells)
}

/// The least node that isn't marked and whose two cells differ.
fn first_unequal(marks: &[bool], into: &[u128], out: &[u128]) -> Option<u32>
    requires into { length into.now ≡ length marks.now }
    requires out { length out.now ≡ length marks.now }
    requires few { length marks.now ≤ MOST_NODES }
    ensures { MatchOption result (AreEqualUnless marks.now into.now out.now (length marks.now))
        (IsFirstUnequal marks.now into.now out.now) }
{
    for i in 0..marks.len() {
        if !marks[i] && into[i] != out[i] {
            return Some(i as u32 + 1);
        }
    }
    None
}

/// The sum of the cells of some nodes.
fn sum_at(cells: &[u128], nodes: &[u32]) -> u128
    requires within { All (IsCellOf (length cells.now)) nodes.now }
    requires fits { sum_by (at_node cells.now) nodes.now < 2 ^ 127 }
    ensures { result ≡ sum_by (at_node cells.now) nodes.now }
{
    let mut sum = 0;
    for node in nodes {
        sum += cells[*node as usize - 1];
    }
    sum
}
