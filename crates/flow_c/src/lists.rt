//! Networks from lists that a caller lends.
ghost use Rattle.std.specs.Prelude.{◌≡◌, ◌⊎◌, ℕ, ◌<◌, ◌≤◌, ◌++◌, ◌↔◌, [], length, slice_index, IsTrue, IfOk, IfErr};
ghost use Rattle.std.specs.Prelude.{MatchBool, MatchResult};
ghost use Rattle.flow_net.specs.NodeSets.{one_of};
ghost use Rattle.flow_net.specs.Limits.{AreDistinct};
ghost use Rattle.flow_net.specs.MarkedNodes.{marked};
ghost use Rattle.flow_net.specs.declared.limits.TheConstants.{FEWEST_NODES, MOST_NODES};
ghost use Rattle.flow_c.specs.Lists.{capacities, listed_net, network_of, from_one, AreTaken};
ghost use Rattle.flow_c.specs.Refusals.{IsReasonFor, HasBadTerminal, AreLengthsOf, AreArcs, AreGoodFor, AreWithin};
ghost use Rattle.flow_c.specs.declared.refusals.Refusal.TheVariants.{Terminal, Memory};

use crate::refusals::Refusal;
use flow_net::{Arc, FEWEST_NODES, MOST_ARCS_BOTH_WAYS, MOST_NODES, Network, OutOfMemory};
use flow_tools::{FlowNetwork, filled};
use std::alloc::Global;

/// The lists that a caller lends, but for the capacities, and the number of nodes.
#[derive(Clone, Copy)]
pub(crate) struct Lent<'a> {
    /// How many nodes there are.
    pub nodes: u32,
    /// Where each arc begins.
    pub src: &'a [u32],
    /// Where each arc ends.
    pub dst: &'a [u32],
    /// The sources.
    pub sources: &'a [u32],
    /// The sinks.
    pub sinks: &'a [u32],
}

/// What the arc at a place may carry.
fn cap_at(lent: Lent<'_>, cap: Option<&[u64]>, i: usize) -> u64
    requires { i < length (capacities lent cap) }
    ensures { result ≡ slice_index (capacities lent.entry cap.entry) i }
{
    match cap {
        Some(cap) => cap[i],
        None => 1,
    }
}

/// Whether there is a capacity for each arc.
fn has_caps(lent: Lent<'_>, cap: Option<&[u64]>) -> bool
    ensures { IsTrue result ↔ (length (capacities lent.entry cap.entry) ≡ length lent.entry.src.now) }
{
    match cap {
        Some(cap) => cap.len() == lent.src.len(),
        None => true,
    }
}

/// Whether the numbers of a list are nodes.
fn are_nodes(vs: &[u32], nodes: u32) -> bool
    ensures { MatchBool result (AreWithin nodes vs.now)
        ((i : ℕ) × (i < length vs.now) × (nodes ≤ slice_index vs.now i)) }
{
    vs.iter().all(|v| *v < nodes)
}

/// The network of the lists of arcs.
fn read_arcs(alloc: Global, lent: Lent<'_>, cap: Option<&[u64]>) -> Result<Network, OutOfMemory>
    requires arcs { AreArcs (AreLengthsOf lent (capacities lent cap)) lent.nodes lent.src.now lent.dst.now }
    ensures { IfOk result (λ net. net ≡ listed_net lent.entry.nodes lent.entry.src.now lent.entry.dst.now
        (capacities lent.entry cap.entry)) }
{
    let mut net = Network::new(alloc, lent.nodes);
    for i in 0..lent.src.len() {
        net.push(Arc {
            src: lent.src[i] + 1,
            dst: lent.dst[i] + 1,
            cap: cap_at(lent, cap, i),
        })?;
    }
    Ok(net)
}

/// The terminals of a list, counted from 1. Those before are marked already.
fn read_terminals(
    alloc: Global,
    nodes: u32,
    given: &[u32],
    before: &[u32],
    marks: &mut [bool],
) -> Result<Vec<u32>, Refusal>
    requires most { nodes ≤ MOST_NODES }
    requires count { length marks.old ≡ nodes }
    requires marks { (v : ℕ) → marked marks.old v ≡ one_of before.now v }
    requires distinct { AreDistinct before.now }
    ensures count { length marks.new ≡ nodes }
    ensures taken { MatchResult result (λ taken. AreTaken nodes before.now given.now taken.items
        × ((v : ℕ) → marked marks.new v ≡ one_of (before.now ++ taken.items) v))
        (λ r. (r ≡ Memory) ⊎ ((r ≡ Terminal) × HasBadTerminal nodes before.now given.now)) }
{
    let mut taken = Vec::new(alloc);
    for i in 0..given.len() {
        let node = given[i];
        if node >= nodes || marks[node as usize] {
            return Err(Refusal::Terminal);
        }
        if taken.push(node + 1).is_err() {
            return Err(Refusal::Memory);
        }
        marks[node as usize] = true;
    }
    Ok(taken)
}

/// The sources and the sinks.
fn read_both(alloc: Global, lent: Lent<'_>) -> Result<(Vec<u32>, Vec<u32>), Refusal>
    requires most { lent.nodes ≤ MOST_NODES }
    ensures { MatchResult result (λ both. AreTaken lent.entry.nodes [] lent.entry.sources.now both.0.items
        × AreTaken lent.entry.nodes both.0.items lent.entry.sinks.now both.1.items)
        (λ r. (r ≡ Memory) ⊎ ((r ≡ Terminal) × (HasBadTerminal lent.entry.nodes [] lent.entry.sources.now
        ⊎ HasBadTerminal lent.entry.nodes (from_one lent.entry.sources.now) lent.entry.sinks.now))) }
{
    let mut marks = filled(alloc, false, lent.nodes as usize)?;
    let marks = marks.as_mut_slice();
    let s = read_terminals(alloc, lent.nodes, lent.sources, &[], marks)?;
    let t = read_terminals(alloc, lent.nodes, lent.sinks, s.as_slice(), marks)?;
    Ok((s, t))
}

/// The network of the lists, with its terminals; where no capacities are lent each is 1. All that the lists say is
/// tested.
pub(crate) fn read_network(
    alloc: Global,
    lent: Lent<'_>,
    cap: Option<&[u64]>,
) -> Result<FlowNetwork, Refusal>
    ensures network { IfOk result (λ network. network ≡ network_of lent.entry (capacities lent.entry cap.entry)) }
    ensures taken { IfOk result (λ _. AreGoodFor
        (AreLengthsOf lent.entry (capacities lent.entry cap.entry)) lent.entry) }
    ensures refused { IfErr result (IsReasonFor
        (AreLengthsOf lent.entry (capacities lent.entry cap.entry)) lent.entry) }
{
    if lent.nodes < FEWEST_NODES || lent.nodes > MOST_NODES {
        return Err(Refusal::Nodes);
    }
    let arcs = lent.src.len();
    if arcs > MOST_ARCS_BOTH_WAYS as usize || lent.dst.len() != arcs || !has_caps(lent, cap) {
        return Err(Refusal::Lengths);
    }
    if lent.sources.is_empty() || lent.sinks.is_empty() {
        return Err(Refusal::Terminal);
    }
    if !are_nodes(lent.src, lent.nodes) || !are_nodes(lent.dst, lent.nodes) {
        return Err(Refusal::BadEnd);
    }
    let net = read_arcs(alloc, lent, cap)?;
    let (s, t) = read_both(alloc, lent)?;
    Ok(FlowNetwork::new(net, s, t))
}
