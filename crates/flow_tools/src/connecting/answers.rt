//! The connectivity of a network, as a value.
ghost use Rattle.std.specs.Prelude.{◌≡◌, ◌≤◌, true, false, length, if◌then◌else◌, IfOk};
ghost use Rattle.std.specs.List.{All};
ghost use Rattle.flow_net.specs.declared.limits.TheConstants.{MOST_ARCS};
ghost use Rattle.flow_net.specs.Limits.{AreTerminals};
ghost use Rattle.flow_net.specs.DerivedNets.{unit, both_ways};
ghost use Rattle.flow_net.specs.NodeSets.{one_of, IsLeastOver};
ghost use Rattle.flow_net.specs.LeastCuts.{IsConnectivity, IsPairConnectivity};
ghost use Rattle.flow_tools.specs.connecting.Counts.{counted};
ghost use Rattle.flow_tools.specs.running.Answers.{IsSeparating};

use crate::cells::work_for;
use crate::connecting::connectivity;
use crate::networks::FlowNetwork;
use flow_net::{FlowTable, Network, OutOfMemory, Problem};
use flow_solve::Levels;
use std::alloc::Global;

/// The network in which a flow counts arcs: every capacity is 1, and where `undirected` is true each arc is there both
/// ways.
#[tactic(auto, using(crate::proofs::connecting::ConnectAnswers::unit_both_ways))]
fn counting_network(net: Network, undirected: bool) -> Result<Network, OutOfMemory>
    requires room { length net.arcs ≤ MOST_ARCS }
    ensures { IfOk result (λ made. made ≡ unit (if undirected then both_ways net else net)) }
{
    let mut net = net.unit();
    if undirected {
        net.both_ways()?;
    }
    Ok(net)
}

/// The connectivity of a network of capacities of 1. All the memory is asked for first.
fn solve_connectivity(
    alloc: Global,
    net: &Network,
    pair: bool,
    s: &[u32],
    t: &[u32],
) -> Result<u64, OutOfMemory>
    requires unit { All (λ a. a.cap ≡ 1) net.now.arcs }
    requires terminals { AreTerminals net.now s.now t.now }
    ensures pair { pair ≡ true → IfOk result (λ value. IsPairConnectivity net.now (one_of s.now) (one_of t.now) value) }
    ensures whole { pair ≡ false → IfOk result (λ value. IsConnectivity net.now value) }
{
    let mut table = FlowTable::new(alloc, net)?;
    let mut work = work_for(alloc, net)?;
    Ok(connectivity::<Levels>(net, pair, s, t, &mut table, work.as_mut_slice()))
}

/// The edge connectivity of a network of at most [`MOST_ARCS`](flow_net::MOST_ARCS) arcs, of any capacity: the least
/// number of arcs that leave a set of nodes which is neither empty nor all, or where `undirected` is true that have
/// exactly one end in it. With `pair` only the sets count that have every source inside and every sink outside; without
/// it the terminals aren't looked at.
///
/// # Errors
///
/// `OutOfMemory`.
pub fn edge_connectivity(
    alloc: Global,
    network: FlowNetwork,
    undirected: bool,
    pair: bool,
) -> Result<u64, OutOfMemory>
    requires room { length network.net.arcs ≤ MOST_ARCS }
    ensures { IfOk result (IsLeastOver (IsSeparating network pair) (counted undirected network.net)) }
{
    let (net, sources, sinks) = network.into_parts();
    let net = counting_network(net, undirected)?;
    solve_connectivity(alloc, &net, pair, &sources, &sinks)
}

/// The edge connectivity of a problem's network, as [`edge_connectivity`] has it.
///
/// # Errors
///
/// `OutOfMemory`.
pub fn connect(
    alloc: Global,
    problem: Problem,
    undirected: bool,
    pair: bool,
) -> Result<u64, OutOfMemory>
    ensures { IfOk result (IsLeastOver (IsSeparating problem pair) (counted undirected problem.net)) }
{
    edge_connectivity(alloc, FlowNetwork::of_problem(problem), undirected, pair)
}
