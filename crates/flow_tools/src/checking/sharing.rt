//! Assigning the flow lines of a solution to the arcs of its problem.
//!
//! A solution speaks of pairs of nodes, a flow of arcs. Arcs and lines are sorted by their pairs, and each line's flow
//! goes to the arcs of its pair, to the next one when an arc is full. The result is a flow that carries what the lines
//! say of every pair, or the first line whose pair has no room left.
ghost use Rattle.std.specs.Prelude.{◌≡◌, ℕ, [], ◌+◌, ◌-◌, ◌*◌, ◌<◌, ◌≤◌, ◌^◌, length, slice_index, slice_set, IfOk};
ghost use Rattle.std.specs.Prelude.{MatchOption};
ghost use Rattle.std.specs.List.{All};
ghost use Rattle.std.specs.List.Sorted.{IsNonDecreasingBy, IsPermutation};
ghost use Rattle.flow_net.specs.Nets.{Net};
ghost use Rattle.flow_net.specs.Limits.{IsNet};
ghost use Rattle.flow_net.specs.Flows.{Fits};
ghost use Rattle.flow_text.specs.SolutionReading.{IsLineWithin};
ghost use Rattle.flow_text.specs.declared.solutions.FlowLine.{FlowLine};
ghost use Rattle.flow_tools.specs.checking.SolutionFlows.{pair_cap};
ghost use Rattle.flow_tools.specs.checking.ArcShares.{is_pair};
ghost use Rattle.flow_tools.specs.checking.FirstFaults.{IsFirstOver};
ghost use Rattle.flow_tools.specs.checking.ArcShares.{pair_rank, line_rank, place_of, AreArcPlaces, AreOrderedArcs};
ghost use Rattle.flow_tools.specs.checking.ArcShares.{arc_flow, Carries, HasMore, IsFull, ArePassed, IsSharedOut};

use flow_net::{FlowTable, Network, OutOfMemory};
use flow_text::FlowLine;
use std::alloc::Global;

/// An arc's two nodes, and its place in the network.
#[derive(Clone, Copy)]
pub(crate) struct ArcPlace {
    pub src: u32,
    pub dst: u32,
    pub arc: u32,
}

/// What comes of sharing out the lines of a solution.
#[derive(Drop)]
pub(crate) enum Shared {
    /// A flow that carries them.
    Flow(FlowTable),
    /// The least pair whose flow passes its capacity.
    Over {
        /// The node that the flow leaves.
        src: u32,
        /// The node that the flow enters.
        dst: u32,
    },
}

/// So many numbers can a node have, in 32 bits.
const NODE_NUMBERS: u64 = u32::MAX as u64 + 1;

/// A number that rises with a pair of nodes: by the first, then by the second.
fn rank(src: u32, dst: u32) -> u64
    ensures rank { result ≡ pair_rank src dst }
    ensures below { dst < NODE_NUMBERS }
{
    src as u64 * NODE_NUMBERS + dst as u64
}

/// The arcs of a network, each with its place.
fn arc_places(alloc: Global, net: &Network) -> Result<Vec<ArcPlace>, OutOfMemory>
    ensures { IfOk result (λ places. AreArcPlaces net.now places.items) }
{
    let mut places = Vec::new(alloc);
    if places.reserve(net.len() as usize).is_err() {
        return Err(OutOfMemory);
    }
    for arc in 0..net.len() {
        let ends = net.arc(arc);
        let place = ArcPlace {
            src: ends.src,
            dst: ends.dst,
            arc,
        };
        match places.push(place) {
            Ok(()) => {}
            Err(_) => return Err(OutOfMemory),
        }
    }
    Ok(places)
}

/// The arcs of a network in the order of their two nodes.
fn ordered_arcs(alloc: Global, net: &Network) -> Result<Vec<ArcPlace>, OutOfMemory>
    ensures { IfOk result (λ places. AreOrderedArcs net.now places.items) }
{
    let mut places = arc_places(alloc, net)?;
    places.sort_unstable_by_key(|place| rank(place.src, place.dst));
    Ok(places)
}

/// Flow lines in the order of their two nodes.
fn ordered_lines(alloc: Global, lines: &[FlowLine]) -> Result<Vec<FlowLine>, OutOfMemory>
    ensures same { IfOk result (λ ordered. IsPermutation lines.now ordered.items) }
    ensures ordered { IfOk result (λ ordered. IsNonDecreasingBy line_rank ordered.items) }
{
    let Ok(mut ordered) = lines.to_vec(alloc) else {
        return Err(OutOfMemory);
    };
    ordered.sort_unstable_by_key(|line| rank(line.src, line.dst));
    Ok(ordered)
}

/// Puts as much of an amount on an arc as it has room for, and answers what is left.
pub fn fill(net: &Network, arc: u32, amount: u64, flow: &mut FlowTable) -> u64
    requires fits { Fits net.now flow.old.flows }
    requires in_range { arc < length net.now.arcs }
    ensures fits { Fits net.now flow.new.flows }
    ensures left { result ≤ amount }
    ensures flows { flow.new.flows ≡ slice_set flow.old.flows arc (slice_index flow.old.flows arc + (amount - result)) }
    ensures full { 0 < result → IsFull net.now flow.new.flows arc }
{
    prove!(arc < net.len());
    let (_, room) = flow.look(net, 2 * arc);
    let put = if amount < room { amount } else { room };
    flow.push(net, 2 * arc, put);
    amount - put
}

/// Puts the flow of a line on the arcs of its pair, from a place among the ordered arcs on. Answers the place at which
/// it stopped and what found no room.
fn pour(
    net: &Network,
    places: &[ArcPlace],
    from: usize,
    line: FlowLine,
    flow: &mut FlowTable,
) -> (usize, u64)
    requires fits { Fits net.now flow.old.flows }
    requires places { AreOrderedArcs net.now places.now }
    requires from { from ≤ length places.now }
    requires passed { ArePassed net.now places.now from (line_rank line) flow.old.flows }
    ensures fits { Fits net.now flow.new.flows }
    ensures at { result.0 ≤ length places.now }
    ensures passed { ArePassed net.now places.now result.0 (line_rank line) flow.new.flows }
    ensures left { result.1 ≤ line.flow }
    ensures more { HasMore net.now flow.old.flows line.src line.dst (line.flow - result.1) flow.new.flows }
    ensures full { 0 < result.1 → arc_flow net.now (is_pair line.src line.dst) flow.new.flows
        ≡ pair_cap net.now line.src line.dst }
{
    let rank_of_line = rank(line.src, line.dst);
    let mut left = line.flow;
    for at in from..places.len() {
        let place = places[at];
        let rank_of_place = rank(place.src, place.dst);
        if rank_of_place > rank_of_line {
            return (at, left);
        }
        if rank_of_place == rank_of_line {
            left = fill(net, place.arc, left, flow);
            if left == 0 {
                return (at, 0);
            }
        }
    }
    (places.len(), left)
}

/// Puts the flows of ordered lines on ordered arcs, into a table of zeros. Answers the first line that finds no room.
fn pour_all(
    net: &Network,
    places: &[ArcPlace],
    lines: &[FlowLine],
    flow: &mut FlowTable,
) -> Option<FlowLine>
    requires fits { Fits net.now flow.old.flows }
    requires empty { Carries net.now [] flow.old.flows }
    requires places { AreOrderedArcs net.now places.now }
    requires within { All (IsLineWithin net.now.nodes) lines.now }
    requires ordered { IsNonDecreasingBy line_rank lines.now }
    ensures fits { Fits net.now flow.new.flows }
    ensures answer { MatchOption result (Carries net.now lines.now flow.new.flows)
        (λ line. IsFirstOver net.now lines.now line.src line.dst) }
{
    let mut at = 0;
    for line in lines {
        let (next, left) = pour(net, places, at, *line, flow);
        if left > 0 {
            return Some(*line);
        }
        at = next;
    }
    None
}

/// Shares the flow lines of a solution out over the arcs.
pub(crate) fn share_out(
    alloc: Global,
    net: &Network,
    lines: &[FlowLine],
) -> Result<Shared, OutOfMemory>
    requires { All (IsLineWithin net.now.nodes) lines.now }
    ensures shared { IfOk result (IsSharedOut net.now lines.now) }
    ensures limits { IfOk result (λ _. IsNet net.now) }
{
    let mut flow = FlowTable::new(alloc, net)?;
    let places = ordered_arcs(alloc, net)?;
    let lines = ordered_lines(alloc, lines)?;
    match pour_all(net, places.as_slice(), lines.as_slice(), &mut flow) {
        None => Ok(Shared::Flow(flow)),
        Some(line) => Ok(Shared::Over {
            src: line.src,
            dst: line.dst,
        }),
    }
}
