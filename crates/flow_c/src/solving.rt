//! Answers into lists that a caller lends.
ghost use Rattle.std.specs.Prelude.{◌≡◌, ◌≤◌, length, map, IfOk, OnErr, IfErr};
ghost use Rattle.flow_net.specs.NodeSets.{IsLeastOver};
ghost use Rattle.flow_net.specs.declared.limits.TheConstants.{MOST_ARCS};
ghost use Rattle.flow_tools.specs.running.Answers.{IsSeparating};
ghost use Rattle.flow_tools.specs.connecting.Counts.{counted};
ghost use Rattle.flow_tools.specs.solving.Solutions.{IsSolution, is_sink};
ghost use Rattle.flow_c.specs.Lists.{network_of, ones, bit, IsCutInto};
ghost use Rattle.flow_c.specs.Refusals.{IsReasonFor, AreLengthsOf, AreGoodFor};

use crate::lists::{Lent, read_network};
use crate::refusals::Refusal;
use flow_net::MOST_ARCS;
use flow_tools::{Side, cut, edge_connectivity, solve};
use std::alloc::Global;

/// Writes a 1 for each node that is marked, and a 0 for the others.
fn write_marks(marks: &[bool], side: &mut [u8])
    requires { length side.old ≡ length marks.now }
    ensures { side.new ≡ map bit marks.now }
{
    for v in 0..marks.len() {
        side[v] = u8::from(marks[v]);
    }
}

/// Writes what each arc carries in a flow of the greatest value, and answers that value.
pub(crate) fn solve_lists(
    alloc: Global,
    lent: Lent<'_>,
    cap: &[u64],
    flow: &mut [u64],
) -> Result<u128, Refusal>
    ensures ok { IfOk result (λ value. IsSolution (network_of lent.entry cap.now) value flow.new) }
    ensures flow { OnErr result (flow.new ≡ flow.old) }
    ensures taken { IfOk result (λ _. AreGoodFor
        (AreLengthsOf lent.entry cap.now × (length flow.old ≡ length lent.entry.src.now)) lent.entry) }
    ensures refused { IfErr result (IsReasonFor
        (AreLengthsOf lent.entry cap.now × (length flow.old ≡ length lent.entry.src.now)) lent.entry) }
{
    if flow.len() != lent.src.len() {
        return Err(Refusal::Lengths);
    }
    let network = read_network(alloc, lent, Some(cap))?;
    let solved = solve(alloc, network)?;
    flow.copy_from_slice(solved.flows.as_slice());
    Ok(solved.value)
}

/// The same, and writes the source side of a minimum cut.
pub(crate) fn cut_lists(
    alloc: Global,
    lent: Lent<'_>,
    cap: &[u64],
    nearest: Side,
    flow: &mut [u64],
    side: &mut [u8],
) -> Result<u128, Refusal>
    ensures ok { IfOk result (λ value.
        IsCutInto (network_of lent.entry cap.now) (is_sink nearest) value flow.new side.new) }
    ensures flow { OnErr result (flow.new ≡ flow.old) }
    ensures side { OnErr result (side.new ≡ side.old) }
    ensures taken { IfOk result (λ _. AreGoodFor (AreLengthsOf lent.entry cap.now
        × (length flow.old ≡ length lent.entry.src.now) × (length side.old ≡ lent.entry.nodes)) lent.entry) }
    ensures refused { IfErr result (IsReasonFor (AreLengthsOf lent.entry cap.now
        × (length flow.old ≡ length lent.entry.src.now) × (length side.old ≡ lent.entry.nodes)) lent.entry) }
{
    if flow.len() != lent.src.len() || side.len() != lent.nodes as usize {
        return Err(Refusal::Lengths);
    }
    let network = read_network(alloc, lent, Some(cap))?;
    let found = cut(alloc, network, nearest)?;
    flow.copy_from_slice(found.solved.flows.as_slice());
    write_marks(found.side.as_slice(), side);
    Ok(found.solved.value)
}

/// The edge connectivity of the network of the lists.
pub(crate) fn count_links(
    alloc: Global,
    lent: Lent<'_>,
    undirected: bool,
    pair: bool,
) -> Result<u64, Refusal>
    ensures ok { IfOk result (IsLeastOver (IsSeparating (network_of lent.entry (ones lent.entry.src.now)) pair)
        (counted undirected (network_of lent.entry (ones lent.entry.src.now)).net)) }
    ensures taken { IfOk result (λ _. AreGoodFor ((length lent.entry.src.now ≤ MOST_ARCS)
        × (length lent.entry.dst.now ≡ length lent.entry.src.now)) lent.entry) }
    ensures refused { IfErr result (IsReasonFor ((length lent.entry.src.now ≤ MOST_ARCS)
        × (length lent.entry.dst.now ≡ length lent.entry.src.now)) lent.entry) }
{
    if lent.src.len() > MOST_ARCS as usize || lent.dst.len() != lent.src.len() {
        return Err(Refusal::Lengths);
    }
    let network = read_network(alloc, lent, None)?;
    let links = edge_connectivity(alloc, network, undirected, pair)?;
    Ok(links)
}
