//! A maximum flow and a minimum cut, as values.
//!
//! All memory is asked for before a solver begins, except for an answer that is read from a renumbered copy: the arcs
//! of the copy are freed before that.
ghost use Rattle.std.specs.Prelude.{◌≡◌, ℕ, ◌+◌, ◌*◌, not, List, ◌≤◌, length, IfOk};
ghost use Rattle.flow_net.specs.Nets.{Instance};
ghost use Rattle.flow_net.specs.Flows.{Fits};
ghost use Rattle.flow_net.specs.MarkedNodes.{marked};
ghost use Rattle.flow_solve.specs.Bounds.{work_cells};
ghost use Rattle.flow_tools.specs.solving.ArrangedProblems.{IsReady};
ghost use Rattle.flow_tools.specs.solving.Solutions.{IsSolution, IsMarkedCut, is_sink};

use crate::cells::{filled, work_for};
use crate::networks::FlowNetwork;
use crate::solving::arranging::{
    Arranged, arrange_if_scattered, lend_solved, read_flows, read_side,
};
use flow_net::{FlowTable, OutOfMemory};
use flow_solve::{Levels, Method, cut_nearest_sinks, cut_nearest_sources};
use std::alloc::Global;

/// A network with the greatest value of a flow, and a flow that has it.
#[derive(Drop)]
pub struct Solved {
    /// The network that was solved.
    pub network: FlowNetwork,
    /// The greatest value of any feasible flow, which is the least capacity of any cut.
    pub value: u128,
    /// What each arc carries, in order.
    pub flows: Vec<u64>,
}

/// A solved network with a minimum cut.
#[derive(Drop)]
pub struct MinimumCut {
    /// The network and a flow, whose value is the capacity of the cut.
    pub solved: Solved,
    /// Whether a node lies in the source side, cell `v - 1` for node `v`.
    pub side: Vec<bool>,
}

/// The terminals that a minimum cut lies nearest.
#[derive(Clone, Copy, Debug, PartialEq, Eq)]
pub enum Side {
    /// The source side lies within that of every minimum cut.
    Source,
    /// The sink side lies within that of every minimum cut.
    Sink,
}

/// What a network is solved with: a table of flows, the cells that a solver works in, and a copy that is arranged, if
/// it is scattered.
#[derive(Drop)]
struct Ready {
    table: FlowTable,
    work: Vec<u32>,
    arranged: Option<Arranged>,
}

/// Asks for the memory that it takes to solve a network, and arranges it.
fn make_ready(alloc: Global, network: &FlowNetwork) -> Result<Ready, OutOfMemory>
    ensures { IfOk result (IsReady network.now) }
{
    let mut work = work_for(alloc, network.net())?;
    let arranged = arrange_if_scattered(alloc, network, work.as_mut_slice())?;
    let table = FlowTable::new(alloc, lend_solved(network, &arranged).net())?;
    Ok(Ready {
        table,
        work,
        arranged,
    })
}

/// Finds the greatest value of a flow, and a flow that has it.
///
/// # Errors
///
/// `OutOfMemory`.
pub fn solve(alloc: Global, network: FlowNetwork) -> Result<Solved, OutOfMemory>
    ensures network { IfOk result (λ solved. solved.network ≡ network) }
    ensures solution { IfOk result (λ solved. IsSolution network solved.value solved.flows.items) }
{
    let Ready {
        mut table,
        mut work,
        arranged,
    } = make_ready(alloc, &network)?;
    let solved = lend_solved(&network, &arranged);
    let value = find_flow(solved, &mut table, work.as_mut_slice());
    let flows = read_flows(alloc, table.into_flows(), arranged)?;
    Ok(Solved {
        network,
        value,
        flows,
    })
}

/// Finds a minimum cut: the one nearest the sources, or nearest the sinks.
///
/// # Errors
///
/// `OutOfMemory`.
pub fn cut(alloc: Global, network: FlowNetwork, nearest: Side) -> Result<MinimumCut, OutOfMemory>
    ensures network { IfOk result (λ cut. cut.solved.network ≡ network) }
    ensures solution { IfOk result (λ cut. IsSolution network cut.solved.value cut.solved.flows.items) }
    ensures cut { IfOk result (λ cut. IsMarkedCut network (is_sink nearest) cut.solved.value cut.side.items) }
    ensures count { IfOk result (λ cut. length cut.side.items ≡ network.net.nodes) }
{
    let mut side = filled(alloc, false, network.net().nodes() as usize)?;
    let Ready {
        mut table,
        mut work,
        arranged,
    } = make_ready(alloc, &network)?;
    let solved = lend_solved(&network, &arranged);
    let marks = side.as_mut_slice();
    let value = find_cut(solved, &mut table, work.as_mut_slice(), nearest, marks);
    let side = read_side(alloc, side, &arranged)?;
    let flows = read_flows(alloc, table.into_flows(), arranged)?;
    let solved = Solved {
        network,
        value,
        flows,
    };
    Ok(MinimumCut { solved, side })
}

/// Finds the greatest value of a flow alone.
///
/// # Errors
///
/// `OutOfMemory`.
pub fn solve_value(alloc: Global, network: FlowNetwork) -> Result<u128, OutOfMemory>
    ensures { IfOk result (λ value. (flows : List ℕ) × IsSolution network value flows) }
{
    let Ready {
        mut table,
        mut work,
        arranged,
    } = make_ready(alloc, &network)?;
    let solved = lend_solved(&network, &arranged);
    Ok(find_flow(solved, &mut table, work.as_mut_slice()))
}

/// Finds a flow of the greatest value, within the steps of [`Levels`], and answers that value.
fn find_flow(network: &FlowNetwork, table: &mut FlowTable, work: &mut [u32]) -> u128
    requires fits { Fits network.now.net table.old.flows }
    requires cells { work_cells network.now.net ≤ length work.old }
    ensures solution { IsSolution network.now result table.new.flows }
    ensures steps { table.new.steps
        ≤ table.old.steps + 4 * network.now.net.nodes * network.now.net.nodes * length network.now.net.arcs }
{
    let (net, s, t) = (network.net(), network.sources(), network.sinks());
    Levels::greatest(net, s, t, table, work)
}

/// The same, and marks the source side of a minimum cut, by as many looks more as there are half-arcs.
fn find_cut(
    network: &FlowNetwork,
    table: &mut FlowTable,
    work: &mut [u32],
    nearest: Side,
    side: &mut [bool],
) -> u128
    requires fits { Fits network.now.net table.old.flows }
    requires cells { work_cells network.now.net ≤ length work.old }
    requires side { length side.old ≡ network.now.net.nodes }
    ensures solution { IsSolution network.now result table.new.flows }
    ensures cut { IsMarkedCut network.now (is_sink nearest) result side.new }
    ensures steps { table.new.steps
        ≤ table.old.steps + 4 * network.now.net.nodes * network.now.net.nodes * length network.now.net.arcs
        + 2 * length network.now.net.arcs }
{
    let (net, s, t) = (network.net(), network.sources(), network.sinks());
    // Brings the network's limits, `IsNet`, into the proof.
    let _ = net.nodes();
    match nearest {
        Side::Source => cut_nearest_sources::<Levels>(net, s, t, table, work, side),
        Side::Sink => {
            let value = cut_nearest_sinks::<Levels>(net, s, t, table, work, side);
            mark_others(side);
            value
        }
    }
}

/// Marks the nodes that weren't marked, and no others.
fn mark_others(side: &mut [bool])
    ensures count { length side.new ≡ length side.old }
    ensures marks { (v : ℕ) → 1 ≤ v → v ≤ length side.old → marked side.new v ≡ not (marked side.old v) }
{
    for mark in side.iter_mut() {
        *mark = !*mark;
    }
}
