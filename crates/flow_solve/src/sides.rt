//! The least sides of the minimum cuts, by one search of the residual network of a maximum flow.
//!
//! What the sources reach there is the least source side, and what reaches a sink is the least sink side, for every
//! maximum flow. With `n` nodes the first `n` cells have the distances of the search, the next `n` the half-arcs over
//! which it came, and the next `n` its queue.
ghost use Rattle.std.specs.Prelude.{◌≡◌, ℕ, ◌+◌, ◌*◌, ◌≤◌, ◌↔◌, true, false, IsTrue, IsFalse, length, take, drop};
ghost use Rattle.flow_net.specs.Limits.{AreTerminals};
ghost use Rattle.flow_net.specs.NodeSets.{one_of};
ghost use Rattle.flow_net.specs.MarkedNodes.{marked};
ghost use Rattle.flow_net.specs.Flows.{Fits, IsFeasible, IsGreatest};
ghost use Rattle.flow_net.specs.GreatestFlows.{HasGreatestValue};
ghost use Rattle.flow_net.specs.LeastCuts.{IsLeastCapacity};
ghost use Rattle.flow_solve.specs.Bounds.{work_cells};
ghost use Rattle.flow_solve.specs.residual.Packs.{ArePackedBehind};
ghost use Rattle.flow_solve.specs.Solving.{IsFlow};
ghost use Rattle.flow_solve.specs.Task.{IsTask};
ghost use Rattle.flow_solve.specs.Steps.{OnlyLooks};
ghost use Rattle.flow_solve.specs.residual.Searches.{seen};
ghost use Rattle.flow_solve.specs.Sides.{starts_of, until_of, IsLeastSide, IsLeastSinkSide, IsLeastSourceSide};
ghost use Rattle.flow_solve.specs.Sides.{HasGreatestFlow, SeesSide};

use crate::method::Method;
use crate::residual::half_arcs::Direction;
use crate::residual::packing::{Packed, halves_in, pack_behind};
use crate::residual::searching::{Plan, WANTED, search};
use crate::task::{Given, Task};
use flow_net::{FlowTable, Network};

/// Marks the nodes that have a distance.
fn mark(dist: &[u32], side: &mut [bool])
    requires { length side.old ≡ length dist.now }
    ensures { (v : ℕ) → marked side.new v ≡ seen dist.now v }
{
    for place in 0..side.len() {
        side[place] = dist[place] < WANTED;
    }
}

/// The terminals that a search goes from, and those that it looks out for.
fn in_order(task: Task<'_>, direction: Direction) -> (&[u32], &[u32])
    ensures starts { result.0.now ≡ starts_of direction task.entry.s.now task.entry.t.now }
    ensures until { result.1.now ≡ until_of direction task.entry.s.now task.entry.t.now }
{
    match direction {
        Direction::Forwards => (task.s, task.t),
        Direction::Backwards => (task.t, task.s),
    }
}

/// Searches the residual network of a feasible flow in a direction, and answers whether it leads from a source to a
/// sink. The first `n` cells have the distances.
fn leads_on(task: Task<'_>, direction: Direction, flow: &mut FlowTable, cells: &mut [u32]) -> bool
    requires task { IsTask task }
    requires feasible { IsFeasible task.packed.net.now (one_of task.s.now) (one_of task.t.now) flow.old.flows }
    requires cells { length cells.old ≡ 5 * task.packed.net.now.nodes }
    ensures answer { (result ≡ false) ↔ HasGreatestFlow task.entry flow.old.flows }
    ensures side { result ≡ false → SeesSide direction task.entry flow.old.flows cells.new }
    ensures looks { OnlyLooks flow.old flow.new (2 * length task.entry.packed.net.now.arcs) }
{
    let n = task.packed.net.nodes() as usize;
    let (dist, rest) = cells.split_at_mut(n);
    let (via, rest) = rest.split_at_mut(n);
    let (queue, _) = rest.split_at_mut(n);
    let (starts, until) = in_order(task, direction);
    let plan = Plan {
        packed: task.packed,
        direction,
        starts,
        until,
        enough: 1,
    };
    let progress = search(plan, flow, dist, via, queue);
    progress.wanted > 0
}

/// The same where the half-arcs stand packed in the cells of a solver. The first `n` cells of all have the distances.
pub(crate) fn leads_on_packed(
    given: Given<'_>,
    direction: Direction,
    flow: &mut FlowTable,
    work: &mut [u32],
) -> bool
    requires feasible { IsFeasible given.net.now (one_of given.s.now) (one_of given.t.now) flow.old.flows }
    requires terminals { AreTerminals given.net.now given.s.now given.t.now }
    requires cells { work_cells given.net.now ≤ length work.old }
    requires packed { ArePackedBehind given.net.now work.old }
    ensures answer { (result ≡ false) ↔ HasGreatestValue given.entry.net.now (one_of given.entry.s.now)
        (one_of given.entry.t.now) flow.old.flows }
    ensures side { result ≡ false → IsLeastSide direction given.entry.net.now given.entry.s.now given.entry.t.now
        flow.old.flows (seen (take given.entry.net.now.nodes work.new)) }
    ensures looks { OnlyLooks flow.old flow.new (2 * length given.entry.net.now.arcs) }
    ensures rest { drop (work_cells given.entry.net.now) work.new ≡ drop (work_cells given.entry.net.now) work.old }
{
    let Given { net, s, t } = given;
    let n = net.nodes() as usize;
    let (cells, behind) = work.split_at_mut(5 * n);
    let (first, halves) = halves_in(net, behind);
    let packed = Packed { net, first, halves };
    leads_on(Task { packed, s, t }, direction, flow, cells)
}

/// Whether the residual network of a feasible flow leads from a source to a sink, so that a flow of greater value
/// exists.
///
/// The flow stays. At most `2·m` steps; the cells of `work` past the first [`work_len`](crate::work_len) stay.
pub fn has_augmenting_path(
    net: &Network,
    s: &[u32],
    t: &[u32],
    flow: &mut FlowTable,
    work: &mut [u32],
) -> bool
    requires feasible { IsFeasible net.now (one_of s.now) (one_of t.now) flow.old.flows }
    requires terminals { AreTerminals net.now s.now t.now }
    requires cells { work_cells net.now ≤ length work.old }
    ensures answer { (result ≡ false) ↔ HasGreatestValue net.now (one_of s.now) (one_of t.now) flow.old.flows }
    ensures flows { flow.new.flows ≡ flow.old.flows }
    ensures never_lowered { flow.old.steps ≤ flow.new.steps }
    ensures steps { flow.new.steps ≤ flow.old.steps + 2 * length net.now.arcs }
    ensures rest { drop (work_cells net.now) work.new ≡ drop (work_cells net.now) work.old }
{
    pack_behind(net, work);
    leads_on_packed(Given { net, s, t }, Direction::Forwards, flow, work)
}

/// As [`has_augmenting_path`]. If it answers false, `side` marks the nodes that lie in the source side of every minimum
/// cut, cell `v - 1` for node `v`.
pub fn reach(
    net: &Network,
    s: &[u32],
    t: &[u32],
    flow: &mut FlowTable,
    work: &mut [u32],
    side: &mut [bool],
) -> bool
    requires feasible { IsFeasible net.now (one_of s.now) (one_of t.now) flow.old.flows }
    requires terminals { AreTerminals net.now s.now t.now }
    requires cells { work_cells net.now ≤ length work.old }
    requires side { length side.old ≡ net.now.nodes }
    ensures answer { (result ≡ false) ↔ HasGreatestValue net.now (one_of s.now) (one_of t.now) flow.old.flows }
    ensures side { result ≡ false → IsLeastSourceSide net.now s.now t.now flow.old.flows (marked side.new) }
    ensures flows { flow.new.flows ≡ flow.old.flows }
    ensures never_lowered { flow.old.steps ≤ flow.new.steps }
    ensures steps { flow.new.steps ≤ flow.old.steps + 2 * length net.now.arcs }
    ensures rest { drop (work_cells net.now) work.new ≡ drop (work_cells net.now) work.old }
{
    pack_behind(net, work);
    let rises = leads_on_packed(Given { net, s, t }, Direction::Forwards, flow, work);
    if !rises {
        mark(&work[..net.nodes() as usize], side);
    }
    rises
}

/// As [`reach`], from the sinks backwards: if it answers false, `side` marks the nodes that lie outside the source
/// side of every minimum cut, and the other nodes are the source side of one.
pub fn reach_back(
    net: &Network,
    s: &[u32],
    t: &[u32],
    flow: &mut FlowTable,
    work: &mut [u32],
    side: &mut [bool],
) -> bool
    requires feasible { IsFeasible net.now (one_of s.now) (one_of t.now) flow.old.flows }
    requires terminals { AreTerminals net.now s.now t.now }
    requires cells { work_cells net.now ≤ length work.old }
    requires side { length side.old ≡ net.now.nodes }
    ensures answer { (result ≡ false) ↔ HasGreatestValue net.now (one_of s.now) (one_of t.now) flow.old.flows }
    ensures side { result ≡ false → IsLeastSinkSide net.now s.now t.now flow.old.flows (marked side.new) }
    ensures flows { flow.new.flows ≡ flow.old.flows }
    ensures never_lowered { flow.old.steps ≤ flow.new.steps }
    ensures steps { flow.new.steps ≤ flow.old.steps + 2 * length net.now.arcs }
    ensures rest { drop (work_cells net.now) work.new ≡ drop (work_cells net.now) work.old }
{
    pack_behind(net, work);
    let rises = leads_on_packed(Given { net, s, t }, Direction::Backwards, flow, work);
    if !rises {
        mark(&work[..net.nodes() as usize], side);
    }
    rises
}

/// Finds a flow of the greatest value as [`Method::greatest`] does, and answers that value; `side` marks the least
/// source side, as [`reach`] does.
pub fn cut_nearest_sources<M: Method>(
    net: &Network,
    s: &[u32],
    t: &[u32],
    flow: &mut FlowTable,
    work: &mut [u32],
    side: &mut [bool],
) -> u128
    requires fits { Fits net.now flow.old.flows }
    requires terminals { AreTerminals net.now s.now t.now }
    requires cells { work_cells net.now ≤ length work.old }
    requires side { length side.old ≡ net.now.nodes }
    ensures flow { IsFlow net.now s.now t.now flow.new.flows result }
    ensures greatest { IsGreatest net.now (one_of s.now) (one_of t.now) result }
    ensures least { IsLeastCapacity net.now (one_of s.now) (one_of t.now) result }
    ensures side { IsLeastSourceSide net.now s.now t.now flow.new.flows (marked side.new) }
    ensures never_lowered { flow.old.steps ≤ flow.new.steps }
    ensures steps { flow.new.steps ≤ flow.old.steps + M.steps_bound net.now + 2 * length net.now.arcs }
    ensures rest { drop (work_cells net.now) work.new ≡ drop (work_cells net.now) work.old }
{
    let value = M::least_side(Given { net, s, t }, Direction::Forwards, flow, work);
    mark(&work[..net.nodes() as usize], side);
    value
}

/// As [`cut_nearest_sources`], but `side` marks the least sink side, as [`reach_back`] does.
pub fn cut_nearest_sinks<M: Method>(
    net: &Network,
    s: &[u32],
    t: &[u32],
    flow: &mut FlowTable,
    work: &mut [u32],
    side: &mut [bool],
) -> u128
    requires fits { Fits net.now flow.old.flows }
    requires terminals { AreTerminals net.now s.now t.now }
    requires cells { work_cells net.now ≤ length work.old }
    requires side { length side.old ≡ net.now.nodes }
    ensures flow { IsFlow net.now s.now t.now flow.new.flows result }
    ensures greatest { IsGreatest net.now (one_of s.now) (one_of t.now) result }
    ensures least { IsLeastCapacity net.now (one_of s.now) (one_of t.now) result }
    ensures side { IsLeastSinkSide net.now s.now t.now flow.new.flows (marked side.new) }
    ensures never_lowered { flow.old.steps ≤ flow.new.steps }
    ensures steps { flow.new.steps ≤ flow.old.steps + M.steps_bound net.now + 2 * length net.now.arcs }
    ensures rest { drop (work_cells net.now) work.new ≡ drop (work_cells net.now) work.old }
{
    let value = M::least_side(Given { net, s, t }, Direction::Backwards, flow, work);
    mark(&work[..net.nodes() as usize], side);
    value
}
