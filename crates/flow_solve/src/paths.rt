//! Augmentation along shortest residual paths (Ford and Fulkerson 1956; Edmonds and Karp 1972).
//!
//! A search backwards from the sinks gives each node that it sees the half-arc over which it came. These half-arcs are
//! the node's *trail*: they lead to a sink, each to a node nearer by one. So a path needs no cells of its own. The code
//! walks it twice, for the least residual capacity and to push that. With `n` nodes the first `n` cells have the
//! distances, the next `n` the half-arcs, and the next `n` the search's queue.
ghost use Rattle.std.specs.Prelude.{◌≡◌, ℕ, ◌+◌, ◌-◌, ◌*◌, ◌<◌, ◌≤◌, IsTrue, IsFalse, IfSome, IfNone, length};
ghost use Rattle.std.specs.Prelude.{drop, slice_index, sum_by};
ghost use Rattle.std.specs.List.{All};
ghost use Rattle.flow_net.specs.Nets.{Net, IsNode};
ghost use Rattle.flow_net.specs.Limits.{AreTerminals, IsNet};
ghost use Rattle.flow_net.specs.NodeSets.{one_of};
ghost use Rattle.flow_net.specs.Flows.{Fits, IsGreatest};
ghost use Rattle.flow_net.specs.LeastCuts.{IsLeastCapacity};
ghost use Rattle.flow_net.specs.Paths.{HasRoom, push_all};
ghost use Rattle.flow_solve.specs.residual.Packs.{IsPacked};
ghost use Rattle.flow_solve.specs.residual.Searches.{AreCells, HasMissed, HasSearched, seen};
ghost use Rattle.flow_solve.specs.Bounds.{paths_bound, work_cells};
ghost use Rattle.flow_solve.specs.Solving.{IsFlow};
ghost use Rattle.flow_solve.specs.Steps.{OnlyLooks, TakesSteps};
ghost use Rattle.flow_solve.specs.Task.{HasFlow, IsTask};
ghost use Rattle.flow_solve.specs.residual.Trails.{IsFirstSeen, IsMost, IsSeenOf, IsTrail, halves_on};

use crate::method::Method;
use crate::residual::half_arcs::{Direction, head};
use crate::residual::packing::{Packed, halves_in, pack_behind};
use crate::residual::searching::{Plan, WANTED, search};
use crate::task::{Given, Task};
use flow_net::{FlowTable, Network};

/// The first of some nodes that a search has seen.
fn first_seen(nodes: &[u32], dist: &[u32]) -> Option<u32>
    requires { All (λ v. (1 ≤ v) × (v ≤ length dist.now)) nodes.now }
    ensures some { IfSome result (IsSeenOf nodes.now dist.now) }
    ensures first { IfSome result (IsFirstSeen nodes.now dist.now) }
    ensures none { IfNone result ((v : ℕ) → IsTrue (one_of nodes.now v) → IsFalse (seen dist.now v)) }
{
    for node in nodes {
        if dist[*node as usize - 1] < WANTED {
            return Some(*node);
        }
    }
    None
}

/// Searches backwards from the sinks, and answers a source from which a trail leads to a sink, if there is one.
fn find_trail(
    plan: Plan<'_>,
    flow: &mut FlowTable,
    dist: &mut [u32],
    via: &mut [u32],
    queue: &mut [u32],
) -> Option<u32>
    requires fits { Fits plan.packed.net.now flow.old.flows }
    requires packed { IsPacked plan.packed.net.now plan.packed.first.now plan.packed.halves.now }
    requires starts { All (IsNode plan.packed.net.now) plan.starts.now }
    requires until { All (IsNode plan.packed.net.now) plan.until.now }
    requires enough { plan.enough ≡ 1 }
    requires cells { AreCells plan.packed.net.now dist.old via.old queue.old }
    ensures some { IfSome result (IsSeenOf plan.entry.until.now dist.new) }
    ensures searched { HasSearched plan.entry flow.old.flows dist.new via.new }
    ensures missed { IfNone result (HasMissed plan.entry flow.old.flows dist.new) }
    ensures looks { OnlyLooks flow.old flow.new (2 * length plan.entry.packed.net.now.arcs) }
{
    search(plan, flow, dist, via, queue);
    first_seen(plan.until, dist)
}

/// A trail, in the half-arcs over which a search came.
#[derive(Clone, Copy)]
struct Trail<'a> {
    /// The network.
    net: &'a Network,
    /// The distances of the nodes that the search has seen.
    dist: &'a [u32],
    /// The half-arcs over which it came to them.
    via: &'a [u32],
    /// The node that the trail begins at.
    source: u32,
}

/// The least residual capacity on the trail from a node.
fn least_room(trail: Trail<'_>, flow: &mut FlowTable) -> u64
    requires fits { Fits trail.net.now flow.old.flows }
    requires trail { IsTrail trail flow.old.flows }
    ensures room { HasRoom trail.entry.net.now flow.old.flows result (halves_on trail.entry) }
    ensures most { IsMost trail.entry.net.now flow.old.flows (halves_on trail.entry) result }
    ensures positive { 1 ≤ result }
    ensures flows { flow.new.flows ≡ flow.old.flows }
    ensures steps { flow.new.steps ≡ flow.old.steps + slice_index trail.entry.dist.now (trail.entry.source - 1) }
{
    let Trail { net, dist, via, .. } = trail;
    let mut least = u64::MAX;
    let mut node = trail.source;
    while dist[node as usize - 1] > 0 {
        let (next, room) = flow.look(net, via[node as usize - 1]);
        least = least.min(room);
        node = next;
    }
    least
}

/// Pushes an amount along the trail from a node.
fn push_on(trail: Trail<'_>, flow: &mut FlowTable, amount: u64)
    requires fits { Fits trail.net.now flow.old.flows }
    requires trail { IsTrail trail flow.old.flows }
    requires room { HasRoom trail.net.now flow.old.flows amount (halves_on trail) }
    ensures flows { flow.new.flows ≡ push_all flow.old.flows (halves_on trail.entry) amount }
    ensures steps { flow.new.steps ≡ flow.old.steps + slice_index trail.entry.dist.now (trail.entry.source - 1) }
{
    let Trail { net, dist, via, .. } = trail;
    let mut node = trail.source;
    while dist[node as usize - 1] > 0 {
        let half = via[node as usize - 1];
        flow.push(net, half, amount);
        node = head(net, half);
    }
}

/// Pushes as much as it can along the trail from a source, and answers how much that is.
fn augment_along(trail: Trail<'_>, flow: &mut FlowTable) -> u64
    requires limits { IsNet trail.net.now }
    requires fits { Fits trail.net.now flow.old.flows }
    requires trail { IsTrail trail flow.old.flows }
    ensures positive { 1 ≤ result }
    ensures room { HasRoom trail.entry.net.now flow.old.flows result (halves_on trail.entry) }
    ensures most { IsMost trail.entry.net.now flow.old.flows (halves_on trail.entry) result }
    ensures flows { flow.new.flows ≡ push_all flow.old.flows (halves_on trail.entry) result }
    ensures steps { TakesSteps flow.old flow.new (2 * trail.entry.net.now.nodes) }
{
    let amount = least_room(trail, flow);
    push_on(trail, flow, amount);
    amount
}

/// Raises the flow of value 0 along trails, until no source has one. Answers the greatest value.
fn raise(task: Task<'_>, flow: &mut FlowTable, cells: &mut [u32]) -> u128
    requires task { IsTask task }
    requires cells { length cells.old ≡ 5 * task.packed.net.now.nodes }
    requires flow { HasFlow task flow.old.flows 0 }
    ensures flow { HasFlow task.entry flow.new.flows result }
    ensures greatest { IsGreatest task.entry.packed.net.now (one_of task.entry.s.now) (one_of task.entry.t.now) result }
    ensures least { IsLeastCapacity task.entry.packed.net.now (one_of task.entry.s.now) (one_of task.entry.t.now)
        result }
    ensures steps { TakesSteps flow.old flow.new (paths_bound task.entry.packed.net.now) }
{
    let Task { packed, s, t } = task;
    let n = packed.net.nodes() as usize;
    let (dist, rest) = cells.split_at_mut(n);
    let (via, rest) = rest.split_at_mut(n);
    let (queue, _) = rest.split_at_mut(n);
    let plan = Plan {
        packed,
        direction: Direction::Backwards,
        starts: t,
        until: s,
        enough: 1,
    };
    let mut raised = 0;
    while let Some(source) = find_trail(plan, flow, dist, via, queue) {
        let trail = Trail {
            net: packed.net,
            dist,
            via,
            source,
        };
        raised += u128::from(augment_along(trail, flow));
    }
    raised
}

/// Raises the flow of value 0 over half-arcs that it packs first. Answers the greatest value.
fn solve(given: Given<'_>, flow: &mut FlowTable, work: &mut [u32]) -> u128
    requires fits { Fits given.net.now flow.old.flows }
    requires terminals { AreTerminals given.net.now given.s.now given.t.now }
    requires cells { work_cells given.net.now ≤ length work.old }
    ensures flow { IsFlow given.entry.net.now given.entry.s.now given.entry.t.now flow.new.flows result }
    ensures greatest { IsGreatest given.entry.net.now (one_of given.entry.s.now) (one_of given.entry.t.now) result }
    ensures least { IsLeastCapacity given.entry.net.now (one_of given.entry.s.now) (one_of given.entry.t.now) result }
    ensures steps { TakesSteps flow.old flow.new (paths_bound given.entry.net.now) }
    ensures rest { drop (work_cells given.entry.net.now) work.new ≡ drop (work_cells given.entry.net.now) work.old }
{
    let Given { net, s, t } = given;
    flow.clear();
    pack_behind(net, work);
    let (cells, behind) = work.split_at_mut(5 * net.nodes() as usize);
    let (first, halves) = halves_in(net, behind);
    let packed = Packed { net, first, halves };
    raise(Task { packed, s, t }, flow, cells)
}

/// Augments along a residual path as long as there is one, with a search for each.
///
/// It takes at most `4·(C + 1)·n·m` steps, `C` being the sum of the capacities: that is what is proved. As its paths
/// are shortest ones, it takes no more than some `n·m` searches either (Edmonds and Karp 1972). It suits small
/// networks.
pub struct Paths;

impl Method for Paths {
    ghost steps_bound = { paths_bound };

    fn spare_steps(net: &Network) -> u64 {
        u64::from(net.nodes()) * u64::from(net.len())
    }

    fn greatest(
        net: &Network,
        s: &[u32],
        t: &[u32],
        flow: &mut FlowTable,
        work: &mut [u32],
    ) -> u128 {
        solve(Given { net, s, t }, flow, work)
    }
}
