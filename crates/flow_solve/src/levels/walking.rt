//! Walks from a source to sinks along admissible half-arcs (Dinitz 1970).
ghost use Rattle.std.specs.Prelude.{◌≡◌, ◌⊎◌, ℕ, Bool, List, ◌+◌, ◌-◌, ◌*◌, ◌<◌, ◌≤◌, IsTrue, IsFalse, IfSome, IfNone};
ghost use Rattle.std.specs.Prelude.{length, slice_index, slice_set};
ghost use Rattle.std.specs.List.{All};
ghost use Rattle.flow_net.specs.Nets.{Net, IsNode};
ghost use Rattle.flow_net.specs.Limits.{IsNet, AreTerminals};
ghost use Rattle.flow_net.specs.NodeSets.{one_of};
ghost use Rattle.flow_net.specs.Flows.{Fits};
ghost use Rattle.flow_net.specs.Residual.{tail_of, head_of, residual};
ghost use Rattle.flow_net.specs.Paths.{IsApart, push_all};
ghost use Rattle.flow_solve.specs.residual.Packs.{IsPacked};
ghost use Rattle.flow_solve.specs.levels.Phases.{cell_of, HasLooked, IsCurrent, IsDeadIn, IsFilling, IsNext, IsPhase};
ghost use Rattle.flow_solve.specs.levels.Phases.{AreSameWalks, AreWalks, KeepsGentle, Looks, PaysOwed, path_of};

use crate::residual::half_arcs::{head, tail};
use crate::residual::packing::Packed;
use flow_net::{FlowTable, Network};

/// The first half-arc of a path on which the least remains, by its place on the path, and how much that is.
fn least_on(net: &Network, flow: &mut FlowTable, path: &[u32]) -> (u32, u64)
    requires limits { IsNet net.now }
    requires fits { Fits net.now flow.old.flows }
    requires some { 1 ≤ length path.now }
    requires few { length path.now ≤ net.now.nodes }
    requires halves { All (λ h. h < 2 * length net.now.arcs) path.now }
    ensures filling { IsFilling net.now flow.old.flows path.now result.0 result.1 }
    ensures flows { flow.new.flows ≡ flow.old.flows }
    ensures steps { flow.new.steps ≡ flow.old.steps + length path.now }
{
    let (_, mut least) = flow.look(net, path[0]);
    let mut place = 0;
    for i in 1..path.len() {
        let (_, room) = flow.look(net, path[i]);
        if room < least {
            least = room;
            place = i as u32;
        }
    }
    (place, least)
}

/// Pushes an amount through each half-arc of a path.
fn push_over(net: &Network, flow: &mut FlowTable, path: &[u32], amount: u64)
    requires fits { Fits net.now flow.old.flows }
    requires halves { All (λ h. h < 2 * length net.now.arcs) path.now }
    requires apart { IsApart path.now }
    requires room { All (λ h. amount ≤ residual net.now flow.old.flows h) path.now }
    ensures flows { flow.new.flows ≡ push_all flow.old.flows path.now amount }
    ensures steps { flow.new.steps ≡ flow.old.steps + length path.now }
{
    for half in path {
        flow.push(net, *half, amount);
    }
}

/// The walks of a phase.
#[derive(Drop)]
pub(crate) struct Walks<'a> {
    /// Each node's current place: the half-arc that they try next.
    pub current: &'a mut [u32],
    /// The half-arcs of the path of the walk under way.
    pub path: &'a mut [u32],
    /// The flow's value.
    pub value: u128,
}

/// What an augmentation has pushed, and where the walk goes on after it.
#[derive(Clone, Copy)]
struct Augmentation {
    /// How much was pushed along the path.
    sent: u64,
    /// How many half-arcs of the path the walk keeps: those before the first that was filled.
    depth: u32,
    /// The node that the first filled half-arc leaves.
    node: u32,
}

/// Pushes along a path as much as remains on each of its half-arcs, and retreats to the first half-arc that this
/// fills: the walk goes on from the node that it leaves, and keeps the half-arcs before it.
fn augment(net: &Network, flow: &mut FlowTable, walks: &Walks<'_>, len: u32) -> Augmentation
    requires limits { IsNet net.now }
    requires fits { Fits net.now flow.old.flows }
    requires some { 1 ≤ len }
    requires few { len ≤ net.now.nodes }
    requires path { len ≤ length walks.now.path.now }
    requires halves { All (λ h. h < 2 * length net.now.arcs) (path_of walks.now len) }
    requires apart { IsApart (path_of walks.now len) }
    ensures filling { IsFilling net.now flow.old.flows (path_of walks.now len) result.depth result.sent }
    ensures filled { residual net.now flow.new.flows (slice_index (path_of walks.now len) result.depth) ≡ 0 }
    ensures open_before { (i : ℕ) → i < result.depth
        → 0 < residual net.now flow.new.flows (slice_index (path_of walks.now len) i) }
    ensures tail { result.node ≡ tail_of net.now (slice_index (path_of walks.now len) result.depth) }
    ensures flows { flow.new.flows ≡ push_all flow.old.flows (path_of walks.now len) result.sent }
    ensures steps { flow.new.steps ≡ flow.old.steps + 2 * len }
{
    let path = &walks.path[..len as usize];
    let (depth, sent) = least_on(net, flow, path);
    push_over(net, flow, path, sent);
    let node = tail(net, path[depth as usize]);
    Augmentation { sent, depth, node }
}

/// Whether a half-arc leads nearer to a sink than its node is, and has a residual capacity. It looks only at one that
/// leads nearer.
#[inline(always)]
fn is_admissible(net: &Network, flow: &mut FlowTable, dist: &[u32], half: u32, own: u32) -> bool
    requires fits { Fits net.now flow.old.flows }
    requires size { length dist.now ≡ net.now.nodes }
    requires half { half < 2 * length net.now.arcs }
    ensures yes { IsTrue result → (cell_of dist.now (head_of net.now half) < own)
        × (1 ≤ residual net.now flow.old.flows half) × (flow.new.steps ≡ flow.old.steps + 1) }
    ensures no { IsFalse result
        → ((own ≤ cell_of dist.now (head_of net.now half)) × (flow.new.steps ≡ flow.old.steps))
        ⊎ ((cell_of dist.now (head_of net.now half) < own) × (residual net.now flow.old.flows half ≡ 0)
        × (flow.new.steps ≡ flow.old.steps + 1)) }
    ensures flows { flow.new.flows ≡ flow.old.flows }
{
    if dist[head(net, half) as usize - 1] >= own {
        return false;
    }
    let (_, room) = flow.look(net, half);
    room > 0
}

/// Moves a node's place on to its first half-arc that leads nearer and has a residual capacity, or behind all.
fn admissible(phase: Phase<'_>, flow: &mut FlowTable, current: &mut [u32], node: u32) -> Option<u32>
    requires run { IsPhase phase }
    requires fits { Fits phase.packed.net.now flow.old.flows }
    requires current { IsCurrent phase.packed.net.now phase.packed.first.now current.old }
    requires node { IsNode phase.packed.net.now node }
    ensures looked { HasLooked phase.entry current.old current.new flow.old.flows node }
    ensures some { IfSome result (λ h. IsNext phase.entry current.new flow.old.flows node h) }
    ensures none { IfNone result (cell_of current.new node ≡ slice_index phase.entry.packed.first.now node) }
    ensures flows { flow.new.flows ≡ flow.old.flows }
    ensures never_lowered { flow.old.steps ≤ flow.new.steps }
    ensures steps_some { IfSome result (λ h. Looks phase.entry current.old flow.old current.new flow.new 1) }
    ensures steps_none { IfNone result (Looks phase.entry current.old flow.old current.new flow.new 0) }
{
    let end = phase.packed.first[node as usize];
    let own = phase.dist[node as usize - 1];
    let mut place = current[node as usize - 1];
    let mut found = None;
    while place < end {
        let half = phase.packed.halves[place as usize];
        if is_admissible(phase.packed.net, flow, phase.dist, half, own) {
            found = Some(half);
            break;
        }
        place += 1;
    }
    current[node as usize - 1] = place;
    found
}

/// What the walks of a phase go by.
#[derive(Clone, Copy)]
pub(crate) struct Phase<'a> {
    /// The network with its half-arcs side by side.
    pub packed: Packed<'a>,
    /// The sources.
    pub s: &'a [u32],
    /// The sinks.
    pub t: &'a [u32],
    /// The distance of each node to a sink; of an unseen node `FAR`, or `WANTED` where it was looked out for.
    pub dist: &'a [u32],
}

/// Goes back over a half-arc: the place of the node that it leaves moves on past it. Answers the node.
#[inline(always)]
fn retreat(net: &Network, current: &mut [u32], half: u32) -> u32
    requires half { half < 2 * length net.now.arcs }
    requires size { length current.old ≡ net.now.nodes }
    requires low { slice_index current.old (tail_of net.now half - 1) < u32.MAX }
    ensures tail { result ≡ tail_of net.now half }
    ensures node { IsNode net.now result }
    ensures passed { current.new ≡ slice_set current.old (result - 1) (slice_index current.old (result - 1) + 1) }
{
    let node = tail(net, half);
    current[node as usize - 1] += 1;
    node
}

/// Walks from a source until it is dead: it goes on along admissible half-arcs, augments where it comes to a sink, goes
/// back to where the first half-arc was filled, and takes one back from a node that has none.
///
/// The half-arcs that it passes and fills pay for its steps. What a filled one pays is enough for its path and for the
/// looks from where it begins to a sink, but not for looks from the source: the walk goes on where [`augment`] says.
pub(crate) fn walk(phase: Phase<'_>, flow: &mut FlowTable, walks: &mut Walks<'_>, source: u32)
    requires run { IsPhase phase }
    requires walks { AreWalks phase flow.old.flows walks.old }
    requires source { IsTrue (one_of phase.s.now source) }
    requires node { IsNode phase.packed.net.now source }
    requires near { cell_of phase.dist.now source < phase.packed.net.now.nodes }
    ensures walks { AreWalks phase.entry flow.new.flows walks.new }
    ensures same { AreSameWalks walks.old walks.new }
    ensures dead { IsDeadIn phase.entry walks.new.current.now source }
    ensures gentle { KeepsGentle phase.entry flow.old.flows flow.new.flows }
    ensures risen { (v : ℕ) → cell_of walks.old.current.now v ≤ cell_of walks.new.current.now v }
    ensures never_lowered { flow.old.steps ≤ flow.new.steps }
    ensures steps { PaysOwed phase.entry walks.old.current.now flow.old walks.new.current.now flow.new }
{
    let mut node = source;
    let mut depth: u32 = 0;
    'turns: loop {
        if phase.dist[node as usize - 1] == 0 {
            let done = augment(phase.packed.net, flow, walks, depth);
            walks.value += u128::from(done.sent);
            depth = done.depth;
            node = done.node;
        } else if let Some(half) = admissible(phase, flow, walks.current, node) {
            walks.path[depth as usize] = half;
            depth += 1;
            node = head(phase.packed.net, half);
        } else if depth == 0 {
            return;
        } else {
            depth -= 1;
            let half = walks.path[depth as usize];
            node = retreat(phase.packed.net, walks.current, half);
        }
    }
}
