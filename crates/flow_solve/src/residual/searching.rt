//! Breadth-first searches of the residual network: forwards from sources, or backwards from sinks.
//!
//! One loop serves both directions. It walks the half-arcs that leave a node. Forwards it may use such a half-arc, and
//! backwards its twin, which leads to the node. It reads the node at the other end first, which is no step, and looks
//! only if that node is unseen. A search can stop early: wanted nodes have a distance of their own while they are
//! unseen, so that the search counts them when it reaches them. The distances are the levels of a layered network
//! (Dinitz 1970).
ghost use Rattle.std.specs.Prelude.{◌⊎◌, ◌≡◌, ℕ, List, IsTrue, IfSome, IfNone, ◌+◌, ◌-◌, ◌*◌, ◌<◌, ◌≤◌, length};
ghost use Rattle.std.specs.Prelude.{slice_index};
ghost use Rattle.std.specs.List.{All};
ghost use Rattle.flow_net.specs.Nets.{Net, IsNode};
ghost use Rattle.flow_net.specs.Limits.{IsNet};
ghost use Rattle.flow_net.specs.NodeSets.{one_of};
ghost use Rattle.flow_net.specs.Flows.{Fits};
ghost use Rattle.flow_net.specs.Residual.{head_of};
ghost use Rattle.flow_solve.specs.residual.Packs.{IsPacked, halves_of};
ghost use Rattle.flow_solve.specs.Steps.{OnlyLooks};
ghost use Rattle.flow_solve.specs.residual.HalfArcs.{twin_of, crossed};
ghost use Rattle.flow_solve.specs.residual.Searches.{AreCells, Brings, EndsSoon, HasArrived, HasDone};
ghost use Rattle.flow_solve.specs.residual.Searches.{HasFollowed, GoesOn, HasMissed, HasSearched, IsArrival, IsCount};
ghost use Rattle.flow_solve.specs.residual.Searches.{IsMarked, IsNear, IsNoArrival, IsQueue, IsSearch, next_in};
ghost use Rattle.flow_solve.specs.residual.Searches.{place_over, unseen_cell};

use crate::residual::half_arcs::{Direction, cross, head};
use crate::residual::packing::Packed;
use flow_net::{FlowTable, MOST_NODES, Network};

/// Stands for the distance of a node that wasn't seen.
pub(crate) const FAR: u32 = u32::MAX;

/// Stands for the distance of a node that wasn't seen and that the search looks out for.
pub(crate) const WANTED: u32 = u32::MAX - 1;

/// What a search is to do.
#[derive(Clone, Copy)]
pub(crate) struct Plan<'a> {
    /// The network that it goes over, with the half-arcs side by side.
    pub packed: Packed<'a>,
    /// Which way it goes.
    pub direction: Direction,
    /// The nodes that it goes from.
    pub starts: &'a [u32],
    /// The nodes that it looks out for.
    pub until: &'a [u32],
    /// It stops as soon as it has seen so many of these.
    pub enough: u32,
}

/// How far a search is: numbers of places, all of which stand in its queue.
#[derive(Clone, Copy)]
pub(crate) struct Progress {
    /// Those whose half-arcs it has followed, the first in the queue.
    pub followed: u32,
    /// Those that it has seen: the end of the queue.
    pub seen: u32,
    /// Those among the seen ones that it looks out for.
    pub wanted: u32,
}

/// A search that comes to an unseen place.
#[derive(Clone, Copy)]
pub(crate) struct Arrival {
    /// The place.
    pub place: u32,
    /// Its distance.
    pub level: u32,
    /// The half-arc over which the search comes; any number for a start.
    pub half: u32,
}

/// Gives an unseen place its distance and the half-arc that led to it, and puts it at the end of the queue.
fn enter(
    dist: &mut [u32],
    via: &mut [u32],
    queue: &mut [u32],
    progress: Progress,
    arrival: Arrival,
) -> Progress
    requires search { IsSearch dist.old via.old queue.old progress }
    requires arrival { IsArrival dist.old progress arrival }
    ensures search { IsSearch dist.new via.new queue.new result }
    ensures grown { GoesOn dist.old via.old queue.old progress dist.new via.new queue.new result }
    ensures arrived { HasArrived dist.new via.new arrival }
    ensures come { (p : ℕ) → IsMarked dist.new p → IsMarked dist.old p ⊎ (p ≡ arrival.place) }
    ensures followed { result.followed ≡ progress.followed }
{
    let place = arrival.place as usize;
    // The two numbers for an unseen node differ by one.
    let wanted = progress.wanted + (FAR - dist[place]);
    dist[place] = arrival.level;
    via[place] = arrival.half;
    queue[progress.seen as usize] = arrival.place;
    Progress {
        followed: progress.followed,
        seen: progress.seen + 1,
        wanted,
    }
}

/// Where a half-arc that leaves a node brings the search, if it leads to an unseen node and the search may go there. It
/// looks only if the node is unseen.
fn arrive(
    plan: Plan<'_>,
    flow: &mut FlowTable,
    dist: &[u32],
    half: u32,
    level: u32,
) -> Option<Arrival>
    requires limits { IsNet plan.packed.net.now }
    requires fits { Fits plan.packed.net.now flow.old.flows }
    requires cells { length dist.now ≡ plan.packed.net.now.nodes }
    requires half { half < 2 * length plan.packed.net.now.arcs }
    ensures some { IfSome result (Brings plan.entry flow.old.flows half level) }
    ensures unseen { IfSome result (λ a. (a.place < length dist.now) × (WANTED ≤ slice_index dist.now a.place)) }
    ensures none { IfNone result (IsNoArrival plan.entry flow.old.flows half dist.now) }
    ensures looks { OnlyLooks flow.old flow.new 1 }
    ensures no_look { IsMarked dist.now (place_over plan.entry half) → flow.new.steps ≡ flow.old.steps }
{
    let net = plan.packed.net;
    let place = head(net, half) - 1;
    if dist[place as usize] < WANTED {
        return None;
    }
    let half = cross(plan.direction, half);
    let (_, room) = flow.look(net, half);
    if room > 0 {
        Some(Arrival { place, level, half })
    } else {
        None
    }
}

/// Follows each half-arc that leaves the next place in the queue.
fn follow_all(
    plan: Plan<'_>,
    flow: &mut FlowTable,
    dist: &mut [u32],
    via: &mut [u32],
    queue: &mut [u32],
    progress: Progress,
) -> Progress
    requires fits { Fits plan.packed.net.now flow.old.flows }
    requires packed { IsPacked plan.packed.net.now plan.packed.first.now plan.packed.halves.now }
    requires cells { length dist.old ≡ plan.packed.net.now.nodes }
    requires search { IsSearch dist.old via.old queue.old progress }
    requires next { progress.followed < progress.seen }
    requires near { IsNear dist.old (slice_index dist.old (next_in queue.old progress) + 1) }
    ensures search { IsSearch dist.new via.new queue.new result }
    ensures grown { GoesOn dist.old via.old queue.old progress dist.new via.new queue.new result }
    ensures followed { HasFollowed plan.entry flow.old.flows (next_in queue.old progress) dist.old dist.new via.new }
    ensures next { result.followed ≡ progress.followed + 1 }
    ensures looks { OnlyLooks flow.old flow.new (halves_of plan.entry.packed (next_in queue.old progress)) }
{
    let Packed { net, first, halves } = plan.packed;
    let place = queue[progress.followed as usize] as usize;
    let level = dist[place] + 1;
    let mut progress = progress;
    for spot in first[place]..first[place + 1] {
        if let Some(arrival) = arrive(plan, flow, dist, halves[spot as usize], level) {
            progress = enter(dist, via, queue, progress, arrival);
        }
    }
    progress.followed += 1;
    progress
}

/// Makes all nodes unseen, and tells apart those that the search looks out for.
fn look_out(dist: &mut [u32], until: &[u32])
    requires until { All (λ v. (1 ≤ v) × (v ≤ length dist.old)) until.now }
    ensures unseen { (p : ℕ) → p < length dist.old → slice_index dist.new p ≡ unseen_cell until.now p }
{
    dist.fill(FAR);
    for node in until {
        dist[*node as usize - 1] = WANTED;
    }
}

/// Enters a node with distance 0, unless it was seen.
fn start(dist: &mut [u32], via: &mut [u32], queue: &mut [u32], progress: &mut Progress, node: u32)
    requires search { IsSearch dist.old via.old queue.old progress.old }
    requires node { (1 ≤ node) × (node ≤ length dist.old) }
    requires near { IsNear dist.old 0 }
    ensures search { IsSearch dist.new via.new queue.new progress.new }
    ensures near { IsNear dist.new 0 }
    ensures grown { GoesOn dist.old via.old queue.old progress.old dist.new via.new queue.new progress.new }
    ensures here { IsMarked dist.new (node - 1) }
    ensures come { (p : ℕ) → IsMarked dist.new p → IsMarked dist.old p ⊎ (p + 1 ≡ node) }
    ensures followed { progress.new.followed ≡ progress.old.followed }
{
    let place = node - 1;
    if dist[place as usize] >= WANTED {
        let arrival = Arrival {
            place,
            level: 0,
            half: 0,
        };
        *progress = enter(dist, via, queue, *progress, arrival);
    }
}

/// Enters each start with distance 0, where all nodes are unseen.
fn start_all(starts: &[u32], dist: &mut [u32], via: &mut [u32], queue: &mut [u32]) -> Progress
    requires starts { All (λ v. (1 ≤ v) × (v ≤ length dist.old)) starts.now }
    requires unseen { (p : ℕ) → p < length dist.old → WANTED ≤ slice_index dist.old p }
    requires via_size { length via.old ≡ length dist.old }
    requires queue_size { length queue.old ≡ length dist.old }
    requires few { length dist.old ≤ MOST_NODES }
    ensures search { IsSearch dist.new via.new queue.new result }
    ensures near { IsNear dist.new 0 }
    ensures begun { (i : ℕ) → i < length starts.now → IsMarked dist.new (slice_index starts.now i - 1) }
    ensures come { (p : ℕ) → p < length dist.old → IsMarked dist.new p → IsTrue (one_of starts.now (p + 1)) }
    ensures count { (until : List ℕ) → IsCount until dist.old 0 → IsCount until dist.new result.wanted }
    ensures followed { result.followed ≡ 0 }
{
    let mut progress = Progress {
        followed: 0,
        seen: 0,
        wanted: 0,
    };
    for node in starts {
        start(dist, via, queue, &mut progress, *node);
    }
    progress
}

/// Searches from the starts, over half-arcs with a residual capacity, until it has seen `plan.enough` of the nodes that
/// it looks out for, or else all nodes that it can come to. Each node that is seen gets its distance, in half-arcs, and
/// the half-arc over which the search came to it; `queue` has their places, the nearest first. At most one look at each
/// half-arc.
pub(crate) fn search(
    plan: Plan<'_>,
    flow: &mut FlowTable,
    dist: &mut [u32],
    via: &mut [u32],
    queue: &mut [u32],
) -> Progress
    requires fits { Fits plan.packed.net.now flow.old.flows }
    requires packed { IsPacked plan.packed.net.now plan.packed.first.now plan.packed.halves.now }
    requires starts { All (IsNode plan.packed.net.now) plan.starts.now }
    requires until { All (IsNode plan.packed.net.now) plan.until.now }
    requires cells { AreCells plan.packed.net.now dist.old via.old queue.old }
    ensures searched { HasSearched plan.entry flow.old.flows dist.new via.new }
    ensures whole { result.wanted < plan.entry.enough → HasDone plan.entry flow.old.flows dist.new }
    ensures missed { result.wanted ≡ 0 → 1 ≤ plan.entry.enough → HasMissed plan.entry flow.old.flows dist.new }
    ensures soon { EndsSoon plan.entry result.wanted dist.new }
    ensures count { IsCount plan.entry.until.now dist.new result.wanted }
    ensures queue { IsQueue dist.new queue.new result.seen }
    ensures looks { OnlyLooks flow.old flow.new (2 * length plan.entry.packed.net.now.arcs) }
{
    look_out(dist, plan.until);
    let mut progress = start_all(plan.starts, dist, via, queue);
    // The label names the loop's invariant, `invariant-places`.
    'places: while progress.followed < progress.seen && progress.wanted < plan.enough {
        progress = follow_all(plan, flow, dist, via, queue, progress);
    }
    progress
}
