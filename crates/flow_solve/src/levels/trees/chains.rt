//! Augmenting paths through two search trees: from a source along a chain of parents, over the half-arc where the trees
//! touch, and along another chain to a sink.
//!
//! The code goes along both chains twice, from where the trees touch to the roots: once for the least residual
//! capacity, and once to push that. The second time each residual capacity is read again, so no proof needs to know
//! anything of the trees, not even that a path is simple.
ghost use Rattle.std.specs.Prelude.{◌≡◌, ◌+◌, ◌*◌, ◌/◌, ◌<◌, ◌≤◌, length};
ghost use Rattle.flow_net.specs.Nets.{IsNode};
ghost use Rattle.flow_net.specs.Flows.{Fits};
ghost use Rattle.flow_solve.specs.levels.Trees.{AreSameTrees, HasTreeCells, HaveGrown, HaveMarked};
ghost use Rattle.flow_solve.specs.Steps.{PaysLooks, TakesSteps};

use crate::levels::spending::spend;
use crate::levels::trees::forest::{LEAST_CHILD, Trees, above_in, label_in, parent_in};
use crate::residual::half_arcs::Direction::{self, Backwards, Forwards};
use crate::residual::half_arcs::{cross, head, tail};
use crate::residual::packing::Packed;
use flow_net::FlowTable;

/// The half-arc that flow to or from a node in a tree goes through, given the one that leads from the node to its
/// parent.
pub(crate) fn supply_half(direction: Direction, half: u32) -> u32
    ensures { result / 2 ≡ half / 2 }
{
    match direction {
        Forwards => cross(Backwards, half),
        Backwards => half,
    }
}

/// The chain of parents of a node.
#[derive(Clone, Copy)]
struct Chain {
    /// Which way the node's tree grows.
    pub direction: Direction,
    /// The node.
    pub node: u32,
    /// How many half-arcs it has.
    pub len: u32,
}

/// How far a chain of parents leads.
#[derive(Clone, Copy)]
struct Extent {
    /// How many half-arcs it has.
    pub len: u32,
    /// The least that remains on them; 0 where they lead to no root, or to one that is too far.
    pub room: u64,
}

/// What the trees take for each half-arc of a path: it is walked over, looked at, looked at once more and pushed over.
const COST: u64 = 4;

/// Goes over the chain of parents of a node, and takes off what is taken for each half-arc of it.
#[inline(always)]
fn measure(
    packed: Packed<'_>,
    direction: Direction,
    flow: &mut FlowTable,
    trees: &mut Trees<'_>,
    node: u32,
) -> Extent
    requires forest { HasTreeCells packed flow.old trees.old }
    requires node { IsNode packed.net.now node }
    ensures stays { AreSameTrees trees.old trees.new }
    ensures paid { PaysLooks flow.old trees.old.left flow.new (trees.new.left + 2 * result.len) }
{
    let nodes = packed.net.nodes();
    let limit = u64::from(nodes).min(trees.left / COST) as u32;
    let mut node = node;
    let mut room = u64::MAX;
    let mut len = 0;
    // Where they are is read once, and not at each half-arc.
    let cells: &[u32] = trees.cells;
    while len < limit && label_in(cells, node) >= LEAST_CHILD {
        let half = parent_in(cells, node);
        let above = above_in(cells, node);
        if half as usize >= packed.halves.len() || above < 1 || nodes < above {
            break;
        }
        let (_, remains) = flow.look(packed.net, supply_half(direction, half));
        room = room.min(remains);
        node = above;
        len += 1;
    }
    if label_in(cells, node) >= LEAST_CHILD {
        room = 0;
    }
    trees.left -= COST * u64::from(len);
    Extent { len, room }
}

/// Pushes an amount along a chain of parents, and abandons the nodes whose half-arc to their parent this fills. Answers
/// whether that much remained on each half-arc when it came to it.
#[inline(always)]
fn push_along(
    packed: Packed<'_>,
    flow: &mut FlowTable,
    trees: &mut Trees<'_>,
    chain: Chain,
    amount: u64,
) -> bool
    requires forest { HasTreeCells packed flow.old trees.old }
    requires node { IsNode packed.net.now chain.node }
    ensures fits { Fits packed.entry.net.now flow.new.flows }
    ensures steps { TakesSteps flow.old flow.new (2 * chain.len) }
    ensures marks { HaveMarked trees.old trees.new }
{
    let mut node = chain.node;
    'chain: for _ in 0..chain.len {
        let half = trees.parent(node);
        let above = trees.above(node);
        if half as usize >= packed.halves.len() || !trees.has_cells(above) {
            return false;
        }
        let over = supply_half(chain.direction, half);
        let (_, room) = flow.look(packed.net, over);
        if room < amount {
            return false;
        }
        flow.push(packed.net, over, amount);
        if room == amount {
            trees.abandon(node);
        }
        node = above;
    }
    true
}

/// Where the tree of the sources touches that of the sinks, and what a push there takes with it.
#[derive(Clone, Copy)]
struct Touch {
    /// The half-arc from the one to the other.
    pub half: u32,
    /// How many half-arcs lead from a source to it.
    pub before: u32,
    /// How many lead on from it to a sink.
    pub behind: u32,
    /// How much is pushed.
    pub amount: u64,
}

/// Pushes an amount over the half-arc where the trees touch and along the chains on its both sides, and abandons the
/// nodes whose half-arc to their parent this fills. Answers whether that much remained everywhere.
fn push_through(
    packed: Packed<'_>,
    flow: &mut FlowTable,
    trees: &mut Trees<'_>,
    touch: Touch,
) -> bool
    requires forest { HasTreeCells packed flow.old trees.old }
    requires half { touch.half < 2 * length packed.net.now.arcs }
    ensures fits { Fits packed.entry.net.now flow.new.flows }
    ensures steps { TakesSteps flow.old flow.new (2 * (touch.before + touch.behind + 1)) }
    ensures marks { HaveMarked trees.old trees.new }
{
    let Touch { half, amount, .. } = touch;
    let (to, room) = flow.look(packed.net, half);
    if room < amount {
        return false;
    }
    flow.push(packed.net, half, amount);
    let before = Chain {
        direction: Forwards,
        node: tail(packed.net, half),
        len: touch.before,
    };
    let behind = Chain {
        direction: Backwards,
        node: to,
        len: touch.behind,
    };
    push_along(packed, flow, trees, before, amount)
        && push_along(packed, flow, trees, behind, amount)
}

/// Pushes as much as remains along the path over a half-arc from the tree of the sources to that of the sinks. Answers
/// whether something was pushed.
pub(crate) fn augment_over(
    packed: Packed<'_>,
    flow: &mut FlowTable,
    trees: &mut Trees<'_>,
    half: u32,
) -> bool
    requires forest { HasTreeCells packed flow.old trees.old }
    requires half { half < 2 * length packed.net.now.arcs }
    ensures { HaveGrown packed.entry flow.old trees.old flow.new trees.new }
{
    if !spend(&mut trees.left, COST) {
        return false;
    }
    let before = measure(packed, Forwards, flow, trees, tail(packed.net, half));
    let behind = measure(packed, Backwards, flow, trees, head(packed.net, half));
    let (_, room) = flow.look(packed.net, half);
    let amount = room.min(before.room).min(behind.room);
    if amount == 0 {
        return false;
    }
    let touch = Touch {
        half,
        before: before.len,
        behind: behind.len,
        amount,
    };
    trees.earn(amount);
    push_through(packed, flow, trees, touch)
}
