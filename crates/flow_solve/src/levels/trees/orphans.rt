//! Orphans, the nodes of a tree whose half-arc to their parent was filled, and their adoption by the nearest node that
//! leads to a root. Stamps are those of Boykov and Kolmogorov (2004).
ghost use Rattle.std.specs.Prelude.{◌≡◌, ◌+◌, ◌<◌, ◌≤◌, ◌*◌, IsTrue, length};
ghost use Rattle.flow_net.specs.Nets.{IsNode};
ghost use Rattle.flow_net.specs.Flows.{Fits};
ghost use Rattle.flow_solve.specs.levels.Entries.{IsEntry};
ghost use Rattle.flow_solve.specs.levels.Trees.{HaveCells, HaveLooked, HasTreeCells, HaveMarked, HaveSpent};
ghost use Rattle.flow_solve.specs.Steps.{PaysLooks};

use crate::levels::entries::{entry_supplying, half_in, open_half};
use crate::levels::rows::{entry_at, row_of};
use crate::levels::spending::spend;
use crate::levels::trees::chains::supply_half;
use crate::levels::trees::forest::{LEAST_CHILD, NO_PARENT, Trees, direction_of, is_own};
use crate::residual::cells::END;
use crate::residual::half_arcs::head;
use crate::residual::packing::Packed;
use crate::residual::searching::FAR;
use flow_net::FlowTable;

/// Walks over the parents of a node to a root, or to a node that is known at this time to lead to one. Answers one more
/// than the node's distance from the root, or `FAR` where the walk ends at an orphan or no more may be done.
fn walk_to_root(trees: &mut Trees<'_>, node: u32) -> u32
    requires node { HaveCells trees.old node }
    ensures spends { HaveSpent trees.old trees.new }
{
    let mut node = node;
    let mut walked: u32 = 0;
    'chain: loop {
        if trees.parent(node) == NO_PARENT {
            return FAR;
        }
        let label = trees.label(node);
        if label < LEAST_CHILD || trees.stamp(node) == trees.time {
            return walked.saturating_add(label / 2);
        }
        node = trees.above(node);
        if !trees.has_cells(node) || !spend(&mut trees.left, 1) {
            return FAR;
        }
        walked = walked.saturating_add(1);
    }
}

/// Gives the nodes that such a walk went over the labels for their distances, and the time.
fn mark_walk(trees: &mut Trees<'_>, node: u32, distance: u32)
    requires node { HaveCells trees.old node }
    ensures marks { HaveMarked trees.old trees.new }
{
    let time = trees.time;
    let mut node = node;
    let side = trees.label(node) % 2;
    let mut label = distance.saturating_mul(2).saturating_add(side);
    'walk: for _ in 0..distance {
        if trees.stamp(node) == time {
            return;
        }
        trees.mark(node, label, time);
        node = trees.above(node);
        if !trees.has_cells(node) {
            return;
        }
        label = label.saturating_sub(2);
    }
}

/// An orphan, or a node that comes free.
#[derive(Clone, Copy)]
struct Orphan {
    /// The node.
    pub node: u32,
    /// Its label, which tells its tree.
    pub label: u32,
}

/// Whether a node of a label has an orphan for its parent.
#[inline(always)]
fn is_child(trees: &Trees<'_>, node: u32, label: u32, orphan: Orphan) -> bool
    requires { HaveCells trees.now node }
{
    label >= LEAST_CHILD && trees.above(node) == orphan.node && trees.parent(node) != NO_PARENT
}

/// A parent that an orphan may have.
#[derive(Clone, Copy)]
struct Offer {
    /// The half-arc between, through which the orphan would be supplied.
    pub half: u32,
    /// One more than the distance of the parent from the root.
    pub distance: u32,
}

/// What a node in the tree of an orphan offers it, by the entry that leads there: to be its parent, if it is no child
/// of it, its parents lead to a root, and something remains between them. One look is paid beforehand.
fn ask(
    packed: Packed<'_>,
    flow: &mut FlowTable,
    trees: &mut Trees<'_>,
    orphan: Orphan,
    entry: u32,
) -> Option<Offer>
    requires forest { HasTreeCells packed flow.old trees.old }
    requires entry { IsEntry packed.net.now entry }
    ensures spends { HaveSpent trees.old trees.new }
    ensures looks { PaysLooks flow.old (trees.old.left + 1) flow.new trees.new.left }
{
    let node = head(packed.net, half_in(entry));
    let label = trees.label(node);
    if trees.parent(node) == NO_PARENT || is_child(trees, node, label, orphan) {
        return None;
    }
    let between = entry_supplying(direction_of(label), entry);
    let Some(half) = open_half(packed.net, flow, &mut trees.left, between) else {
        return None;
    };
    let distance = walk_to_root(trees, node);
    if distance == FAR {
        return None;
    }
    mark_walk(trees, node, distance);
    Some(Offer { half, distance })
}

/// How much farther from its root an adoption may move an orphan: beyond that, a free node finds a shorter path.
const MOST_DETOUR: u32 = 4;

/// Gives an orphan the nearest parent in its tree that leads to a root and isn't too far from it. Answers whether that,
/// or all that may still be done, is done.
fn find_parent(packed: Packed<'_>, flow: &mut FlowTable, trees: &mut Trees<'_>, node: u32) -> bool
    requires forest { HasTreeCells packed flow.old trees.old }
    requires node { IsNode packed.net.now node }
    ensures looked { HaveLooked flow.old trees.old flow.new trees.new }
{
    let own = trees.label(node);
    let orphan = Orphan { node, label: own };
    let (begin, end) = row_of(packed, node);
    if !spend(&mut trees.left, u64::from(end - begin)) {
        return true;
    }
    let mut nearest = FAR;
    let mut between = 0;
    let mut above = 0;
    for spot in begin..end {
        let entry = entry_at(packed, node, spot);
        let node = head(packed.net, half_in(entry));
        let label = trees.label(node);
        // A node that is no nearer by its label isn't asked.
        if !is_own(own, label) || label / 2 >= nearest {
            continue;
        }
        if let Some(Offer { half, distance }) = ask(packed, flow, trees, orphan, entry) {
            if distance < nearest {
                nearest = distance;
                between = half;
                above = node;
            }
        }
    }
    if nearest > (own / 2).saturating_add(MOST_DETOUR - 1) {
        return false;
    }
    trees.set_parent(node, supply_half(direction_of(own), between), above);
    let label = nearest.saturating_mul(2).saturating_add(2 + own % 2);
    trees.mark(node, label, trees.time);
    true
}

/// Leaves the node that an entry leads to from a node that comes free: a child becomes an orphan, and a node of the
/// same tree that could take the free node back becomes active. One look is paid beforehand.
fn part(packed: Packed<'_>, flow: &mut FlowTable, trees: &mut Trees<'_>, orphan: Orphan, entry: u32)
    requires forest { HasTreeCells packed flow.old trees.old }
    requires entry { IsEntry packed.net.now entry }
    ensures spends { HaveSpent trees.old trees.new }
    ensures looks { PaysLooks flow.old (trees.old.left + 1) flow.new trees.new.left }
{
    let node = head(packed.net, half_in(entry));
    let label = trees.label(node);
    if !is_own(orphan.label, label) {
        return;
    }
    if is_child(trees, node, label, orphan) {
        trees.abandon(node);
    }
    if trees.is_active(node) {
        return;
    }
    let between = entry_supplying(direction_of(label), entry);
    if open_half(packed.net, flow, &mut trees.left, between).is_some() {
        trees.activate(node);
    }
}

/// Sets an orphan free that found no parent.
fn free(packed: Packed<'_>, flow: &mut FlowTable, trees: &mut Trees<'_>, node: u32)
    requires forest { HasTreeCells packed flow.old trees.old }
    requires node { IsNode packed.net.now node }
    ensures looked { HaveLooked flow.old trees.old flow.new trees.new }
{
    let label = trees.label(node);
    let orphan = Orphan { node, label };
    trees.set_free(node);
    let (begin, end) = row_of(packed, node);
    if spend(&mut trees.left, u64::from(end - begin)) {
        for spot in begin..end {
            part(packed, flow, trees, orphan, entry_at(packed, node, spot));
        }
    }
}

/// Adopts all orphans, or sets them free. Answers whether that was done before the trees had to end.
// Out of line, so that what pushes along a path keeps its numbers in registers.
#[inline(never)]
pub(crate) fn adopt(packed: Packed<'_>, flow: &mut FlowTable, trees: &mut Trees<'_>) -> bool
    requires forest { HasTreeCells packed flow.old trees.old }
    ensures looked { HaveLooked flow.old trees.old flow.new trees.new }
{
    let nodes = packed.net.nodes();
    'orphans: while !trees.is_tired() {
        trees.left -= 1;
        let node = trees.next_orphan();
        if node < 1 || nodes < node {
            return node == END;
        }
        if !find_parent(packed, flow, trees, node) {
            free(packed, flow, trees, node);
        }
    }
    false
}
