//! The cells of two search trees (Boykov and Kolmogorov 2004), and the queues of active nodes and orphans.
//!
//! These cells are hints; what a path needs is tested when flow is pushed along it. A cell that does not exist reads as
//! 0, and a write to it is dropped. With `n` nodes the first `4·n` of a stage's `5·n` cells have four for each node,
//! numbered from 1: its *label*, the half-arc to its parent, its *stamp*, which counts augmentations, and its parent.
//! The last `n` have the next active node for each.
ghost use Rattle.std.specs.Prelude.{◌≡◌, ◌-◌, ◌*◌, ◌≤◌, IsTrue, IsFalse, length, slice_index};
ghost use Rattle.flow_solve.specs.levels.Trees.{HaveCells, HaveMarked};

use crate::residual::cells::{END, get, put};
use crate::residual::half_arcs::Direction;

/// Stands for the parent of an orphan and of a node that came free.
pub(crate) const NO_PARENT: u32 = u32::MAX;

/// The least label of a node that has a parent; labels of roots and of free nodes are less.
pub(crate) const LEAST_CHILD: u32 = 4;

/// A queue of nodes: the first one in is the first one out.
#[derive(Clone, Copy)]
pub(crate) struct Queue {
    /// The first of them, or `END`.
    pub first: u32,
    /// The last of them, or 0.
    pub last: u32,
}

/// The queue of no nodes.
pub(crate) const NO_NODES: Queue = Queue {
    first: END,
    last: 0,
};

/// Two search trees, one that grows from the sources and one from the sinks.
#[derive(Drop)]
pub(crate) struct Trees<'a> {
    /// What they hold of each node, and the next active ones.
    pub cells: &'a mut [u32],
    /// The active nodes of both: those that they have yet to grow from.
    pub active: Queue,
    /// The orphans of both.
    pub orphans: Queue,
    /// The number of nodes.
    pub nodes: u32,
    /// One more than the number of augmentations.
    pub time: u32,
    /// What may still be done: steps, half-arcs that are passed by, and nodes that are walked over.
    pub left: u64,
    /// The trees are tired where no more than this is left: they have brought too little for what they took.
    pub floor: u64,
    /// How much is missing of a maximum flow at most: the lesser of what could leave the sources and enter the sinks.
    pub missing: u64,
    /// How much they may take for all of that.
    pub worth: u64,
}

/// Where a node's label stands: twice one more than its distance from the root when that was last looked at, and 1 more
/// in the tree of the sinks. A free node has 0.
#[inline(always)]
fn label_cell(node: u32) -> usize
    requires { 1 ≤ node }
    ensures { result ≡ 4 * node - 4 }
{
    4 * node as usize - 4
}

/// Where the half-arc from a node to its parent stands; for an orphan it is `NO_PARENT`.
#[inline(always)]
fn parent_cell(node: u32) -> usize
    requires { 1 ≤ node }
    ensures { result ≡ 4 * node - 3 }
{
    4 * node as usize - 3
}

/// Where a node's stamp stands: the time when its parents were last known to lead to a root; for an orphan the next
/// one.
#[inline(always)]
fn stamp_cell(node: u32) -> usize
    requires { 1 ≤ node }
    ensures { result ≡ 4 * node - 2 }
{
    4 * node as usize - 2
}

/// Where a node's parent stands, that the half-arc leads to.
#[inline(always)]
fn above_cell(node: u32) -> usize
    requires { 1 ≤ node }
    ensures { result ≡ 4 * node - 1 }
{
    4 * node as usize - 1
}

/// Where the active node after an active node stands: `END` behind the last. A node that isn't active has 0 there.
#[inline(always)]
fn next_active_cell(nodes: u32, node: u32) -> usize
    requires { 1 ≤ node }
{
    4 * nodes as usize + node as usize - 1
}

/// Which way the tree of a label grows: that of the sources along half-arcs, that of the sinks against them.
pub(crate) fn direction_of(label: u32) -> Direction {
    if label % 2 == 0 {
        Direction::Forwards
    } else {
        Direction::Backwards
    }
}

/// Whether a neighbour is in a node's tree, by their labels.
pub(crate) fn is_own(here: u32, there: u32) -> bool {
    there > 1 && there % 2 == here % 2
}

/// A node's label.
#[inline(always)]
pub(crate) fn label_in(cells: &[u32], node: u32) -> u32
    requires { (1 ≤ node) × (4 * node ≤ length cells.now) }
    ensures { result ≡ slice_index cells.now (4 * node - 4) }
{
    cells[label_cell(node)]
}

/// The half-arc from a node to its parent.
#[inline(always)]
pub(crate) fn parent_in(cells: &[u32], node: u32) -> u32
    requires { (1 ≤ node) × (4 * node ≤ length cells.now) }
{
    cells[parent_cell(node)]
}

/// A node's parent.
#[inline(always)]
pub(crate) fn above_in(cells: &[u32], node: u32) -> u32
    requires { (1 ≤ node) × (4 * node ≤ length cells.now) }
{
    cells[above_cell(node)]
}

/// How much more the trees may take for each path that they find, however little it carries.
const EARNED: u64 = 384;

impl Trees<'_> {
    /// Counts a path that carries an amount, and lets the trees go on for it.
    pub(crate) fn earn(&mut self, amount: u64)
        ensures { HaveMarked self.old self.new }
    {
        let part = u128::from(self.worth) * u128::from(amount) / u128::from(self.missing.max(1));
        let part = u64::try_from(part).unwrap_or(u64::MAX);
        self.time = self.time.saturating_add(1);
        self.floor = self.floor.saturating_sub(part.saturating_add(EARNED));
    }

    /// Whether the trees have taken so much for what they bring that they end.
    pub(crate) fn is_tired(&self) -> bool
        ensures { IsFalse result → 1 ≤ self.now.left }
    {
        self.left <= self.floor
    }

    /// Whether there are cells for a node.
    #[inline(always)]
    pub(crate) fn has_cells(&self, node: u32) -> bool
        ensures { IsTrue result → HaveCells self.now node }
    {
        1 <= node && 4 * node as usize <= self.cells.len()
    }

    /// A node's label.
    #[inline(always)]
    pub(crate) fn label(&self, node: u32) -> u32
        requires { HaveCells self.now node }
    {
        label_in(self.cells, node)
    }

    /// The half-arc from a node to its parent.
    #[inline(always)]
    pub(crate) fn parent(&self, node: u32) -> u32
        requires { HaveCells self.now node }
    {
        parent_in(self.cells, node)
    }

    /// A node's stamp.
    #[inline(always)]
    pub(crate) fn stamp(&self, node: u32) -> u32
        requires { HaveCells self.now node }
    {
        self.cells[stamp_cell(node)]
    }

    /// A node's parent.
    #[inline(always)]
    pub(crate) fn above(&self, node: u32) -> u32
        requires { HaveCells self.now node }
    {
        above_in(self.cells, node)
    }

    /// Sets a node free.
    #[inline(always)]
    pub(crate) fn set_free(&mut self, node: u32)
        requires { HaveCells self.old node }
        ensures { HaveMarked self.old self.new }
    {
        self.cells[label_cell(node)] = 0;
    }

    /// Gives a node its label and its stamp.
    #[inline(always)]
    pub(crate) fn mark(&mut self, node: u32, label: u32, stamp: u32)
        requires { HaveCells self.old node }
        ensures { HaveMarked self.old self.new }
    {
        let cells = &mut *self.cells;
        cells[label_cell(node)] = label;
        cells[stamp_cell(node)] = stamp;
    }

    /// Gives a node a parent, and the half-arc from the node to it.
    #[inline(always)]
    pub(crate) fn set_parent(&mut self, node: u32, half: u32, above: u32)
        requires { HaveCells self.old node }
        ensures { HaveMarked self.old self.new }
    {
        let cells = &mut *self.cells;
        cells[parent_cell(node)] = half;
        cells[above_cell(node)] = above;
    }

    /// Makes a node the root of a tree.
    pub(crate) fn set_root(&mut self, node: u32, label: u32)
        requires { 1 ≤ node }
        ensures { HaveMarked self.old self.new }
    {
        put(self.cells, label_cell(node), label);
    }

    /// Whether a node is active.
    #[inline(always)]
    pub(crate) fn is_active(&self, node: u32) -> bool
        requires { 1 ≤ node }
    {
        get(self.cells, next_active_cell(self.nodes, node)) != 0
    }

    /// Puts a node behind the active ones, if it isn't one of them.
    pub(crate) fn activate(&mut self, node: u32)
        requires { 1 ≤ node }
        ensures { HaveMarked self.old self.new }
    {
        if self.is_active(node) {
            return;
        }
        let nodes = self.nodes;
        let cells = &mut *self.cells;
        put(cells, next_active_cell(nodes, node), END);
        if self.active.last == 0 {
            self.active.first = node;
        } else {
            put(cells, next_active_cell(nodes, self.active.last), node);
        }
        self.active.last = node;
    }

    /// Takes the first of the active nodes and answers it, or answers `END`, or a number that is no node.
    pub(crate) fn next_active(&mut self) -> u32
        ensures { HaveMarked self.old self.new }
    {
        let node = self.active.first;
        if node < 1 || node == END {
            return node;
        }
        let at = next_active_cell(self.nodes, node);
        let cells = &mut *self.cells;
        let next = get(cells, at);
        put(cells, at, 0);
        self.active.first = next;
        if next == END {
            self.active.last = 0;
        }
        node
    }

    /// Makes a node the last of the orphans.
    pub(crate) fn abandon(&mut self, node: u32)
        requires { 1 ≤ node }
        ensures { HaveMarked self.old self.new }
    {
        let cells = &mut *self.cells;
        put(cells, parent_cell(node), NO_PARENT);
        put(cells, stamp_cell(node), END);
        if self.orphans.last == 0 {
            self.orphans.first = node;
        } else {
            put(cells, stamp_cell(self.orphans.last), node);
        }
        self.orphans.last = node;
    }

    /// Takes the first of the orphans and answers it, or answers `END`, or a number that is no node.
    pub(crate) fn next_orphan(&mut self) -> u32
        ensures { HaveMarked self.old self.new }
    {
        let node = self.orphans.first;
        if node < 1 || node == END {
            return node;
        }
        let next = get(self.cells, stamp_cell(node));
        self.orphans.first = next;
        if next == END {
            self.orphans.last = 0;
        }
        node
    }
}
