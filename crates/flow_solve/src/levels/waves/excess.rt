//! The cells of waves: levels, lists of nodes with excess by level, and the excess itself.
//!
//! Nodes are numbered from 1, and 0 stands for none. Levels count from 0 and are fewer than nodes. With `n` nodes the
//! `5·n` cells of a stage are, in this order: `n` for each node's level plus [`LEVELS`] times its current place, which
//! counts blocks if it has [`PLACES`] half-arcs or more, and [`MARK`] if it is marked; `n` for the search's queue, and
//! then for each node the next one with excess on its level; `n` for the first node with excess of each level; and two
//! for each node's excess.
ghost use Rattle.std.specs.Prelude.{◌≡◌, ◌+◌, ◌-◌, ◌*◌, ◌≤◌, length};
ghost use Rattle.std.specs.List.{All};
ghost use Rattle.flow_solve.specs.levels.Waves.{HasCells, OnlyMarks};

use crate::residual::cells::{CELL, get, put};

/// So many levels fit the cell of a node. A node that is farther from the roots takes no part.
pub(super) const LEVELS: u32 = 1_048_576;

/// Stands for the level of a node that no search has seen, or that was lifted to the ceiling.
pub(super) const UNSEEN: u32 = LEVELS - 1;

/// Stands for the level of a node that takes no part.
pub(super) const BARRED: u32 = LEVELS - 2;

/// The farthest level that a node may have.
pub(super) const FARTHEST: u32 = LEVELS - 3;

/// So many places fit the cell of a node: the half-arcs before its current place lead to no nearer level.
pub(super) const PLACES: usize = 2048;

/// Is added to the cell of a marked node: one that led to no sink when the waves turned home.
pub(super) const MARK: u32 = 2_147_483_648;

/// Waves under way.
#[derive(Drop)]
pub(super) struct Wave<'a> {
    /// What they go by.
    pub cells: &'a mut [u32],
    /// How many nodes there are.
    pub nodes: u32,
    /// What may still be done: steps, and half-arcs that are passed by.
    pub left: u64,
    /// A wave ends when no more than this is left.
    pub floor: u64,
    /// Which nodes pass their half-arcs from the last to the first: the odd ones where this is even, and the even ones
    /// where it is odd.
    pub turn: u32,
    /// No excess that takes part is on a farther level.
    pub farthest: u32,
    /// A node that would be lifted to this level or above takes no part until the next search.
    pub ceiling: u32,
    /// How many levels the ceiling stands above the farthest excess.
    pub reach: u32,
    /// How many nodes the search has put in its queue.
    pub queued: u32,
    /// How many nodes with excess it still looks out for.
    pub wanted: u32,
}

/// Where the next node on a node's list stands.
fn next_cell(nodes: u32, node: u32) -> usize
    requires { 1 ≤ node }
{
    nodes as usize + node as usize - 1
}

/// Where the first node with excess on a level stands.
fn first_cell(nodes: u32, level: u32) -> usize {
    2 * nodes as usize + level as usize
}

/// Where a node's excess begins, in two cells.
fn excess_cell(nodes: u32, node: u32) -> usize
    requires { 1 ≤ node }
    ensures { result ≡ 3 * nodes + 2 * (node - 1) }
{
    3 * nodes as usize + 2 * (node as usize - 1)
}

impl Wave<'_> {
    /// The highest level at which the ceiling may stand.
    pub(super) fn highest(&self) -> u32 {
        self.farthest.saturating_add(self.reach)
    }

    /// A node's level.
    pub(super) fn level(&self, node: u32) -> u32
        requires { (1 ≤ node) × (node ≤ length self.now.cells.now) }
    {
        self.cells[node as usize - 1] % LEVELS
    }

    /// A node's current place.
    pub(super) fn place(&self, node: u32) -> usize
        requires { (1 ≤ node) × (node ≤ length self.now.cells.now) }
    {
        (self.cells[node as usize - 1] % MARK / LEVELS) as usize
    }

    /// Sets a node's level and its current place.
    pub(super) fn set_level(&mut self, node: u32, level: u32, place: usize)
        requires { 1 ≤ node }
        ensures { OnlyMarks self.old self.new }
    {
        let at = node as usize - 1;
        let mark = get(self.cells, at) / MARK * MARK;
        let number = mark + level % LEVELS + (place % PLACES) as u32 * LEVELS;
        put(self.cells, at, number);
    }

    /// Gives some nodes a level.
    pub(super) fn set_levels(&mut self, some: &[u32], level: u32)
        requires { All (λ v. 1 ≤ v) some.now }
        ensures { OnlyMarks self.old self.new }
    {
        for node in some {
            self.set_level(*node, level, 0);
        }
    }

    /// A node's excess.
    pub(super) fn excess(&self, node: u32) -> u64
        requires { HasCells self.now node }
    {
        let at = excess_cell(self.nodes, node);
        u64::from(self.cells[at]) + u64::from(self.cells[at + 1]) * CELL
    }

    /// Sets a node's excess.
    pub(super) fn set_excess(&mut self, node: u32, amount: u64)
        requires { HasCells self.old node }
        ensures { OnlyMarks self.old self.new }
    {
        let at = excess_cell(self.nodes, node);
        let cells = &mut *self.cells;
        cells[at] = (amount % CELL) as u32;
        cells[at + 1] = (amount / CELL) as u32;
    }

    /// Adds an amount to a node's excess, as far as 64 bits hold it. Answers how much.
    pub(super) fn book(&mut self, node: u32, amount: u64) -> u64
        requires { HasCells self.old node }
        ensures marks { OnlyMarks self.old self.new }
        ensures most { result ≤ amount }
    {
        let had = self.excess(node);
        let booked = amount.min(u64::MAX - had);
        self.set_excess(node, had + booked);
        booked
    }

    /// The node of a place in the search's queue.
    pub(super) fn queued_at(&self, place: u32) -> u32 {
        get(self.cells, self.nodes as usize + place as usize)
    }

    /// Gives a node its level, and puts it in the search's queue. As long as it searches, no node is on a list.
    pub(super) fn enter(&mut self, node: u32, level: u32)
        requires { 1 ≤ node }
        ensures { OnlyMarks self.old self.new }
    {
        self.set_level(node, level, 0);
        put(self.cells, self.nodes as usize + self.queued as usize, node);
        self.queued = self.queued.saturating_add(1);
    }

    /// Puts a node with excess on the list of its level.
    pub(super) fn list(&mut self, node: u32, level: u32)
        requires { 1 ≤ node }
        ensures { OnlyMarks self.old self.new }
    {
        let (next, first) = (next_cell(self.nodes, node), first_cell(self.nodes, level));
        let cells = &mut *self.cells;
        let behind = get(cells, first);
        put(cells, next, behind);
        put(cells, first, node);
        self.farthest = self.farthest.max(level);
    }

    /// Takes the first node off the list of a level, and answers it: 0 where there is none.
    pub(super) fn take_listed(&mut self, level: u32) -> u32
        ensures { OnlyMarks self.old self.new }
    {
        let (nodes, first) = (self.nodes, first_cell(self.nodes, level));
        let cells = &mut *self.cells;
        let node = get(cells, first);
        if node > 0 {
            let behind = get(cells, next_cell(nodes, node));
            put(cells, first, behind);
        }
        node
    }
}
