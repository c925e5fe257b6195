//! A flow between a node and those that a forest has come to.
ghost use Rattle.std.specs.Prelude.{◌≡◌, ℕ, ◌+◌, ◌-◌, ◌*◌, ◌<◌, ◌≤◌, IfSome, IsTrue, IsFalse, MatchOption, length};
ghost use Rattle.std.specs.List.{All};
ghost use Rattle.flow_net.specs.Nets.{IsNode};
ghost use Rattle.flow_net.specs.Limits.{IsNet};
ghost use Rattle.flow_net.specs.Flows.{Fits, IsFeasible};
ghost use Rattle.flow_solve.specs.residual.HalfArcs.{IsClosedFor};
ghost use Rattle.flow_solve.specs.Forests.{HasFallen, IsPassed, IsRaised, IsReached, Pays, PaysIfAny};
ghost use Rattle.flow_solve.specs.Forests.{marked_in, seen_in};
ghost use Rattle.flow_solve.specs.Steps.{OnlyLooks, PaysLooks};

use crate::forests::marks::{is_left, is_marked, note, unmark};
use crate::forests::rows::{TAKEN, ends_of, next_at, place_at, queue_at};
use crate::forests::{Forest, Ground};
use crate::residual::cells::{END, get, put};
use crate::residual::half_arcs::{far, near};
use flow_net::FlowTable;

/// Where nodes have so many arcs on an average, or more, a search goes on from any node that it has seen.
const MANY_ARCS: u32 = 24;

/// A number, and how many looks and pushes are left.
#[derive(Clone, Copy)]
pub(crate) struct Budgeted {
    pub value: u64,
    pub left: u64,
}

/// The arcs at a node, as hints: those of its row, and where rows have numbers those that lead to it.
#[derive(Clone, Copy)]
struct Around {
    /// The first cell of its row.
    from: u32,
    /// How many cells the row has.
    row: u32,
    /// How many arcs there are.
    all: u32,
    /// Where in the hints the arcs that lead to it would begin, had they the places from 0 on.
    into: u32,
}

/// A search for paths from a node to those that a forest has come to. Its queue, in the hints, has the nodes that it
/// has seen, from the first one on.
#[derive(Drop)]
pub(crate) struct Joining<'a> {
    /// Marks of the nodes that it has seen.
    pub seen: &'a mut [u32],
    /// What it looks at, as [`rows`](crate::forests::rows) says.
    pub hints: &'a mut [u32],
    /// The place in its queue of the node whose half-arcs come next.
    at: u32,
    /// How many nodes it has seen: the end of its queue.
    tail: u32,
    /// The last half-arc of the path that it has found, or [`END`].
    found: u32,
    /// How many looks and pushes are left.
    left: u64,
}

/// A search that has seen no node.
pub(crate) fn at_rest<'a>(seen: &'a mut [u32], hints: &'a mut [u32]) -> Joining<'a> {
    Joining {
        seen,
        hints,
        at: 0,
        tail: 0,
        found: END,
        left: 0,
    }
}

impl Joining<'_> {
    /// Whether it is a node that the search hasn't seen.
    #[inline(always)]
    fn is_new(&self, node: u32) -> bool {
        is_left(self.seen, node)
    }

    /// A number of the hints.
    #[inline(always)]
    fn hint(&self, place: usize) -> u32 {
        get(self.hints, place)
    }

    /// Sees a node, behind a half-arc.
    #[inline(always)]
    fn see(&mut self, ground: Ground<'_>, node: u32, half: u32)
        ensures at { self.new.at ≡ self.old.at }
        ensures left { self.new.left ≡ self.old.left }
    {
        note(self.seen, node);
        put(self.hints, place_at(ground, node), half);
        put(self.hints, queue_at(ground, self.tail), node);
        self.tail = self.tail.saturating_add(1);
    }

    /// Makes all nodes unseen, and forgets by which half-arcs.
    fn forget(&mut self, ground: Ground<'_>)
        ensures { self.new.left ≡ self.old.left }
    {
        for at in 0..self.tail {
            let node = get(self.hints, queue_at(ground, at));
            unmark(self.seen, node);
            put(self.hints, place_at(ground, node), 0);
        }
        self.tail = 0;
    }

    /// Begins at a node, which is seen alone.
    fn begin(&mut self, ground: Ground<'_>, node: u32)
        ensures { self.new.left ≡ self.old.left }
    {
        self.forget(ground);
        note(self.seen, node);
        put(self.hints, queue_at(ground, 0), node);
        self.at = 0;
        self.tail = 1;
        self.found = END;
    }

    /// The arcs at a node.
    fn arcs_at(&self, ground: Ground<'_>, node: u32) -> Around {
        let from = get(ground.first, (node as usize).wrapping_sub(1));
        let row = get(ground.first, node as usize).wrapping_sub(from);
        let mut around = Around {
            from,
            row,
            all: row,
            into: 0,
        };
        if ground.numbered {
            let into = get(self.hints, next_at(ground.net, node));
            let end = get(self.hints, next_at(ground.net, node.saturating_add(1)));
            around.all = row.saturating_add(end.saturating_sub(into));
            around.into = into.wrapping_sub(row);
        }
        around
    }

    /// The node from which the search goes on: the one that it has seen first, and where nodes have many arcs any. There
    /// most rows have the same nodes in the same order, so each unit would pass over the rows from which nothing leads
    /// on any more.
    fn next_seen(&mut self, ground: Ground<'_>) -> u32
        ensures at { self.new.at ≡ self.old.at }
        ensures left { self.new.left ≡ self.old.left }
    {
        let at = queue_at(ground, self.at);
        let first = get(self.hints, at);
        if ground.net.len() / MANY_ARCS < ground.net.nodes() {
            return first;
        }
        let ahead = u64::from(self.tail.wrapping_sub(self.at).max(1));
        let other = at.wrapping_add((self.left % ahead) as usize);
        let node = get(self.hints, other);
        put(self.hints, other, first);
        put(self.hints, at, node);
        node
    }

    /// Whether the search goes on from the next node that it has seen.
    fn goes_on(&self, nodes: u32) -> bool
        ensures { IsTrue result → self.now.at < nodes }
    {
        self.at < nodes && self.at < self.tail && self.found == END
    }
}

/// Looks at a half-arc between a node that the search has seen and one that it hasn't. If something remains on it the
/// search sees that node, or has found a path if the forest has come to it. The flow along an arc of capacity 1 tells
/// what remains on both of its half-arcs, so the arc itself isn't read.
#[inline(always)]
fn search_over(
    forest: Forest<'_>,
    joining: &mut Joining<'_>,
    flow: &mut FlowTable,
    half: u32,
    behind: u32,
)
    requires fits { Fits forest.ground.net.now flow.old.flows }
    requires half { half < 2 * length forest.ground.net.now.arcs }
    requires node { 1 ≤ behind }
    ensures next { joining.new.at ≡ joining.old.at }
    ensures looks { PaysLooks flow.old joining.old.left flow.new joining.new.left }
{
    if joining.left == 0 {
        return;
    }
    joining.left -= 1;
    let (_, along) = flow.look(forest.ground.net, half / 2 * 2 + 1);
    if (along == 0) != (half % 2 == 0) {
        return;
    }
    if is_marked(forest.done, behind) {
        joining.found = half;
    } else {
        joining.see(forest.ground, behind, half);
    }
}

/// Looks at the half-arcs over which a search may go on from a node by a cell of its row, where each arc is there both
/// ways, unless it has seen the node that the cell tells of: at the one along the opposite arc before the one against
/// the arc, since mostly more remains on it.
#[inline(always)]
fn search_both(forest: Forest<'_>, joining: &mut Joining<'_>, flow: &mut FlowTable, cell: usize)
    requires fits { Fits forest.ground.net.now flow.old.flows }
    ensures next { joining.new.at ≡ joining.old.at }
    ensures looks { PaysLooks flow.old joining.old.left flow.new joining.new.left }
{
    let behind = get(forest.rows, cell) % TAKEN;
    if behind == 0 || !joining.is_new(behind) {
        return;
    }
    let len = forest.ground.net.len();
    let arc = joining.hint(cell).wrapping_sub(1);
    if arc >= len {
        return;
    }
    let shift = len / 2;
    let opposite = if arc < shift {
        arc + shift
    } else {
        arc - shift
    };
    let tail = joining.tail;
    search_over(forest, joining, flow, 2 * opposite, behind);
    if joining.found == END && joining.tail == tail {
        search_over(forest, joining, flow, 2 * arc + 1, behind);
    }
}

/// Looks at the half-arcs over which a search may go on from a node by one of the arcs at it, unless it has seen the
/// node behind it. Where rows have numbers that is the one against an arc of the row, or along one that leads to it.
#[inline(always)]
fn search_along(
    forest: Forest<'_>,
    joining: &mut Joining<'_>,
    flow: &mut FlowTable,
    around: Around,
    place: u32,
)
    requires fits { Fits forest.ground.net.now flow.old.flows }
    ensures next { joining.new.at ≡ joining.old.at }
    ensures looks { PaysLooks flow.old joining.old.left flow.new joining.new.left }
{
    let ground = forest.ground;
    let cell = around.from.wrapping_add(place) as usize;
    if !ground.numbered {
        return search_both(forest, joining, flow, cell);
    }
    let is_of_row = place < around.row;
    let number = if is_of_row {
        get(forest.rows, cell) % TAKEN
    } else {
        joining.hint(around.into.wrapping_add(place) as usize)
    };
    if number == 0 || number > ground.net.len() {
        return;
    }
    let (from, to) = ends_of(ground.net, ground.direction, number - 1);
    let behind = if is_of_row { to } else { from };
    if joining.is_new(behind) {
        let half = 2 * (number - 1) + u32::from(is_of_row);
        search_over(forest, joining, flow, half, behind);
    }
}

/// Looks at the half-arcs at the next node that the search has seen, until it has found a path.
fn search_from(forest: Forest<'_>, joining: &mut Joining<'_>, flow: &mut FlowTable)
    requires fits { Fits forest.ground.net.now flow.old.flows }
    requires next { joining.old.at < forest.ground.net.now.nodes }
    ensures next { joining.new.at ≡ joining.old.at + 1 }
    ensures looks { PaysLooks flow.old joining.old.left flow.new joining.new.left }
{
    // Brings the network's limits, `IsNet`, into the proof.
    let _ = forest.ground.net.nodes();
    let node = joining.next_seen(forest.ground);
    let around = joining.arcs_at(forest.ground, node);
    joining.at += 1;
    for place in 0..around.all {
        search_along(forest, joining, flow, around, place);
        if joining.found != END {
            return;
        }
    }
}

/// Searches in breadth from a node, until it comes to one that the forest has come to.
fn search(forest: Forest<'_>, joining: &mut Joining<'_>, flow: &mut FlowTable, node: u32)
    requires fits { Fits forest.ground.net.now flow.old.flows }
    ensures looks { PaysLooks flow.old joining.old.left flow.new joining.new.left }
{
    let nodes = forest.ground.net.nodes();
    joining.begin(forest.ground, node);
    'queue: while joining.goes_on(nodes) {
        search_from(forest, joining, flow);
    }
}

/// Pushes a unit along the path that a search has found from a node, from its last half-arc back. Answers how many
/// looks and pushes are left, or nothing where these are used up or the path doesn't lead on.
fn send(forest: Forest<'_>, joining: &Joining<'_>, flow: &mut FlowTable, node: u32) -> Option<u64>
    requires fits { Fits forest.ground.net.now flow.old.flows }
    requires node { IsNode forest.ground.net.now node }
    requires apart { IsFalse (marked_in forest.done.now node) }
    ensures fits { Fits forest.entry.ground.net.now flow.new.flows }
    ensures raised { IfSome result (λ _. (value : ℕ) → IsRaised forest.entry.ground.direction
        forest.entry.ground.net.now node (marked_in forest.entry.done.now) flow.old.flows value
        → IsRaised forest.entry.ground.direction forest.entry.ground.net.now node (marked_in forest.entry.done.now)
        flow.new.flows (value + 1)) }
    ensures paid { Pays flow.old joining.now.left flow.new result }
{
    let Ground { net, direction, .. } = forest.ground;
    let last = joining.found;
    if last >= 2 * net.len() {
        return None;
    }
    let mut at = far(net, direction, last);
    let mut half = last;
    let mut left = joining.left;
    if !is_marked(forest.done, at) {
        return None;
    }
    while at != node {
        if left < 2 || half >= 2 * net.len() || far(net, direction, half) != at {
            return None;
        }
        let (_, room) = flow.look(net, half);
        if room == 0 {
            return None;
        }
        flow.push(net, half, 1);
        left -= 2;
        at = near(net, direction, half);
        half = joining.hint(place_at(forest.ground, at));
    }
    Some(left)
}

/// Whether a search has seen a node that the forest hasn't come to.
fn is_seen(done: &[u32], seen: &[u32], node: u32) -> bool
    requires { 1 ≤ node }
    ensures { result ≡ seen_in done.now seen.now node }
{
    is_marked(seen, node) && !is_marked(done, node)
}

/// Whether nothing remains on a half-arc, if it leads from a node that is seen to one that isn't. Answers how many
/// looks are left, or none if it isn't so.
fn is_closed_over(
    forest: Forest<'_>,
    seen: &[u32],
    flow: &mut FlowTable,
    half: u32,
    left: u64,
) -> Option<u64>
    requires fits { Fits forest.ground.net.now flow.old.flows }
    requires half { half < 2 * length forest.ground.net.now.arcs }
    ensures passed { IfSome result
        (λ _. IsPassed forest.entry.ground flow.old.flows (seen_in forest.entry.done.now seen.now) half) }
    ensures looks { MatchOption result (OnlyLooks flow.old flow.new left) (λ r. PaysLooks flow.old left flow.new r) }
{
    let Ground { net, direction, .. } = forest.ground;
    let from = near(net, direction, half);
    let to = far(net, direction, half);
    if !is_seen(forest.done, seen, from) || is_seen(forest.done, seen, to) {
        return Some(left);
    }
    if left == 0 {
        return None;
    }
    let (_, room) = flow.look(net, half);
    if room > 0 {
        return None;
    }
    Some(left - 1)
}

/// Tests that a search has seen its first node, and that nothing remains on the half-arcs that lead out of the nodes
/// that are seen. Answers how many looks are left, or none if it isn't so.
fn is_cut_off(
    forest: Forest<'_>,
    seen: &[u32],
    flow: &mut FlowTable,
    node: u32,
    left: u64,
) -> Option<u64>
    requires limits { IsNet forest.ground.net.now }
    requires fits { Fits forest.ground.net.now flow.old.flows }
    requires node { 1 ≤ node }
    ensures seen { IfSome result (λ _. IsTrue (seen_in forest.entry.done.now seen.now node)) }
    ensures closed { IfSome result (λ _. IsClosedFor forest.entry.ground.direction forest.entry.ground.net.now
        flow.old.flows (seen_in forest.entry.done.now seen.now)) }
    ensures looks { MatchOption result (OnlyLooks flow.old flow.new left) (λ r. PaysLooks flow.old left flow.new r) }
{
    let mut left = left;
    if !is_seen(forest.done, seen, node) {
        return None;
    }
    for half in 0..2 * forest.ground.net.len() {
        left = is_closed_over(forest, seen, flow, half, left)?;
    }
    Some(left)
}

/// Whether it is a node that the forest hasn't come to.
fn is_apart(forest: Forest<'_>, node: u32) -> bool
    ensures node { IsTrue result → IsNode forest.entry.ground.net.now node }
    ensures apart { IsTrue result → IsFalse (marked_in forest.entry.done.now node) }
{
    node > 0 && node <= forest.ground.net.nodes() && !is_marked(forest.done, node)
}

/// Raises the flow between a node and those that the forest has come to, which has the value 0, until it is worth what
/// is wanted or no more can be raised. Answers what it is worth, or nothing where looks and pushes are used up or a
/// test fails.
pub(crate) fn raise(
    forest: Forest<'_>,
    joining: &mut Joining<'_>,
    flow: &mut FlowTable,
    node: u32,
    wanted: Budgeted,
) -> Option<Budgeted>
    requires fits { Fits forest.ground.net.now flow.old.flows }
    requires unit { All (λ a. a.cap ≡ 1) forest.ground.net.now.arcs }
    requires limits { IsNet forest.ground.net.now }
    requires root { IsNode forest.ground.net.now forest.ground.root }
    requires done { IsTrue (marked_in forest.done.now forest.ground.root) }
    requires balanced { IsFeasible forest.ground.net.now (marked_in forest.done.now) (marked_in forest.done.now)
        flow.old.flows }
    requires reached { IsReached forest.ground.net.now wanted.value }
    ensures fits { Fits forest.entry.ground.net.now flow.new.flows }
    ensures raised { IfSome result (λ r. IsRaised forest.entry.ground.direction forest.entry.ground.net.now node
        (marked_in forest.entry.done.now) flow.new.flows r.value) }
    ensures least { IfSome result (λ r. HasFallen forest.entry.ground.net.now wanted.value r.value) }
    ensures paid { PaysIfAny flow.old wanted.left flow.new result }
{
    if !is_apart(forest, node) {
        return None;
    }
    joining.left = wanted.left;
    let mut value = 0;
    while value < wanted.value {
        search(forest, joining, flow, node);
        if joining.found == END {
            let left = joining.left;
            let left = is_cut_off(forest, joining.seen, flow, node, left)?;
            joining.forget(forest.ground);
            return Some(Budgeted { value, left });
        }
        let left = send(forest, joining, flow, node)?;
        joining.left = left;
        value += 1;
    }
    joining.forget(forest.ground);
    let left = joining.left;
    Some(Budgeted { value, left })
}
