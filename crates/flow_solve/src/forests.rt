//! Edge connectivity by disjoint forests from one root.
//!
//! A forest grows from the root in depth, over arcs that no forest before it has. A node that it doesn't come to is
//! joined by a flow: from the nodes that the forest has come to, as much as the least number so far, or the least
//! number falls to what the flow is worth; then the forest grows on from that node. So each forest brings one more arc
//! into each set of nodes without the root, if not as many as the least number enter it already; and when there are as
//! many forests, that number is the connectivity, as far as sets without the root are concerned. A set with the root is
//! left by the arcs that enter the other nodes: the forests grow in the network with each arc turned round as well,
//! unless as many arcs leave each node as enter it.
//!
//! Where each arc has its opposite and an even number of arcs leaves each node, an even number leaves each set. Then one
//! forest less is enough: the number is even, and a set that is entered by so many arcs less one is entered by as many.
//!
//! As long as forests come to all nodes by themselves no flow is wanted, and the rows of the nodes do. Where the first
//! node has to be joined, the numbers of the arcs are put down for the searches.
//!
//! The flow is kept from node to node: one that has been joined needs no conservation, so the flow stays feasible, and
//! at the next node its value is 0. Which way a forest grows, which node is joined next and how a path is found is
//! hint: nothing is proved of it but that it stays within the cells. What is found is tested as it is used: each
//! half-arc of a path when a unit is pushed over it, each half-arc that leaves the nodes that a search has seen when no
//! more can be raised, and at the end of a forest whether it has all nodes. All looks and pushes are counted against a
//! number that the caller sets; where it is used up, or a test fails, the answer is none.
//!
//! With `n` nodes and `m` arcs the cells that are lent hold these:
//!
//! | Cells | What they hold |
//! |---|---|
//! | `m` | the rows: for each node the arcs that lead on from it, and which are taken, as [`rows`] says |
//! | `n` | marks of the nodes that the forest has come to, and of those that a search has seen, as [`marks`] says |
//! | `n + 1` | where the row of each node begins |
//! | `m + 4·n + 1` | hints: what searches look at, as [`rows`] says, and four numbers for each node |
ghost use Rattle.std.specs.Prelude.{◌≡◌, ℕ, ◌+◌, ◌*◌, ◌≤◌, ◌<◌, ◌-◌, IfSome, IsTrue, true, false, if◌then◌else◌};
ghost use Rattle.std.specs.Prelude.{List, length};
ghost use Rattle.std.specs.List.{All};
ghost use Rattle.flow_net.specs.Nets.{IsNode};
ghost use Rattle.flow_net.specs.Flows.{Fits};
ghost use Rattle.flow_net.specs.LeastCuts.{IsConnectivity};
ghost use Rattle.flow_net.specs.Limits.{IsNet};
ghost use Rattle.flow_solve.specs.Bounds.{work_cells};
ghost use Rattle.flow_solve.specs.Forests.{AreAbove, AreEven, HasFallen, IsForest, IsGrove, IsReached, IsStand};
ghost use Rattle.flow_solve.specs.Forests.{PaysIfAny, at_stage, marked_in};

pub(crate) mod degrees;
mod growing;
mod joining;
mod marks;
mod rows;

use crate::residual::half_arcs::Direction;
use degrees::{are_balanced, are_even, are_opposite, least_degree};
use flow_net::{FlowTable, Network};
use growing::{
    Front, begin, choice_of, grow, grow_from, is_whole, next_node, nowhere, set_places_back,
};
use joining::{Budgeted, Joining, at_rest, raise};
use marks::unmark_all;
use rows::{Parts, fill_rows, number_arcs, parts_of};

/// Where forests grow.
#[derive(Clone, Copy)]
pub(crate) struct Ground<'a> {
    /// The network.
    pub net: &'a Network,
    /// The node from which each forest grows.
    pub root: u32,
    /// Which way a search goes from a node to those that a forest has come to. Backwards, the forests grow along arcs;
    /// forwards, against them.
    pub direction: Direction,
    /// Where the row of each node begins, and at the end where that of the last one ends.
    pub first: &'a [u32],
    /// Where the parts of the hints begin.
    pub parts: Parts,
    /// Whether each arc is there both ways, its opposite half of the arcs away.
    pub paired: bool,
    /// Whether an even number of arcs leaves each set of nodes.
    pub even: bool,
    /// Whether rows have the numbers of arcs in place of nodes, as [`rows`] says.
    pub numbered: bool,
    /// Whether forests go on in a row one behind the other: nodes have many arcs, or few forests need nearly all of
    /// the arcs one way.
    pub dense: bool,
    /// Whether each row has parallel arcs side by side: nodes have many arcs.
    pub sorted: bool,
    /// Whether each arc is there both ways, and few forests need nearly all: not so where one forest less is enough.
    pub scarce: bool,
}

/// A forest as a search finds it.
#[derive(Clone, Copy)]
pub(crate) struct Forest<'a> {
    /// Where it grows.
    pub ground: Ground<'a>,
    /// The rows, which tell of the arcs that are taken.
    pub rows: &'a [u32],
    /// Marks of the nodes that it has come to.
    pub done: &'a [u32],
}

/// A forest that grows.
#[derive(Drop)]
struct Growth<'a> {
    /// The rows, which tell of the arcs that are taken.
    rows: &'a mut [u32],
    /// Marks of the nodes that it has come to.
    done: &'a mut [u32],
    /// How far it has come.
    front: Front,
}

/// Which forest grows.
#[derive(Clone, Copy)]
struct Round {
    /// Whether what searches need is there.
    ready: bool,
    /// How many forests are done.
    count: u64,
    /// The least number so far, and how many looks and pushes are left.
    least: Budgeted,
}

/// Begins a forest, and lets it grow as far as it comes by itself.
fn begin_forest(
    ground: Ground<'_>,
    rows: &mut [u32],
    done: &mut [u32],
    hints: &mut [u32],
    round: Round,
) -> Front
    requires stand { IsStand ground done.old }
    ensures stand { IsStand ground.entry done.new }
    ensures done { IsTrue (marked_in done.new ground.entry.root) }
    ensures forest { (k c : ℕ) → IsGrove (at_stage ground.entry round.ready) k c rows.old
        → IsForest (at_stage ground.entry round.ready) k c rows.new done.new }
{
    let mut now = ground;
    now.numbered = round.ready & !ground.paired;
    let choice = choice_of(ground, round.count, round.least.value);
    let front = begin(now, done, hints, choice);
    grow(now, rows, done, hints, front)
}

/// Puts down what searches need, unless it is there already. Answers false where the rows tell of no arcs any more.
fn make_ready(ground: Ground<'_>, ready: bool, rows: &mut [u32], hints: &mut [u32]) -> bool
    ensures { IsTrue result → (k c : ℕ) (done : List ℕ) → IsForest (at_stage ground.entry ready) k c rows.old done
        → IsForest (at_stage ground.entry true) k c rows.new done }
{
    ready || number_arcs(ground, rows, hints)
}

/// Whether a forest is done after `count` others: it has come to all nodes, or as many as the least number are there.
fn is_done(nodes: u32, done: &[u32], count: u64, least: u64) -> bool
    ensures { IsTrue result → count < least → (v : ℕ) → 1 ≤ v → v ≤ nodes → IsTrue (marked_in done.now v) }
{
    least <= count || is_whole(nodes, done)
}

/// Joins the nodes that a forest hasn't come to, one after the other, and lets the forest grow on from each, as long as
/// the least number is greater than that of the forests before it. Answers the least number afterwards: if it is
/// greater, the forest has come to all nodes, and what searches need is there. Answers nothing where looks and pushes
/// are used up or a test fails.
fn complete(
    ground: Ground<'_>,
    growth: Growth<'_>,
    joining: &mut Joining<'_>,
    flow: &mut FlowTable,
    round: Round,
) -> Option<Budgeted>
    requires fits { Fits ground.net.now flow.old.flows }
    requires unit { All (λ a. a.cap ≡ 1) ground.net.now.arcs }
    requires stand { IsStand ground growth.done.now }
    requires done { IsTrue (marked_in growth.done.now ground.root) }
    requires forest { IsForest (at_stage ground round.ready) round.least.value round.count growth.rows.now
        growth.done.now }
    requires reached { IsReached ground.net.now round.least.value }
    ensures fits { Fits ground.entry.net.now flow.new.flows }
    ensures grove { IfSome result
        (λ r. IsGrove (at_stage ground.entry true) r.value (round.count + 1) growth.exit.0.now) }
    ensures least { IfSome result (λ r. HasFallen ground.entry.net.now round.least.value r.value) }
    ensures paid { PaysIfAny flow.old round.least.left flow.new result }
{
    let Growth { rows, done, front } = growth;
    let count = round.count;
    if !make_ready(ground, round.ready, rows, joining.hints) {
        return None;
    }
    let mut ground = ground;
    ground.numbered = !ground.paired;
    let nodes = ground.net.nodes();
    flow.clear();
    set_places_back(ground, joining.hints);
    let mut front = front;
    let mut least = round.least;
    while front.count < nodes && least.value > count {
        let forest = Forest { ground, rows, done };
        front = next_node(forest, joining.hints, front);
        least = raise(forest, joining, flow, front.node, least)?;
        front = grow_from(ground, rows, done, joining.hints, front);
    }
    if !is_done(nodes, done, count, least.value) {
        return None;
    }
    Some(least)
}

/// How many forests show that a number is the least: one less where each set has an even number.
fn forests_for(least: u64, even: bool) -> u64
    ensures { result ≡ least - (if even then 1 else 0) }
{
    least.saturating_sub(u64::from(even))
}

/// The cells in parts: marks of nodes, where the row of each node begins, and hints.
fn parted<'a>(net: &Network, cells: &'a mut [u32]) -> (&'a mut [u32], &'a mut [u32], &'a mut [u32])
    requires { 6 * net.now.nodes + length net.now.arcs + 2 ≤ length cells.old }
    ensures marks { length result.0.now ≡ net.now.nodes }
    ensures first { length result.1.now ≡ net.now.nodes + 1 }
    ensures hints { length result.2.now ≡ length net.now.arcs + 4 * net.now.nodes + 1 }
{
    let nodes = net.nodes() as usize;
    let (marks, rest) = cells.split_at_mut(nodes);
    let (first, rest) = rest.split_at_mut(nodes + 1);
    let (hints, _spare) = rest.split_at_mut(net.len() as usize + 4 * nodes + 1);
    (marks, first, hints)
}

/// Lets as many forests grow as there have to be, where the rows tell of all arcs. Knows and answers what [`run_pass`]
/// does.
fn grow_forests(
    ground: Ground<'_>,
    growth: Growth<'_>,
    joining: &mut Joining<'_>,
    flow: &mut FlowTable,
    known: Budgeted,
) -> Option<Budgeted>
    requires fits { Fits ground.net.now flow.old.flows }
    requires unit { All (λ a. a.cap ≡ 1) ground.net.now.arcs }
    requires stand { IsStand ground growth.done.now }
    requires even { IsTrue ground.even → AreEven ground.net.now }
    requires reached { IsReached ground.net.now known.value }
    requires grove { IsGrove (at_stage ground false) known.value 0 growth.rows.now }
    ensures fits { Fits ground.entry.net.now flow.new.flows }
    ensures above { IfSome result (λ r. AreAbove ground.entry r.value) }
    ensures least { IfSome result (λ r. HasFallen ground.entry.net.now known.value r.value) }
    ensures paid { PaysIfAny flow.old known.left flow.new result }
{
    let Growth { rows, done, .. } = growth;
    let nodes = ground.net.nodes();
    let mut ready = false;
    let mut least = known;
    let mut count = 0;
    while count < forests_for(least.value, ground.even) {
        let round = Round {
            ready,
            count,
            least,
        };
        let front = begin_forest(ground, rows, done, joining.hints, round);
        if !is_whole(nodes, done) {
            let begun = Growth {
                rows: &mut *rows,
                done: &mut *done,
                front,
            };
            least = complete(ground, begun, joining, flow, round)?;
            ready = true;
        }
        count += 1;
    }
    Some(least)
}

/// Lets as many forests grow as there have to be. Backwards the first cells tell how many arcs leave each node. `known`
/// holds the least number so far and how many looks and pushes are left; the answer is the same afterwards, or nothing
/// where they are used up or a test fails.
fn run_pass(
    ground: Ground<'_>,
    rows: &mut [u32],
    cells: &mut [u32],
    flow: &mut FlowTable,
    known: Budgeted,
) -> Option<Budgeted>
    requires fits { Fits ground.net.now flow.old.flows }
    requires unit { All (λ a. a.cap ≡ 1) ground.net.now.arcs }
    requires limits { IsNet ground.net.now }
    requires root { IsNode ground.net.now ground.root }
    requires cells { 6 * ground.net.now.nodes + length ground.net.now.arcs + 2 ≤ length cells.old }
    requires rows { length rows.old ≡ length ground.net.now.arcs }
    requires even { IsTrue ground.even → AreEven ground.net.now }
    requires reached { IsReached ground.net.now known.value }
    ensures fits { Fits ground.entry.net.now flow.new.flows }
    ensures above { IfSome result (λ r. AreAbove ground.entry r.value) }
    ensures least { IfSome result (λ r. HasFallen ground.entry.net.now known.value r.value) }
    ensures paid { PaysIfAny flow.old known.left flow.new result }
{
    let (marks, first, hints) = parted(ground.net, cells);
    if !fill_rows(ground, marks, first, rows, hints) {
        return None;
    }
    let half = marks.len() / 2;
    let (done, seen) = marks.split_at_mut(half);
    unmark_all(seen);
    let ground = Ground { first, ..ground };
    let growth = Growth {
        rows,
        done,
        front: nowhere(),
    };
    grow_forests(ground, growth, &mut at_rest(seen, hints), flow, known)
}

/// Whether a node has more arcs on an average than a number, by more than a quarter of an arc.
fn has_more_arcs(net: &Network, least: u64) -> bool {
    let nodes = u64::from(net.nodes());
    u64::from(net.len()).saturating_sub(nodes / 4) > least.saturating_mul(nodes)
}

/// So many forests at most go first over arcs whose opposite none has taken: with more, what it saves is less than what
/// it costs to pass over longer rows.
const MOST_FRESH: u64 = 8;

/// The edge connectivity of a network in which every capacity is 1. It takes at most `budget` looks and pushes, and
/// answers nothing where these don't suffice or a test fails.
///
/// That it answers at all is tested, and not promised: a body that always answers nothing meets this contract. Whoever
/// calls it needs another way to the number, as `connectivity` of `flow_tools` has, and so is right either way.
///
/// It takes no memory: it works in the first [`work_len`](crate::work_len) cells of `work`.
pub fn connectivity_by_forests(
    net: &Network,
    flow: &mut FlowTable,
    work: &mut [u32],
    budget: u64,
) -> Option<u64>
    requires fits { Fits net.now flow.old.flows }
    requires unit { All (λ a. a.cap ≡ 1) net.now.arcs }
    requires cells { length work.old ≡ work_cells net.now }
    ensures connectivity { IfSome result (λ k. IsConnectivity net.now k) }
    ensures never_lowered { flow.old.steps ≤ flow.new.steps }
    ensures steps { flow.new.steps ≤ flow.old.steps + budget }
    ensures still_fits { Fits net.now flow.new.flows }
{
    let m = net.len() as usize;
    let (rows, cells) = work.split_at_mut(m);
    let least = least_degree(net, cells);
    if least == 0 {
        return Some(0);
    }
    let is_balanced = are_balanced(net, cells);
    let paired = are_opposite(net);
    let even = are_even(net, cells, paired);
    let is_tight = is_balanced & !has_more_arcs(net, least);
    let sorted = has_more_arcs(net, u64::from(net.nodes()).isqrt());
    let dense = sorted | (is_tight & !paired);
    let mut ground = Ground {
        net,
        root: 1,
        direction: Direction::Backwards,
        first: &[],
        parts: parts_of(net),
        paired,
        even,
        numbered: false,
        dense,
        sorted,
        scarce: is_tight & !dense & !even & (least <= MOST_FRESH),
    };
    let start = Budgeted {
        value: least,
        left: budget,
    };
    let forth = run_pass(ground, rows, cells, flow, start)?;
    if is_balanced {
        return Some(forth.value);
    }
    ground.direction = Direction::Forwards;
    let back = run_pass(ground, rows, cells, flow, forth)?;
    Some(back.value)
}
