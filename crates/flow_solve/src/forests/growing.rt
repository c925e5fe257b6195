//! A forest that grows in depth, and the nodes that it comes to.
//!
//! It reads the cells of the rows alone, and an arc is taken where its cell stands. It goes back by the cells of the
//! arcs over which it came to where it is. In a dense network each forest goes on in a row behind the arc that the one
//! before has taken there: else forests would pass over the same cells again, and grow alike. So they do where arcs one
//! way are all needed: where forests grow alike, the last one finds them left in circles. Where nodes have many
//! arcs parallel ones stand side by side, so that a forest jumps over those that don't lead on.
//!
//! Where arcs are scarce, a forest between the first and the last goes first over an arc whose opposite none has taken,
//! as notes in the hints tell. Else the last forest finds many arcs left in pairs, one against the other, and so comes
//! to few nodes by itself.
ghost use Rattle.std.specs.Prelude.{◌≡◌, ℕ, ◌+◌, ◌*◌, ◌<◌, ◌≤◌, false, IfSome, IsTrue, List, length};
ghost use Rattle.flow_net.specs.Nets.{IsNode};
ghost use Rattle.flow_solve.specs.Forests.{HasGrown, HasMarked, IsLead, IsStand, marked_in};

use crate::forests::marks::{is_left, is_marked, mark, unmark_all};
use crate::forests::rows::{TAKEN, near_at, next_at, node_in, place_at, queue_at};
use crate::forests::{Forest, Ground};
use crate::residual::cells::{get, put};

/// How far a forest has come.
#[derive(Clone, Copy)]
pub(crate) struct Front {
    /// How many nodes it has come to.
    pub count: u32,
    /// How many of them are kept, near which the next node to be joined is looked for.
    pub near: u32,
    /// The node from which it grows next.
    pub node: u32,
    /// The cell from which it goes on in that node's row, or one before the row.
    pub place: u32,
    /// How it chooses among arcs.
    pub choice: Choice,
}

/// How a forest chooses among the arcs that lead on from a node.
#[derive(Clone, Copy)]
pub(crate) struct Choice {
    /// Whether it goes first over those whose opposite no forest before it has taken.
    is_choosy: bool,
    /// Whether a forest after it will: then it notes which opposites it takes.
    takes_notes: bool,
}

/// How a forest chooses, after `count` others, of `all` that there will be. The first finds no notes, and nobody needs
/// those of the last two: what an arc's opposite leads to, the forest itself has come to.
pub(crate) fn choice_of(ground: Ground<'_>, count: u64, all: u64) -> Choice {
    let left = all.saturating_sub(count);
    Choice {
        is_choosy: ground.scarce && count > 0 && left > 1,
        takes_notes: ground.scarce && left > 2,
    }
}

/// A cell whose arc leads on to a node that the forest hasn't come to.
#[derive(Clone, Copy)]
pub(crate) struct Lead {
    /// The cell.
    pub cell: u32,
    /// The node behind the arc.
    pub behind: u32,
}

/// So many cells alike are passed one by one, and more are jumped over.
const FEW_ALIKE: u32 = 8;

/// Where cells like one end, of those that stand side by side: the cells with the same node where the forest has come
/// to it, and else those of them that are taken or not as this one is.
fn behind_alike(forest: Forest<'_>, cell: u32, end: u32) -> u32
    requires { cell < end }
    ensures { cell < result }
{
    let number = get(forest.rows, cell as usize);
    let bit = TAKEN * u32::from(!is_left(forest.done, number % TAKEN));
    let mut low = cell + 1;
    let mut high = end;
    while low < high {
        let middle = low + (high - low) / 2;
        if get(forest.rows, middle as usize) | bit == number | bit {
            low = middle + 1;
        } else {
            high = middle;
        }
    }
    low
}

/// The cell that is looked at after one that doesn't lead on.
#[inline(always)]
fn next_cell(forest: Forest<'_>, cell: u32, end: u32) -> u32
    requires { cell < end }
    ensures { cell < result }
{
    let ahead = get(forest.rows, cell.wrapping_add(FEW_ALIKE) as usize);
    if forest.ground.sorted && ahead == get(forest.rows, cell as usize) {
        return behind_alike(forest, cell, end);
    }
    cell + 1
}

/// The first of some cells whose arc leads on to a node that the forest hasn't come to, if there is one: of all where
/// `all` is true, and else of those that aren't taken.
#[inline(always)]
fn next_lead(forest: Forest<'_>, from: u32, end: u32, all: bool) -> Option<Lead>
    ensures { IfSome result (IsLead forest.entry.ground forest.entry.rows.now forest.entry.done.now from end all) }
{
    if end as usize > forest.rows.len() {
        return None;
    }
    let mut cell = from;
    'cells: while cell < end {
        let number = forest.rows[cell as usize];
        if all || number < TAKEN {
            let behind = node_in(forest.ground, number % TAKEN);
            if is_left(forest.done, behind) {
                return Some(Lead { cell, behind });
            }
        }
        cell = next_cell(forest, cell, end);
    }
    None
}

/// The first cell of a node's row whose arc isn't taken and leads on, and whose opposite no forest has taken; where the
/// opposite of each such arc is taken, the first of all, if there is one.
fn fresh_lead(forest: Forest<'_>, hints: &[u32], begin: u32, end: u32) -> Option<Lead>
    ensures { IfSome result (IsLead forest.entry.ground forest.entry.rows.now forest.entry.done.now begin end false) }
{
    let first = next_lead(forest, begin, end, false)?;
    let mut lead = first;
    'leads: while get(hints, lead.cell as usize) != 0 {
        match next_lead(forest, lead.cell + 1, end, false) {
            Some(next) => lead = next,
            None => return Some(first),
        }
    }
    Some(lead)
}

/// Notes that a forest has taken an arc from its node to another, at a cell of the other's row whose arc leads back, if
/// it is one that takes notes.
fn note_opposite(ground: Ground<'_>, rows: &[u32], hints: &mut [u32], front: Front, to: u32) {
    if !front.choice.takes_notes {
        return;
    }
    let begin = get(ground.first, (to as usize).wrapping_sub(1));
    let end = get(ground.first, to as usize);
    for cell in begin..end {
        let place = cell as usize;
        if get(rows, place) % TAKEN == front.node && get(hints, place) == 0 {
            put(hints, place, 1);
            return;
        }
    }
}

/// Where a forest goes on in a node's row, as a hint: in a dense network behind the arc that the one before has taken.
fn place_to_go_on(ground: Ground<'_>, hints: &[u32], front: Front) -> u32 {
    if front.place == 0 && ground.dense && !ground.numbered {
        return get(hints, next_at(ground.net, front.node));
    }
    front.place
}

/// The next cell of the row of a forest's node whose arc isn't taken and leads on, if there is one: from where the
/// forest goes on, and where the network is dense from the beginning too. Of a choosy forest it may be any.
#[inline(always)]
fn lead_from(forest: Forest<'_>, hints: &[u32], front: Front, begin: u32, end: u32) -> Option<Lead>
    ensures { IfSome result (IsLead forest.entry.ground forest.entry.rows.now forest.entry.done.now begin end false) }
{
    if front.choice.is_choosy {
        return fresh_lead(forest, hints, begin, end);
    }
    let from = place_to_go_on(forest.ground, hints, front).max(begin);
    let lead = next_lead(forest, from, end, false);
    if lead.is_some() || !forest.ground.dense {
        return lead;
    }
    next_lead(forest, begin, from.min(end), false)
}

/// Keeps in a dense network the place behind the arc that has been taken in a node's row, for the next forest.
fn keep_place(ground: Ground<'_>, hints: &mut [u32], node: u32, place: u32) {
    if ground.dense && !ground.numbered {
        put(hints, next_at(ground.net, node), place);
    }
}

/// Goes on from a node over the next arc that isn't taken and leads to a node that the forest hasn't come to, and takes
/// the arc. Answers its cell and that node, or none.
#[inline(always)]
fn go_on(
    ground: Ground<'_>,
    rows: &mut [u32],
    done: &mut [u32],
    hints: &mut [u32],
    front: Front,
) -> Option<Lead>
    requires stand { IsStand ground done.old }
    ensures { HasGrown ground.entry rows.old done.old rows.new done.new }
{
    let node = front.node;
    if node == 0 || node > ground.net.nodes() || !is_marked(done, node) {
        return None;
    }
    let begin = ground.first[node as usize - 1];
    let end = ground.first[node as usize];
    let forest = Forest { ground, rows, done };
    let lead = lead_from(forest, hints, front, begin, end)?;
    if lead.behind == 0 {
        return None;
    }
    rows[lead.cell as usize] += TAKEN;
    mark(done, lead.behind);
    keep_place(ground, hints, node, lead.cell.wrapping_add(1));
    note_opposite(ground, rows, hints, front, lead.behind);
    Some(lead)
}

/// The front once the forest has come to a node.
fn come_to(ground: Ground<'_>, hints: &mut [u32], front: Front, node: u32) -> Front
    requires { front.count < ground.net.now.nodes }
    ensures count { result.count ≡ front.count + 1 }
    ensures node { result.node ≡ node }
{
    // Brings the network's limits, `IsNet`, into the proof.
    let _ = ground.net.nodes();
    put(hints, near_at(ground, front.near), node);
    Front {
        count: front.count + 1,
        near: front.near.saturating_add(1),
        node,
        place: 0,
        choice: front.choice,
    }
}

/// The front back at the node from which the forest came to the one at a depth above `depth`: at `root` where there is
/// none before it, and else behind the arc over which the forest came to it.
fn go_back(forest: Forest<'_>, hints: &[u32], front: Front, root: u32, depth: u32) -> Front
    ensures { result.count ≡ front.count }
{
    let mut back = front;
    back.place = get(hints, queue_at(forest.ground, depth)).wrapping_add(1);
    back.node = if depth == 0 {
        root
    } else {
        let cell = get(hints, queue_at(forest.ground, depth - 1));
        node_in(forest.ground, get(forest.rows, cell as usize) % TAKEN)
    };
    back
}

/// Lets the forest grow in depth from a node, until it has come to all nodes that it can come to.
pub(crate) fn grow(
    ground: Ground<'_>,
    rows: &mut [u32],
    done: &mut [u32],
    hints: &mut [u32],
    front: Front,
) -> Front
    requires stand { IsStand ground done.old }
    ensures grown { HasGrown ground.entry rows.old done.old rows.new done.new }
    ensures count { front.count ≤ result.count }
{
    let nodes = ground.net.nodes();
    let root = front.node;
    let mut front = front;
    let mut depth = 0u32;
    while front.count < nodes {
        if let Some(lead) = go_on(ground, rows, done, hints, front) {
            put(hints, queue_at(ground, depth), lead.cell);
            depth += 1;
            front = come_to(ground, hints, front, lead.behind);
        } else if depth > 0 {
            depth -= 1;
            let forest = Forest { ground, rows, done };
            front = go_back(forest, hints, front, root, depth);
        } else {
            return front;
        }
    }
    front
}

/// A forest that has come to no node.
pub(crate) fn nowhere() -> Front
    ensures { result.count ≡ 0 }
{
    Front {
        count: 0,
        near: 0,
        node: 0,
        place: 0,
        choice: Choice {
            is_choosy: false,
            takes_notes: false,
        },
    }
}

/// A forest that has come to its root.
pub(crate) fn begin(
    ground: Ground<'_>,
    done: &mut [u32],
    hints: &mut [u32],
    choice: Choice,
) -> Front
    requires size { ground.net.now.nodes ≤ 32 * length done.old }
    requires root { IsNode ground.net.now ground.root }
    ensures root { IsTrue (marked_in done.new ground.entry.root) }
    ensures only { (v : ℕ) → IsTrue (marked_in done.new v) → v ≡ ground.entry.root }
{
    unmark_all(done);
    mark(done, ground.root);
    let mut front = nowhere();
    front.choice = choice;
    come_to(ground, hints, front, ground.root)
}

/// Lets a forest come to a node without an arc, and grow on from there.
pub(crate) fn grow_from(
    ground: Ground<'_>,
    rows: &mut [u32],
    done: &mut [u32],
    hints: &mut [u32],
    front: Front,
) -> Front
    requires stand { IsStand ground done.old }
    requires node { IsNode ground.net.now front.node }
    requires count { front.count < ground.net.now.nodes }
    ensures grown { (reached : List ℕ) × HasMarked front.node done.old reached
        × HasGrown ground.entry rows.old reached rows.new done.new }
    ensures count { front.count < result.count }
{
    mark(done, front.node);
    let reached = come_to(ground, hints, front, front.node);
    grow(ground, rows, done, hints, reached)
}

/// Sets the places back from which the rows of nodes are looked at for the next node to be joined.
pub(crate) fn set_places_back(ground: Ground<'_>, hints: &mut [u32]) {
    for place in 0..ground.net.nodes() {
        put(hints, place_at(ground, place + 1), 0);
    }
}

/// The next node that an arc of a node leads to and that the forest hasn't come to, if there is one.
fn neighbour(forest: Forest<'_>, hints: &mut [u32], node: u32) -> Option<u32> {
    let ground = forest.ground;
    let place = place_at(ground, node);
    let begin = get(ground.first, (node as usize).wrapping_sub(1));
    let from = begin.max(get(hints, place));
    let end = get(ground.first, node as usize);
    let lead = next_lead(forest, from, end, true)?;
    put(hints, place, lead.cell);
    Some(lead.behind)
}

/// The first node that the forest hasn't come to, or 0.
fn first_left(nodes: u32, done: &[u32]) -> u32
    ensures { result ≡ 0 → (v : ℕ) → 1 ≤ v → v ≤ nodes → IsTrue (marked_in done.now v) }
{
    for place in 0..nodes {
        let node = place + 1;
        if !is_marked(done, node) {
            return node;
        }
    }
    0
}

/// The front at a node that the forest hasn't come to: one that an arc leads to from a node it has come to late, if
/// there is one.
pub(crate) fn next_node(forest: Forest<'_>, hints: &mut [u32], front: Front) -> Front
    ensures { result.count ≡ front.count }
{
    let mut next = front;
    while next.near > 0 {
        let last = get(hints, near_at(forest.ground, next.near - 1));
        if let Some(node) = neighbour(forest, hints, last) {
            next.node = node;
            return next;
        }
        next.near -= 1;
    }
    next.node = first_left(forest.ground.net.nodes(), forest.done);
    next
}

/// Whether the forest has come to all nodes.
pub(crate) fn is_whole(nodes: u32, done: &[u32]) -> bool
    ensures { IsTrue result → (v : ℕ) → 1 ≤ v → v ≤ nodes → IsTrue (marked_in done.now v) }
{
    first_left(nodes, done) == 0
}
