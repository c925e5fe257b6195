//! The search that gives the nodes their levels: backwards from the terminals that take the excess, no farther than
//! nodes may be lifted.
ghost use Rattle.std.specs.Prelude.{◌≡◌, ◌+◌, ◌*◌, ◌<◌, ◌≤◌, true, length};
ghost use Rattle.std.specs.List.{All};
ghost use Rattle.flow_net.specs.Limits.{IsNet};
ghost use Rattle.flow_net.specs.Nets.{IsNode};
ghost use Rattle.flow_net.specs.Flows.{Fits};
ghost use Rattle.flow_solve.specs.Steps.{PaysLooks};
ghost use Rattle.flow_solve.specs.levels.Waves.{HasCells, HasLookedOut, IsWaving, OnlyMarks, StaysIn};

use super::excess::{BARRED, FARTHEST, MARK, UNSEEN, Wave};
use super::passing::{half_at, row_of};
use crate::levels::spending::spend;
use crate::residual::half_arcs::{head, twin};
use crate::residual::packing::Packed;
use crate::task::Task;
use flow_net::{FlowTable, Network};

/// How many times the number of arcs a wave may take before a new search: later, most nodes are lifted in dead ends.
const FUEL: u64 = 16;

/// How many nodes have excess.
pub(super) fn count_excess(wave: &Wave<'_>) -> u32
    requires { length wave.now.cells.now ≡ 5 * wave.now.nodes }
{
    let mut count = 0u32;
    for place in 0..wave.nodes {
        if wave.excess(place + 1) > 0 {
            count = count.saturating_add(1);
        }
    }
    count
}

/// Sees a node that a half-arc leads to, if it is unseen and something remains on the other half-arc of its arc: gives
/// it its level, puts it in the queue, and counts it if it has excess. One look is paid beforehand.
#[inline(always)]
fn see_over(net: &Network, flow: &mut FlowTable, wave: &mut Wave<'_>, half: u32, level: u32)
    requires fits { Fits net.now flow.old.flows }
    requires half { half < 2 * length net.now.arcs }
    requires nodes { wave.old.nodes ≡ net.now.nodes }
    requires size { length wave.old.cells.now ≡ 5 * net.now.nodes }
    ensures stays { StaysIn wave.old wave.new }
    ensures paid { PaysLooks flow.old (wave.old.left + 1) flow.new wave.new.left }
{
    let node = head(net, half);
    if wave.level(node) != UNSEEN || flow.look(net, twin(half)).1 == 0 {
        return;
    }
    wave.enter(node, level);
    if wave.excess(node) > 0 {
        wave.wanted = wave.wanted.saturating_sub(1);
        wave.farthest = level;
    }
}

/// Goes on from a node: gives a level to the unseen nodes next to it from which something remains, and counts those
/// with excess.
fn scan(packed: Packed<'_>, flow: &mut FlowTable, wave: &mut Wave<'_>, node: u32)
    requires waving { IsWaving packed flow.old wave.old }
    requires node { IsNode packed.net.now node }
    ensures looked { HasLookedOut flow.old wave.old flow.new wave.new }
{
    let row = row_of(packed, node, false);
    let level = wave.level(node).saturating_add(1);
    if level > FARTHEST || !spend(&mut wave.left, row.halves.len() as u64) {
        return;
    }
    for step in 0..row.halves.len() {
        let half = half_at(packed.net, row, step);
        see_over(packed.net, flow, wave, half, level);
    }
}

/// Goes on from the nodes in the queue, in the order in which they came into it, while it looks out for excess or for
/// the levels to which nodes may be lifted.
fn scan_all(packed: Packed<'_>, flow: &mut FlowTable, wave: &mut Wave<'_>)
    requires waving { IsWaving packed flow.old wave.old }
    ensures looked { HasLookedOut flow.old wave.old flow.new wave.new }
{
    let nodes = packed.net.nodes();
    for place in 0..nodes {
        let node = wave.queued_at(place);
        if place >= wave.queued || node < 1 || nodes < node {
            return;
        }
        if wave.wanted == 0 && wave.level(node) >= wave.highest() {
            return;
        }
        scan(packed, flow, wave, node);
    }
}

/// Puts each node with excess on the list of its level.
fn list_all(wave: &mut Wave<'_>)
    requires { length wave.old.cells.now ≡ 5 * wave.old.nodes }
    ensures { OnlyMarks wave.old wave.new }
{
    for place in 0..wave.nodes {
        let level = wave.level(place + 1);
        if level < BARRED && wave.excess(place + 1) > 0 {
            wave.list(place + 1, level);
        }
    }
}

/// Begins to look out for nodes with excess. Answers whether there are any.
fn looks_out(wave: &mut Wave<'_>) -> bool
    requires { length wave.old.cells.now ≡ 5 * wave.old.nodes }
    ensures { OnlyMarks wave.old wave.new }
{
    wave.queued = 0;
    wave.farthest = 0;
    wave.wanted = count_excess(wave);
    wave.wanted > 0
}

/// Forgets the last search: all nodes are unseen, and none is on a list.
fn forget(cells: &mut [u32], nodes: u32)
    requires { length cells.old ≡ 5 * nodes }
{
    let n = nodes as usize;
    for cell in cells[..n].iter_mut() {
        *cell = *cell / MARK * MARK + UNSEEN;
    }
    cells[2 * n..3 * n].fill(0);
}

/// Puts the roots in the queue.
fn enter_all(wave: &mut Wave<'_>, roots: &[u32])
    requires roots { All (λ v. 1 ≤ v) roots.now }
    ensures { OnlyMarks wave.old wave.new }
{
    for node in roots {
        wave.enter(*node, 0);
    }
}

/// Sets how far the next wave goes: up to which level it lifts, and how much it may do. Its nodes pass their half-arcs
/// the other way.
fn set_out(net: &Network, wave: &mut Wave<'_>)
    requires { IsNet net.now }
    ensures { OnlyMarks wave.old wave.new }
{
    wave.ceiling = wave.highest().min(net.nodes() - 1).min(FARTHEST);
    wave.floor = wave.left.saturating_sub(FUEL * u64::from(net.len()));
    wave.turn ^= 1;
}

/// Searches backwards from the sinks of a task, the roots at level 0, its sources barred, and lists the nodes with
/// excess by their levels. Answers whether there are any.
#[inline(never)]
pub(super) fn search_levels(task: Task<'_>, flow: &mut FlowTable, wave: &mut Wave<'_>) -> bool
    requires waving { IsWaving task.packed flow.old wave.old }
    requires roots { All (IsNode task.packed.net.now) task.t.now }
    requires barred { All (IsNode task.packed.net.now) task.s.now }
    ensures looked { HasLookedOut flow.old wave.old flow.new wave.new }
    ensures spent { result ≡ true → wave.new.left < wave.old.left }
{
    let net = task.packed.net;
    if !spend(&mut wave.left, u64::from(net.nodes())) || !looks_out(wave) {
        return false;
    }
    forget(wave.cells, net.nodes());
    wave.set_levels(task.s, BARRED);
    enter_all(wave, task.t);
    scan_all(task.packed, flow, wave);
    list_all(wave);
    set_out(net, wave);
    wave.farthest > 0
}
