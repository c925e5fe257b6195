//! Waves: excess moves towards the sinks level by level, and stuck nodes are lifted (relabelled).
//!
//! All that can leave the sources does. A search backwards from the sinks gives the nodes their levels (`levelling`).
//! Then the nodes of the farthest level with excess push it over half-arcs that lead one level nearer, and a stuck node
//! is lifted at once (`discharging`). The *ceiling* is some levels above the farthest excess and falls with it; a node
//! that would be lifted to the ceiling waits for the next search. A wave ends when no excess is left below the ceiling,
//! or when a new search is due. Every other node goes through its half-arcs backwards, by turns, so that excess does
//! not drift to one side. In the end such waves return to the sources what no sink takes.
ghost use Rattle.std.specs.Prelude.{◌≡◌, ◌*◌, ◌<◌, ◌≤◌, length};
ghost use Rattle.std.specs.List.{All};
ghost use Rattle.flow_net.specs.Nets.{IsNode};
ghost use Rattle.flow_net.specs.Flows.{Fits};
ghost use Rattle.flow_solve.specs.levels.Waves.{HasSent, IsWaving, OnlyMarks};
ghost use Rattle.flow_solve.specs.Task.{IsTask};
ghost use Rattle.flow_solve.specs.Steps.{TakesSteps};

mod discharging;
mod excess;
mod levelling;
mod passing;

use crate::levels::spending::spend;
use crate::levels::testing::MARKED;
use crate::residual::packing::Packed;
use crate::task::Task;
use discharging::discharge;
use excess::{BARRED, LEVELS, MARK, UNSEEN, Wave};
use flow_net::FlowTable;
use levelling::{count_excess, search_levels};
use passing::{half_at, row_of};

/// Sends as much over a half-arc of a source as remains there and as can be booked: nothing to a source, and to a sink
/// without booking.
fn release(packed: Packed<'_>, flow: &mut FlowTable, wave: &mut Wave<'_>, half: u32)
    requires waving { IsWaving packed flow.old wave.old }
    requires half { half < 2 * length packed.net.now.arcs }
    ensures marks { OnlyMarks wave.old wave.new }
    ensures fits { Fits packed.entry.net.now flow.new.flows }
    ensures steps { TakesSteps flow.old flow.new 2 }
{
    let (node, room) = flow.look(packed.net, half);
    let sent = match wave.level(node) {
        0 => room,
        BARRED => 0,
        _ => wave.book(node, room),
    };
    flow.push(packed.net, half, sent);
}

/// Drains a source: sends what can leave it over each of its half-arcs.
fn drain(packed: Packed<'_>, flow: &mut FlowTable, wave: &mut Wave<'_>, node: u32)
    requires waving { IsWaving packed flow.old wave.old }
    requires node { IsNode packed.net.now node }
    ensures sent { HasSent packed.entry flow.old wave.old flow.new wave.new }
{
    let row = row_of(packed, node, false);
    if !spend(&mut wave.left, 2 * row.halves.len() as u64) {
        return;
    }
    for step in 0..row.halves.len() {
        release(packed, flow, wave, half_at(packed.net, row, step));
    }
}

/// Sends all that can leave the sources to the nodes next to them.
fn supply(task: Task<'_>, flow: &mut FlowTable, wave: &mut Wave<'_>)
    requires task { IsTask task }
    requires waving { IsWaving task.packed flow.old wave.old }
    ensures sent { HasSent task.entry.packed flow.old wave.old flow.new wave.new }
{
    let n = task.packed.net.nodes() as usize;
    wave.cells[..n].fill(UNSEEN);
    wave.cells[3 * n..].fill(0);
    wave.set_levels(task.s, BARRED);
    wave.set_levels(task.t, 0);
    for node in task.s {
        drain(task.packed, flow, wave, *node);
    }
}

/// Empties the levels of a wave, the farthest first.
fn sweep(packed: Packed<'_>, flow: &mut FlowTable, wave: &mut Wave<'_>)
    requires waving { IsWaving packed flow.old wave.old }
    ensures sent { HasSent packed.entry flow.old wave.old flow.new wave.new }
{
    'turns: while wave.farthest > 0 && wave.left > wave.floor && spend(&mut wave.left, 1) {
        let node = wave.take_listed(wave.farthest);
        if 1 <= node && node <= packed.net.nodes() {
            discharge(packed, flow, wave, node);
        } else {
            wave.farthest = wave.farthest.saturating_sub(1);
            wave.ceiling = wave.ceiling.min(wave.highest());
        }
    }
}

/// The least reach, in levels: a lower one needs more searches, and a higher one passes more half-arcs in dead ends.
const LEAST_REACH: u32 = 16;

/// Waves towards the sinks of a task, until no search finds excess that leads there, or no more may be done. One that
/// took less than its search lets the next one reach twice as far, so that chains of dead ends don't take a search for
/// each few levels; any other half as far.
fn send(task: Task<'_>, flow: &mut FlowTable, wave: &mut Wave<'_>)
    requires waving { IsWaving task.packed flow.old wave.old }
    requires roots { All (IsNode task.packed.net.now) task.t.now }
    requires barred { All (IsNode task.packed.net.now) task.s.now }
    ensures sent { HasSent task.entry.packed flow.old wave.old flow.new wave.new }
{
    let mut before = wave.left;
    'waves: while search_levels(task, flow, wave) {
        let begun = wave.left;
        sweep(task.packed, flow, wave);
        wave.reach = if begun - wave.left < before - begun {
            wave.reach.saturating_mul(2)
        } else {
            (wave.reach / 2).max(LEAST_REACH)
        };
        before = wave.left;
    }
}

/// Waves before the first one, which may do so much.
fn at_rest<'a>(cells: &'a mut [u32], nodes: u32, allowance: u64) -> Wave<'a>
    ensures same_cells { result.cells.ghost_name ≡ cells.entry.ghost_name }
    ensures cells { result.cells.now ≡ cells.old }
    ensures nodes { result.nodes ≡ nodes }
    ensures left { result.left ≡ allowance }
{
    Wave {
        cells,
        nodes,
        left: allowance,
        floor: 0,
        turn: 0,
        farthest: 0,
        ceiling: 0,
        reach: LEAST_REACH,
        queued: 0,
        wanted: 0,
    }
}

/// Sends waves from the sources towards the sinks, in so many steps at most. Marks the nodes that no more leads on from
/// to a sink.
fn send_there(task: Task<'_>, flow: &mut FlowTable, cells: &mut [u32], share: u64)
    requires task { IsTask task }
    requires cells { length cells.old ≡ 5 * task.packed.net.now.nodes }
    requires fits { Fits task.packed.net.now flow.old.flows }
    ensures fits { Fits task.entry.packed.net.now flow.new.flows }
    ensures steps { TakesSteps flow.old flow.new share }
{
    let nodes = task.packed.net.nodes();
    let mut wave = at_rest(cells, nodes, share);
    supply(task, flow, &mut wave);
    send(task, flow, &mut wave);
    // Where all that could leave the sources has come to sinks, it leads on from the sources alone to none.
    if count_excess(&wave) == 0 {
        wave.cells[..nodes as usize].fill(0);
        wave.set_levels(task.s, BARRED);
    }
    mark_unseen(cells, nodes);
}

/// Sends waves home to the sources with the excess that they left, in so many steps at most: the same way with sources
/// and sinks exchanged.
fn send_home(task: Task<'_>, flow: &mut FlowTable, cells: &mut [u32], share: u64)
    requires task { IsTask task }
    requires cells { length cells.old ≡ 5 * task.packed.net.now.nodes }
    requires fits { Fits task.packed.net.now flow.old.flows }
    ensures fits { Fits task.entry.packed.net.now flow.new.flows }
    ensures steps { TakesSteps flow.old flow.new share }
{
    let Task { packed, s, t } = task;
    let mut wave = at_rest(cells, packed.net.nodes(), share);
    send(Task { packed, s: t, t: s }, flow, &mut wave);
}

/// Marks the nodes that the last search hasn't seen, and no others.
fn mark_unseen(cells: &mut [u32], nodes: u32)
    requires { nodes ≤ length cells.old }
    ensures { length cells.new ≡ length cells.old }
{
    for cell in cells[..nodes as usize].iter_mut() {
        *cell = if *cell % LEVELS < BARRED { 0 } else { MARK };
    }
}

/// Tells the test which nodes are marked.
fn tell_marks(cells: &mut [u32], nodes: u32)
    requires { nodes ≤ length cells.old }
{
    for cell in cells[..nodes as usize].iter_mut() {
        *cell = if *cell < MARK { 0 } else { MARKED };
    }
}

/// Sends waves from the sources towards the sinks, and home with what no sink takes. The first `n` cells mark the nodes
/// from which nothing led on to a sink when they turned home. They take no more steps than are allowed, half of them
/// each way, and where these don't suffice the flow that they leave isn't feasible.
pub fn send_waves(task: Task<'_>, flow: &mut FlowTable, cells: &mut [u32], allowance: u64)
    requires task { IsTask task }
    requires cells { length cells.old ≡ 5 * task.packed.net.now.nodes }
    requires fits { Fits task.packed.net.now flow.old.flows }
    ensures fits { Fits task.entry.packed.net.now flow.new.flows }
    ensures steps { TakesSteps flow.old flow.new allowance }
{
    send_there(task, flow, cells, allowance / 2);
    send_home(task, flow, cells, allowance / 2);
    tell_marks(cells, task.packed.net.nodes());
}
