//! Discharging a node: it pushes its excess to the next nearer level, and is lifted each time it is stuck (Goldberg and
//! Tarjan 1988).
ghost use Rattle.std.specs.Prelude.{◌≡◌, ◌+◌, ◌*◌, ◌<◌, ◌≤◌, length};
ghost use Rattle.flow_net.specs.Nets.{IsNode};
ghost use Rattle.flow_net.specs.Flows.{Fits};
ghost use Rattle.flow_solve.specs.Steps.{TakesSteps};
ghost use Rattle.flow_solve.specs.levels.Waves.{HasCells, HasLookedOut, HasSent, IsRow, IsWaving, OnlyMarks};

use super::excess::{PLACES, UNSEEN, Wave};
use super::passing::{Row, half_at, next_to, row_of};
use crate::levels::spending::spend;
use crate::residual::half_arcs::head;
use crate::residual::packing::Packed;
use flow_net::{FlowTable, Network};

/// A node that sends its excess on.
#[derive(Clone, Copy)]
struct Sender<'a> {
    /// Its half-arcs.
    row: Row<'a>,
    /// Its level.
    level: u32,
    /// How many of its half-arcs lead to no nearer level any more.
    passed: usize,
    /// Its excess.
    amount: u64,
}

/// Sends as much of an amount over a half-arc as remains there and as the excess of the node there has room for; a
/// root, at level 0, takes all, and nothing is booked. A node that had no excess is listed. Answers how much.
#[inline(always)]
fn send_over(
    net: &Network,
    flow: &mut FlowTable,
    wave: &mut Wave<'_>,
    half: u32,
    amount: u64,
) -> u64
    requires fits { Fits net.now flow.old.flows }
    requires half { half < 2 * length net.now.arcs }
    requires nodes { wave.old.nodes ≡ net.now.nodes }
    requires size { length wave.old.cells.now ≡ 5 * net.now.nodes }
    ensures most { result ≤ amount }
    ensures fits { Fits net.now flow.new.flows }
    ensures marks { OnlyMarks wave.old wave.new }
    ensures steps { TakesSteps flow.old flow.new 2 }
{
    let (node, room) = flow.look(net, half);
    let level = wave.level(node);
    let mut sent = amount.min(room);
    if level > 0 && sent > 0 {
        let had_none = wave.excess(node) == 0;
        sent = wave.book(node, sent);
        if had_none {
            wave.list(node, level);
        }
    }
    if sent > 0 {
        flow.push(net, half, sent);
    }
    sent
}

/// Passes a sender's half-arcs, and sends its excess on over those that lead to the next nearer level.
fn pass(packed: Packed<'_>, flow: &mut FlowTable, wave: &mut Wave<'_>, sender: &mut Sender<'_>)
    requires waving { IsWaving packed flow.old wave.old }
    requires row { IsRow packed.net.now sender.old.row }
    ensures sent { HasSent packed.entry flow.old wave.old flow.new wave.new }
    ensures row { sender.new.row ≡ sender.old.row }
{
    let row = sender.row;
    let nearer = sender.level.saturating_sub(1);
    let mut step = sender.passed.min(row.halves.len());
    if !spend(&mut wave.left, 2 * (row.halves.len() - step) as u64) {
        return;
    }
    let mut amount = sender.amount;
    while let Some(half) = next_to(packed.net, wave, row, &mut step, nearer) {
        amount -= send_over(packed.net, flow, wave, half, amount);
        step += 1;
        if amount == 0 {
            break;
        }
    }
    // What was paid for half-arcs that weren't reached comes back.
    let unused = 2 * (row.halves.len() - step) as u64;
    wave.left = wave.left.saturating_add(unused);
    sender.amount = amount;
    // Where nothing is left, more may go over the last one.
    sender.passed = step.saturating_sub(usize::from(amount == 0));
}

/// Lifts a stuck sender to one more than the nearest level that it leads to, if that is below the ceiling; else it is
/// unseen until the next search. Its own level is near enough: with levels as a search gives them none of a stuck
/// node's half-arcs leads nearer.
fn lift(packed: Packed<'_>, flow: &mut FlowTable, wave: &mut Wave<'_>, sender: &mut Sender<'_>)
    requires waving { IsWaving packed flow.old wave.old }
    requires row { IsRow packed.net.now sender.old.row }
    ensures looked { HasLookedOut flow.old wave.old flow.new wave.new }
    ensures row { sender.new.row ≡ sender.old.row }
{
    let row = sender.row;
    let (own, most) = (sender.level, wave.ceiling.saturating_sub(1));
    let (mut least, mut found) = (most, 0);
    let mut left = wave.left;
    let mut step = 0;
    if spend(&mut left, row.halves.len() as u64) {
        while step < row.halves.len() && own < least {
            let half = half_at(packed.net, row, step);
            let level = wave.level(head(packed.net, half));
            if own <= level && level < least && flow.look(packed.net, half).1 > 0 {
                least = level;
                found = step;
            }
            step += 1;
        }
        left += (row.halves.len() - step) as u64;
    }
    wave.left = left;
    sender.passed = found;
    sender.level = if least < most { least + 1 } else { UNSEEN };
}

/// Sends a sender's excess on, and lifts it as often as it is stuck, until it has none, takes no part any more, or the
/// wave ends.
#[inline(always)]
fn send_on(packed: Packed<'_>, flow: &mut FlowTable, wave: &mut Wave<'_>, sender: &mut Sender<'_>)
    requires waving { IsWaving packed flow.old wave.old }
    requires row { IsRow packed.net.now sender.old.row }
    ensures sent { HasSent packed.entry flow.old wave.old flow.new wave.new }
{
    'turns: while sender.level < UNSEEN && wave.left > wave.floor && spend(&mut wave.left, 1) {
        pass(packed, flow, wave, sender);
        if sender.amount == 0 {
            break;
        }
        lift(packed, flow, wave, sender);
    }
}

/// Discharges a node, from its current place on.
#[inline(never)]
pub(super) fn discharge(packed: Packed<'_>, flow: &mut FlowTable, wave: &mut Wave<'_>, node: u32)
    requires waving { IsWaving packed flow.old wave.old }
    requires node { IsNode packed.net.now node }
    ensures sent { HasSent packed.entry flow.old wave.old flow.new wave.new }
{
    let row = row_of(packed, node, (node ^ wave.turn) % 2 == 0);
    // The place in a long row is told in blocks: of a power of two half-arcs, since a division would take longer.
    let shift = 64 - (row.halves.len() / PLACES).leading_zeros();
    let mut sender = Sender {
        row,
        level: wave.level(node),
        passed: wave.place(node).wrapping_shl(shift),
        amount: wave.excess(node),
    };
    send_on(packed, flow, wave, &mut sender);
    wave.set_level(node, sender.level, sender.passed.wrapping_shr(shift));
    wave.set_excess(node, sender.amount);
}
