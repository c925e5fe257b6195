//! Near sends: augmenting along paths over one node or two, before the trees grow.
//!
//! Each node next to a sink has a *last half-arc*, one that leads to a sink, until it is filled. For each half-arc of a
//! source, what remains on it goes on over the last half-arc of its node, and then along arcs to nodes that have one,
//! until nothing is left.
ghost use Rattle.std.specs.Prelude.{◌≡◌, ◌≢◌, ℕ, ◌+◌, ◌-◌, ◌*◌, ◌/◌, ◌<◌, ◌≤◌, IsTrue, length, slice_index};
ghost use Rattle.std.specs.List.{All};
ghost use Rattle.flow_net.specs.Nets.{IsNode};
ghost use Rattle.flow_net.specs.Flows.{Fits};
ghost use Rattle.flow_net.specs.Residual.{residual};
ghost use Rattle.flow_solve.specs.levels.Entries.{HasRows, IsOpening};
ghost use Rattle.flow_solve.specs.Steps.{OnlyLooks, PaysSteps, TakesSteps};
ghost use Rattle.flow_solve.specs.levels.NearSends.{HasSentNear, IsSending, IsSent};

use crate::levels::entries::{against_in, along_in};
use crate::levels::rows::{entry_at, row_of};
use crate::levels::spending::spend;
use crate::residual::half_arcs::{head, twin};
use crate::residual::packing::Packed;
use crate::task::Task;
use flow_net::{FlowTable, Network};

/// Stands for the last half-arc of a node that has none, or none any more.
const NO_LAST: u32 = u32::MAX;

/// Stands for that of a terminal: nothing is sent on over it.
const BARRED: u32 = u32::MAX - 1;

/// Near sends under way.
#[derive(Drop)]
struct Sending<'a, 'c> {
    /// The network with its rows.
    packed: Packed<'a>,
    /// The last half-arc of each node, as a hint.
    last: &'c mut [u32],
    /// How many steps may still be taken, and half-arcs passed by.
    left: u64,
}

/// Sets the last half-arcs of the nodes next to a sink.
fn set_next_to(packed: Packed<'_>, last: &mut [u32], sink: u32)
    requires rows { HasRows packed.net.now packed.first.now packed.halves.now }
    requires sink { IsNode packed.net.now sink }
    requires size { length last.old ≡ packed.net.now.nodes }
{
    let (begin, end) = row_of(packed, sink);
    for spot in begin..end {
        let half = against_in(entry_at(packed, sink, spot));
        // Against an arc nothing remains before anything was sent.
        if half % 2 == 1 {
            last[head(packed.net, half) as usize - 1] = twin(half);
        }
    }
}

/// Sets the last half-arcs of terminals.
fn bar(last: &mut [u32], terminals: &[u32])
    requires terminals { All (λ v. (1 ≤ v) × (v ≤ length last.old)) terminals.now }
{
    for node in terminals {
        last[*node as usize - 1] = BARRED;
    }
}

/// Sets the last half-arcs of all nodes.
fn set_last(task: Task<'_>, last: &mut [u32])
    requires task { IsOpening task }
    requires size { length last.old ≡ task.packed.net.now.nodes }
{
    last.fill(NO_LAST);
    for sink in task.t {
        set_next_to(task.packed, last, *sink);
    }
    bar(last, task.s);
    bar(last, task.t);
}

/// Pushes an amount over a half-arc. On other arcs as much remains as before.
fn push_over(net: &Network, flow: &mut FlowTable, half: u32, amount: u64)
    requires fits { Fits net.now flow.old.flows }
    requires half { half < 2 * length net.now.arcs }
    requires room { amount ≤ residual net.now flow.old.flows half }
    ensures fits { Fits net.now flow.new.flows }
    ensures room { amount + residual net.now flow.new.flows half ≡ residual net.now flow.old.flows half }
    ensures others { (g : ℕ) → g / 2 ≢ half / 2
        → residual net.now flow.new.flows g ≡ residual net.now flow.old.flows g }
    ensures steps { TakesSteps flow.old flow.new 1 }
{
    flow.push(net, half, amount);
}

/// How much of an amount remains on the last half-arc of a node, which is forgotten where that will fill it.
fn fit_last(net: &Network, flow: &mut FlowTable, last: &mut [u32], node: u32, most: u64) -> u64
    requires fits { Fits net.now flow.old.flows }
    requires size { length last.old ≡ net.now.nodes }
    requires node { IsNode net.now node }
    requires some { slice_index last.old (node - 1) < 2 * length net.now.arcs }
    ensures most { result ≤ most }
    ensures room { result ≤ residual net.now flow.old.flows (slice_index last.old (node - 1)) }
    ensures looks { OnlyLooks flow.old flow.new 1 }
{
    let place = node as usize - 1;
    let (_, room) = flow.look(net, last[place]);
    if room <= most {
        last[place] = NO_LAST;
    }
    room.min(most)
}

/// Sends on over the last half-arc of a node, at most so much, what comes there over a source's half-arc. Answers how
/// much that is.
fn send_over_one(flow: &mut FlowTable, sending: &mut Sending<'_, '_>, first: u32, most: u64) -> u64
    requires sending { IsSending flow.old sending.old }
    requires first { first < 2 * length sending.old.packed.net.now.arcs }
    requires most { most ≤ residual sending.old.packed.net.now flow.old.flows first }
    ensures kept { HasSentNear flow.old sending.old sending.old.left flow.new sending.new }
    ensures sent { IsSent sending.old.packed.net.now most result flow.new.flows first }
{
    let net = sending.packed.net;
    let node = head(net, first);
    let end = sending.last[node as usize - 1];
    if end as usize >= sending.packed.halves.len()
        || first / 2 == end / 2
        || !spend(&mut sending.left, 3)
    {
        return 0;
    }
    let amount = fit_last(net, flow, sending.last, node, most);
    push_over(net, flow, first, amount);
    push_over(net, flow, end, amount);
    amount
}

/// Whether no two of three half-arcs are of one arc.
fn are_apart(first: u32, between: u32, end: u32) -> bool
    ensures { IsTrue result → (first / 2 ≢ between / 2) × (between / 2 ≢ end / 2) × (first / 2 ≢ end / 2) }
{
    first / 2 != between / 2 && between / 2 != end / 2 && first / 2 != end / 2
}

/// Sends on along an arc and then over the last half-arc of the node that it leads to, at most so much, what comes over
/// a source's half-arc to the node that it leaves. Answers how much that is.
fn send_over_two(
    flow: &mut FlowTable,
    sending: &mut Sending<'_, '_>,
    first: u32,
    between: u32,
    most: u64,
) -> u64
    requires sending { IsSending flow.old sending.old }
    requires first { first < 2 * length sending.old.packed.net.now.arcs }
    requires between { between < 2 * length sending.old.packed.net.now.arcs }
    requires most { most ≤ residual sending.old.packed.net.now flow.old.flows first }
    ensures kept { HasSentNear flow.old sending.old (sending.old.left + 1) flow.new sending.new }
    ensures sent { IsSent sending.old.packed.net.now most result flow.new.flows first }
{
    // Against an arc something remains only where it was just sent, and to read its end would be one more far read.
    if between % 2 == 1 {
        return 0;
    }
    let net = sending.packed.net;
    let node = head(net, between);
    let end = sending.last[node as usize - 1];
    // A self-loop leads back to the node itself.
    if end as usize >= sending.packed.halves.len() || head(net, first) == node {
        return 0;
    }
    let (_, room) = flow.look(net, between);
    if room == 0 || !are_apart(first, between, end) || !spend(&mut sending.left, 4) {
        return 0;
    }
    let amount = fit_last(net, flow, sending.last, node, room.min(most));
    push_over(net, flow, first, amount);
    push_over(net, flow, between, amount);
    push_over(net, flow, end, amount);
    amount
}

/// Sends on along the arcs from a node, over one more node each, what comes there over a source's half-arc.
#[inline(always)]
fn send_behind(
    flow: &mut FlowTable,
    sending: &mut Sending<'_, '_>,
    first: u32,
    node: u32,
    room: u64,
)
    requires sending { IsSending flow.old sending.old }
    requires first { first < 2 * length sending.old.packed.net.now.arcs }
    requires node { IsNode sending.old.packed.net.now node }
    requires room { room ≤ residual sending.old.packed.net.now flow.old.flows first }
    ensures { HasSentNear flow.old sending.old sending.old.left flow.new sending.new }
{
    let packed = sending.packed;
    let (begin, end) = row_of(packed, node);
    if !spend(&mut sending.left, u64::from(end - begin)) {
        return;
    }
    let mut room = room;
    for spot in begin..end {
        let between = along_in(entry_at(packed, node, spot));
        let sent = send_over_two(flow, sending, first, between, room);
        room -= sent;
        if room == 0 {
            return;
        }
    }
}

/// Sends what remains on a source's half-arc over one node and over two.
fn send_over(flow: &mut FlowTable, sending: &mut Sending<'_, '_>, first: u32)
    requires sending { IsSending flow.old sending.old }
    requires first { first < 2 * length sending.old.packed.net.now.arcs }
    ensures { HasSentNear flow.old sending.old (sending.old.left + 1) flow.new sending.new }
{
    let net = sending.packed.net;
    let (node, room) = flow.look(net, first);
    if room == 0 || sending.last[node as usize - 1] == BARRED {
        return;
    }
    let rest = room - send_over_one(flow, sending, first, room);
    if rest > 0 {
        send_behind(flow, sending, first, node, rest);
    }
}

/// Sends what can leave a source.
fn send_from(flow: &mut FlowTable, sending: &mut Sending<'_, '_>, source: u32)
    requires sending { IsSending flow.old sending.old }
    requires source { IsNode sending.old.packed.net.now source }
    ensures { HasSentNear flow.old sending.old sending.old.left flow.new sending.new }
{
    let packed = sending.packed;
    let (begin, end) = row_of(packed, source);
    if spend(&mut sending.left, u64::from(end - begin)) {
        for spot in begin..end {
            let first = along_in(entry_at(packed, source, spot));
            send_over(flow, sending, first);
        }
    }
}

/// Sends what can leave the sources to sinks over one node and over two, and takes no more steps than are allowed.
/// Answers how many are left of these.
pub fn send_near(task: Task<'_>, flow: &mut FlowTable, cells: &mut [u32], allowance: u64) -> u64
    requires task { IsOpening task }
    requires size { task.packed.net.now.nodes ≤ length cells.old }
    requires fits { Fits task.packed.net.now flow.old.flows }
    ensures fits { Fits task.entry.packed.net.now flow.new.flows }
    ensures paid { PaysSteps flow.old allowance flow.new result }
{
    let (last, _) = cells.split_at_mut(task.packed.net.nodes() as usize);
    set_last(task, last);
    let mut sending = Sending {
        packed: task.packed,
        last,
        left: allowance,
    };
    for source in task.s {
        send_from(flow, &mut sending, *source);
    }
    sending.left
}
