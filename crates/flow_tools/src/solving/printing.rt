//! The text of an answer is gathered line by line, and written whenever the buffer is full.
ghost use Rattle.std.specs.Prelude.{◌≡◌, ◌≤◌, [], ◌∷◌, ◌++◌, length, filter, false};
ghost use Rattle.std.specs.List.{flat_map, zip};
ghost use Rattle.flow_net.specs.Cuts.{leaves};
ghost use Rattle.flow_text.specs.Output.{cut_text, flow_line, line_of, solve_text};
ghost use Rattle.flow_text.specs.ArcLines.{arc_line};
ghost use Rattle.flow_net.specs.MarkedNodes.{marked};
ghost use Rattle.flow_tools.specs.solving.Sides.{nodes_inside};
ghost use Rattle.flow_tools.specs.streams.Streams.{over};
ghost use Rattle.flow_tools.specs.streams.Sending.{IsGathered, IsPut};

use crate::solving::gathering::{gather_arc_line, gather_flow_line, gather_node_line};
use crate::streams::sending::{Gathered, put_all};
use crate::streams::{Failed, Output};
use flow_net::{Arc, Network};
use flow_text::solution_line;

/// Puts a value alone.
///
/// # Errors
///
/// `Failed` where a put failed. A beginning of the text was then taken.
pub(crate) fn put_value<O: Output>(out: &mut O, value: u128) -> Result<(), Failed>
    ensures { IsPut (line_of "s" (value ∷ [])) (over (O.state out.old) (O.state out.new)) result }
{
    put_all(out, solution_line(value).as_slice())
}

/// Puts a value and the flow on each arc, in order.
///
/// # Errors
///
/// `Failed` where a put failed. A beginning of the text was then taken.
pub(crate) fn put_solution<O: Output>(
    out: &mut O,
    net: &Network,
    value: u128,
    flows: &[u64],
) -> Result<(), Failed>
    requires count { length flows.now ≡ length net.now.arcs }
    ensures { let text = solve_text false net.now value flows.now in
        IsPut text (over (O.state out.old) (O.state out.new)) result }
{
    let mut waiting = Gathered::new();
    gather_value(&mut waiting, value);
    gather_flows(out, &mut waiting, net, flows)?;
    put_all(out, waiting.as_slice())
}

/// Puts a value and the nodes of a source side, rising, and where `arcs` is true the arcs that leave it, in order.
///
/// The source side has the nodes that are marked in `side`, cell `v - 1` for node `v`.
///
/// # Errors
///
/// `Failed` where a put failed. A beginning of the text was then taken.
pub(crate) fn put_cut<O: Output>(
    out: &mut O,
    net: &Network,
    value: u128,
    side: &[bool],
    arcs: bool,
) -> Result<(), Failed>
    requires count { length side.now ≡ net.now.nodes }
    ensures { let text = cut_text arcs net.now value (marked side.now) in
        IsPut text (over (O.state out.old) (O.state out.new)) result }
{
    let mut waiting = Gathered::new();
    gather_value(&mut waiting, value);
    gather_nodes(out, &mut waiting, net, side)?;
    if !arcs {
        return put_all(out, waiting.as_slice());
    }
    gather_arcs(out, &mut waiting, net, side)?;
    put_all(out, waiting.as_slice())
}

/// Gathers the line of the value, the first of a text.
fn gather_value(waiting: &mut Gathered, value: u128)
    requires empty { waiting.old.items ≡ [] }
    ensures { waiting.new.items ≡ line_of "s" (value ∷ []) }
{
    let _ = waiting.try_extend_from_slice(solution_line(value).as_slice());
}

/// Gathers the flow line of each arc.
fn gather_flows<O: Output>(
    out: &mut O,
    waiting: &mut Gathered,
    net: &Network,
    flows: &[u64],
) -> Result<(), Failed>
    requires count { length flows.now ≡ length net.now.arcs }
    ensures { let text = waiting.old.items ++ flat_map flow_line (zip net.now.arcs flows.now) in
        IsGathered waiting.new.items text (over (O.state out.old) (O.state out.new)) result }
{
    for i in 0..net.len() {
        let arc = net.arc(i);
        gather_flow_line(out, waiting, arc, flows[i as usize])?;
    }
    Ok(())
}

/// Whether a node lies in the source side.
fn is_inside(side: &[bool], node: u32) -> bool
    requires least { 1 ≤ node }
    requires most { node ≤ length side.now }
    ensures { result ≡ marked side.now node }
{
    side[node as usize - 1]
}

/// Gathers the line of each node of the source side.
fn gather_nodes<O: Output>(
    out: &mut O,
    waiting: &mut Gathered,
    net: &Network,
    side: &[bool],
) -> Result<(), Failed>
    requires count { length side.now ≡ net.now.nodes }
    ensures { let text = waiting.old.items
        ++ flat_map (λ v. line_of "n" (v ∷ [])) (nodes_inside net.now (marked side.now)) in
        IsGathered waiting.new.items text (over (O.state out.old) (O.state out.new)) result }
{
    for i in 0..net.nodes() {
        let node = i + 1;
        if !is_inside(side, node) {
            continue;
        }
        gather_node_line(out, waiting, node)?;
    }
    Ok(())
}

/// Whether an arc leaves the source side.
fn does_leave(side: &[bool], arc: Arc) -> bool
    requires src_least { 1 ≤ arc.src }
    requires src_most { arc.src ≤ length side.now }
    requires dst_least { 1 ≤ arc.dst }
    requires dst_most { arc.dst ≤ length side.now }
    ensures { result ≡ leaves (marked side.now) arc }
{
    is_inside(side, arc.src) && !is_inside(side, arc.dst)
}

/// Gathers the line of each arc that leaves the source side.
fn gather_arcs<O: Output>(
    out: &mut O,
    waiting: &mut Gathered,
    net: &Network,
    side: &[bool],
) -> Result<(), Failed>
    requires count { length side.now ≡ net.now.nodes }
    ensures { let text = waiting.old.items
        ++ flat_map arc_line (filter (leaves (marked side.now)) net.now.arcs) in
        IsGathered waiting.new.items text (over (O.state out.old) (O.state out.new)) result }
{
    for i in 0..net.len() {
        let arc = net.arc(i);
        if !does_leave(side, arc) {
            continue;
        }
        gather_arc_line(out, waiting, arc)?;
    }
    Ok(())
}
