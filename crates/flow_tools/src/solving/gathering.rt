//! The lines of which a text has many are made in the output buffer itself, so that each is copied once.
ghost use Rattle.std.specs.Prelude.{◌+◌, ◌≤◌, [], ◌∷◌, ◌++◌, OnOk};
ghost use Rattle.arrayvec.specs.ArrayVec.{array_vec_len};
ghost use Rattle.flow_text.specs.Output.{flow_line, line_of};
ghost use Rattle.flow_text.specs.ArcLines.{arc_line};
ghost use Rattle.flow_tools.specs.streams.Streams.{over};
ghost use Rattle.flow_tools.specs.streams.Sending.{IsGathered};

use crate::streams::sending::{Gathered, put_all};
use crate::streams::{Failed, Output};
use flow_net::Arc;
use flow_text::{MOST_LINE_BYTES, push_arc_line, push_flow_line, push_node_line};

/// Puts what waits, if there is no room for a line behind it.
#[inline(always)]
fn put_if_full<O: Output>(out: &mut O, waiting: &mut Gathered) -> Result<(), Failed>
    ensures room { OnOk result (array_vec_len waiting.new + MOST_LINE_BYTES ≤ 65536) }
    ensures gathered { IsGathered waiting.new.items waiting.old.items
        (over (O.state out.old) (O.state out.new)) result }
{
    if waiting.remaining_capacity() < MOST_LINE_BYTES {
        put_all(out, waiting.as_slice())?;
        waiting.clear();
    }
    Ok(())
}

/// Gathers the line of the flow on an arc behind the lines that wait.
///
/// # Errors
///
/// `Failed` where a put failed. A beginning of what waited was then taken.
#[tactic(auto, using(crate::proofs::streams::SendLemmas::sends_with, crate::proofs::streams::SendLemmas::stops_with))]
#[inline(always)]
pub(crate) fn gather_flow_line<O: Output>(
    out: &mut O,
    waiting: &mut Gathered,
    arc: Arc,
    flow: u64,
) -> Result<(), Failed>
    ensures { let text = waiting.old.items ++ flow_line (arc, flow) in
        IsGathered waiting.new.items text (over (O.state out.old) (O.state out.new)) result }
{
    put_if_full(out, waiting)?;
    push_flow_line(waiting, arc.src, arc.dst, flow);
    Ok(())
}

/// Gathers the line of a node behind the lines that wait.
///
/// # Errors
///
/// `Failed` where a put failed. A beginning of what waited was then taken.
#[tactic(auto, using(crate::proofs::streams::SendLemmas::sends_with, crate::proofs::streams::SendLemmas::stops_with))]
#[inline(always)]
pub(crate) fn gather_node_line<O: Output>(
    out: &mut O,
    waiting: &mut Gathered,
    node: u32,
) -> Result<(), Failed>
    ensures { let text = waiting.old.items ++ line_of "n" (node ∷ []) in
        IsGathered waiting.new.items text (over (O.state out.old) (O.state out.new)) result }
{
    put_if_full(out, waiting)?;
    push_node_line(waiting, node);
    Ok(())
}

/// Gathers the line of an arc behind the lines that wait.
///
/// # Errors
///
/// `Failed` where a put failed. A beginning of what waited was then taken.
#[tactic(auto, using(crate::proofs::streams::SendLemmas::sends_with, crate::proofs::streams::SendLemmas::stops_with))]
#[inline(always)]
pub(crate) fn gather_arc_line<O: Output>(
    out: &mut O,
    waiting: &mut Gathered,
    arc: Arc,
) -> Result<(), Failed>
    ensures { let text = waiting.old.items ++ arc_line arc in
        IsGathered waiting.new.items text (over (O.state out.old) (O.state out.new)) result }
{
    put_if_full(out, waiting)?;
    push_arc_line(waiting, arc);
    Ok(())
}
