//! Entries of the rows that near sends and trees use: one for each half-arc, or a *joined* one for two.
//!
//! In a picture or a road map there is an arc each way between neighbours, and most files have the two one after the
//! other. Both lead from one neighbour to the other in the residual network, the first along its arc and the second
//! against it. One joined entry stands for both, so a row is half as long.
ghost use Rattle.std.specs.Prelude.{◌≡◌, ◌+◌, ◌*◌, ◌<◌, ◌≤◌, IfSome, length};
ghost use Rattle.flow_net.specs.Nets.{Net};
ghost use Rattle.flow_net.specs.Flows.{Fits};
ghost use Rattle.flow_solve.specs.levels.Entries.{half_of, joins, IsEntry};
ghost use Rattle.flow_solve.specs.Steps.{PaysLooks};

use crate::levels::spending::spend;
use crate::residual::half_arcs::Direction::{self, Backwards, Forwards};
use crate::residual::half_arcs::twin;
use flow_net::{FlowTable, Network};

/// Is added to the half-arc of an entry that stands for the one beside it too.
pub(crate) const JOINED: u32 = 2_147_483_648;

/// The half-arc that an entry stands for.
pub(crate) fn half_in(entry: u32) -> u32
    ensures { result ≡ half_of entry }
{
    entry % JOINED
}

/// Whether an entry stands for the half-arc beside that one too.
fn is_joined(entry: u32) -> bool
    ensures { result ≡ joins entry }
{
    entry >= JOINED
}

/// The entry for the other half-arcs of the same arcs.
pub(crate) fn turned(entry: u32) -> u32
    ensures { (net : Net) → IsEntry net entry → IsEntry net result }
{
    twin(entry)
}

/// For an entry of a node's row: the one over which a search may go on from that node.
pub(crate) fn entry_across(direction: Direction, entry: u32) -> u32
    ensures { (net : Net) → IsEntry net entry → IsEntry net result }
{
    match direction {
        Forwards => entry,
        Backwards => turned(entry),
    }
}

/// For an entry of a node's row that leads to its parent, or to one that it may have: the one over which flow goes that
/// supplies the node, in the tree of the sources from the parent, and in that of the sinks to it.
pub(crate) fn entry_supplying(direction: Direction, entry: u32) -> u32
    ensures { (net : Net) → IsEntry net entry → IsEntry net result }
{
    match direction {
        Forwards => turned(entry),
        Backwards => entry,
    }
}

/// That half-arc of an entry which runs along its arc, or its only one.
#[inline(always)]
pub(crate) fn along_in(entry: u32) -> u32
    ensures within { (net : Net) → IsEntry net entry → result < 2 * length net.arcs }
{
    let half = half_in(entry);
    if is_joined(entry) {
        half + half % 2
    } else {
        half
    }
}

/// That half-arc of an entry which runs against its arc, or its only one.
#[inline(always)]
pub(crate) fn against_in(entry: u32) -> u32
    ensures within { (net : Net) → IsEntry net entry → result < 2 * length net.arcs }
{
    let half = half_in(entry);
    if is_joined(entry) && half % 2 == 0 {
        half + 3
    } else {
        half
    }
}

/// The half-arc of a joined entry against its arc, if something remains on it. The look is taken off what may still be
/// done, and where there isn't so much there is nothing more to do.
// Out of line, so that the loops that ask for a first half-arc keep their numbers in registers.
#[inline(never)]
fn open_against(net: &Network, flow: &mut FlowTable, left: &mut u64, entry: u32) -> Option<u32>
    requires fits { Fits net.now flow.old.flows }
    requires entry { IsEntry net.now entry }
    ensures within { IfSome result (λ half. half < 2 * length net.now.arcs) }
    ensures left { left.new ≤ left.old }
    ensures looks { PaysLooks flow.old left.old flow.new left.new }
{
    let half = against_in(entry);
    if spend(left, 1) && flow.look(net, half).1 > 0 {
        Some(half)
    } else {
        None
    }
}

/// A half-arc of an entry on which something remains, that along its arc before the other. One look is paid beforehand,
/// and a second one is taken off what may still be done.
#[inline(always)]
pub(crate) fn open_half(
    net: &Network,
    flow: &mut FlowTable,
    left: &mut u64,
    entry: u32,
) -> Option<u32>
    requires fits { Fits net.now flow.old.flows }
    requires entry { IsEntry net.now entry }
    ensures within { IfSome result (λ half. half < 2 * length net.now.arcs) }
    ensures left { left.new ≤ left.old }
    ensures looks { PaysLooks flow.old (left.old + 1) flow.new left.new }
{
    let half = along_in(entry);
    if flow.look(net, half).1 > 0 {
        return Some(half);
    }
    if !is_joined(entry) {
        return None;
    }
    open_against(net, flow, left, entry)
}
