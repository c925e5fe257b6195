//! Going through the half-arcs of a node, forwards or backwards.
ghost use Rattle.std.specs.Prelude.{◌+◌, ◌-◌, ◌*◌, ◌<◌, ◌≤◌, IfSome, length};
ghost use Rattle.flow_net.specs.Nets.{IsNode};
ghost use Rattle.flow_solve.specs.residual.Packs.{IsPacked};
ghost use Rattle.flow_solve.specs.levels.Waves.{IsRow};

use super::excess::Wave;
use crate::residual::half_arcs::head;
use crate::residual::packing::Packed;
use flow_net::Network;

/// A node's half-arcs.
#[derive(Clone, Copy)]
pub(super) struct Row<'a> {
    /// They stand side by side.
    pub halves: &'a [u32],
    /// Whether they are passed from the last to the first.
    pub backwards: bool,
}

/// A node's half-arcs.
#[inline(always)]
pub(super) fn row_of<'a>(packed: Packed<'a>, node: u32, backwards: bool) -> Row<'a>
    requires packed { IsPacked packed.net.now packed.first.now packed.halves.now }
    requires node { IsNode packed.net.now node }
    ensures { IsRow packed.entry.net.now result }
{
    let begin = packed.first[node as usize - 1] as usize;
    let end = packed.first[node as usize] as usize;
    Row {
        halves: &packed.halves[begin..end],
        backwards,
    }
}

/// The half-arc of a row that comes behind so many others on the way through it.
#[inline(always)]
pub(super) fn half_at(net: &Network, row: Row<'_>, step: usize) -> u32
    requires row { IsRow net.now row }
    requires step { step < length row.halves.now }
    ensures { result < 2 * length net.now.arcs }
{
    let place = if row.backwards {
        row.halves.len() - 1 - step
    } else {
        step
    };
    row.halves[place]
}

/// Passes a row from a step on, until a half-arc leads to a node of some level. Answers that half-arc, and `step`
/// counts those before it; where none leads there, it counts all.
#[inline(always)]
pub(super) fn next_to(
    net: &Network,
    wave: &Wave<'_>,
    row: Row<'_>,
    step: &mut usize,
    level: u32,
) -> Option<u32>
    requires row { IsRow net.now row }
    requires cells { net.now.nodes ≤ length wave.now.cells.now }
    requires step { step.old ≤ length row.halves.now }
    ensures onwards { step.old ≤ step.new }
    ensures within { step.new ≤ length row.entry.halves.now }
    ensures half { IfSome result (λ h. (h < 2 * length net.now.arcs) × (step.new < length row.entry.halves.now)) }
{
    while *step < row.halves.len() {
        let half = half_at(net, row, *step);
        if wave.level(head(net, half)) == level {
            return Some(half);
        }
        *step += 1;
    }
    None
}
