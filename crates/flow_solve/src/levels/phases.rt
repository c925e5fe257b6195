//! Phases of Dinic's algorithm: a search backwards from the sinks gives distances, and walks from all sources push a
//! blocking flow.
//!
//! With `n` nodes the `5·n` cells of a stage are, `n` each: the nodes' distances in the last search, the half-arcs over
//! which it came to them, their current places (current arcs), the half-arcs of the walk's path, and the search's
//! queue.
ghost use Rattle.std.specs.Prelude.{◌≡◌, ◌⊎◌, ℕ, List, true, false, ◌+◌, ◌-◌, ◌*◌, ◌<◌, ◌≤◌, min, IsTrue, IsFalse};
ghost use Rattle.std.specs.Prelude.{length};
ghost use Rattle.std.specs.List.{All};
ghost use Rattle.flow_net.specs.Nets.{Net, IsNode};
ghost use Rattle.flow_net.specs.Limits.{AreTerminals};
ghost use Rattle.flow_net.specs.NodeSets.{one_of};
ghost use Rattle.flow_net.specs.Flows.{Fits, IsGreatest};
ghost use Rattle.flow_net.specs.LeastCuts.{IsLeastCapacity};
ghost use Rattle.flow_solve.specs.Bounds.{phase_bound, phases_bound};
ghost use Rattle.flow_solve.specs.residual.Packs.{IsPacked};
ghost use Rattle.flow_solve.specs.Solving.{IsFlow};
ghost use Rattle.flow_solve.specs.residual.Searches.{AreCells, HasMissed};
ghost use Rattle.flow_solve.specs.Task.{HasFlow, IsTask};
ghost use Rattle.flow_solve.specs.Steps.{OnlyLooks, TakesSteps};
ghost use Rattle.flow_solve.specs.levels.Phases.{AreDead, FindsLevels, HasLevels, AreNearIn, IsFarIn};
ghost use Rattle.flow_solve.specs.levels.Phases.{AreSameWalks, AreWalks, IsPhase, KeepsGentle, PaysOwed};

use crate::levels::walking::{Phase, Walks, walk};
use crate::residual::half_arcs::Direction;
use crate::residual::packing::Packed;
use crate::residual::searching::{Plan, WANTED, search};
use crate::task::Task;
use flow_net::FlowTable;

/// How many nodes there are, as far as 32 bits hold it.
fn count(nodes: &[u32]) -> u32
    ensures { result ≡ min (length nodes.now) u32.MAX }
{
    nodes.len().min(u32::MAX as usize) as u32
}

/// Searches backwards from the sinks until all sources are seen. Answers whether one was seen.
fn find_levels(
    plan: Plan<'_>,
    flow: &mut FlowTable,
    dist: &mut [u32],
    via: &mut [u32],
    queue: &mut [u32],
) -> bool
    requires fits { Fits plan.packed.net.now flow.old.flows }
    requires packed { IsPacked plan.packed.net.now plan.packed.first.now plan.packed.halves.now }
    requires terminals { AreTerminals plan.packed.net.now plan.until.now plan.starts.now }
    requires backwards { plan.direction ≡ Direction.Backwards }
    requires enough { plan.enough ≡ min (length plan.until.now) u32.MAX }
    requires cells { AreCells plan.packed.net.now dist.old via.old queue.old }
    ensures levels { result ≡ true → FindsLevels plan.entry flow.old.flows dist.new }
    ensures missed { result ≡ false → HasMissed plan.entry flow.old.flows dist.new }
    ensures looks { OnlyLooks flow.old flow.new (2 * length plan.entry.packed.net.now.arcs) }
{
    let progress = search(plan, flow, dist, via, queue);
    if progress.wanted == 0 {
        return false;
    }
    true
}

/// Walks from each source that the search has seen, until all of them are dead.
fn walk_from_sources(phase: Phase<'_>, flow: &mut FlowTable, walks: &mut Walks<'_>)
    requires run { IsPhase phase }
    requires near { AreNearIn phase }
    requires walks { AreWalks phase flow.old.flows walks.old }
    ensures walks { AreWalks phase.entry flow.new.flows walks.new }
    ensures same { AreSameWalks walks.old walks.new }
    ensures dead { AreDead phase.entry walks.new.current.now }
    ensures gentle { KeepsGentle phase.entry flow.old.flows flow.new.flows }
    ensures never_lowered { flow.old.steps ≤ flow.new.steps }
    ensures steps { PaysOwed phase.entry walks.old.current.now flow.old walks.new.current.now flow.new }
{
    for source in phase.s {
        if phase.dist[*source as usize - 1] < WANTED {
            walk(phase, flow, walks, *source);
        }
    }
}

/// A phase after its search: every node begins at its first half-arc again, and each source walks.
fn run_phase(phase: Phase<'_>, flow: &mut FlowTable, walks: &mut Walks<'_>)
    requires run { IsPhase phase }
    requires size { length walks.old.current.now ≡ phase.packed.net.now.nodes }
    requires path_size { length walks.old.path.now ≡ phase.packed.net.now.nodes }
    requires levels { HasLevels phase flow.old.flows }
    requires flow { IsFlow phase.packed.net.now phase.s.now phase.t.now flow.old.flows walks.old.value }
    ensures flow { IsFlow phase.entry.packed.net.now phase.entry.s.now phase.entry.t.now flow.new.flows
        walks.new.value }
    ensures same { AreSameWalks walks.old walks.new }
    ensures few { (j : ℕ) → IsFarIn phase.entry flow.old.flows j → j + 1 < phase.entry.packed.net.now.nodes }
    ensures far { (j : ℕ) → IsFarIn phase.entry flow.old.flows j → IsFarIn phase.entry flow.new.flows (j + 1) }
    ensures steps { TakesSteps flow.old flow.new (phase_bound phase.entry.packed.net.now) }
{
    let n = phase.packed.net.nodes() as usize;
    walks.current.copy_from_slice(&phase.packed.first[..n]);
    walk_from_sources(phase, flow, walks);
}

/// Raises a feasible flow by phases until a search backwards from the sinks sees no source, and answers its value,
/// which is the greatest. `value` is the flow's value before. It takes at most `3·n²·m` steps, whatever flow it starts
/// from.
pub fn run_phases(task: Task<'_>, flow: &mut FlowTable, cells: &mut [u32], value: u128) -> u128
    requires task { IsTask task }
    requires cells { length cells.old ≡ 5 * task.packed.net.now.nodes }
    requires flow { HasFlow task flow.old.flows value }
    ensures flow { HasFlow task.entry flow.new.flows result }
    ensures greatest { IsGreatest task.entry.packed.net.now (one_of task.entry.s.now) (one_of task.entry.t.now) result }
    ensures least { IsLeastCapacity task.entry.packed.net.now (one_of task.entry.s.now) (one_of task.entry.t.now)
        result }
    ensures steps { TakesSteps flow.old flow.new (phases_bound task.entry.packed.net.now) }
{
    let Task { packed, s, t } = task;
    let n = packed.net.nodes() as usize;
    let (dist, rest) = cells.split_at_mut(n);
    let (via, rest) = rest.split_at_mut(n);
    let (current, rest) = rest.split_at_mut(n);
    let (path, queue) = rest.split_at_mut(n);
    let plan = Plan {
        packed,
        direction: Direction::Backwards,
        starts: t,
        until: s,
        enough: count(s),
    };
    let mut walks = Walks {
        current,
        path,
        value,
    };
    // Read by the loop's invariant alone, `invariant-phases`: after so many phases the sources are farther than that.
    let mut phases = 0u32;
    'phases: while find_levels(plan, flow, dist, via, queue) {
        let phase = Phase { packed, s, t, dist };
        run_phase(phase, flow, &mut walks);
        // Each phase brings the sources farther from the sinks, so there are fewer than `n`.
        phases += 1;
    }
    walks.value
}
