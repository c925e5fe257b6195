//! What every maximum flow method promises, and how many cells it needs.
ghost use Rattle.std.specs.Prelude.{◌≡◌, ℕ, ◌+◌, ◌*◌, ◌≤◌, length, take, drop};
ghost use Rattle.flow_net.specs.Nets.{Net};
ghost use Rattle.flow_net.specs.Limits.{AreTerminals};
ghost use Rattle.flow_net.specs.NodeSets.{one_of};
ghost use Rattle.flow_net.specs.Flows.{Fits, IsFeasible, HasValue, IsGreatest, HasNoLoops};
ghost use Rattle.flow_net.specs.LeastCuts.{IsLeastCapacity};
ghost use Rattle.flow_solve.specs.Bounds.{work_cells};
ghost use Rattle.flow_solve.specs.residual.Searches.{seen};
ghost use Rattle.flow_solve.specs.Sides.{IsLeastSide};
ghost use Rattle.flow_solve.specs.Solving.{IsFlow};
ghost use Rattle.flow_solve.specs.Steps.{TakesSteps};

use crate::residual::half_arcs::Direction;
use crate::residual::packing::pack_behind;
use crate::sides::leads_on_packed;
use crate::task::Given;
use flow_net::{FlowTable, Network};

/// How many cells a solver of this crate works in, for a network of so many nodes and arcs.
pub fn work_len(nodes: u32, arcs: u32) -> usize
    ensures { result ≡ 6 * nodes + 2 * arcs + 2 }
{
    6 * nodes as usize + 2 * arcs as usize + 2
}

/// A way to a greatest flow.
pub trait Method {
    /// How many steps it takes at most, for each network.
    ghost steps_bound: { Net → ℕ };

    /// Leaves a feasible flow of the greatest value in the table, with nothing on self-loops, and answers that value.
    /// Whatever flow the table carries is cleared first. `s` has the sources and `t` the sinks.
    fn greatest(net: &Network, s: &[u32], t: &[u32], flow: &mut FlowTable, work: &mut [u32]) -> u128
        requires fits { Fits net.now flow.old.flows }
        requires terminals { AreTerminals net.now s.now t.now }
        requires cells { work_cells net.now ≤ length work.old }
        ensures feasible { IsFeasible net.now (one_of s.now) (one_of t.now) flow.new.flows }
        ensures value { HasValue net.now (one_of s.now) flow.new.flows result }
        ensures greatest { IsGreatest net.now (one_of s.now) (one_of t.now) result }
        ensures least { IsLeastCapacity net.now (one_of s.now) (one_of t.now) result }
        ensures loops { HasNoLoops net.now flow.new.flows }
        ensures never_lowered { flow.old.steps ≤ flow.new.steps }
        ensures steps { flow.new.steps ≤ flow.old.steps + steps_bound net.now }
        ensures rest { drop (work_cells net.now) work.new ≡ drop (work_cells net.now) work.old };

    /// As [`greatest`](Method::greatest), and finds the least side of a direction: the first `n` cells hold distances of
    /// its nodes, and for all others a number that is none. A method that has packed the half-arcs, or knows
    /// the side, has a quicker way than this.
    fn least_side(
        given: Given<'_>,
        direction: Direction,
        flow: &mut FlowTable,
        work: &mut [u32],
    ) -> u128
        requires fits { Fits given.net.now flow.old.flows }
        requires terminals { AreTerminals given.net.now given.s.now given.t.now }
        requires cells { work_cells given.net.now ≤ length work.old }
        ensures flow { IsFlow given.entry.net.now given.entry.s.now given.entry.t.now flow.new.flows result }
        ensures greatest { IsGreatest given.entry.net.now (one_of given.entry.s.now) (one_of given.entry.t.now) result }
        ensures least { IsLeastCapacity given.entry.net.now (one_of given.entry.s.now) (one_of given.entry.t.now)
            result }
        ensures side { IsLeastSide direction given.entry.net.now given.entry.s.now given.entry.t.now flow.new.flows
            (seen (take given.entry.net.now.nodes work.new)) }
        ensures steps { TakesSteps flow.old flow.new
            (steps_bound given.entry.net.now + 2 * length given.entry.net.now.arcs) }
        ensures rest { drop (work_cells given.entry.net.now) work.new ≡ drop (work_cells given.entry.net.now) work.old }
    {
        let value = Self::greatest(given.net, given.s, given.t, flow, work);
        pack_behind(given.net, work);
        leads_on_packed(given, direction, flow, work);
        value
    }

    /// How many steps a quicker way may be tried for before this one is called: no more than the bound. A method that
    /// says nothing has none to spare.
    fn spare_steps(net: &Network) -> u64
        ensures { result ≤ steps_bound net.now }
    {
        0
    }
}
