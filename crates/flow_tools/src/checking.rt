//! The checker of solutions.
ghost use Rattle.std.specs.Prelude.{◌≡◌, ◌↔◌, ◌<◌, ◌^◌, true, IfOk, IsTrue};
ghost use Rattle.flow_net.specs.Limits.{IsNet, AreTerminals};
ghost use Rattle.flow_net.specs.NodeSets.{one_of};
ghost use Rattle.flow_net.specs.Flows.{Fits, IsFeasible};
ghost use Rattle.flow_net.specs.GreatestFlows.{HasGreatestValue};
ghost use Rattle.flow_text.specs.SolutionReading.{IsWithinLimits, written_in};
ghost use Rattle.flow_tools.specs.checking.SolutionFlows.{pair_flow, pair_cap};
ghost use Rattle.flow_tools.specs.checking.FeasibleSolutions.{IsFeasibleSolution, is_of_feasible};
ghost use Rattle.flow_tools.specs.checking.Verdicts.{IsVerdict, IsWithinCapacities};
ghost use Rattle.flow_tools.specs.checking.FirstFaults.{IsSumsVerdict};
ghost use Rattle.flow_tools.specs.checking.ArcShares.{Carries};

pub(crate) mod node_flows;
pub(crate) mod sharing;

use crate::cells::work_for;
use flow_net::{FlowTable, Network, OutOfMemory, Problem};
use flow_solve::has_augmenting_path;
use flow_text::{FlowLine, Solution, Verdict};
use node_flows::node_flows;
use sharing::{Shared, share_out};
use std::alloc::Global;

/// A pair's flow: the sum of the flows of its lines.
fn flow_of_pair(lines: &[FlowLine], src: u32, dst: u32) -> u128
    requires { pair_flow lines.now src dst < 2 ^ 128 }
    ensures { result ≡ pair_flow lines.now src dst }
{
    let mut sum = 0;
    for line in lines {
        if line.src == src && line.dst == dst {
            sum += line.flow as u128;
        }
    }
    sum
}

/// A pair's capacity: the sum of the capacities of its arcs.
fn cap_of_pair(net: &Network, src: u32, dst: u32) -> u128
    ensures { result ≡ pair_cap net.now src dst }
{
    let mut sum = 0;
    for i in 0..net.len() {
        let arc = net.arc(i);
        if arc.src == src && arc.dst == dst {
            sum += arc.cap as u128;
        }
    }
    sum
}

/// Whether a feasible flow has the greatest value. It stays as it is.
///
/// # Errors
///
/// `OutOfMemory`.
pub fn is_greatest(
    alloc: Global,
    net: &Network,
    s: &[u32],
    t: &[u32],
    flow: &mut FlowTable,
) -> Result<bool, OutOfMemory>
    requires feasible { IsFeasible net.now (one_of s.now) (one_of t.now) flow.old.flows }
    requires terminals { AreTerminals net.now s.now t.now }
    ensures greatest { IfOk result (λ greatest. (greatest ≡ true)
        ↔ HasGreatestValue net.now (one_of s.now) (one_of t.now) flow.old.flows) }
    ensures flows { flow.new.flows ≡ flow.old.flows }
    ensures limits { IfOk result (λ _. IsNet net.now) }
{
    let mut work = work_for(alloc, net)?;
    let grows = has_augmenting_path(net, s, t, flow, work.as_mut_slice());
    Ok(!grows)
}

/// The verdict where no pair's flow passes its capacity and some node's balance or the value is wrong, if one is.
fn wrong_sum(
    alloc: Global,
    problem: &Problem,
    solution: &Solution,
) -> Result<Option<Verdict>, OutOfMemory>
    requires limits { IsWithinLimits problem.now.net.nodes (written_in solution.now) }
    requires within { IsWithinCapacities problem.now.net solution.now.lines.items }
    ensures { IfOk result (IsSumsVerdict problem.now solution.now.value solution.now.lines.items) }
{
    let (net, s, t) = (problem.net(), problem.sources(), problem.sinks());
    let flows = node_flows(alloc, net.nodes(), solution.lines.as_slice())?;
    if let Some(node) = flows.first_unbalanced(alloc, net, s, t)? {
        let i = node as usize - 1;
        return Ok(Some(Verdict::Unbalanced {
            node,
            into: flows.into[i],
            out: flows.out[i],
        }));
    }
    let given = solution.value;
    let found = flows.outflow_of(s);
    if given as i128 != found {
        return Ok(Some(Verdict::Value { given, found }));
    }
    Ok(None)
}

/// The verdict where no pair's flow passes its capacity, from a flow that carries what the lines say.
fn judge(
    alloc: Global,
    problem: &Problem,
    solution: &Solution,
    flow: &mut FlowTable,
    feasible_only: bool,
) -> Result<Verdict, OutOfMemory>
    requires limits { IsWithinLimits problem.now.net.nodes (written_in solution.now) }
    requires fits { Fits problem.now.net flow.old.flows }
    requires carries { Carries problem.now.net solution.now.lines.items flow.old.flows }
    ensures { IfOk result (IsVerdict problem.now solution.now.value solution.now.lines.items feasible_only) }
{
    if let Some(verdict) = wrong_sum(alloc, problem, solution)? {
        return Ok(verdict);
    }
    let value = solution.value;
    if feasible_only {
        return Ok(Verdict::Feasible(value));
    }
    let (net, s, t) = (problem.net(), problem.sources(), problem.sinks());
    if is_greatest(alloc, net, s, t, flow)? {
        Ok(Verdict::Optimal(value))
    } else {
        Ok(Verdict::NotMaximal(value))
    }
}

/// Checks a solution of a problem (solution files of the DIMACS format, 1990). The verdict is the first of
/// [`Verdict`]'s that applies; with `feasible_only` nobody asks whether a flow of greater value exists.
///
/// The caller ensures what an accepted solution keeps: both nodes of every line are nodes of the problem, and the
/// lines, the flows and the value are within the limits. The flow lines of a pair of nodes are added up, and so are its
/// arcs; the order of neither matters. No flow is searched for: the flow of the lines is put on the arcs, and one
/// search tells whether its value is the greatest.
///
/// # Errors
///
/// `OutOfMemory` where a growth was refused.
pub fn check(
    alloc: Global,
    problem: &Problem,
    solution: &Solution,
    feasible_only: bool,
) -> Result<Verdict, OutOfMemory>
    requires { IsWithinLimits problem.now.net.nodes (written_in solution.now) }
    ensures verdict { IfOk result (IsVerdict problem.now solution.now.value solution.now.lines.items feasible_only) }
    ensures feasible { IfOk result (λ verdict. IsTrue (is_of_feasible verdict)
        ↔ IsFeasibleSolution problem.now solution.now.lines.items) }
{
    let lines = solution.lines.as_slice();
    match share_out(alloc, problem.net(), lines)? {
        Shared::Flow(mut flow) => judge(alloc, problem, solution, &mut flow, feasible_only),
        Shared::Over { src, dst } => Ok(Verdict::Over {
            src,
            dst,
            flow: flow_of_pair(lines, src, dst),
            cap: cap_of_pair(problem.net(), src, dst),
        }),
    }
}
