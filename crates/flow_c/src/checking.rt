//! The check of a flow that a caller lends.
ghost use Rattle.std.specs.Prelude.{◌≡◌, ℕ, ◌<◌, ◌^◌, List, [], length, replicate, IfOk, IfErr, MatchOption};
ghost use Rattle.std.specs.Prelude.{MatchResult};
ghost use Rattle.flow_net.specs.NodeSets.{one_of};
ghost use Rattle.flow_net.specs.Flows.{Fits};
ghost use Rattle.flow_tools.specs.checking.NodeSums.{AreNodeFlows};
ghost use Rattle.flow_c.specs.Lists.{network_of};
ghost use Rattle.flow_c.specs.Refusals.{IsReasonFor, AreLengthsOf, AreGoodFor};
ghost use Rattle.flow_c.specs.Checks.{IsFirstOver, AreSumsOf, HasWord, IsChecked};
ghost use Rattle.flow_c.specs.declared.refusals.Refusal.TheVariants.{Memory};

use crate::lists::{Lent, read_network};
use crate::refusals::Refusal;
use flow_net::{FlowTable, Network};
use flow_text::FlowLine;
use flow_tools::{FlowNetwork, NodeFlows, fill, is_greatest};
use std::alloc::Global;

/// What is said of a flow, as a number, and the number that goes with it.
#[derive(Clone, Copy)]
pub struct Checked {
    /// 0 a flow of the greatest value, 1 a feasible flow of a smaller one, 2 an arc's flow passes its capacity, 3 what
    /// enters a node isn't what leaves it.
    pub verdict: u32,
    /// The value, in two's complement, or the first such arc, or the first such node, counted from 0.
    pub told: u128,
}

/// Puts a flow on the arcs, into a table of zeros, and adds it up at the nodes. Answers the first arc whose flow passes
/// its capacity.
fn put_flow(
    net: &Network,
    given: &[u64],
    table: &mut FlowTable,
    sums: &mut NodeFlows,
) -> Option<u32>
    requires fits { Fits net.now table.old.flows }
    requires count { length given.now ≡ length net.now.arcs }
    requires empty { table.old.flows ≡ replicate (length net.now.arcs) 0 }
    requires no_sums { AreNodeFlows net.now.nodes [] sums.old.into.items sums.old.out.items }
    ensures answer { MatchOption result ((table.new.flows ≡ given.now)
        × AreSumsOf net.now given.now sums.new.into.items sums.new.out.items) (IsFirstOver net.now given.now) }
    ensures fits { Fits net.now table.new.flows }
{
    for i in 0..net.len() {
        let flow = given[i as usize];
        if fill(net, i, flow, table) > 0 {
            return Some(i);
        }
        let arc = net.arc(i);
        sums.add(FlowLine {
            src: arc.src,
            dst: arc.dst,
            flow,
        });
    }
    None
}

/// The value of a flow, in two's complement, from its sums at the nodes.
fn value_of(network: &FlowNetwork, sums: &NodeFlows) -> u128
    requires { (xs : List ℕ) × Fits network.now.net xs
        × AreSumsOf network.now.net xs sums.now.into.items sums.now.out.items }
    ensures value { (xs : List ℕ) → Fits network.now.net xs
        → AreSumsOf network.now.net xs sums.now.into.items sums.now.out.items
        → HasWord network.now.net (one_of network.now.sources) xs result }
    ensures below { result < 2 ^ 128 }
{
    // Brings the network's limits, `IsNet`, into the proof.
    let _ = network.net().nodes();
    sums.outflow_of(network.sources()).cast_unsigned()
}

/// Checks a flow of a network, in a table and with sums of zeros.
fn verdict_on(
    alloc: Global,
    network: &FlowNetwork,
    given: &[u64],
    table: &mut FlowTable,
    sums: &mut NodeFlows,
) -> Result<Checked, Refusal>
    requires fits { Fits network.now.net table.old.flows }
    requires count { length given.now ≡ length network.now.net.arcs }
    requires empty { table.old.flows ≡ replicate (length network.now.net.arcs) 0 }
    requires no_sums { AreNodeFlows network.now.net.nodes [] sums.old.into.items sums.old.out.items }
    ensures { MatchResult result (λ checked. IsChecked network.now given.now checked.verdict checked.told)
        (λ r. r ≡ Memory) }
{
    let (net, s, t) = (network.net(), network.sources(), network.sinks());
    if let Some(arc) = put_flow(net, given, table, sums) {
        return Ok(Checked {
            verdict: 2,
            told: arc as u128,
        });
    }
    if let Some(node) = sums.first_unbalanced(alloc, net, s, t)? {
        return Ok(Checked {
            verdict: 3,
            told: node as u128 - 1,
        });
    }
    let told = value_of(network, sums);
    if is_greatest(alloc, net, s, t, table)? {
        return Ok(Checked { verdict: 0, told });
    }
    Ok(Checked { verdict: 1, told })
}

/// Checks a flow of a network.
fn check_flow(alloc: Global, network: &FlowNetwork, given: &[u64]) -> Result<Checked, Refusal>
    requires { length given.now ≡ length network.now.net.arcs }
    ensures { MatchResult result (λ checked. IsChecked network.now given.now checked.verdict checked.told)
        (λ r. r ≡ Memory) }
{
    let net = network.net();
    let mut table = FlowTable::new(alloc, net)?;
    let mut sums = NodeFlows::new(alloc, net.nodes())?;
    verdict_on(alloc, network, given, &mut table, &mut sums)
}

/// Checks a flow of the network of the lists.
pub(crate) fn check_lists(
    alloc: Global,
    lent: Lent<'_>,
    cap: &[u64],
    flow: &[u64],
) -> Result<Checked, Refusal>
    ensures ok { IfOk result (λ checked.
        IsChecked (network_of lent.entry cap.now) flow.now checked.verdict checked.told) }
    ensures taken { IfOk result (λ _. AreGoodFor
        (AreLengthsOf lent.entry cap.now × (length flow.now ≡ length lent.entry.src.now)) lent.entry) }
    ensures refused { IfErr result (IsReasonFor
        (AreLengthsOf lent.entry cap.now × (length flow.now ≡ length lent.entry.src.now)) lent.entry) }
{
    if flow.len() != lent.src.len() {
        return Err(Refusal::Lengths);
    }
    let network = read_network(alloc, lent, Some(cap))?;
    check_flow(alloc, &network, flow)
}
