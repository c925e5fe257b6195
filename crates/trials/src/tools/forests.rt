//! The connectivity by forests against the plain way, a solve from each node to the next in a circle of all nodes, to
//! which it comes where its steps are used up.
ghost use Rattle.std.specs.Prelude.{◌≡◌, ◌<◌, ◌≤◌};
ghost use Rattle.std.specs.List.{All};
ghost use Rattle.flow_solve.specs.Bounds.{levels_bound};

use super::connecting::{add, shuffle};
use flow_net::{FlowTable, MOST_ARCS, Network};
use flow_solve::{Levels, Method, connectivity_by_forests, work_len};
use flow_tools::connectivity;
use std::alloc::Global;
use std::process::Abort;

/// The method by levels with no more than a method has to say, and so no step to spare: the forests end where they
/// begin.
struct NoStepToSpare;

impl Method for NoStepToSpare {
    ghost steps_bound = { levels_bound };

    fn greatest(
        net: &Network,
        s: &[u32],
        t: &[u32],
        flow: &mut FlowTable,
        work: &mut [u32],
    ) -> u128 {
        Levels::greatest(net, s, t, flow, work)
    }
}

/// The method by levels with a few steps to spare: the forests end on their way.
struct FewStepsToSpare;

impl Method for FewStepsToSpare {
    ghost steps_bound = { levels_bound };

    fn spare_steps(net: &Network) -> u64 {
        Levels::spare_steps(net).min(40)
    }

    fn greatest(
        net: &Network,
        s: &[u32],
        t: &[u32],
        flow: &mut FlowTable,
        work: &mut [u32],
    ) -> u128 {
        Levels::greatest(net, s, t, flow, work)
    }
}

/// The connectivity by forests, by the plain way, and by forests that are broken off.
fn answers(rt: &impl Abort, alloc: Global, net: &Network) -> [u64; 3]
    requires { All (λ a. a.cap ≡ 1) net.now.arcs }
{
    let _ = net.nodes();
    let mut flow = FlowTable::new(alloc, net).expect(rt, "memory");
    let len = work_len(net.nodes(), net.len());
    let mut cells = Vec::from_elem(alloc, 0u32, len).expect(rt, "memory");
    let work = cells.as_mut_slice();
    let grown = connectivity::<Levels>(net, false, &[], &[], &mut flow, work);
    let plain = connectivity::<NoStepToSpare>(net, false, &[], &[], &mut flow, work);
    let broken_off = connectivity::<FewStepsToSpare>(net, false, &[], &[], &mut flow, work);
    [grown, plain, broken_off]
}

/// The connectivity by forests alone; nothing if it takes more steps than it may, or memory is refused.
pub(super) fn grown_within(alloc: Global, net: &Network, budget: u64) -> Option<u64>
    requires { All (λ a. a.cap ≡ 1) net.now.arcs }
{
    let Ok(mut flow) = FlowTable::new(alloc, net) else {
        return None;
    };
    let Ok(mut cells) = Vec::from_elem(alloc, 0u32, work_len(net.nodes(), net.len())) else {
        return None;
    };
    let work = cells.as_mut_slice();
    connectivity_by_forests(net, &mut flow, work, budget)
}

/// A number below another, by the high bits of a number of the sequence.
fn below(state: u64, most: u32) -> u32
    requires { 0 < most }
    ensures { result < most }
{
    ((state >> 33) % most as u64) as u32
}

/// A network of 3 to 22 nodes that a number determines, with a few arcs for each node, from near nodes to near ones for
/// every second number; one of three is both ways.
fn random_network(alloc: Global, seed: u64) -> Option<Network> {
    let mut state = shuffle(seed);
    let nodes = 3 + below(state, 20);
    let mut net = Network::new(alloc, nodes);
    state = shuffle(state);
    let arcs = nodes * (2 + below(state, 5));
    for _ in 0..arcs {
        state = shuffle(state);
        let src = 1 + below(state, nodes);
        state = shuffle(state);
        let ahead = if seed % 2 == 0 { 4 } else { nodes };
        let dst = 1 + (src + below(state, ahead)) % nodes;
        if !add(&mut net, src, dst) {
            return None;
        }
    }
    if seed % 3 == 0 && (net.len() > MOST_ARCS || net.both_ways().is_err()) {
        return None;
    }
    Some(net)
}

/// Whether the three ways agree on a network that a number determines, forests within the steps that a run gives it.
#[tactic(auto, using(crate::proofs::Units::unit_capacities))]
fn agree(rt: &impl Abort, alloc: Global, seed: u64) -> bool {
    let Some(net) = random_network(alloc, seed) else {
        return false;
    };
    let net = net.unit();
    match grown_within(alloc, &net, Levels::spare_steps(&net)) {
        Some(grown) => answers(rt, alloc, &net) == [grown; 3],
        None => false,
    }
}

#[test]
fn forests_agree_with_a_solve_for_each_node(rt: HostRuntime) {
    for seed in 0..4000u64 {
        assert!(rt; agree(&rt, rt.alloc(), seed), "{seed}");
    }
}
