//! The connectivity against its definition, over every set of nodes of some thousand small networks, and of networks of
//! known connectivity.
ghost use Rattle.std.specs.Prelude.{◌≡◌, ◌≤◌};
ghost use Rattle.std.specs.List.{All};

use crate::tools::nets::add_arc;
use flow_net::{Arc, FlowTable, MOST_ARCS, Network};
use flow_solve::{Levels, Paths, work_len};
use flow_tools::connectivity;
use std::alloc::Global;
use std::process::Abort;

/// How many sets there are of so many nodes.
const SETS: [u32; 9] = [1, 2, 4, 8, 16, 32, 64, 128, 256];

/// Whether a node is in a set.
fn contains(set: u32, node: u32) -> bool {
    (set >> ((node % 16) as u32)) & 1 == 1
}

/// How many arcs leave a set.
fn leaving(net: &Network, set: u32) -> u64 {
    let mut count = 0u64;
    for i in 0..net.len() {
        let arc = net.arc(i);
        if contains(set, arc.src) && !contains(set, arc.dst) {
            count = count.saturating_add(1);
        }
    }
    count
}

/// The least number of arcs that leave a set that is neither empty nor all, of at most 8 nodes.
fn least_of_sets(net: &Network) -> u64 {
    let sets = SETS[net.nodes().min(8) as usize];
    let mut least = u64::MAX;
    for set in 1..sets.saturating_sub(1) {
        least = least.min(leaving(net, set.saturating_mul(2)));
    }
    least
}

/// The connectivity by either method.
fn answer(rt: &impl Abort, alloc: Global, net: &Network) -> (u64, u64)
    requires { All (λ a. a.cap ≡ 1) net.now.arcs }
{
    let _ = net.nodes();
    let mut flow = FlowTable::new(alloc, net).expect(rt, "memory");
    let cells = work_len(net.nodes(), net.len());
    let mut work = Vec::from_elem(alloc, 0u32, cells).expect(rt, "memory");
    let levels = connectivity::<Levels>(net, false, &[], &[], &mut flow, work.as_mut_slice());
    let paths = connectivity::<Paths>(net, false, &[], &[], &mut flow, work.as_mut_slice());
    (levels, paths)
}

/// Adds an arc of capacity 1, and answers whether the network can have it and there is memory.
#[must_use]
pub(super) fn add(net: &mut Network, src: u32, dst: u32) -> bool {
    add_arc(net, Arc { src, dst, cap: 1 })
}

/// The next number of a fixed sequence.
pub(super) fn shuffle(seed: u64) -> u64 {
    seed.wrapping_mul(6364136223846793005)
        .wrapping_add(1442695040888963407)
}

/// A network of some nodes and arcs that a number determines, and for even numbers both ways; nothing if memory is
/// refused.
fn random_network(alloc: Global, seed: u64) -> Option<Network> {
    let mut state = shuffle(seed);
    let nodes = 2 + ((state >> 33) % 7) as u32;
    let mut net = Network::new(alloc, nodes);
    state = shuffle(state);
    let arcs = (state >> 33) % 40;
    for _ in 0..arcs {
        state = shuffle(state);
        let src = 1 + ((state >> 33) as u32) % nodes;
        state = shuffle(state);
        let dst = 1 + ((state >> 33) as u32) % nodes;
        if !add(&mut net, src, dst) {
            return None;
        }
    }
    if seed % 2 == 0 && (net.len() > MOST_ARCS || net.both_ways().is_err()) {
        return None;
    }
    Some(net)
}

/// Whether the connectivity of a network is a number, by either method; with `both` that of the network both ways.
#[tactic(auto, using(crate::proofs::Units::unit_capacities))]
fn has(rt: &impl Abort, alloc: Global, mut net: Network, both: bool, connectivity: u64) -> bool {
    if both && (net.len() > MOST_ARCS || net.both_ways().is_err()) {
        return false;
    }
    let net = net.unit();
    answer(rt, alloc, &net) == (connectivity, connectivity)
}

/// Adds an arc from each node to each other of some consecutive ones, and answers whether all were added.
#[must_use]
pub(super) fn join_all(net: &mut Network, first: u32, last: u32) -> bool {
    for src in first..last {
        for dst in first..last {
            if src != dst && !add(net, src, dst) {
                return false;
            }
        }
    }
    true
}

#[test]
fn agrees_with_all_sets(rt: HostRuntime) {
    for seed in 0..3000u64 {
        let net = random_network(rt.alloc(), seed).expect(&rt, "memory");
        let least = least_of_sets(&net);
        assert!(rt; has(&rt, rt.alloc(), net, false, least), "{seed}");
    }
}

/// How many nodes each of two rings has, and how many chords they have together.
const ROUND: u32 = 500;

const CHORDS: u32 = 300;

/// Two rings with chords, each within one of them, and so many links between them.
fn two_rings(alloc: Global, between: u32) -> Option<Network> {
    let mut net = Network::new(alloc, 2 * ROUND);
    for i in 0..2 * ROUND {
        let next = if (i + 1) % ROUND == 0 {
            i + 1 - ROUND
        } else {
            i + 1
        };
        if !add(&mut net, 1 + i, 1 + next) {
            return None;
        }
    }
    let mut state = 7u64;
    for chord in 0..CHORDS {
        state = shuffle(state);
        let from = ((state >> 33) % 499) as u32;
        state = shuffle(state);
        let to = ((state >> 33) % 499) as u32;
        let base = chord % 2 * ROUND;
        if !add(&mut net, 1 + base + from, 1 + base + to) {
            return None;
        }
    }
    for i in 0..between {
        let there = 1 + i % ROUND;
        if !add(&mut net, there, ROUND + there) {
            return None;
        }
    }
    Some(net)
}

#[test]
fn two_rings_with_chords(rt: HostRuntime) {
    for &(between, connectivity) in &[(0u32, 0u64), (1, 1), (2, 2), (3, 2), (40, 2)] {
        let net = two_rings(rt.alloc(), between).expect(&rt, "memory");
        assert!(rt; has(&rt, rt.alloc(), net, true, connectivity), "{between}");
    }
}

#[test]
fn parallel_arcs(rt: HostRuntime) {
    let mut net = Network::new(rt.alloc(), 3);
    let mut is_built = true;
    for _ in 0..1000u32 {
        is_built = add(&mut net, 1, 2) && add(&mut net, 2, 3) && add(&mut net, 3, 1) && is_built;
    }
    let is_so = has(&rt, rt.alloc(), net, false, 1000);
    assert!(rt; is_built && is_so);
}

#[test]
fn a_star_both_ways(rt: HostRuntime) {
    let mut net = Network::new(rt.alloc(), 5000);
    let mut is_built = true;
    for i in 2u32..5001 {
        is_built = add(&mut net, 1, i) && is_built;
    }
    let is_so = has(&rt, rt.alloc(), net, true, 1);
    assert!(rt; is_built && is_so);
}

#[test]
fn disconnected(rt: HostRuntime) {
    let mut net = Network::new(rt.alloc(), 20);
    let is_built = join_all(&mut net, 1, 11) && join_all(&mut net, 11, 21);
    let is_so = has(&rt, rt.alloc(), net, false, 0);
    assert!(rt; is_built && is_so);
}

#[test]
fn complete(rt: HostRuntime) {
    let mut net = Network::new(rt.alloc(), 20);
    let is_built = join_all(&mut net, 1, 21);
    let is_so = has(&rt, rt.alloc(), net, false, 19);
    assert!(rt; is_built && is_so);
}

/// Adds two halves of thirty nodes with three arcs between, and answers whether all arcs were added.
#[must_use]
fn add_halves(net: &mut Network) -> bool {
    join_all(net, 1, 31)
        && join_all(net, 31, 61)
        && add(net, 3, 40)
        && add(net, 17, 41)
        && add(net, 30, 59)
}

#[test]
fn two_halves_with_few_arcs_between(rt: HostRuntime) {
    let mut net = Network::new(rt.alloc(), 60);
    let is_built = add_halves(&mut net);
    let is_so = has(&rt, rt.alloc(), net, true, 3);
    assert!(rt; is_built && is_so);
}

/// Adds two halves of twenty nodes, with ten arcs from the one to the other and two back, and answers whether all arcs
/// were added.
#[must_use]
fn add_thin_halves(net: &mut Network) -> bool {
    let mut is_built = join_all(net, 1, 21) && join_all(net, 21, 41);
    for i in 1u32..11 {
        is_built = add(net, i, i + 20) && is_built;
    }
    is_built && add(net, 40, 20) && add(net, 39, 20)
}

#[test]
fn thin_in_one_direction_alone(rt: HostRuntime) {
    let mut net = Network::new(rt.alloc(), 40);
    let is_built = add_thin_halves(&mut net);
    let is_so = has(&rt, rt.alloc(), net, false, 2);
    assert!(rt; is_built && is_so);
}
