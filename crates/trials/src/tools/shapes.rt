//! The connectivity by forests of networks whose shape tells it, within the steps that a run gives it. Where as many
//! arcs leave each node in the same way, as round a ring or in a cube, it is how many leave a node.
ghost use Rattle.std.specs.Prelude.{◌≤◌};

use super::connecting::{add, join_all};
use super::forests::grown_within;
use flow_net::{FEWEST_NODES, MOST_ARCS, MOST_NODES, Network};
use flow_solve::{Levels, Method};
use std::alloc::Global;

/// Nodes round a ring, the steps on from each to the nodes that it has an arc to, and how many arcs are cut at least.
struct Round {
    nodes: u32,
    steps: &'static [u32],
    connectivity: u64,
}

/// The connectivity by forests, with `both` that of the network both ways; nothing where the steps that a run gives it
/// don't suffice, or memory is refused.
#[tactic(auto, using(crate::proofs::Units::unit_capacities))]
fn grown(alloc: Global, mut net: Network, both: bool) -> Option<u64> {
    if both && (net.len() > MOST_ARCS || net.both_ways().is_err()) {
        return None;
    }
    let net = net.unit();
    grown_within(alloc, &net, Levels::spare_steps(&net))
}

/// Whether there is a network, and forests tell its connectivity, with `both` that of the network both ways.
fn has_grown(alloc: Global, net: Option<Network>, both: bool, connectivity: u64) -> bool {
    match net {
        Some(net) => grown(alloc, net, both) == Some(connectivity),
        None => false,
    }
}

/// Adds an arc from one node to each that is so many steps on, and answers whether all were added.
#[must_use]
fn add_steps(net: &mut Network, node: u32, steps: &[u32]) -> bool {
    for step in steps {
        let ahead = u64::from(node) + u64::from(*step);
        let nodes = u64::from(net.nodes());
        let there = if ahead > nodes { ahead - nodes } else { ahead };
        if there > nodes || !add(net, node, there as u32) {
            return false;
        }
    }
    true
}

/// Nodes round a ring, each with an arc to those so many steps on; nothing if memory is refused.
fn ring_with(alloc: Global, nodes: u32, steps: &[u32]) -> Option<Network>
    requires least { FEWEST_NODES ≤ nodes }
    requires most { nodes ≤ MOST_NODES }
{
    let mut net = Network::new(alloc, nodes);
    for i in 0..nodes {
        if !add_steps(&mut net, 1 + i, steps) {
            return None;
        }
    }
    Some(net)
}

/// Whether forests tell the connectivity of nodes round a ring, with `both` that of the network both ways.
fn is_told(alloc: Global, round: &Round, both: bool) -> bool {
    if round.nodes < FEWEST_NODES || round.nodes > MOST_NODES {
        return false;
    }
    let net = ring_with(alloc, round.nodes, round.steps);
    has_grown(alloc, net, both, round.connectivity)
}

/// Arcs both ways: a ring, a lattice that closes, near links, and all nodes joined.
const LINKS: &[Round] = &[
    Round {
        nodes: 300,
        steps: &[1],
        connectivity: 2,
    },
    Round {
        nodes: 289,
        steps: &[1, 17],
        connectivity: 4,
    },
    Round {
        nodes: 343,
        steps: &[1, 7, 49],
        connectivity: 6,
    },
    Round {
        nodes: 200,
        steps: &[1, 2, 3, 4],
        connectivity: 8,
    },
    Round {
        nodes: 25,
        steps: &[1, 2, 3, 4, 5, 6, 7, 8, 9, 10, 11, 12],
        connectivity: 24,
    },
];

#[test]
fn links_round_a_ring(rt: HostRuntime) {
    for round in LINKS {
        assert!(rt; is_told(rt.alloc(), round, true), "{}", round.nodes);
    }
}

/// The connectivity by forests alone, with `both` that of the network both ways, within some steps for each node.
#[tactic(auto, using(crate::proofs::Units::unit_capacities))]
fn grown_early(alloc: Global, net: Option<Network>, both: bool, steps: u64) -> Option<u64> {
    let mut net = net?;
    if both && (net.len() > MOST_ARCS || net.both_ways().is_err()) {
        return None;
    }
    let net = net.unit();
    grown_within(alloc, &net, steps.saturating_mul(u64::from(net.nodes())))
}

#[test]
fn forests_go_round_a_ring_one_way(rt: HostRuntime) {
    let alloc = rt.alloc();
    let one_way = grown_early(alloc, ring_with(alloc, 3000, &[1]), false, 40);
    let both_ways = grown_early(alloc, ring_with(alloc, 3000, &[1]), true, 40);
    assert!(rt; one_way == Some(1) && both_ways == Some(2));
}

/// The node at a place of a torus of three dimensions, twelve nodes along each.
fn node_at(x: u32, y: u32, z: u32) -> u32 {
    1 + x % 12 * 144 + y % 12 * 12 + z % 12
}

/// A torus of three dimensions, each of its links one way.
fn torus(alloc: Global) -> Option<Network> {
    let mut net = Network::new(alloc, 1728);
    for i in 0..1728u32 {
        let (x, y, z) = (i / 144, i / 12 % 12, i % 12);
        for next in [
            node_at(x + 1, y, z),
            node_at(x, y + 1, z),
            node_at(x, y, z + 1),
        ] {
            if !add(&mut net, 1 + i, next) {
                return None;
            }
        }
    }
    Some(net)
}

/// It takes five steps for each node or more where forests grow alike, or one grows that isn't needed.
#[test]
fn forests_fill_a_torus(rt: HostRuntime) {
    let alloc = rt.alloc();
    let one_way = grown_early(alloc, torus(alloc), false, 1);
    let both_ways = grown_early(alloc, torus(alloc), true, 1);
    assert!(rt; one_way == Some(3) && both_ways == Some(6));
}

/// Arcs one way: a ring, steps of several lengths, parallel arcs.
const ARCS: &[Round] = &[
    Round {
        nodes: 300,
        steps: &[1],
        connectivity: 1,
    },
    Round {
        nodes: 200,
        steps: &[1, 5, 11],
        connectivity: 3,
    },
    Round {
        nodes: 301,
        steps: &[1, 1, 1, 1, 1],
        connectivity: 5,
    },
];

#[test]
fn arcs_round_a_ring(rt: HostRuntime) {
    for round in ARCS {
        assert!(rt; is_told(rt.alloc(), round, false), "{}", round.nodes);
    }
}

/// The nodes of a cube of seven dimensions, with an arc from each to those that differ in one of them.
fn cube(alloc: Global) -> Option<Network> {
    let mut net = Network::new(alloc, 128);
    for i in 0..128u32 {
        for side in [1, 2, 4, 8, 16, 32, 64u32] {
            if !add(&mut net, 1 + i, 1 + (i ^ side) % 128) {
                return None;
            }
        }
    }
    Some(net)
}

/// A tree in which each node has two below it, or none.
fn tree(alloc: Global) -> Option<Network> {
    let mut net = Network::new(alloc, 255);
    for node in 2..256u32 {
        if !add(&mut net, node, node / 2) {
            return None;
        }
    }
    Some(net)
}

/// Two parts of forty nodes in each of which all are joined, and three links between them.
fn halves(alloc: Global) -> Option<Network> {
    let mut net = Network::new(alloc, 80);
    let joined = join_all(&mut net, 1, 41) && join_all(&mut net, 41, 81);
    let linked = add(&mut net, 3, 50) && add(&mut net, 70, 17) && add(&mut net, 41, 40);
    if joined && linked { Some(net) } else { None }
}

#[test]
fn a_cube_a_tree_and_two_halves(rt: HostRuntime) {
    let alloc = rt.alloc();
    assert!(rt; has_grown(alloc, cube(alloc), false, 7));
    assert!(rt; has_grown(alloc, tree(alloc), true, 1));
    assert!(rt; has_grown(alloc, halves(alloc), true, 3));
}

/// The steps on from the nodes of a part of five to each other, and from the last three to the next part.
const PART: [&[u32]; 5] = [&[1, 2, 3, 4], &[1, 2, 3], &[1, 2, 5], &[1, 5], &[5]];

/// A thousand parts of five nodes in a row, in each of which all are joined, and three links from each to the next.
fn chain(alloc: Global) -> Option<Network> {
    let mut net = Network::new(alloc, 5000);
    for i in 0..4995u32 {
        if !add_steps(&mut net, 1 + i, PART[i as usize % 5]) {
            return None;
        }
    }
    let joined = join_all(&mut net, 4996, 5001);
    if joined { Some(net) } else { None }
}

/// It takes a hundred steps for each node or more where a search passes the rest of the chain for each unit.
#[test]
fn forests_pass_a_chain(rt: HostRuntime) {
    let alloc = rt.alloc();
    assert!(rt; grown_early(alloc, chain(alloc), true, 20) == Some(3));
}

/// Adds a link from the node at a place round a ring to the one so many steps on, and with `both` also an arc back.
#[must_use]
fn add_link(net: &mut Network, place: u32, step: u32, both: bool) -> bool {
    let nodes = net.nodes();
    let src = 1 + place % nodes;
    let dst = 1 + place.wrapping_add(step) % nodes;
    add(net, src, dst) && (!both || add(net, dst, src))
}

/// A ring of three thousand nodes, each of which has a link across, and six links more.
fn wheel(alloc: Global, both: bool) -> Option<Network> {
    let mut net = Network::new(alloc, 3000);
    for i in 0..3000u32 {
        let around = add_link(&mut net, i, 1, both);
        let across = i % 2 == 1 || add_link(&mut net, i, 6 * i + 1, both);
        let more = i % 500 > 0 || add_link(&mut net, i, 1000 + i / 250, both);
        if !around || !across || !more {
            return None;
        }
    }
    Some(net)
}

/// It takes more where a few links more than three for each node change how forests grow.
#[test]
fn forests_need_nearly_all_links(rt: HostRuntime) {
    let alloc = rt.alloc();
    let linked = grown_early(alloc, wheel(alloc, false), true, 3);
    let doubled = grown_early(alloc, wheel(alloc, true), false, 10);
    assert!(rt; linked == Some(3) && doubled == Some(3));
}

/// A node with two hundred thousand links to each of three others.
fn star(alloc: Global) -> Option<Network> {
    let mut net = Network::new(alloc, 4);
    for i in 0..600000u32 {
        if !add(&mut net, 1, 2 + i % 3) {
            return None;
        }
    }
    Some(net)
}

/// It takes minutes where each forest passes all links of a node.
#[test]
fn forests_jump_over_parallel_arcs(rt: HostRuntime) {
    let alloc = rt.alloc();
    assert!(rt; grown_early(alloc, star(alloc), true, 0) == Some(200000));
}
