//! Networks with balanced degrees, and the connectivity by forests of some of them: what a count by hand says of each.
ghost use Rattle.std.specs.Prelude.{◌≡◌, IsTrue};
ghost use Rattle.std.specs.List.{All};

use super::*;

/// A network of capacities of 1, whether as many arcs leave each node as enter it, and its connectivity.
struct Unit {
    name: &'static str,
    nodes: u32,
    arcs: &'static [(u32, u32)],
    is_balanced: bool,
    connectivity: u64,
}

/// Adds arcs of capacity 1, and answers whether the network can have them all and there is memory.
#[must_use]
fn add_units(net: &mut Network, arcs: &[(u32, u32)]) -> bool {
    for (src, dst) in arcs {
        if !add(net, *src, *dst, 1) {
            return false;
        }
    }
    true
}

/// Whether every capacity is 1.
fn are_units(net: &Network) -> bool
    ensures { IsTrue result → All (λ a. a.cap ≡ 1) net.now.arcs }
{
    for i in 0..net.len() {
        if net.arc(i).cap != 1 {
            return false;
        }
    }
    true
}

/// Whether as many arcs leave each node as enter it; nothing if memory is refused.
fn is_balanced(alloc: Global, net: &Network) -> Option<bool> {
    let nodes = net.nodes() as usize;
    let mut degrees = Vec::from_elem(alloc, 7u32, 2 * nodes).ok()?;
    let _ = least_degree(net, degrees.as_mut_slice());
    Some(are_balanced(net, degrees.as_slice()))
}

/// The connectivity by forests; nothing if a capacity isn't 1, or it takes more steps than it may.
fn grown_within(rt: &impl Abort, alloc: Global, net: &Network, budget: u64) -> Option<u64> {
    if !are_units(net) {
        return None;
    }
    let mut work = cells_for(rt, alloc, net);
    let mut flow = empty_flow(rt, alloc, net);
    connectivity_by_forests(net, &mut flow, work.as_mut_slice(), budget)
}

const UNITS: &[Unit] = &[
    Unit {
        name: "a ring one way",
        nodes: 5,
        arcs: &[(1, 2), (2, 3), (3, 4), (4, 5), (5, 1)],
        is_balanced: true,
        connectivity: 1,
    },
    Unit {
        name: "a ring both ways, its arcs in a mixed order",
        nodes: 4,
        arcs: &[
            (3, 2),
            (1, 2),
            (4, 1),
            (2, 3),
            (4, 3),
            (1, 4),
            (2, 1),
            (3, 4),
        ],
        is_balanced: true,
        connectivity: 2,
    },
    Unit {
        name: "arcs to the next node and the one after it, round a ring",
        nodes: 5,
        arcs: &[
            (1, 2),
            (1, 3),
            (2, 3),
            (2, 4),
            (3, 4),
            (3, 5),
            (4, 5),
            (4, 1),
            (5, 1),
            (5, 2),
        ],
        is_balanced: true,
        connectivity: 2,
    },
    Unit {
        name: "two rings one way that meet at node 3",
        nodes: 5,
        arcs: &[(1, 2), (2, 3), (3, 1), (3, 4), (4, 5), (5, 3)],
        is_balanced: true,
        connectivity: 1,
    },
    Unit {
        name: "a ring one way of parallel arcs",
        nodes: 3,
        arcs: &[(1, 2), (2, 3), (1, 2), (3, 1), (3, 1), (2, 3)],
        is_balanced: true,
        connectivity: 2,
    },
    Unit {
        name: "a ring one way with self-loops at a node",
        nodes: 3,
        arcs: &[(2, 2), (1, 2), (2, 3), (2, 2), (3, 1)],
        is_balanced: true,
        connectivity: 1,
    },
    Unit {
        name: "two rings apart",
        nodes: 4,
        arcs: &[(1, 2), (2, 1), (3, 4), (4, 3)],
        is_balanced: true,
        connectivity: 0,
    },
    Unit {
        name: "no arcs",
        nodes: 3,
        arcs: &[],
        is_balanced: true,
        connectivity: 0,
    },
    Unit {
        name: "a ring one way and an arc more",
        nodes: 4,
        arcs: &[(1, 2), (2, 3), (3, 4), (4, 1), (1, 3)],
        is_balanced: false,
        connectivity: 1,
    },
    Unit {
        name: "one more parallel arc one way",
        nodes: 3,
        arcs: &[(1, 2), (2, 1), (2, 3), (3, 2), (2, 3)],
        is_balanced: false,
        connectivity: 1,
    },
    Unit {
        name: "a path",
        nodes: 3,
        arcs: &[(1, 2), (2, 3)],
        is_balanced: false,
        connectivity: 0,
    },
];

/// Whether a network is balanced, and has the connectivity, as told.
fn is_as_told(rt: &impl Abort, alloc: Global, unit: &Unit) -> bool {
    if unit.nodes < FEWEST_NODES || MOST_NODES < unit.nodes {
        return false;
    }
    let mut net = Network::new(alloc, unit.nodes);
    let is_added = add_units(&mut net, unit.arcs);
    let balanced = is_balanced(alloc, &net);
    let grown = grown_within(rt, alloc, &net, 1000);
    is_added && balanced == Some(unit.is_balanced) && grown == Some(unit.connectivity)
}

#[test]
fn balanced_degrees_and_connectivity_by_hand(rt: HostRuntime) {
    for unit in UNITS {
        expect(&rt, is_as_told(&rt, rt.alloc(), unit), unit.name);
    }
}

/// Adds a ring one way, its arcs from each node to the next or, turned round, from the next to it. Answers whether all
/// were added.
#[must_use]
fn add_ring(net: &mut Network, is_turned: bool) -> bool {
    let nodes = net.nodes();
    for node in 1..=nodes {
        let next = node % nodes + 1;
        let (src, dst) = if is_turned {
            (next, node)
        } else {
            (node, next)
        };
        if !add(net, src, dst, 1) {
            return false;
        }
    }
    true
}

/// Whether such a ring of 500 nodes has connectivity 1, without a step for a flow.
fn is_grown_round(rt: &impl Abort, alloc: Global, is_turned: bool) -> bool {
    let mut net = Network::new(alloc, 500);
    let is_added = add_ring(&mut net, is_turned);
    let grown = grown_within(rt, alloc, &net, 0);
    is_added && grown == Some(1)
}

#[test]
fn a_forest_goes_round_a_ring_without_a_flow(rt: HostRuntime) {
    expect(&rt, is_grown_round(&rt, rt.alloc(), false), "not turned");
    expect(&rt, is_grown_round(&rt, rt.alloc(), true), "turned");
}
