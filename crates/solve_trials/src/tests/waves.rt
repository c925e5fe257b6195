//! Waves: small networks of which the greatest value is known, random ones, and larger ones of the kinds that waves are
//! for, in which they have to bring something.
use super::*;

/// The waves, and how much they may take.
#[derive(Drop)]
struct Waves(u64);

impl Stage for Waves {
    fn begin(&self, _task: Task<'_>, _flow: &mut FlowTable, _cells: &mut [u32]) -> bool {
        false
    }

    fn go_on(&self, task: Task<'_>, flow: &mut FlowTable, cells: &mut [u32]) {
        send_waves(task, flow, cells, self.0);
    }
}

/// The search trees and then the waves, and how much either may take.
#[derive(Drop)]
struct Both {
    trees: u64,
    waves: u64,
}

impl Stage for Both {
    fn begin(&self, task: Task<'_>, flow: &mut FlowTable, cells: &mut [u32]) -> bool {
        grow_trees(task, flow, cells, self.trees)
    }

    fn go_on(&self, task: Task<'_>, flow: &mut FlowTable, cells: &mut [u32]) {
        send_waves(task, flow, cells, self.waves);
    }
}

/// The most that flows through an arc.
const MOST: u128 = u64::MAX as u128;

/// A network of 12 nodes: its arcs, its terminals, the first `k` of them sources, what waves reach, and the greatest
/// value.
struct Ways {
    name: &'static str,
    arcs: &'static [Triple],
    terminals: &'static [u32],
    k: usize,
    reached: u128,
    value: u128,
}

const TWO_LAYERS: Ways = Ways {
    name: "two layers between, and more at the source than the sink takes",
    arcs: &[
        (1, 2, 5),
        (1, 3, 4),
        (2, 4, 3),
        (3, 4, 2),
        (2, 5, 1),
        (3, 5, 9),
        (4, 6, 4),
        (5, 6, 3),
    ],
    terminals: &[1, 6],
    k: 1,
    reached: 7,
    value: 7,
};

const WAYS: &[Ways] = &[
    TWO_LAYERS,
    Ways {
        name: "a node that has to be lifted for the farther way",
        arcs: &[
            (1, 2, 9),
            (2, 3, 4),
            (3, 6, 4),
            (2, 4, 3),
            (4, 5, 3),
            (5, 6, 2),
        ],
        terminals: &[1, 6],
        k: 1,
        reached: 6,
        value: 6,
    },
    Ways {
        name: "flow that has to be taken back",
        arcs: &[
            (1, 2, 1),
            (1, 3, 1),
            (2, 4, 1),
            (3, 4, 1),
            (2, 5, 1),
            (4, 6, 1),
            (5, 6, 1),
        ],
        terminals: &[1, 6],
        k: 1,
        reached: 2,
        value: 2,
    },
    Ways {
        name: "two sources and two sinks, parallel arcs and a self-loop",
        arcs: &[
            (1, 3, 2),
            (1, 3, 2),
            (2, 4, 6),
            (3, 3, 8),
            (3, 5, 3),
            (4, 5, 1),
            (4, 6, 3),
        ],
        terminals: &[1, 2, 5, 6],
        k: 2,
        reached: 7,
        value: 7,
    },
    Ways {
        name: "arcs from source to source, from source to sink and from sink to sink",
        arcs: &[
            (1, 2, 5),
            (2, 1, 4),
            (1, 5, 2),
            (2, 5, 3),
            (5, 6, 9),
            (6, 5, 1),
            (6, 1, 7),
        ],
        terminals: &[1, 2, 5, 6],
        k: 2,
        reached: 5,
        value: 5,
    },
    Ways {
        name: "the largest capacities in a row",
        arcs: &[(1, 2, u64::MAX), (2, 3, u64::MAX), (3, 4, 5)],
        terminals: &[1, 4],
        k: 1,
        reached: 5,
        value: 5,
    },
    Ways {
        name: "more through a node than 64 bits hold",
        arcs: &[
            (1, 3, u64::MAX),
            (2, 3, u64::MAX),
            (3, 4, u64::MAX),
            (3, 5, u64::MAX),
            (4, 6, u64::MAX),
            (5, 6, u64::MAX),
        ],
        terminals: &[1, 2, 6],
        k: 2,
        reached: MOST,
        value: 2 * MOST,
    },
    Ways {
        name: "a row of all nodes in which less and less goes on, so that excess comes home from each",
        arcs: &[
            (1, 2, 21),
            (2, 3, 20),
            (3, 4, 18),
            (4, 5, 17),
            (5, 6, 16),
            (6, 7, 14),
            (7, 8, 13),
            (8, 9, 9),
            (9, 10, 8),
            (10, 11, 6),
            (11, 12, 4),
        ],
        terminals: &[1, 12],
        k: 1,
        reached: 4,
        value: 4,
    },
    Ways {
        name: "nothing that leads to the sink",
        arcs: &[(2, 1, 3), (3, 6, 2), (1, 4, 8)],
        terminals: &[1, 6],
        k: 1,
        reached: 0,
        value: 0,
    },
    Ways {
        name: "no arc",
        arcs: &[],
        terminals: &[1, 6],
        k: 1,
        reached: 0,
        value: 0,
    },
    Ways {
        name: "arcs in both directions",
        arcs: &[
            (1, 2, 4),
            (2, 1, 4),
            (2, 3, 3),
            (3, 2, 3),
            (3, 4, 2),
            (4, 3, 2),
        ],
        terminals: &[1, 4],
        k: 1,
        reached: 2,
        value: 2,
    },
];

/// What waves that may take so much reach on such a network.
fn waves_on(rt: &impl Abort, alloc: Global, ways: &Ways, allowance: u64) -> Outcome {
    let net = network(rt, alloc, 12, ways.arcs);
    stages(rt, alloc, &net, ways.terminals, ways.k, &Waves(allowance))
}

#[test]
fn waves_that_end_of_themselves(rt: HostRuntime) {
    for ways in WAYS {
        let outcome = waves_on(&rt, rt.alloc(), ways, 100_000);
        expect(&rt, outcome.is(ways.reached, ways.value), ways.name);
    }
}

/// In how many runs waves that may take more and more clear what they have sent. The last run reaches all. Nothing
/// where a run reaches too much, or the last too little.
fn count_cleared(rt: &impl Abort, alloc: Global, ways: &Ways) -> Option<u32> {
    let mut cleared = 0u32;
    let mut last = 0u128;
    for allowance in 0u64..400 {
        let outcome = waves_on(rt, alloc, ways, allowance);
        if !outcome.is_after(0, ways.value) {
            return None;
        }
        // With so much the source has sent all that it can: what comes to no sink and not home is cleared.
        let is_cleared = outcome.reached == 0 && allowance >= 2 * 2 * 2 + 2;
        cleared = cleared.wrapping_add(u32::from(is_cleared));
        last = outcome.reached;
    }
    if last == ways.value {
        Some(cleared)
    } else {
        None
    }
}

#[test]
fn waves_that_are_left(rt: HostRuntime) {
    assert!(rt; count_cleared(&rt, rt.alloc(), &TWO_LAYERS) > Some(0));
}

impl Limited for Both {
    fn limited(random: &mut Random, most: u64) -> Both {
        Both {
            trees: random.below(most),
            waves: random.below(3000),
        }
    }
}

#[test]
fn waves_agree_on_random_networks(rt: HostRuntime) {
    let draws = Draws {
        state: 1974,
        times: 6000,
        more: 15,
        arcs: 50,
        most: 60,
    };
    let tally = run_on_random_networks::<Both>(&rt, rt.alloc(), draws);
    assert!(rt; tally.tried > 3000 && tally.carried > 1000 && tally.between > 100);
}

/// How many steps for each arc waves may take in the larger networks, in both directions: an eighth of what [`Levels`]
/// lets them take.
const SHARE: u64 = 256;

/// Whether waves alone reach the greatest value of a network and mark a set that shows it, and so leave nothing to the
/// phases.
fn waves_reach_all(
    rt: &impl Abort,
    alloc: Global,
    net: &Network,
    terminals: &[u32],
    k: usize,
) -> bool {
    let waves = Waves(SHARE * u64::from(net.len()));
    let outcome = stages(rt, alloc, net, terminals, k, &waves);
    outcome.is_finished && 0 < outcome.greatest && outcome.is(outcome.greatest, outcome.greatest)
}

/// How many layers there are, and how many nodes in each.
const LAYERS: u32 = 16;

const WIDTH: u32 = 16;

/// Joins the nodes in layers: each with four of the next layer, the first layer with the source, and the last with the
/// sink, which are nodes 1 and 2. Answers whether all arcs were added.
#[must_use]
fn add_layers(net: &mut Network, state: u64) -> bool {
    let mut random = Random { state };
    for place in 0..LAYERS * WIDTH {
        let node = 3 + place;
        let next = (place / WIDTH + 1) * WIDTH + 3;
        let mut is_added = true;
        if place < WIDTH {
            is_added = add(net, 1, node, 1 + random.below(400));
        }
        for _ in 0..4 {
            let to = if next < 3 + LAYERS * WIDTH {
                next + random.below(u64::from(WIDTH)) as u32
            } else {
                2
            };
            is_added = is_added && add(net, node, to, 1 + random.below(100));
        }
        if !is_added {
            return false;
        }
    }
    true
}

/// Whether waves reach all in layers that a number determines.
fn are_filled_layers(rt: &impl Abort, alloc: Global, state: u64) -> bool {
    let mut net = Network::new(alloc, LAYERS * WIDTH + 2);
    let is_added = add_layers(&mut net, state);
    let is_filled = waves_reach_all(rt, alloc, &net, &[1, 2], 1);
    is_added && is_filled
}

#[test]
fn waves_fill_layers(rt: HostRuntime) {
    for state in 1u64..20 {
        assert!(rt; are_filled_layers(&rt, rt.alloc(), state));
    }
}

/// How many crossroads a road map has from west to east, and from north to south.
const SIDE: u32 = 18;

/// Adds a street in both directions between two crossroads, or none in one of seven cases. Answers whether its arcs
/// were added.
#[must_use]
fn add_street(net: &mut Network, random: &mut Random, one: u32, other: u32) -> bool {
    if random.below(7) == 0 {
        return true;
    }
    let cap = 1 + random.below(2000);
    add(net, one, other, cap) && add(net, other, one, cap)
}

/// Adds the streets of a map to the east and to the south. Answers whether all were added.
#[must_use]
fn add_streets(net: &mut Network, state: u64) -> bool {
    let mut random = Random { state };
    for place in 0..SIDE * SIDE {
        let node = 1 + place;
        if place % SIDE + 1 < SIDE && !add_street(net, &mut random, node, node + 1) {
            return false;
        }
        if place + SIDE < SIDE * SIDE && !add_street(net, &mut random, node, node + SIDE) {
            return false;
        }
    }
    true
}

/// Two crossroads in the west and two in the east.
const ENDS: &[u32] = &[SIDE * 5 + 1, SIDE * 12 + 1, SIDE * 5, SIDE * 12];

/// Whether waves reach all from the west to the east of a map that a number determines.
fn are_filled_roads(rt: &impl Abort, alloc: Global, state: u64) -> bool {
    let mut net = Network::new(alloc, SIDE * SIDE);
    let is_added = add_streets(&mut net, state);
    let is_filled = waves_reach_all(rt, alloc, &net, ENDS, 2);
    is_added && is_filled
}

#[test]
fn waves_fill_roads(rt: HostRuntime) {
    for state in 1u64..20 {
        assert!(rt; are_filled_roads(&rt, rt.alloc(), state));
    }
}

/// How many nodes each of the two chains has.
const CHAIN: u32 = 60;

/// Adds two chains with rungs between them, from node 1 to node 2, by which each augmenting path is longer than the one
/// before (Cherkassky and Goldberg 1997). Answers whether all arcs were added.
#[must_use]
fn add_growing_paths(net: &mut Network) -> bool {
    let mut is_added = add(net, 1, 3, u64::from(CHAIN));
    for i in 0..CHAIN {
        let (node, other) = (3 + i, 3 + CHAIN + i);
        let rest = u64::from(CHAIN - 1 - i);
        if i + 1 < CHAIN {
            is_added = is_added && add(net, node, node + 1, rest);
            is_added = is_added && add(net, other, other + 1, u64::from(i + 1));
        }
        is_added = is_added && add(net, node, 2 + 2 * CHAIN - i, 1);
    }
    is_added && add(net, 2 + 2 * CHAIN, 2, u64::from(CHAIN))
}

#[test]
fn waves_fill_growing_paths(rt: HostRuntime) {
    let mut net = Network::new(rt.alloc(), 2 + 2 * CHAIN);
    let is_added = add_growing_paths(&mut net);
    let is_filled = waves_reach_all(&rt, rt.alloc(), &net, &[1, 2], 1);
    assert!(rt; is_added && is_filled);
}
