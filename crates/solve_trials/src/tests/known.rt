//! Networks of which value and sides are known: what the textbook says of each.
use super::*;

/// A network, and what the solvers are to say of it. The first `k` terminals are the sources. The least source side and
/// the least sink side have a 1 for each node inside, and so as many numbers as there are nodes.
struct Known {
    name: &'static str,
    arcs: &'static [Triple],
    terminals: &'static [u32],
    k: usize,
    value: u128,
    side: &'static [u8],
    back: &'static [u8],
}

const KNOWN: &[Known] = &[
    Known {
        name: "two paths joined by an arc",
        arcs: &[(1, 2, 3), (1, 3, 2), (2, 3, 1), (2, 4, 2), (3, 4, 3)],
        terminals: &[1, 4],
        k: 1,
        value: 5,
        side: &[1, 0, 0, 0],
        back: &[0, 0, 0, 1],
    },
    Known {
        name: "two arcs in a row",
        arcs: &[(1, 2, 2), (2, 3, 2)],
        terminals: &[1, 3],
        k: 1,
        value: 2,
        side: &[1, 0, 0],
        back: &[0, 0, 1],
    },
    Known {
        name: "a wider first arc",
        arcs: &[(1, 2, 5), (2, 3, 2)],
        terminals: &[1, 3],
        k: 1,
        value: 2,
        side: &[1, 1, 0],
        back: &[0, 0, 1],
    },
    Known {
        name: "parallel and opposite arcs",
        arcs: &[(1, 2, 1), (1, 2, 4), (2, 1, 7)],
        terminals: &[1, 2],
        k: 1,
        value: 5,
        side: &[1, 0],
        back: &[0, 1],
    },
    Known {
        name: "two sources",
        arcs: &[(1, 3, 2), (2, 3, 2), (3, 4, 3)],
        terminals: &[1, 2, 4],
        k: 2,
        value: 3,
        side: &[1, 1, 1, 0],
        back: &[0, 0, 0, 1],
    },
    Known {
        name: "a self-loop",
        arcs: &[(1, 1, 9), (1, 2, 1_000_000_000_000)],
        terminals: &[1, 2],
        k: 1,
        value: 1_000_000_000_000,
        side: &[1, 0],
        back: &[0, 1],
    },
    Known {
        name: "two pairs apart",
        arcs: &[(1, 2, 5), (4, 3, 7)],
        terminals: &[1, 4, 2, 3],
        k: 2,
        value: 12,
        side: &[1, 0, 0, 1],
        back: &[0, 1, 1, 0],
    },
    Known {
        name: "an arc between sources",
        arcs: &[(1, 2, 4), (2, 3, 1)],
        terminals: &[1, 2, 3],
        k: 2,
        value: 1,
        side: &[1, 1, 0],
        back: &[0, 0, 1],
    },
    Known {
        name: "a node that no source reaches",
        arcs: &[(1, 2, 1), (2, 3, 1), (4, 3, 1)],
        terminals: &[1, 3],
        k: 1,
        value: 1,
        side: &[1, 0, 0, 0],
        back: &[0, 0, 1, 1],
    },
    Known {
        name: "no arcs",
        arcs: &[],
        terminals: &[1, 3],
        k: 1,
        value: 0,
        side: &[1, 0, 0],
        back: &[0, 0, 1],
    },
    Known {
        name: "the largest capacities",
        arcs: &[(1, 2, u64::MAX), (1, 2, u64::MAX), (1, 2, u64::MAX)],
        terminals: &[1, 2],
        k: 1,
        value: 55_340_232_221_128_654_845,
        side: &[1, 0],
        back: &[0, 1],
    },
    Known {
        name: "arcs from the sink",
        arcs: &[(2, 1, 3), (1, 3, 1), (3, 2, 1), (2, 2, 5)],
        terminals: &[1, 2],
        k: 1,
        value: 1,
        side: &[1, 0, 0],
        back: &[0, 1, 0],
    },
    Known {
        name: "two paths and a thin one between",
        arcs: &[
            (1, 2, 1_000_000_000_000),
            (1, 3, 1_000_000_000_000),
            (2, 3, 1),
            (2, 4, 1_000_000_000_000),
            (3, 4, 1_000_000_000_000),
        ],
        terminals: &[1, 4],
        k: 1,
        value: 2_000_000_000_000,
        side: &[1, 0, 0, 0],
        back: &[0, 0, 0, 1],
    },
    Known {
        name: "two nodes without an arc",
        arcs: &[],
        terminals: &[1, 2],
        k: 1,
        value: 0,
        side: &[1, 0],
        back: &[0, 1],
    },
    Known {
        name: "a self-loop and a capacity above a million millions",
        arcs: &[(1, 1, 9), (1, 2, 1_000_000_000_001)],
        terminals: &[1, 2],
        k: 1,
        value: 1_000_000_000_001,
        side: &[1, 0],
        back: &[0, 1],
    },
    Known {
        name: "a ring of capacities of 0",
        arcs: &[(1, 2, 0), (2, 3, 0), (3, 1, 0)],
        terminals: &[1, 3],
        k: 1,
        value: 0,
        side: &[1, 0, 0],
        back: &[0, 0, 1],
    },
    Known {
        name: "three parallel arcs",
        arcs: &[
            (1, 2, 1_000_000_000_000),
            (1, 2, 1_000_000_000_000),
            (1, 2, 1_000_000_000_000),
        ],
        terminals: &[1, 2],
        k: 1,
        value: 3_000_000_000_000,
        side: &[1, 0],
        back: &[0, 1],
    },
    Known {
        name: "two arcs and one back",
        arcs: &[(1, 2, 1), (1, 2, 1), (2, 1, 1)],
        terminals: &[1, 2],
        k: 1,
        value: 2,
        side: &[1, 0],
        back: &[0, 1],
    },
    Known {
        name: "a self-loop alone",
        arcs: &[(1, 1, 5)],
        terminals: &[1, 2],
        k: 1,
        value: 0,
        side: &[1, 0],
        back: &[0, 1],
    },
    Known {
        name: "an arc that ends before the sink",
        arcs: &[(1, 2, 4)],
        terminals: &[1, 3],
        k: 1,
        value: 0,
        side: &[1, 1, 0],
        back: &[0, 0, 1],
    },
    Known {
        name: "an arc from the sink alone",
        arcs: &[(2, 1, u64::MAX)],
        terminals: &[1, 2],
        k: 1,
        value: 0,
        side: &[1, 0],
        back: &[0, 1],
    },
    Known {
        name: "one arc",
        arcs: &[(1, 2, 100_000)],
        terminals: &[1, 2],
        k: 1,
        value: 100_000,
        side: &[1, 0],
        back: &[0, 1],
    },
];

/// Whether the nodes inside are those with a 1.
fn are_inside(marks: &[bool; 6], side: &[u8]) -> bool {
    if side.len() > 6 {
        return false;
    }
    for place in 0..side.len() {
        if u8::from(marks[place]) != side[place] {
            return false;
        }
    }
    true
}

/// Whether the solvers answer as told.
fn answers(rt: &impl Abort, alloc: Global, known: &Known) -> bool {
    let nodes = known.side.len();
    if nodes < 2 || 6 < nodes || known.back.len() != nodes {
        return false;
    }
    let net = network(rt, alloc, nodes as u32, known.arcs);
    let answer = solve(rt, alloc, &net, known.terminals, known.k);
    let agrees = agrees(rt, alloc, &net, known.terminals, known.k);
    let has_sides = are_inside(&answer.side, known.side) && are_inside(&answer.back, known.back);
    agrees && has_sides && answer.agree && answer.value == known.value
}

#[test]
fn known_answers(rt: HostRuntime) {
    for known in KNOWN {
        expect(&rt, answers(&rt, rt.alloc(), known), known.name);
    }
}
