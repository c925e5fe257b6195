//! Near sends: what they alone reach on an assignment, by hand, in a dense network, on random networks, and where they
//! are left.
use super::*;

/// Near sends alone, and how much they may take.
#[derive(Drop)]
struct Near(u64);

impl Stage for Near {
    fn begin(&self, task: Task<'_>, flow: &mut FlowTable, cells: &mut [u32]) -> bool {
        send_near(task, flow, cells, self.0);
        false
    }
}

/// How many workers there are, and how many jobs.
const WORKERS: u32 = 100;

/// Adds the workers and the jobs: each worker may do three jobs, or fewer where one is drawn twice. Answers whether all
/// arcs were added.
#[must_use]
fn add_workers(net: &mut Network) -> bool {
    let mut random = Random { state: 1955 };
    for i in 0..WORKERS {
        let worker = 3 + i;
        let job = 3 + WORKERS + i;
        if !add(net, 1, worker, 1) || !add(net, job, 2, 1) {
            return false;
        }
        for _ in 0..3 {
            let other = 3 + WORKERS + random.below(u64::from(WORKERS)) as u32;
            if !add(net, worker, other, 1) {
                return false;
            }
        }
    }
    true
}

/// No contract tells whether near sends bring anything.
#[test]
fn near_sends_fill_most_of_an_assignment(rt: HostRuntime) {
    let mut net = Network::new(rt.alloc(), 2 + 2 * WORKERS);
    let is_added = add_workers(&mut net);
    let outcome = stages(&rt, rt.alloc(), &net, &[1, 2], 1, &Near(allowance(&net)));
    let is_most = outcome.greatest.saturating_mul(4) < outcome.reached.saturating_mul(5);
    assert!(rt; is_added && is_most && 90 < outcome.greatest && outcome.is_possible());
}

/// How many nodes the dense network has, with an arc from each to every later one.
const MANY: u32 = 80;

/// Adds the arcs. Answers whether all were added.
#[must_use]
fn add_many(net: &mut Network) -> bool {
    let mut random = Random { state: 1990 };
    for i in 1..MANY {
        for j in i + 1..=MANY {
            if !add(net, i, j, 1 + random.below(1000)) {
                return false;
            }
        }
    }
    true
}

/// In a dense network more than half of the flow goes over one node or two.
#[test]
fn near_sends_fill_half_of_a_dense_network(rt: HostRuntime) {
    let mut net = Network::new(rt.alloc(), MANY);
    let is_added = add_many(&mut net);
    let outcome = stages(&rt, rt.alloc(), &net, &[1, MANY], 1, &Near(allowance(&net)));
    let is_half = outcome.greatest < outcome.reached.saturating_mul(2);
    assert!(rt; is_added && is_half && outcome.is_possible() && outcome.is_between());
}

/// Arcs, what near sends reach on them from node 1 to node 6, and the greatest value.
const NEAR: &[(&[Triple], u128, u128)] = &[
    // Over one node, and then over two.
    (&[(1, 2, 5), (2, 6, 2), (2, 3, 9), (3, 6, 2)], 4, 4),
    (&[(1, 2, 1), (2, 6, 5), (1, 3, 4), (3, 2, 4)], 5, 5),
    // Node 2 comes first, which can take but 1 of the 5 from the source: what comes over node 3 still ends by it.
    (
        &[(1, 3, 4), (3, 2, 4), (1, 2, 1), (2, 6, 5), (4, 6, 1)],
        5,
        5,
    ),
    // Over two nodes to each of three.
    (
        &[
            (1, 2, 9),
            (2, 3, 2),
            (2, 4, 3),
            (2, 5, 4),
            (3, 6, 3),
            (4, 6, 3),
            (5, 6, 3),
        ],
        8,
        8,
    ),
    // The arc from the source to the sink is left to the trees, and so is a path over three nodes.
    (
        &[(1, 6, 7), (1, 2, 1), (2, 3, 1), (3, 4, 1), (4, 6, 1)],
        0,
        8,
    ),
    // What leaves the sink, or enters the source, doesn't count.
    (&[(1, 6, 7), (6, 2, 5), (2, 6, 5), (2, 1, 5)], 0, 7),
    // Against the arcs nothing goes.
    (
        &[(2, 1, 1), (6, 2, 1), (1, 3, 1), (4, 3, 1), (4, 6, 1)],
        0,
        0,
    ),
    // Of two opposite arcs each is one of its own.
    (
        &[(1, 2, 4), (3, 2, 5), (2, 3, 1), (3, 6, 4), (6, 3, 2)],
        1,
        1,
    ),
];

#[test]
fn near_sends_by_hand(rt: HostRuntime) {
    for &(arcs, reached, greatest) in NEAR {
        let outcome = stages_on_six(&rt, rt.alloc(), arcs, &Near(1000));
        assert!(rt; outcome.is(reached, greatest));
    }
}

impl Allowed for Near {
    fn allowed(allowance: u64) -> Near {
        Near(allowance)
    }
}

#[test]
fn near_sends_that_are_left(rt: HostRuntime) {
    let (arcs, value, _) = NEAR[0];
    assert!(rt; rises::<Near>(&rt, rt.alloc(), arcs, value, 100));
}

impl Limited for Near {
    fn limited(random: &mut Random, most: u64) -> Near {
        Near(random.below(most))
    }
}

#[test]
fn near_sends_on_random_networks(rt: HostRuntime) {
    let draws = Draws {
        state: 1957,
        times: 6000,
        more: 12,
        arcs: 90,
        most: 200,
    };
    let tally = run_on_random_networks::<Near>(&rt, rt.alloc(), draws);
    assert!(rt; tally.tried > 2000 && tally.between > 20);
}
