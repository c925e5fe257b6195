//! Search trees: what they alone reach by hand, on an image, beside a hub, and on random networks, and where they are
//! left.
ghost use Rattle.std.specs.Prelude.{◌≤◌};

use super::*;

/// The search trees, and how much they may take.
#[derive(Drop)]
struct Trees(u64);

impl Stage for Trees {
    fn begin(&self, task: Task<'_>, flow: &mut FlowTable, cells: &mut [u32]) -> bool {
        grow_trees(task, flow, cells, self.0)
    }
}

/// Arcs on which the trees come to an end of themselves, and the greatest value. Node 1 is the source and node 6 the
/// sink.
const GROWN: &[(&[Triple], u128)] = &[
    (&[(1, 2, 3), (2, 6, 2), (1, 3, 4), (3, 6, 5), (1, 6, 7)], 13),
    // The half-arc from node 1 to node 2 is filled first: node 2 is an orphan that has to be raised.
    (&[(1, 2, 1), (2, 6, 5), (1, 3, 4), (3, 2, 4)], 5),
    // Nothing leads to the sink.
    (&[(2, 1, 3), (3, 6, 2), (1, 1, 9), (1, 4, 8)], 0),
];

#[test]
fn trees_that_end_of_themselves(rt: HostRuntime) {
    for &(arcs, value) in GROWN {
        let outcome = stages_on_six(&rt, rt.alloc(), arcs, &Trees(1000));
        assert!(rt; outcome.is(value, value));
    }
}

impl Allowed for Trees {
    fn allowed(allowance: u64) -> Trees {
        Trees(allowance)
    }
}

#[test]
fn trees_that_are_left(rt: HostRuntime) {
    let (arcs, value) = GROWN[0];
    assert!(rt; rises::<Trees>(&rt, rt.alloc(), arcs, value, 200));
}

impl Limited for Trees {
    fn limited(random: &mut Random, most: u64) -> Trees {
        Trees(random.below(most))
    }
}

#[test]
fn trees_agree_on_random_networks(rt: HostRuntime) {
    let draws = Draws {
        state: 1970,
        times: 6000,
        more: 5,
        arcs: 15,
        most: 60,
    };
    let tally = run_on_random_networks::<Trees>(&rt, rt.alloc(), draws);
    assert!(rt; tally.tried > 2000 && tally.between > 20);
}

/// The columns and rows of the image.
const COLUMNS: u32 = 20;

const ROWS: u32 = 15;

/// Adds the arcs of a pixel: one from the source or to the sink, and two to each neighbour on the right and below.
#[must_use]
fn add_pixel(net: &mut Network, random: &mut Random, column: u32, row: u32) -> bool
    requires column { column ≤ 20 }
    requires row { row ≤ 15 }
{
    let pixel = 3 + row * COLUMNS + column;
    let likely = random.below(100);
    let added = if random.below(2) == 0 {
        add(net, 1, pixel, likely)
    } else {
        add(net, pixel, 2, likely)
    };
    let cap = 1 + random.below(30);
    let right = column + 1 >= COLUMNS
        || add(net, pixel, pixel + 1, cap) && add(net, pixel + 1, pixel, cap);
    let below = row + 1 >= ROWS
        || add(net, pixel, pixel + COLUMNS, cap) && add(net, pixel + COLUMNS, pixel, cap);
    added && right && below
}

/// Adds the pixels. Answers whether all arcs were added.
#[must_use]
fn add_image(net: &mut Network) -> bool {
    let mut random = Random { state: 2004 };
    for row in 0..ROWS {
        for column in 0..COLUMNS {
            if !add_pixel(net, &mut random, column, row) {
                return false;
            }
        }
    }
    true
}

/// No contract tells whether the trees bring anything.
#[test]
fn trees_alone_cut_an_image(rt: HostRuntime) {
    let mut net = Network::new(rt.alloc(), 2 + COLUMNS * ROWS);
    let is_added = add_image(&mut net);
    let outcome = stages(&rt, rt.alloc(), &net, &[1, 2], 1, &Trees(allowance(&net)));
    let is_cut = 1000 < outcome.greatest && outcome.is_finished && outcome.is_possible();
    assert!(rt; is_added && is_cut);
}

/// How many leaves the hub has, and how many paths lead to it and from it.
const LEAVES: u32 = 3000;

const WAYS: u32 = 64;

/// Adds a path of arcs with capacity 1 over so many nodes of its own, the first of which is given.
#[must_use]
fn add_path(net: &mut Network, src: u32, dst: u32, first: u32, len: u32) -> bool {
    let mut node = src;
    for i in 0..len {
        let next = first.saturating_add(i);
        if !add(net, node, next, 1) {
            return false;
        }
        node = next;
    }
    add(net, node, dst, 1)
}

/// Adds the leaves, each with an arc from the hub, node 3, and one to it. Answers whether all were added.
#[must_use]
fn add_leaves(net: &mut Network) -> bool {
    for leaf in 4..4 + LEAVES {
        if !add(net, 3, leaf, 1) || !add(net, leaf, 3, 1) {
            return false;
        }
    }
    true
}

/// Adds the paths, longer and longer ones. Answers whether all were added.
#[must_use]
fn add_ways(net: &mut Network) -> bool {
    let mut fresh = 4 + LEAVES;
    for way in 1..=WAYS {
        let middle = fresh.saturating_add(way);
        if !add_path(net, 1, 3, fresh, way) || !add_path(net, 3, 2, middle, way) {
            return false;
        }
        fresh = middle.saturating_add(way);
    }
    true
}

/// Each augmentation fills the shortest way to a hub and the shortest way from it, so that one of the trees has to move
/// the hub with all of its leaves. That costs more than it earns, and the trees leave, however much they may take.
#[test]
fn trees_are_tired_of_a_hub(rt: HostRuntime) {
    let mut net = Network::new(rt.alloc(), 3 + LEAVES + WAYS * (WAYS + 1));
    let is_added = add_leaves(&mut net) && add_ways(&mut net);
    let outcome = stages(&rt, rt.alloc(), &net, &[1, 2], 1, &Trees(u64::MAX / 2));
    let is_tired = 0 < outcome.reached && outcome.reached < u128::from(WAYS);
    assert!(rt; is_added && is_tired && !outcome.is_finished);
}

/// No contract tells that the trees mostly end with a flow that the test shows to be greatest.
#[test]
fn trees_on_random_networks(rt: HostRuntime) {
    let draws = Draws {
        state: 2011,
        times: 4000,
        more: 30,
        arcs: 90,
        most: 1000,
    };
    let tally = run_on_random_networks::<Trees>(&rt, rt.alloc(), draws);
    assert!(rt; tally.finished > 1000 && tally.between > 100);
}

#[test]
fn trees_with_no_allowance(rt: HostRuntime) {
    let outcome = stages_on_six(&rt, rt.alloc(), &[(1, 2, 3), (2, 6, 2)], &Trees(0));
    assert!(rt; outcome.reached == 0 && !outcome.is_finished);
}
