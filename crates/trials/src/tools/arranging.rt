//! Problems whose lines come in no order, which are arranged before they are solved, against the same problems with
//! their lines in order, which aren't.
ghost use Rattle.std.specs.Prelude.{◌≡◌, ℕ, ◌<◌, ◌≤◌, ◌+◌, ◌*◌, List, length, IsTrue};
ghost use Rattle.flow_net.specs.Namings.{AreInverse};

use crate::tools::nets::add_arc;
use crate::tools::runs::{
    CHECK, CUT, CUT_SINK, DIRECTED, DIRECTED_PAIR, SOLVE, UNDIRECTED, UNDIRECTED_PAIR, VALUE,
};
use flow_net::{Arc, Network, arrange, is_scattered, name_nodes};
use flow_text::{FlowLine, SolutionReader, arc_line};
use flow_tools::{Job, run_on_texts};
use std::alloc::Global;
use std::process::Abort;

/// How many nodes each network has, and how many arcs: three for each node.
const NODES: u32 = 3000;

const ARCS: u32 = 9000;

/// A step that comes to each arc once, in turns round all of them, and from one arc far away to the next.
const FAR_STEP: u32 = 4231;

/// The lines of a problem but those of its arcs. Its terminals are the first two nodes and the last two, by their
/// names.
const HEAD: &[u8] = b"p max 3000 9000\nn 1 s\nn 1238 s\nn 1764 t\nn 527 t\n";

/// The name of a node, of which there are so many: not in order either.
fn name(place: u32) -> u32
    requires { place < NODES }
    ensures least { 1 ≤ result }
    ensures most { result ≤ NODES }
{
    place * 1237 % NODES + 1
}

/// A number below another, by the high bits of what a fixed sequence has at a place.
fn below(seed: u64, place: u32, most: u32) -> u32
    requires { 1 ≤ most }
    ensures { result < most }
{
    let mixed = seed
        .wrapping_add(place as u64)
        .wrapping_mul(6364136223846793005)
        .wrapping_add(1442695040888963407)
        .wrapping_mul(6364136223846793005);
    ((mixed >> 40) % most as u64) as u32
}

/// An arc of the network that a number determines: from a node to one of the thirty after it, or, for each third arc,
/// to one of the thirty before it, in a circle.
fn arc_at(seed: u64, place: u32) -> Arc
    requires { place < ARCS }
    ensures src_least { 1 ≤ result.src }
    ensures src_most { result.src ≤ NODES }
    ensures dst_least { 1 ≤ result.dst }
    ensures dst_most { result.dst ≤ NODES }
{
    let from = place / 3;
    let far = 1 + below(seed, place, 30);
    let ahead = if place % 3 == 2 { NODES - far } else { far };
    Arc {
        src: name(from),
        dst: name((from + ahead) % NODES),
        cap: 1 + below(seed, place + ARCS, 1000) as u64,
    }
}

/// Puts the problem that a number determines into an empty text, its arcs in turns of a step, and answers whether there
/// is memory.
#[must_use]
fn put_problem(text: &mut Vec<u8>, seed: u64, step: u32) -> bool
    requires { step < ARCS }
{
    let mut is_put = text.extend_from_slice(HEAD).is_ok();
    for i in 0..ARCS {
        let line = arc_line(arc_at(seed, i * step % ARCS));
        is_put = text.extend_from_slice(line.as_slice()).is_ok() && is_put;
    }
    is_put
}

/// Its network, where wanted with the opposite of each arc behind it.
fn network(alloc: Global, seed: u64, step: u32, both_ways: bool) -> Option<Network>
    requires { step < ARCS }
{
    let mut net = Network::new(alloc, NODES);
    for i in 0..ARCS {
        let arc = arc_at(seed, i * step % ARCS);
        let opposite = Arc {
            src: arc.dst,
            dst: arc.src,
            cap: arc.cap,
        };
        if !add_arc(&mut net, arc) || (both_ways && !add_arc(&mut net, opposite)) {
            return None;
        }
    }
    Some(net)
}

/// Whether its arcs come in no order; nothing without memory.
fn is_scattered_in_steps(alloc: Global, seed: u64, step: u32, both_ways: bool) -> Option<bool>
    requires { step < ARCS }
{
    let net = network(alloc, seed, step, both_ways)?;
    Some(is_scattered(&net, 1, 1764))
}

/// Names the nodes of a network by a search from its sinks, in lent cells, and answers whether each has a name.
fn find_names(net: &Network, names: &mut [u32], cells: &mut [u32]) -> bool
    requires names { length names.old ≡ net.now.nodes }
    requires cells { 2 * net.now.nodes + 2 * length net.now.arcs + 1 ≤ length cells.old }
    ensures { IsTrue result → (nodes : List ℕ) × AreInverse net.now.nodes names.new nodes }
{
    let (nodes, work) = cells.split_at_mut(net.nodes() as usize);
    name_nodes(net, &[1764, 527], nodes, names, work)
}

/// Whether the arcs of a network come in no order, from source 1 to sink 1764, once it is arranged in a list of arcs
/// from 0 and in lent cells. Nothing where that isn't found.
fn is_scattered_once_arranged(
    net: &Network,
    arcs: Vec<Arc>,
    names: &mut [u32],
    cells: &mut [u32],
) -> Option<bool>
    requires sink { 1764 ≤ net.now.nodes }
    requires arcs { length arcs.items ≡ length net.now.arcs }
    requires names { length names.old ≡ net.now.nodes }
    requires cells { 2 * net.now.nodes + 2 * length net.now.arcs + 1 ≤ length cells.old }
{
    if !find_names(net, names, cells) {
        return None;
    }
    let (spots, rest) = cells.split_at_mut(net.len() as usize);
    let (counts, _) = rest.split_at_mut(net.nodes() as usize);
    let copy = arrange(net, names, arcs, spots, counts)?;
    Some(is_scattered(&copy, names[0], names[1763]))
}

/// The same of the network that a number determines, its arcs far apart.
fn is_scattered_arranged(rt: &impl Abort, alloc: Global, seed: u64) -> Option<bool> {
    let net = network(alloc, seed, FAR_STEP, false).expect(rt, "memory");
    let n = net.nodes() as usize;
    let m = net.len() as usize;
    let no_arc = Arc {
        src: 0,
        dst: 0,
        cap: 0,
    };
    let arcs = Vec::from_elem(alloc, no_arc, m).expect(rt, "memory");
    let mut cells = Vec::from_elem(alloc, 0u32, 3 * n + 2 * m + 1).expect(rt, "memory");
    if net.nodes() != NODES {
        return None;
    }
    let (names, rest) = cells.as_mut_slice().split_at_mut(n);
    is_scattered_once_arranged(&net, arcs, names, rest)
}

/// What a job puts, or nothing where it ends with a fault or without memory.
fn answer(alloc: Global, job: Job, problem: &[u8], solution: &[u8]) -> Option<Vec<u8>> {
    let mut out: Vec<u8> = Vec::new(alloc);
    let mut err: Vec<u8> = Vec::new(alloc);
    let ended = run_on_texts(alloc, job, problem, solution, &mut out, &mut err);
    match ended {
        Ok(0) => Some(out),
        _ => None,
    }
}

/// Whether each flow line stands where the arc of its two nodes stands in the scattered problem.
fn are_in_its_order(seed: u64, lines: &[FlowLine]) -> bool {
    if lines.len() != ARCS as usize {
        return false;
    }
    for i in 0..ARCS {
        let arc = arc_at(seed, i * FAR_STEP % ARCS);
        let line = lines[i as usize];
        if line.src != arc.src || line.dst != arc.dst || line.flow > arc.cap {
            return false;
        }
    }
    true
}

/// Whether the flow lines of a solution come in the order of the scattered problem; nothing where it can't be read.
fn follows_the_file(alloc: Global, seed: u64, solution: &[u8]) -> Option<bool> {
    let mut reader = SolutionReader::new(alloc, NODES);
    reader.feed(solution).ok()?;
    let solution = reader.finish().ok()?;
    Some(are_in_its_order(seed, solution.lines.as_slice()))
}

/// Jobs whose answers are the same in whichever order the arcs come.
const JOBS: &[Job] = &[
    VALUE,
    CUT,
    CUT_SINK,
    DIRECTED,
    DIRECTED_PAIR,
    UNDIRECTED,
    UNDIRECTED_PAIR,
];

/// The one order counts as none, and the other as an order, also where each edge is given both ways.
#[test]
fn arcs_far_apart_are_scattered(rt: HostRuntime) {
    for seed in 0..8 {
        let both_ways = seed % 2 == 1;
        let near = is_scattered_in_steps(rt.alloc(), seed, 1, both_ways);
        let far = is_scattered_in_steps(rt.alloc(), seed, FAR_STEP, both_ways);
        assert!(rt; near == Some(false) && far == Some(true));
    }
}

/// An arrangement counts as an order: so its names and the places of its arcs bring something.
#[test]
fn arranged_problems_are_in_order(rt: HostRuntime) {
    for seed in 0..4 {
        assert!(rt; is_scattered_arranged(&rt, rt.alloc(), seed) == Some(false));
    }
}

/// Whether a job answers two problems alike, and well.
fn is_alike(alloc: Global, job: Job, ordered: &[u8], scattered: &[u8]) -> bool {
    match (
        answer(alloc, job, ordered, b""),
        answer(alloc, job, scattered, b""),
    ) {
        (Some(one), Some(other)) => one.as_slice() == other.as_slice(),
        _ => false,
    }
}

/// Whether each job does.
fn are_alike(alloc: Global, ordered: &[u8], scattered: &[u8]) -> bool {
    for &job in JOBS {
        if !is_alike(alloc, job, ordered, scattered) {
            return false;
        }
    }
    true
}

/// Whether the flow that is found of the scattered problem is told in its order, and is greatest in both.
fn is_solved(alloc: Global, seed: u64, ordered: &[u8], scattered: &[u8]) -> bool {
    let Some(solution) = answer(alloc, SOLVE, scattered, b"") else {
        return false;
    };
    follows_the_file(alloc, seed, solution.as_slice()) == Some(true)
        && answer(alloc, CHECK, ordered, solution.as_slice()).is_some()
        && answer(alloc, CHECK, scattered, solution.as_slice()).is_some()
}

/// Whether the problem that a number determines is answered in no order as in order.
fn is_answered_alike(alloc: Global, seed: u64) -> bool {
    let mut ordered: Vec<u8> = Vec::new(alloc);
    let mut scattered: Vec<u8> = Vec::new(alloc);
    let is_ordered = put_problem(&mut ordered, seed, 1);
    let is_scattered = put_problem(&mut scattered, seed, FAR_STEP);
    let are_alike = are_alike(alloc, ordered.as_slice(), scattered.as_slice());
    let is_solved = is_solved(alloc, seed, ordered.as_slice(), scattered.as_slice());
    is_ordered && is_scattered && are_alike && is_solved
}

/// The values and the cuts are the same, and a flow found in the arranged network is told by lines in the file's own
/// names and order, and greatest there.
#[test]
fn files_in_no_order_are_answered_as_those_in_order(rt: HostRuntime) {
    for seed in 0..4 {
        assert!(rt; is_answered_alike(rt.alloc(), seed));
    }
}
