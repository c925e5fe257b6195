//! Runs of `connect` and `check` over memory, and large problems.

use crate::tools::nets::{NET_A, NET_B, NET_C, NET_D, NO_ARCS};
use crate::tools::runs::{
    CHECK, CUT, DIRECTED, DIRECTED_PAIR, UNDIRECTED, UNDIRECTED_PAIR, VALUE, answer_both,
    is_answered,
};
use flow_net::Arc;
use flow_text::{arc_line, flow_line};
use flow_tools::Job;
use flow_tools::memory::Script;
use std::alloc::Global;

/// A ring of three arcs of capacity 0.
const RING: &[u8] = b"p max 3 3\nn 1 s\nn 3 t\na 1 2 0\na 2 3 0\na 3 1 0\n";

const OPPOSITE: &[u8] = b"p max 2 3\nn 1 s\nn 2 t\na 1 2 1\na 1 2 1\na 2 1 1\n";

const ONLY_A_LOOP: &[u8] = b"p max 2 1\nn 1 s\nn 2 t\na 1 1 5\n";

/// Which connectivity is asked for, a problem, and the line that tells it.
type Connected = (Job, &'static [u8], &'static [u8]);

const CONNECTIVITIES: &[Connected] = &[
    (DIRECTED, NO_ARCS, b"k 0\n"),
    (UNDIRECTED, NO_ARCS, b"k 0\n"),
    (DIRECTED_PAIR, NO_ARCS, b"k 0\n"),
    (UNDIRECTED_PAIR, NO_ARCS, b"k 0\n"),
    (DIRECTED, RING, b"k 1\n"),
    (UNDIRECTED, RING, b"k 2\n"),
    (DIRECTED_PAIR, RING, b"k 1\n"),
    (UNDIRECTED_PAIR, RING, b"k 2\n"),
    (DIRECTED, NET_A, b"k 0\n"),
    (UNDIRECTED, NET_A, b"k 2\n"),
    (DIRECTED_PAIR, NET_A, b"k 2\n"),
    (UNDIRECTED_PAIR, NET_A, b"k 2\n"),
    (DIRECTED, OPPOSITE, b"k 1\n"),
    (UNDIRECTED, OPPOSITE, b"k 3\n"),
    (DIRECTED_PAIR, OPPOSITE, b"k 2\n"),
    (UNDIRECTED_PAIR, OPPOSITE, b"k 3\n"),
    (DIRECTED, ONLY_A_LOOP, b"k 0\n"),
    (UNDIRECTED, ONLY_A_LOOP, b"k 0\n"),
    (DIRECTED_PAIR, ONLY_A_LOOP, b"k 0\n"),
    (UNDIRECTED_PAIR, ONLY_A_LOOP, b"k 0\n"),
    // All that leaves the two sources passes one arc.
    (DIRECTED_PAIR, NET_D, b"k 1\n"),
];

/// Whether a problem alone, from pieces of 4,096 bytes, is answered so.
fn answers(alloc: Global, job: Job, problem: &[u8], text: &[u8]) -> bool {
    is_answered(alloc, job, Script::new(problem, 4096, false, 0), text, b"")
}

#[test]
fn connectivities(rt: HostRuntime) {
    for &(job, problem, text) in CONNECTIVITIES {
        assert!(rt; answers(rt.alloc(), job, problem, text));
    }
}

const OPTIMAL_OF_A: &[u8] = b"s 5\nf 3 4 3\nf 2 4 2\nf 2 3 1\nf 1 3 2\nf 1 2 3\n";

const ONE_ARC: &[u8] = b"p max 3 1\nn 1 s\nn 3 t\na 1 2 4\n";

/// An arc of the greatest capacity from the sink to the source.
const BACK: &[u8] = b"p max 2 1\nn 1 s\nn 2 t\na 2 1 18446744073709551615\n";

/// A job, a problem and a solution, what the run puts and tells, and its status.
type Checked = (
    Job,
    &'static [u8],
    &'static [u8],
    &'static [u8],
    &'static [u8],
    u8,
);

const VERDICTS: &[Checked] = &[
    (CHECK, NET_A, OPTIMAL_OF_A, b"optimal 5\n", b"", 0),
    (CHECK, NET_A, b"s 0\n", b"not-maximal 0\n", b"", 1),
    (CHECK, NET_C, b"s 5\nf 1 2 5\n", b"optimal 5\n", b"", 0),
    (CHECK, NET_C, b"s 6\nf 1 2 6\n", b"over 1 2 6 5\n", b"", 1),
    (
        CHECK,
        NET_B,
        b"s 1\nf 1 2 1\n",
        b"unbalanced 2 1 0\n",
        b"",
        1,
    ),
    (
        CHECK,
        NET_B,
        b"s 1\nf 1 2 2\nf 2 3 2\n",
        b"value 1 2\n",
        b"",
        1,
    ),
    (CHECK, NET_C, b"s 0\nf 2 1 3\n", b"value 0 -3\n", b"", 1),
    (
        CHECK,
        NET_D,
        b"s 3\nf 1 3 2\nf 2 3 1\nf 3 4 3\n",
        b"optimal 3\n",
        b"",
        0,
    ),
    // Both pairs are over, and the least is told.
    (
        CHECK,
        ONE_ARC,
        b"s 0\nf 2 3 1\nf 1 3 1\n",
        b"over 1 3 1 0\n",
        b"",
        1,
    ),
    // A flow line of 0 on a pair without an arc changes nothing.
    (
        CHECK,
        NET_B,
        b"s 1\nf 1 2 1\nf 2 3 1\nf 2 2 0\n",
        b"not-maximal 1\n",
        b"",
        1,
    ),
    (
        CHECK,
        BACK,
        b"s 0\nf 2 1 18446744073709551615\n",
        b"value 0 -18446744073709551615\n",
        b"",
        1,
    ),
    (
        Job::Check {
            feasible_only: true,
        },
        NET_A,
        b"s 0\n",
        b"feasible 0\n",
        b"",
        0,
    ),
];

/// Faults of solutions. The solution is left alone where the problem is empty.
const FAULTS: &[Checked] = &[
    (
        CHECK,
        NET_B,
        b"f 1 2 1\n",
        b"",
        b"flow: solution line 1: solution line missing\n",
        3,
    ),
    (
        CHECK,
        NET_A,
        b"s 5\nx\n",
        b"",
        b"flow: solution line 2: unknown line\n",
        3,
    ),
    (
        CHECK,
        b"",
        OPTIMAL_OF_A,
        b"",
        b"flow: line 1: problem line missing\n",
        3,
    ),
];

/// Whether a solution that comes in pieces of 5 bytes is checked as told, and is left alone where the problem is empty
/// alone.
fn is_checked(alloc: Global, checked: &Checked) -> bool {
    let (job, problem, solution, out, err, status) = *checked;
    let ended = answer_both(
        alloc,
        job,
        Script::new(problem, 4096, false, 0),
        Script::new(solution, 5, false, 0),
    );
    let is_pulled = ended.solution_pulls > 0;
    ended.has_left(out, err, status) && is_pulled != problem.is_empty()
}

#[test]
fn verdicts(rt: HostRuntime) {
    for checked in VERDICTS {
        assert!(rt; is_checked(rt.alloc(), checked));
    }
}

#[test]
fn faults_of_solutions(rt: HostRuntime) {
    for checked in FAULTS {
        assert!(rt; is_checked(rt.alloc(), checked));
    }
}

/// Appends the line of an arc, and answers whether there is memory.
#[must_use]
fn add_arc(text: &mut Vec<u8>, src: u32, dst: u32, cap: u64) -> bool {
    text.extend_from_slice(arc_line(Arc { src, dst, cap }).as_slice())
        .is_ok()
}

/// Puts a ring of 2,000 nodes with a chord into an empty text, and answers whether there is memory.
#[must_use]
fn put_ring(text: &mut Vec<u8>) -> bool {
    let mut is_put = text
        .extend_from_slice(b"p max 2000 2001\nn 1 s\nn 2000 t\n")
        .is_ok();
    for v in 1..2000 {
        is_put = add_arc(text, v, v + 1, 1) && is_put;
    }
    // The chord makes the numbers of links at its ends odd, so that flows have to find the answer.
    is_put && add_arc(text, 2000, 1, 1) && add_arc(text, 1, 1000, 1)
}

#[test]
fn a_ring_of_2000_nodes_with_a_chord(rt: HostRuntime) {
    let mut text: Vec<u8> = Vec::new(rt.alloc());
    let is_put = put_ring(&mut text);
    let is_directed = answers(rt.alloc(), DIRECTED, text.as_slice(), b"k 1\n");
    let is_undirected = answers(rt.alloc(), UNDIRECTED, text.as_slice(), b"k 2\n");
    assert!(rt; is_put && is_directed && is_undirected);
}

/// Puts a chain of 100,000 nodes.
#[must_use]
fn put_chain(text: &mut Vec<u8>) -> bool {
    let mut is_put = text
        .extend_from_slice(b"p max 100000 99999\nn 1 s\nn 100000 t\n")
        .is_ok();
    for i in 1..100000 {
        let v = 100000 - i;
        is_put = add_arc(text, v, v + 1, v as u64) && is_put;
    }
    is_put
}

#[test]
fn a_chain_of_100000_nodes(rt: HostRuntime) {
    let mut text: Vec<u8> = Vec::new(rt.alloc());
    let is_put = put_chain(&mut text);
    let is_cut = answers(rt.alloc(), CUT, text.as_slice(), b"s 1\nn 1\n");
    assert!(rt; is_put && is_cut);
}

#[test]
fn the_most_nodes_without_arcs(rt: HostRuntime) {
    let problem = b"p max 1000000 0\nn 1 s\nn 1000000 t\n".as_slice();
    assert!(rt; answers(rt.alloc(), CUT, problem, b"s 0\nn 1\n"));
}

/// Puts a star of 200,002 nodes.
#[must_use]
fn put_star(text: &mut Vec<u8>) -> bool {
    let mut is_put = text
        .extend_from_slice(b"p max 200002 400000\nn 1 s\nn 200002 t\n")
        .is_ok();
    for v in 2..200002 {
        is_put = add_arc(text, 1, v, 1) && add_arc(text, v, 200002, 1) && is_put;
    }
    is_put
}

#[test]
fn a_star_of_200002_nodes(rt: HostRuntime) {
    let mut text: Vec<u8> = Vec::new(rt.alloc());
    let is_put = put_star(&mut text);
    let is_so = answers(rt.alloc(), VALUE, text.as_slice(), b"s 200000\n");
    assert!(rt; is_put && is_so);
}

/// Puts a solution of 100,000 lines of 1 on one arc.
#[must_use]
pub(super) fn put_lines(text: &mut Vec<u8>) -> bool {
    let mut is_put = text.extend_from_slice(b"s 100000\n").is_ok();
    for _ in 0..100000 {
        is_put = text
            .extend_from_slice(flow_line(1, 2, 1).as_slice())
            .is_ok()
            && is_put;
    }
    is_put
}

/// Whether a solution of an arc with capacity 100,000 is optimal.
fn is_optimal(alloc: Global, solution: &[u8]) -> bool {
    let ended = answer_both(
        alloc,
        CHECK,
        Script::new(b"p max 2 1\nn 1 s\nn 2 t\na 1 2 100000\n", 4096, false, 0),
        Script::new(solution, 4096, false, 0),
    );
    ended.has_left(b"optimal 100000\n", b"", 0)
}

#[test]
fn a_solution_of_100000_lines_on_one_arc(rt: HostRuntime) {
    let mut text: Vec<u8> = Vec::new(rt.alloc());
    let is_put = put_lines(&mut text);
    let is_optimal = is_optimal(rt.alloc(), text.as_slice());
    assert!(rt; is_put && is_optimal);
}
