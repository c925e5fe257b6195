//! The checker's verdicts, on problems and solutions that were read.
ghost use Rattle.std.specs.Prelude.{IfSome};
ghost use Rattle.flow_text.specs.SolutionReading.{IsWithinLimits, written_in};

use crate::tools::jobs::put_lines;
use crate::tools::nets::{NET_A, NET_B, NET_C, NET_D};
use flow_net::Problem;
use flow_text::{ProblemReader, Solution, SolutionReader, Verdict};
use flow_tools::check;
use std::alloc::Global;

/// A problem and a solution of it, whether it is only to be feasible, and what the checker says.
struct Case {
    name: &'static str,
    problem: &'static [u8],
    solution: &'static [u8],
    feasible_only: bool,
    verdict: Verdict,
}

const CASES: &[Case] = &[
    Case {
        name: "a greatest flow",
        problem: NET_A,
        solution: b"s 5\nf 3 4 3\nf 2 4 2\nf 2 3 1\nf 1 3 2\nf 1 2 3\n",
        feasible_only: false,
        verdict: Verdict::Optimal(5),
    },
    Case {
        name: "no flow",
        problem: NET_A,
        solution: b"s 0\n",
        feasible_only: false,
        verdict: Verdict::NotMaximal(0),
    },
    Case {
        name: "no flow that is only to be feasible",
        problem: NET_A,
        solution: b"s 0\n",
        feasible_only: true,
        verdict: Verdict::Feasible(0),
    },
    Case {
        name: "parallel arcs that share a total",
        problem: NET_C,
        solution: b"s 5\nf 1 2 5\n",
        feasible_only: false,
        verdict: Verdict::Optimal(5),
    },
    Case {
        name: "more than their total",
        problem: NET_C,
        solution: b"s 6\nf 1 2 6\n",
        feasible_only: false,
        verdict: Verdict::Over {
            src: 1,
            dst: 2,
            flow: 6,
            cap: 5,
        },
    },
    Case {
        name: "a flow into the source",
        problem: NET_C,
        solution: b"s 0\nf 2 1 3\n",
        feasible_only: false,
        verdict: Verdict::Value {
            given: 0,
            found: -3,
        },
    },
    Case {
        name: "a node that keeps what enters it",
        problem: NET_B,
        solution: b"s 1\nf 1 2 1\n",
        feasible_only: false,
        verdict: Verdict::Unbalanced {
            node: 2,
            into: 1,
            out: 0,
        },
    },
    Case {
        name: "another value than is given",
        problem: NET_B,
        solution: b"s 1\nf 1 2 2\nf 2 3 2\n",
        feasible_only: false,
        verdict: Verdict::Value { given: 1, found: 2 },
    },
    Case {
        name: "a line of 0 on a pair without an arc",
        problem: NET_B,
        solution: b"s 1\nf 1 2 1\nf 2 3 1\nf 2 2 0\n",
        feasible_only: false,
        verdict: Verdict::NotMaximal(1),
    },
    Case {
        name: "two pairs that are over, of which the least is told",
        problem: b"p max 3 1\nn 1 s\nn 3 t\na 1 2 4\n",
        solution: b"s 0\nf 2 3 1\nf 1 3 1\n",
        feasible_only: false,
        verdict: Verdict::Over {
            src: 1,
            dst: 3,
            flow: 1,
            cap: 0,
        },
    },
    Case {
        name: "two sources",
        problem: NET_D,
        solution: b"s 3\nf 1 3 2\nf 2 3 1\nf 3 4 3\n",
        feasible_only: false,
        verdict: Verdict::Optimal(3),
    },
    Case {
        name: "the greatest capacity, from the sink to the source",
        problem: b"p max 2 1\nn 1 s\nn 2 t\na 2 1 18446744073709551615\n",
        solution: b"s 0\nf 2 1 18446744073709551615\n",
        feasible_only: false,
        verdict: Verdict::Value {
            given: 0,
            found: -18446744073709551615,
        },
    },
];

/// The problem that a text tells.
fn problem(alloc: Global, text: &[u8]) -> Option<Problem> {
    let mut reader = ProblemReader::new(alloc);
    match reader.feed(text) {
        Ok(()) => reader.finish().ok(),
        Err(_) => None,
    }
}

/// The solution that a text tells, of a problem of so many nodes.
fn solution(alloc: Global, nodes: u32, text: &[u8]) -> Option<Solution>
    ensures { IfSome result (λ solution. IsWithinLimits nodes (written_in solution)) }
{
    let mut reader = SolutionReader::new(alloc, nodes);
    match reader.feed(text) {
        Ok(()) => reader.finish().ok(),
        Err(_) => None,
    }
}

/// What the checker says of a problem and a solution.
fn verdict(alloc: Global, given: &[u8], written: &[u8], feasible_only: bool) -> Option<Verdict> {
    let problem = problem(alloc, given)?;
    let solution = solution(alloc, problem.net().nodes(), written)?;
    check(alloc, &problem, &solution, feasible_only).ok()
}

/// Whether the checker says what is told.
fn is_judged(alloc: Global, case: &Case) -> bool {
    let said = verdict(alloc, case.problem, case.solution, case.feasible_only);
    said == Some(case.verdict)
}

#[test]
fn verdicts_by_hand(rt: HostRuntime) {
    for case in CASES {
        assert!(rt; is_judged(rt.alloc(), case), "{}", case.name);
    }
}

/// The verdict on 100,000 lines of 1 on an arc that has room for them.
fn verdict_on_many_lines(alloc: Global) -> Option<Verdict> {
    let mut text: Vec<u8> = Vec::new(alloc);
    if !put_lines(&mut text) {
        return None;
    }
    let problem = b"p max 2 1\nn 1 s\nn 2 t\na 1 2 100000\n";
    verdict(alloc, problem, text.as_slice(), false)
}

#[test]
fn many_lines_on_one_arc(rt: HostRuntime) {
    assert!(rt; verdict_on_many_lines(rt.alloc()) == Some(Verdict::Optimal(100000)));
}
