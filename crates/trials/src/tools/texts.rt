//! Runs over texts that lie in memory.
use crate::tools::nets::{NET_A, SOLVED_A};
use crate::tools::runs::{CHECK, SOLVE};
use flow_tools::{Job, run_on_texts};
use std::alloc::Global;

/// A job, a problem and a solution, the status of the run, and what its output and its errors have then.
type Run = (
    Job,
    &'static [u8],
    &'static [u8],
    u8,
    &'static [u8],
    &'static [u8],
);

/// Whether a run into an output and errors that may have something ends as told.
fn ends_so(alloc: Global, run: &Run, out: &mut Vec<u8>, err: &mut Vec<u8>) -> bool {
    let (job, problem, solution, status, put, told) = *run;
    let ended = run_on_texts(alloc, job, problem, solution, out, err);
    ended == Ok(status) && out.as_slice() == put && err.as_slice() == told
}

/// Whether each of some runs, one behind another into the same output and the same errors, ends as told.
fn end_so(alloc: Global, runs: &[Run]) -> bool {
    let mut out: Vec<u8> = Vec::new(alloc);
    let mut err: Vec<u8> = Vec::new(alloc);
    let mut is_so = true;
    for run in runs {
        is_so = ends_so(alloc, run, &mut out, &mut err) && is_so;
    }
    is_so
}

const SOLVED: &[Run] = &[
    (SOLVE, NET_A, b"", 0, SOLVED_A, b""),
    (
        SOLVE,
        b"p max 1 0\n",
        b"",
        3,
        SOLVED_A,
        b"flow: line 1: number of nodes out of range\n",
    ),
];

/// An answer is appended to the output, and the line about a fault to the errors.
#[test]
fn texts_are_answered_or_refused(rt: HostRuntime) {
    assert!(rt; end_so(rt.alloc(), SOLVED));
}

const CHECKED: &[Run] = &[
    (CHECK, NET_A, SOLVED_A, 0, b"optimal 5\n", b""),
    (
        CHECK,
        NET_A,
        b"s 0\n",
        1,
        b"optimal 5\nnot-maximal 0\n",
        b"",
    ),
    (
        CHECK,
        NET_A,
        b"x\n",
        3,
        b"optimal 5\nnot-maximal 0\n",
        b"flow: solution line 1: unknown line\n",
    ),
];

/// The solution is read by `check` alone, and its faults are told as its own.
#[test]
fn solutions_are_checked_or_refused(rt: HostRuntime) {
    assert!(rt; end_so(rt.alloc(), CHECKED));
}
