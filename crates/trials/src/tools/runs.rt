//! Jobs, runs over memory, for tests, and what they leave behind.

use flow_tools::memory::{Collector, Script};
use flow_tools::{Input, Job, run};
use std::alloc::Global;

/// The jobs, with each of their flags as tests want it.
pub(crate) const SOLVE: Job = Job::SOLVE;

pub(crate) const VALUE: Job = Job::VALUE;

pub(crate) const CUT: Job = Job::CUT;

pub(crate) const CUT_ARCS: Job = Job::Cut {
    arcs: true,
    sink: false,
};

pub(crate) const CUT_SINK: Job = Job::Cut {
    arcs: false,
    sink: true,
};

pub(crate) const CUT_SINK_ARCS: Job = Job::Cut {
    arcs: true,
    sink: true,
};

pub(crate) const DIRECTED: Job = Job::CONNECT;

pub(crate) const UNDIRECTED: Job = Job::Connect {
    undirected: true,
    pair: false,
};

pub(crate) const DIRECTED_PAIR: Job = Job::Connect {
    undirected: false,
    pair: true,
};

pub(crate) const UNDIRECTED_PAIR: Job = Job::Connect {
    undirected: true,
    pair: true,
};

pub(crate) const CHECK: Job = Job::CHECK;

/// What a run left behind.
#[derive(Drop)]
pub(crate) struct Ended {
    pub out: Collector<512>,
    pub err: Collector<128>,
    pub status: u8,
    /// How many pulls of the problem were made.
    pub pulls: u64,
    /// How many pulls of the solution were made.
    pub solution_pulls: u64,
    /// Whether a pull failed.
    pub read_failed: bool,
}

impl Ended {
    /// Whether the run put these bytes, told this message and ended with this status.
    pub fn has_left(&self, out: &[u8], err: &[u8], status: u8) -> bool {
        self.out.bytes() == out && self.err.bytes() == err && self.status == status
    }
}

/// Runs a job over a problem and a solution.
pub(crate) fn run_over(
    alloc: Global,
    job: Job,
    mut problem: Script<'_>,
    mut solution: Script<'_>,
    mut out: Collector<512>,
    mut err: Collector<128>,
) -> Ended {
    let status = run(alloc, job, &mut problem, &mut solution, &mut out, &mut err);
    Ended {
        out,
        err,
        status,
        pulls: problem.pulls,
        solution_pulls: solution.pulls,
        read_failed: problem.failed() || solution.failed(),
    }
}

/// Runs a job over a problem alone: a pull of its solution would fail.
pub(crate) fn run_alone(
    alloc: Global,
    job: Job,
    problem: Script<'_>,
    out: Collector<512>,
    err: Collector<128>,
) -> Ended {
    run_over(alloc, job, problem, Script::new(b"", 1, false, 1), out, err)
}

/// Runs a job over a problem alone, into ample streams that take 7 bytes a put.
pub(crate) fn answer(alloc: Global, job: Job, problem: Script<'_>) -> Ended {
    run_alone(
        alloc,
        job,
        problem,
        Collector::new(7, 512),
        Collector::new(7, 128),
    )
}

/// Whether a job over a problem alone puts these bytes and tells this message, with status 0, or 3 where there is a
/// message.
pub(crate) fn is_answered(
    alloc: Global,
    job: Job,
    problem: Script<'_>,
    out: &[u8],
    err: &[u8],
) -> bool {
    let ended = answer(alloc, job, problem);
    let status = if err.is_empty() { 0 } else { 3 };
    ended.has_left(out, err, status) && ended.solution_pulls == 0
}

/// Runs a job over a problem and a solution, into ample streams that take 16 bytes a put.
pub(crate) fn answer_both(
    alloc: Global,
    job: Job,
    problem: Script<'_>,
    solution: Script<'_>,
) -> Ended {
    run_over(
        alloc,
        job,
        problem,
        solution,
        Collector::new(16, 512),
        Collector::new(16, 128),
    )
}
