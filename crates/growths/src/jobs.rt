//! The calls by their names, and runs over streams that ask for no memory.

use crate::calls::{
    BROKEN, REFUSED, both_ways, check_solution, declare, finish, push, read_problem, read_solution,
};
use crate::nets::{FOUR_NODES, OPTIMAL, TOO_FEW_ARCS};
use flow_tools::memory::{Collector, Script};
use flow_tools::{Job, run, run_on_texts};
use std::alloc::Global;

/// What a run tells where memory was refused.
const NO_MEMORY: &[u8] = b"flow: out of memory\n";

/// What a run tells of a problem with fewer arcs than its problem line says.
const TOO_FEW: &[u8] = b"flow: line 5: too few arcs\n";

/// Makes the call with this name, and answers what is to be told of it.
pub fn told(alloc: Global, name: &[u8]) -> &'static [u8] {
    match name {
        b"push" => push(alloc),
        b"both_ways" => both_ways(alloc),
        b"read_problem" => read_problem(alloc),
        b"read_solution" => read_solution(alloc),
        b"finish" => finish(alloc),
        b"declare" => declare(alloc),
        b"check" => check_solution(alloc),
        _ => run_named(alloc, name),
    }
}

/// Runs the job with this name, whose problem has four nodes but for `run_faulty`.
fn run_named(alloc: Global, name: &[u8]) -> &'static [u8] {
    match name {
        b"run_solve" => run_job(
            alloc,
            Job::SOLVE,
            FOUR_NODES,
            b"s 5\nf 1 2 3\nf 1 3 2\nf 2 3 1\nf 2 4 2\nf 3 4 3\n",
        ),
        b"run_cut" => run_job(alloc, Job::CUT, FOUR_NODES, b"s 5\nn 1\n"),
        b"run_connect" => run_job(alloc, Job::UNDIRECTED, FOUR_NODES, b"k 2\n"),
        b"run_check" => run_job(alloc, Job::CHECK, FOUR_NODES, b"optimal 5\n"),
        b"run_faulty" => run_job(alloc, Job::SOLVE, TOO_FEW_ARCS, b""),
        b"run_on_texts" => run_texts(alloc),
        _ => b"no such call",
    }
}

/// Checks a solution over texts, into vectors. Where memory was refused the output has a beginning of the answer at
/// most, and the errors have nothing.
fn run_texts(alloc: Global) -> &'static [u8] {
    let mut out: Vec<u8> = Vec::new(alloc);
    let mut err: Vec<u8> = Vec::new(alloc);
    let job = Job::CHECK;
    let answer = b"optimal 5\n".as_slice();
    match run_on_texts(alloc, job, FOUR_NODES, OPTIMAL, &mut out, &mut err) {
        Ok(0) if out.as_slice() == answer && err.is_empty() => b"answered",
        Err(_) if answer.starts_with(out.as_slice()) && err.is_empty() => REFUSED,
        _ => BROKEN,
    }
}

/// What a run comes to. Where a growth was refused it must put nothing, tell that, and answer 4; else it must put the
/// answer, or tell the fault where there is none.
fn judged(status: u8, text: &[u8], told: &[u8], answer: &[u8]) -> &'static [u8] {
    if status == 4 && text.is_empty() && told == NO_MEMORY {
        return REFUSED;
    }
    if answer.is_empty() {
        if status == 3 && text.is_empty() && told == TOO_FEW {
            return b"line 5: too few arcs";
        }
        return BROKEN;
    }
    if status == 0 && text == answer && told.is_empty() {
        return b"answered";
    }
    BROKEN
}

/// Runs a job, whose answer is told, or nothing where its problem has a fault.
fn run_job(alloc: Global, job: Job, problem: &[u8], answer: &[u8]) -> &'static [u8] {
    let mut input = Script::new(problem, 4096, false, 0);
    let mut given = Script::new(OPTIMAL, 4096, false, 0);
    let mut out: Collector<128> = Collector::new(128, 128);
    let mut err: Collector<64> = Collector::new(64, 64);
    let status = run(alloc, job, &mut input, &mut given, &mut out, &mut err);
    judged(status, out.bytes(), err.bytes(), answer)
}
