//! The run of a job over its streams.
ghost use Rattle.std.specs.Prelude.{◌≡◌, Err};
ghost use Rattle.flow_tools.specs.running.AnswerExits.{IsTold, Runs};
ghost use Rattle.flow_tools.specs.running.Exits.{EndsWith, ending};
ghost use Rattle.flow_tools.specs.streams.Streams.{over};

pub(crate) mod answers;
pub(crate) mod jobs;
mod readers;
pub(crate) mod reading;
pub(crate) mod texts;

use crate::streams::sending::put_all;
use crate::streams::{Input, Output};
use answers::{find_answer, put_answer, status_of_answer};
use flow_text::{ProblemReader, fault_line};
use jobs::{Job, Stop};
use reading::{Role, read_all};
use std::alloc::Global;

/// Runs a job: reads the problem, puts the answer to `out`, and answers the status of the run. Where there is no
/// answer, `err` gets one line that says why, and `out` nothing, unless a put to it failed.
///
/// | Status | When | Line on `err` |
/// |---|---|---|
/// | 0 | all of the answer was put | none |
/// | 1 | the verdict on a solution was put, and it says no | none |
/// | 3 | the problem has a fault in line K | `flow: line K: TEXT` |
/// | 3 | the solution has a fault in line K | `flow: solution line K: TEXT` |
/// | 4 | a pull failed | `flow: read failed` |
/// | 4 | a put to `out` failed; a beginning of the answer was put | `flow: write failed` |
/// | 4 | memory was refused | `flow: out of memory` |
///
/// Each piece of an input is read before the next is pulled, and nothing is pulled after a fault or the end. `solution`
/// is read by `Job::Check` alone, once the problem is accepted. All memory is asked for before the first byte is put. A
/// failure of `err` cuts its line short and changes nothing else.
pub fn run<I: Input, J: Input, O: Output, E: Output>(
    alloc: Global,
    job: Job,
    problem: &mut I,
    solution: &mut J,
    out: &mut O,
    err: &mut E,
) -> u8
    ensures { EndsWith job
        (over (I.state problem.old) (I.state problem.new))
        (over (J.state solution.old) (J.state solution.new))
        (over (O.state out.old) (O.state out.new))
        (over (E.state err.old) (E.state err.new)) result }
{
    match answer(alloc, job, problem, solution, out) {
        Ok(status) => status,
        Err(stop) => {
            tell(err, stop);
            status_of_stop(stop)
        }
    }
}

/// Reads the problem, finds the answer to it, and puts that.
fn answer<I: Input, J: Input, O: Output>(
    alloc: Global,
    job: Job,
    problem: &mut I,
    solution: &mut J,
    out: &mut O,
) -> Result<u8, Stop>
    ensures { Runs job
        (over (I.state problem.old) (I.state problem.new))
        (over (J.state solution.old) (J.state solution.new))
        (over (O.state out.old) (O.state out.new)) result }
{
    let problem = match read_all(problem, ProblemReader::new(alloc), Role::Problem) {
        Ok(problem) => problem,
        Err(stop) => return Err(stop),
    };
    let answer = match find_answer(alloc, job, problem, solution) {
        Ok(answer) => answer,
        Err(stop) => return Err(stop),
    };
    match put_answer(out, &answer) {
        Ok(()) => Ok(status_of_answer(&answer)),
        Err(_) => Err(Stop::WriteFailed),
    }
}

/// Puts the message of a run that ends without an answer. A failure ends the message and changes nothing else.
fn tell<E: Output>(err: &mut E, stop: Stop)
    ensures { IsTold (over (E.state err.old) (E.state err.new)) (ending (Err stop)).0 }
{
    let _ = match stop {
        Stop::Fault {
            solution,
            line,
            code,
        } => put_all(err, fault_line(solution, line, code).as_slice()),
        Stop::ReadFailed => put_all(err, b"flow: read failed\n"),
        Stop::WriteFailed => put_all(err, b"flow: write failed\n"),
        Stop::OutOfMemory => put_all(err, b"flow: out of memory\n"),
    };
}

/// The status of a run that ends without an answer.
fn status_of_stop(stop: Stop) -> u8
    ensures { result ≡ (ending (Err stop)).1 }
{
    match stop {
        Stop::Fault { .. } => 3,
        _ => 4,
    }
}
