//! The answer of a job to a problem: a value, which is written once it is there.
ghost use Rattle.std.specs.Prelude.{◌≡◌, [], IfOk};
ghost use Rattle.flow_net.specs.Nets.{Instance};
ghost use Rattle.flow_tools.specs.running.Exits.{IsCheck};
ghost use Rattle.flow_tools.specs.solving.Solutions.{is_sink};
ghost use Rattle.flow_tools.specs.declared.running.jobs.Job.{Job};
ghost use Rattle.flow_tools.specs.running.AnswerExits.{Finds, IsAnswerTo, IsComplete, text_of, status_of};
ghost use Rattle.flow_tools.specs.streams.Sending.{IsPut};
ghost use Rattle.flow_tools.specs.streams.Streams.{StreamState, over};

use crate::checking::check;
use crate::connecting::answers::connect;
use crate::networks::FlowNetwork;
use crate::running::jobs::{Job, Stop};
use crate::running::reading::{Role, read_all};
use crate::solving::answers::{MinimumCut, Side, Solved, cut, solve, solve_value};
use crate::solving::printing::{put_cut, put_solution, put_value};
use crate::streams::sending::put_all;
use crate::streams::{Failed, Input, Output};
use flow_net::{OutOfMemory, Problem};
use flow_text::{SolutionReader, Verdict, connect_line, verdict_line};
use std::alloc::Global;

/// What a job answers.
#[derive(Drop)]
pub(crate) enum Answer {
    /// The greatest value of a flow.
    Value(u128),
    /// The greatest value, and a flow that has it.
    Flow(Solved),
    /// A minimum cut.
    Cut {
        /// The cut.
        cut: MinimumCut,
        /// The arcs that leave its source side are put too.
        arcs: bool,
    },
    /// The connectivity.
    Links(u64),
    /// The verdict on a solution.
    Verdict(Verdict),
}

/// Finds the answer of a job to a problem. All the memory that it takes is asked for, and a solution that is to be
/// checked is read.
///
/// # Errors
///
/// `Fault` where the solution has one, `ReadFailed` where a pull failed, and `OutOfMemory`.
pub(crate) fn find_answer<J: Input>(
    alloc: Global,
    job: Job,
    problem: Problem,
    solution: &mut J,
) -> Result<Answer, Stop>
    ensures { Finds job problem (over (J.state solution.old) (J.state solution.new)) result }
{
    match job {
        Job::Solve { value_only } => found_alone(solve_problem(alloc, problem, value_only)),
        Job::Cut { arcs, sink } => found_alone(cut_problem(alloc, problem, arcs, sink)),
        Job::Connect { undirected, pair } => {
            found_alone(connect_problem(alloc, problem, undirected, pair))
        }
        Job::Check { feasible_only } => judge_solution(alloc, &problem, feasible_only, solution),
    }
}

/// An answer that has to do with no solution, or that memory was refused.
fn found_alone(found: Result<Answer, OutOfMemory>) -> Result<Answer, Stop>
    ensures { (job : Job) (p : Instance) (given : StreamState) → (IsCheck job → ⊥) → IfOk found (IsAnswerTo job p [])
        → Finds job p (over given given) result }
{
    match found {
        Ok(answer) => Ok(answer),
        Err(_) => Err(Stop::OutOfMemory),
    }
}

/// The greatest value, and unless it is asked for alone a flow that has it.
fn solve_problem(alloc: Global, problem: Problem, value_only: bool) -> Result<Answer, OutOfMemory>
    ensures { IfOk result (IsAnswerTo (Job.Solve value_only) problem []) }
{
    let network = FlowNetwork::of_problem(problem);
    if value_only {
        let value = solve_value(alloc, network)?;
        return Ok(Answer::Value(value));
    }
    let solved = solve(alloc, network)?;
    Ok(Answer::Flow(solved))
}

/// The terminals that a cut is to lie nearest.
fn side_nearest(sink: bool) -> Side
    ensures { is_sink result ≡ sink }
{
    if sink { Side::Sink } else { Side::Source }
}

/// The minimum cut nearest the sources, or where `sink` is true the one nearest the sinks.
fn cut_problem(
    alloc: Global,
    problem: Problem,
    arcs: bool,
    sink: bool,
) -> Result<Answer, OutOfMemory>
    ensures { IfOk result (IsAnswerTo (Job.Cut arcs sink) problem []) }
{
    let nearest = side_nearest(sink);
    let cut = cut(alloc, FlowNetwork::of_problem(problem), nearest)?;
    Ok(Answer::Cut { cut, arcs })
}

/// The edge connectivity.
fn connect_problem(
    alloc: Global,
    problem: Problem,
    undirected: bool,
    pair: bool,
) -> Result<Answer, OutOfMemory>
    ensures { IfOk result (IsAnswerTo (Job.Connect undirected pair) problem []) }
{
    let links = connect(alloc, problem, undirected, pair)?;
    Ok(Answer::Links(links))
}

/// Reads a solution of a problem, and judges it.
fn judge_solution<J: Input>(
    alloc: Global,
    problem: &Problem,
    feasible_only: bool,
    given: &mut J,
) -> Result<Answer, Stop>
    ensures { Finds (Job.Check feasible_only) problem.now (over (J.state given.old) (J.state given.new)) result }
{
    let reader = SolutionReader::new(alloc, problem.net().nodes());
    let written = match read_all(given, reader, Role::Solution) {
        Ok(written) => written,
        Err(stop) => return Err(stop),
    };
    match check(alloc, problem, &written, feasible_only) {
        Ok(verdict) => Ok(Answer::Verdict(verdict)),
        Err(_) => Err(Stop::OutOfMemory),
    }
}

/// The status of a run that has put an answer: 1 where a solution isn't right.
pub(crate) fn status_of_answer(answer: &Answer) -> u8
    ensures { result ≡ status_of answer.now }
{
    match answer {
        Answer::Verdict(Verdict::Feasible(_) | Verdict::Optimal(_)) => 0,
        Answer::Verdict(_) => 1,
        _ => 0,
    }
}

/// Puts an answer.
///
/// # Errors
///
/// `Failed` where a put failed. A beginning of the text was then taken.
pub(crate) fn put_answer<O: Output>(out: &mut O, answer: &Answer) -> Result<(), Failed>
    requires { IsComplete answer.now }
    ensures { IsPut (text_of answer.now) (over (O.state out.old) (O.state out.new)) result }
{
    match answer {
        Answer::Value(value) => put_value(out, *value),
        Answer::Flow(solved) => {
            put_solution(
                out,
                solved.network.net(),
                solved.value,
                solved.flows.as_slice(),
            )
        }
        Answer::Cut { cut, arcs } => put_cut(
            out,
            cut.solved.network.net(),
            cut.solved.value,
            cut.side.as_slice(),
            *arcs,
        ),
        Answer::Links(links) => put_all(out, connect_line(*links).as_slice()),
        Answer::Verdict(verdict) => put_all(out, verdict_line(verdict).as_slice()),
    }
}
