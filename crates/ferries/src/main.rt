//! `ferries`: an example of the library. It prints the greatest value of a network that is built arc by arc, and then
//! that of a problem that is read from bytes.
#![tactic(auto)]

ghost use Rattle.std.specs.Prelude.{IfOk};
ghost use Rattle.flow_net.specs.Flows.{IsGreatest};
ghost use Rattle.flow_net.specs.NodeSets.{one_of};

use flow_net::{Arc, Network, OutOfMemory, Problem};
use flow_text::{ProblemReader, solution_line};
use flow_tools::{Counted, FlowNetwork, put_all, solve};
use std::alloc::Global;
use std::process::ExitCode;

/// Three ferries as a text: 4 from the mainland to the island, 3 from there to the lighthouse, 2 past the island.
const TEXT: &[u8] = b"p max 3 3\nn 1 s\nn 3 t\na 1 2 4\na 2 3 3\na 1 3 2\n";

/// The same three ferries, one after another.
fn ferries(alloc: Global) -> Result<Problem, OutOfMemory> {
    let mut net = Network::new(alloc, 3);
    net.push(Arc {
        src: 1,
        dst: 2,
        cap: 4,
    })?;
    net.push(Arc {
        src: 2,
        dst: 3,
        cap: 3,
    })?;
    net.push(Arc {
        src: 1,
        dst: 3,
        cap: 2,
    })?;
    let Ok(sources) = Vec::from_elem(alloc, 1u32, 1) else {
        return Err(OutOfMemory);
    };
    let Ok(sinks) = Vec::from_elem(alloc, 3u32, 1) else {
        return Err(OutOfMemory);
    };
    Ok(Problem::new(net, sources, sinks))
}

/// The greatest value of any feasible flow of a problem.
fn greatest_value(alloc: Global, problem: Problem) -> Result<u128, OutOfMemory>
    ensures { IfOk result (λ value. IsGreatest problem.net (one_of problem.sources) (one_of problem.sinks) value) }
{
    let solved = solve(alloc, FlowNetwork::of_problem(problem))?;
    Ok(solved.value)
}

/// The problem of a text; `None` where it has a fault, or memory ran out.
fn read(alloc: Global, text: &[u8]) -> Option<Problem> {
    let mut reader = ProblemReader::new(alloc);
    reader.feed(text).ok()?;
    reader.finish().ok()
}

fn main(rt: HostRuntime) -> ExitCode {
    let alloc = rt.alloc();
    let mut out = Counted::new(rt.stdout());
    for problem in [ferries(alloc).ok(), read(alloc, TEXT)] {
        let Some(problem) = problem else {
            return ExitCode::from(3);
        };
        let Ok(value) = greatest_value(alloc, problem) else {
            return ExitCode::from(4);
        };
        if put_all(&mut out, solution_line(value).as_slice()).is_err() {
            return ExitCode::from(4);
        }
    }
    ExitCode::SUCCESS
}
