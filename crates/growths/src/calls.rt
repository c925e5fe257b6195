//! The calls below a run: growths of a network, the two readers, and the checker.
ghost use Rattle.std.specs.Prelude.{◌≡◌, ◌↔◌, IsTrue, IfOk, Some, Err};
ghost use Rattle.flow_text.specs.declared.faults.ReadFault.TheVariants.{OutOfMemory};
ghost use Rattle.flow_text.specs.SolutionReading.{IsWithinLimits, written_in};

use crate::nets::{FOUR_NODES, GREATEST_NUMBERS, OPTIMAL};
use flow_net::{Arc, MOST_ARCS, Network, Problem};
use flow_text::{ProblemReader, ReadFault, Solution, SolutionReader, Verdict};
use flow_tools::check;
use std::alloc::Global;

/// What a call that keeps its promise says where a growth was refused.
pub const REFUSED: &[u8] = b"out of memory, as promised";

/// What is said of a call that broke its promise.
pub const BROKEN: &[u8] = b"a promise is broken";

/// How many arcs are pushed: enough for several growths.
const PUSHED: u32 = 20;

/// Pushes so many arcs, as far as memory is given; arc `i` has capacity `i`. Answers whether it was.
fn push_arcs(net: &mut Network, count: u32) -> bool {
    for i in 0..count {
        let last = net.nodes();
        if net.len() >= MOST_ARCS {
            return false;
        }
        let arc = Arc {
            src: 1,
            dst: last,
            cap: u64::from(i),
        };
        if net.push(arc).is_err() {
            return false;
        }
    }
    true
}

/// Whether the network's arcs are those that were pushed, and their reverses where they were appended.
fn holds(net: &Network, pushed: u32, both_ways: bool) -> bool {
    let count = net.len();
    if count
        != if both_ways {
            pushed.saturating_mul(2)
        } else {
            pushed
        }
    {
        return false;
    }
    for i in 0..count {
        let arc = net.arc(i);
        let forwards = i < pushed;
        let (src, dst) = if forwards { (1, 4) } else { (4, 1) };
        let cap = if forwards { i } else { i - pushed };
        if (arc.src, arc.dst, arc.cap) != (src, dst, u64::from(cap)) {
            return false;
        }
    }
    true
}

/// Pushes arcs until a push is refused, which must leave the arcs pushed before.
pub fn push(alloc: Global) -> &'static [u8] {
    let mut net = Network::new(alloc, 4);
    let all = push_arcs(&mut net, PUSHED);
    let pushed = net.len();
    match (holds(&net, pushed, false), all) {
        (false, _) => BROKEN,
        (true, false) if pushed < PUSHED => REFUSED,
        (true, true) if pushed == PUSHED => b"20 arcs",
        _ => BROKEN,
    }
}

/// Appends the reverse of each arc. A refusal must leave the network as it was.
pub fn both_ways(alloc: Global) -> &'static [u8] {
    let mut net = Network::new(alloc, 4);
    if !push_arcs(&mut net, PUSHED) {
        return b"out of memory before";
    }
    if net.len() > MOST_ARCS {
        return BROKEN;
    }
    let appended = net.both_ways().is_ok();
    match (holds(&net, PUSHED, appended), appended) {
        (false, _) => BROKEN,
        (true, false) => REFUSED,
        (true, true) => b"40 arcs",
    }
}

/// Whether a reader's refusal is what it promises: want of memory, told again by a feed of nothing and at the end.
fn is_final(first: ReadFault, again: Result<(), ReadFault>, last: Option<ReadFault>) -> bool
    ensures { IsTrue result ↔ ((first ≡ OutOfMemory) × (again ≡ Err OutOfMemory) × (last ≡ Some OutOfMemory)) }
{
    let wanted = ReadFault::OutOfMemory;
    first == wanted && again == Err(wanted) && last == Some(wanted)
}

/// What is told of a reader that refused a piece.
fn refusal(
    first: ReadFault,
    again: Result<(), ReadFault>,
    last: Option<ReadFault>,
) -> &'static [u8] {
    if is_final(first, again, last) {
        REFUSED
    } else {
        BROKEN
    }
}

/// Reads a problem in pieces of seven bytes, which cut its lines.
pub fn read_problem(alloc: Global) -> &'static [u8] {
    let mut reader = ProblemReader::new(alloc);
    for piece in FOUR_NODES.chunks(7) {
        if let Err(fault) = reader.feed(piece) {
            let again = reader.feed(b"");
            return refusal(fault, again, reader.finish().err());
        }
    }
    match reader.finish() {
        Ok(problem) if problem.net().len() == 5 => b"5 arcs",
        Err(ReadFault::OutOfMemory) => REFUSED,
        _ => BROKEN,
    }
}

/// Reads a solution in pieces of seven bytes.
pub fn read_solution(alloc: Global) -> &'static [u8] {
    let mut reader = SolutionReader::new(alloc, 4);
    for piece in OPTIMAL.chunks(7) {
        if let Err(fault) = reader.feed(piece) {
            let again = reader.feed(b"");
            return refusal(fault, again, reader.finish().err());
        }
    }
    match reader.finish() {
        Ok(solution) if solution.lines.len() == 5 => b"5 flow lines",
        Err(ReadFault::OutOfMemory) => REFUSED,
        _ => BROKEN,
    }
}

/// Reads a last line that no byte 10 ends, whose arc is kept by `finish`.
pub fn finish(alloc: Global) -> &'static [u8] {
    let mut reader = ProblemReader::new(alloc);
    if reader.feed(b"p max 2 1\nn 1 s\nn 2 t\na 1 2 7").is_err() {
        return b"out of memory before";
    }
    match reader.finish() {
        Ok(problem) if problem.net().len() == 1 => b"1 arc",
        Err(ReadFault::OutOfMemory) => REFUSED,
        _ => BROKEN,
    }
}

/// Reads a problem line with the greatest numbers, which takes no memory.
pub fn declare(alloc: Global) -> &'static [u8] {
    let mut reader = ProblemReader::new(alloc);
    match reader.feed(GREATEST_NUMBERS) {
        Ok(()) => b"Ok",
        Err(_) => BROKEN,
    }
}

/// The problem that is checked.
fn problem(alloc: Global) -> Result<Problem, ReadFault> {
    let mut reader = ProblemReader::new(alloc);
    reader.feed(FOUR_NODES)?;
    reader.finish()
}

/// A solution of a problem of so many nodes.
fn solution(alloc: Global, nodes: u32) -> Result<Solution, ReadFault>
    ensures { IfOk result (λ solution. IsWithinLimits nodes (written_in solution)) }
{
    let mut reader = SolutionReader::new(alloc, nodes);
    reader.feed(OPTIMAL)?;
    reader.finish()
}

/// Checks an optimal solution.
pub fn check_solution(alloc: Global) -> &'static [u8] {
    let Ok(problem) = problem(alloc) else {
        return b"out of memory before";
    };
    let Ok(solution) = solution(alloc, problem.net().nodes()) else {
        return b"out of memory before";
    };
    match check(alloc, &problem, &solution, false) {
        Ok(Verdict::Optimal(5)) => b"optimal 5",
        Err(_) => REFUSED,
        _ => BROKEN,
    }
}
