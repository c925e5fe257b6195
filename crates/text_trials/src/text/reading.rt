//! Texts that are accepted, and what is lent while they are read.
ghost use Rattle.std.specs.Prelude.{◌<◌};

use super::*;
use crate::net::{Triple, has_arcs};
use flow_net::{Network, Problem};

/// Problems of two nodes without arcs, whose source is node 1 and whose sink is node 2.
const PROBLEMS: &[&str] = &[
    "p max 2 0\nn 1 s\nn 2 t\n",
    "p max 0002 00\nn 1 s\nn 2 t\n",
    "p max 2 0\ncat\n\n   \nn 1 s\ncat\n\n   \nn 2 t\n",
    "p\u{9}max\u{9}2\u{9}0\nn\u{9}1\u{9}s\nn\u{9}2\u{9}t\n",
];

/// Solutions to a problem of two nodes, with their values and their flow lines.
const SOLUTIONS: &[(&str, u128, &[FlowLine])] = &[
    (
        "s 73786976294838206460000000\n",
        73_786_976_294_838_206_460_000_000,
        &[],
    ),
    ("s 4000000000000000001\n", 4_000_000_000_000_000_001, &[]),
    (
        "s 1\nf 1 2 1000000000001\n",
        1,
        &[FlowLine {
            src: 1,
            dst: 2,
            flow: 1_000_000_000_001,
        }],
    ),
];

/// Whether it is a problem of two nodes without arcs, whose source is node 1 and whose sink is node 2.
fn is_without_arcs(problem: &Problem) -> bool {
    let net = problem.net();
    net.nodes() == 2
        && net.len() == 0
        && problem.sources() == [1].as_slice()
        && problem.sinks() == [2].as_slice()
}

/// Reads a problem whose first piece has a given length, and the others at most another.
fn read_problem(alloc: Global, text: &[u8], first: usize, len: usize) -> Option<Problem>
    requires { 0 < len }
{
    let mut reader = ProblemReader::new(alloc);
    match take_pieces(&mut reader, text, first, len) {
        Ok(()) => reader.finish().ok(),
        Err(_) => None,
    }
}

/// The same of a solution.
fn read_solution(alloc: Global, text: &[u8], first: usize, len: usize) -> Option<Solution>
    requires { 0 < len }
{
    let mut reader = SolutionReader::new(alloc, 2);
    match take_pieces(&mut reader, text, first, len) {
        Ok(()) => reader.finish().ok(),
        Err(_) => None,
    }
}

/// Whether a text in such pieces is a problem without arcs.
fn is_problem(alloc: Global, text: &[u8], first: usize, len: usize) -> bool
    requires { 0 < len }
{
    match read_problem(alloc, text, first, len) {
        Some(problem) => is_without_arcs(&problem),
        None => false,
    }
}

/// Whether it is a solution of this value and these flow lines.
fn is_solution(alloc: Global, row: (&str, u128, &[FlowLine]), first: usize, len: usize) -> bool
    requires { 0 < len }
{
    let (text, value, lines) = row;
    match read_solution(alloc, text.as_bytes(), first, len) {
        Some(solution) => solution.value == value && solution.lines.as_slice() == lines,
        None => false,
    }
}

/// Whether a text is a problem without arcs whole, cut in two at each place, and one byte at a time.
fn is_problem_cut(alloc: Global, text: &str) -> bool {
    for first in 0..text.len() + 1 {
        if !is_problem(alloc, text.as_bytes(), first, 4096) {
            return false;
        }
    }
    is_problem(alloc, text.as_bytes(), 0, 1)
}

/// The same of a solution.
fn is_solution_cut(alloc: Global, row: (&str, u128, &[FlowLine])) -> bool {
    for first in 0..row.0.len() + 1 {
        if !is_solution(alloc, row, first, 4096) {
            return false;
        }
    }
    is_solution(alloc, row, 0, 1)
}

#[test]
fn problems_are_accepted(rt: HostRuntime) {
    for text in PROBLEMS {
        expect(&rt, is_problem_cut(rt.alloc(), text), text);
    }
}

#[test]
fn solutions_are_accepted(rt: HostRuntime) {
    for &row in SOLUTIONS {
        expect(&rt, is_solution_cut(rt.alloc(), row), row.0);
    }
}

/// Whether a reader takes a piece of a problem, and then lends a network of three nodes and these arcs.
fn lends_after(reader: &mut ProblemReader, piece: &[u8], arcs: &[Triple]) -> bool {
    let taken = reader.feed(piece).is_ok();
    match reader.net() {
        Some(net) => taken && net.nodes() == 3 && has_arcs(net, arcs),
        None => false,
    }
}

/// The two arcs that are lent.
const LENT: &[Triple] = &[(1, 2, 7), (2, 3, 9)];

/// Whether a reader of problems lends no arc, then one, then both.
fn lends_arcs(reader: &mut ProblemReader) -> bool {
    reader.feed(b"p max 3 2").is_ok()
        && reader.net().is_none()
        && lends_after(reader, b"\nn 1 s\nn 3 t\na 1 2 7\na 2 3 9", &LENT[..1])
        && lends_after(reader, b"\n", LENT)
}

#[test]
fn arcs_are_lent(rt: HostRuntime) {
    let mut reader = ProblemReader::new(rt.alloc());
    assert!(rt; lends_arcs(&mut reader));
}

/// Whether a reader of solutions lends a flow line, and none that hasn't ended.
fn lends_line(reader: &mut SolutionReader) -> bool {
    let line = FlowLine {
        src: 1,
        dst: 2,
        flow: 7,
    };
    reader.feed(b"s 7\nf 1 2 7\nf 2 3").is_ok() && reader.lines() == [line].as_slice()
}

#[test]
fn flow_lines_are_lent(rt: HostRuntime) {
    let mut reader = SolutionReader::new(rt.alloc(), 3);
    assert!(rt; lends_line(&mut reader));
}

/// A problem whose first arc lines have the usual form or nearly so, with the longest numbers that such lines have.
/// Then come eight more as the first.
const USUAL_AND_NOT: &str = "p max 2 16\nn 1 s\nn 2 t\n\
     a 1 2 7\n\
     a 2 1 18446744073709551615\n\
     a 0000000000000000001 0000000000000000002 9999999999999999999\n\
     a 00000000000000000001 2 3\n\
     a  1 2 4\n\
     a 1 2 5 \n\
     a 1 2 6\r\n\
     a\t1 2 8\n\
     a 1 2 7\na 1 2 7\na 1 2 7\na 1 2 7\na 1 2 7\na 1 2 7\na 1 2 7\na 1 2 7\n";

/// The capacities of those first arcs.
const CAPACITIES: &[u64] = &[7, u64::MAX, 9_999_999_999_999_999_999, 3, 4, 5, 6, 8];

/// Whether a network has 16 arcs, the first ones of those capacities.
fn has_capacities(net: &Network) -> bool {
    if net.len() != 16 {
        return false;
    }
    for i in 0..8 {
        if net.arc(i).cap != CAPACITIES[i as usize] {
            return false;
        }
    }
    true
}

/// Whether that problem is read so, cut in two at a place.
fn is_usual_or_not(alloc: Global, first: usize) -> bool {
    match read_problem(alloc, USUAL_AND_NOT.as_bytes(), first, 4096) {
        Some(problem) => has_capacities(problem.net()),
        None => false,
    }
}

#[test]
fn arc_lines_usual_and_not(rt: HostRuntime) {
    for first in 0..USUAL_AND_NOT.len() + 1 {
        assert!(rt; is_usual_or_not(rt.alloc(), first));
    }
}
