//! The bytes of each output line, with small numbers and with the greatest.
use super::*;
use flow_net::Arc;

/// What a line tells, in the order of its fields.
#[derive(Clone, Copy)]
enum Told {
    Solution(u128),
    Flow(u32, u32, u64),
    Node(u32),
    Arc(u32, u32, u64),
    Connectivity(u64),
    Verdict(Verdict),
    /// Whether the fault is one of a solution, its line and its code.
    Fault(bool, u64, FaultCode),
}

/// The greatest numbers of each size.
const NODE: u32 = u32::MAX;

const MOST: u64 = u64::MAX;

const LINES: &[(Told, &str)] = &[
    (Told::Solution(5), "s 5\n"),
    (Told::Flow(1, 2, 3), "f 1 2 3\n"),
    (Told::Flow(1, 1, 0), "f 1 1 0\n"),
    (Told::Flow(1, 2, 1000000000001), "f 1 2 1000000000001\n"),
    (Told::Node(1), "n 1\n"),
    (Told::Arc(1, 2, 3), "a 1 2 3\n"),
    (Told::Connectivity(2), "k 2\n"),
    (
        Told::Solution(73786976294838206460000000),
        "s 73786976294838206460000000\n",
    ),
    (
        Told::Solution(GREATEST),
        "s 340282366920938463463374607431768211455\n",
    ),
    (
        Told::Flow(NODE, NODE, MOST),
        "f 4294967295 4294967295 18446744073709551615\n",
    ),
    (Told::Node(NODE), "n 4294967295\n"),
    (
        Told::Arc(NODE, NODE, MOST),
        "a 4294967295 4294967295 18446744073709551615\n",
    ),
    (Told::Connectivity(MOST), "k 18446744073709551615\n"),
    (
        Told::Verdict(Verdict::Over {
            src: 1,
            dst: 2,
            flow: 6,
            cap: 5,
        }),
        "over 1 2 6 5\n",
    ),
    (
        Told::Verdict(Verdict::Unbalanced {
            node: 2,
            into: 1,
            out: 0,
        }),
        "unbalanced 2 1 0\n",
    ),
    (
        Told::Verdict(Verdict::Value { given: 1, found: 2 }),
        "value 1 2\n",
    ),
    (
        Told::Verdict(Verdict::Value {
            given: 0,
            found: -3,
        }),
        "value 0 -3\n",
    ),
    (Told::Verdict(Verdict::Feasible(0)), "feasible 0\n"),
    (Told::Verdict(Verdict::NotMaximal(0)), "not-maximal 0\n"),
    (Told::Verdict(Verdict::Optimal(5)), "optimal 5\n"),
    (
        Told::Verdict(Verdict::Over {
            src: NODE,
            dst: NODE,
            flow: GREATEST,
            cap: GREATEST,
        }),
        "over 4294967295 4294967295 340282366920938463463374607431768211455 \
         340282366920938463463374607431768211455\n",
    ),
    (
        Told::Verdict(Verdict::Unbalanced {
            node: NODE,
            into: GREATEST,
            out: GREATEST,
        }),
        "unbalanced 4294967295 340282366920938463463374607431768211455 340282366920938463463374607431768211455\n",
    ),
    (
        Told::Verdict(Verdict::Value {
            given: 0,
            found: -18446744073709551615,
        }),
        "value 0 -18446744073709551615\n",
    ),
    (
        Told::Verdict(Verdict::Value {
            given: GREATEST,
            found: i128::MIN,
        }),
        "value 340282366920938463463374607431768211455 -170141183460469231731687303715884105728\n",
    ),
    (
        Told::Verdict(Verdict::NotMaximal(GREATEST)),
        "not-maximal 340282366920938463463374607431768211455\n",
    ),
    (
        Told::Fault(false, 5, FaultCode::CapacityOutOfRange),
        "flow: line 5: capacity out of range\n",
    ),
    (
        Told::Fault(true, 1, FaultCode::BadNumber),
        "flow: solution line 1: bad number\n",
    ),
    (
        Told::Fault(true, 1, FaultCode::SolutionLineMissing),
        "flow: solution line 1: solution line missing\n",
    ),
    (
        Told::Fault(true, MOST, FaultCode::NodesOutOfRange),
        "flow: solution line 18446744073709551615: number of nodes out of range\n",
    ),
];

fn line_of(told: Told) -> Line {
    match told {
        Told::Solution(value) => solution_line(value),
        Told::Flow(src, dst, flow) => flow_line(src, dst, flow),
        Told::Node(node) => node_line(node),
        Told::Arc(src, dst, cap) => arc_line(Arc { src, dst, cap }),
        Told::Connectivity(value) => connect_line(value),
        Told::Verdict(verdict) => verdict_line(&verdict),
        Told::Fault(of_solution, line, code) => fault_line(of_solution, line, code),
    }
}

/// Whether the line that tells something is this text.
fn is_line(told: Told, text: &str) -> bool {
    line_of(told).as_slice() == text.as_bytes()
}

#[test]
fn lines_of_all_kinds(rt: HostRuntime) {
    for &(told, text) in LINES {
        expect(&rt, is_line(told, text), text);
    }
}
