//! The words of each fault.
use super::*;

/// The words of the faults of a problem, then of those that only a solution has.
const WORDS: &[(FaultCode, &str)] = &[
    (FaultCode::LineTooLong, "line too long"),
    (FaultCode::UnknownLine, "unknown line"),
    (FaultCode::WrongFields, "wrong number of fields"),
    (FaultCode::BadNumber, "bad number"),
    (FaultCode::SecondProblemLine, "second problem line"),
    (FaultCode::ProblemLineMissing, "problem line missing"),
    (FaultCode::NotMax, "problem is not max"),
    (FaultCode::NodesOutOfRange, "number of nodes out of range"),
    (FaultCode::ArcsOutOfRange, "number of arcs out of range"),
    (
        FaultCode::NodeLineAfterArcLine,
        "node line after an arc line",
    ),
    (FaultCode::NodeOutOfRange, "node out of range"),
    (FaultCode::NotTerminal, "terminal must be s or t"),
    (FaultCode::TerminalsMissing, "terminals missing"),
    (FaultCode::TooManyArcs, "too many arcs"),
    (FaultCode::CapacityOutOfRange, "capacity out of range"),
    (FaultCode::TooFewArcs, "too few arcs"),
    (FaultCode::AlreadyTerminal, "node is already a terminal"),
    (FaultCode::SecondSolutionLine, "second solution line"),
    (FaultCode::SolutionLineMissing, "solution line missing"),
    (FaultCode::TooManyFlowLines, "too many flow lines"),
    (FaultCode::FlowOutOfRange, "flow out of range"),
    (FaultCode::ValueOutOfRange, "value out of range"),
];

#[test]
fn words_of_faults(rt: HostRuntime) {
    for &(code, words) in WORDS {
        expect(&rt, code.text() == words, words);
    }
}
