//! Why a reader refuses a text, and the words for it.
ghost use Rattle.std.specs.Prelude.{◌≡◌};
ghost use Rattle.flow_text.specs.FaultTexts.{fault_text};

use thiserror::Error;

/// What is wrong with a line of a problem file or of a solution file, or with its end.
///
/// Each variant says when it is told. Of several faults a reader tells the one of the least line, and in that line the
/// one that its order of tests meets first. A fault of the whole text is told at the line after the last.
#[derive(Clone, Copy, Debug, PartialEq, Eq)]
pub enum FaultCode {
    /// A line that is no comment has more than `LONGEST_LINE` bytes, its byte 10 not counted.
    LineTooLong,
    /// A line has fields and is no comment, but its first field is none of the letters of the file: `p`, `n`, `a` in a
    /// problem, `s`, `f` in a solution.
    UnknownLine,
    /// A line has more or fewer fields than its record: 4 for `p`, `a` and `f`, 3 for `n`, 2 for `s`.
    WrongFields,
    /// A field that should be a number has a byte that is no decimal digit. A sign is none.
    BadNumber,
    /// A `p` line stands after another one.
    SecondProblemLine,
    /// A node line or an arc line stands before any `p` line, or a problem ends without one.
    ProblemLineMissing,
    /// The second field of a `p` line isn't `max`.
    NotMax,
    /// A `p` line declares fewer nodes than `FEWEST_NODES`, or more than `MOST_PROBLEM_NODES`.
    NodesOutOfRange,
    /// A `p` line declares more arcs than `MOST_PROBLEM_ARCS`.
    ArcsOutOfRange,
    /// A node line stands after an arc line.
    NodeLineAfterArcLine,
    /// A line names a node that is 0 or greater than the number of nodes of the problem.
    NodeOutOfRange,
    /// The third field of a node line is neither `s` nor `t`.
    NotTerminal,
    /// An arc line stands, or a problem ends, where there is no source yet, or no sink.
    TerminalsMissing,
    /// An arc line stands after as many arc lines as the `p` line declares.
    TooManyArcs,
    /// A capacity is greater than `GREATEST_CAPACITY`.
    CapacityOutOfRange,
    /// A problem ends with fewer arc lines than its `p` line declares.
    TooFewArcs,
    /// A node line names a node that an earlier node line has named.
    AlreadyTerminal,
    /// An `s` line stands after another one.
    SecondSolutionLine,
    /// A flow line stands before any `s` line, or a solution ends without one.
    SolutionLineMissing,
    /// A flow line stands after `MOST_FLOW_LINES` flow lines.
    TooManyFlowLines,
    /// The flow of a flow line is greater than `GREATEST_CAPACITY`.
    FlowOutOfRange,
    /// The value of an `s` line is greater than `GREATEST_VALUE`.
    ValueOutOfRange,
}

impl FaultCode {
    /// The words of the fault, as the program's message tells them after the number of the line.
    pub fn text(self) -> &'static str
        ensures { result.now ≡ fault_text self }
    {
        match self {
            FaultCode::LineTooLong => "line too long",
            FaultCode::UnknownLine => "unknown line",
            FaultCode::WrongFields => "wrong number of fields",
            FaultCode::BadNumber => "bad number",
            FaultCode::SecondProblemLine => "second problem line",
            FaultCode::ProblemLineMissing => "problem line missing",
            FaultCode::NotMax => "problem is not max",
            FaultCode::NodesOutOfRange => "number of nodes out of range",
            FaultCode::ArcsOutOfRange => "number of arcs out of range",
            FaultCode::NodeLineAfterArcLine => "node line after an arc line",
            FaultCode::NodeOutOfRange => "node out of range",
            FaultCode::NotTerminal => "terminal must be s or t",
            FaultCode::TerminalsMissing => "terminals missing",
            FaultCode::TooManyArcs => "too many arcs",
            FaultCode::CapacityOutOfRange => "capacity out of range",
            FaultCode::TooFewArcs => "too few arcs",
            FaultCode::AlreadyTerminal => "node is already a terminal",
            FaultCode::SecondSolutionLine => "second solution line",
            FaultCode::SolutionLineMissing => "solution line missing",
            FaultCode::TooManyFlowLines => "too many flow lines",
            FaultCode::FlowOutOfRange => "flow out of range",
            FaultCode::ValueOutOfRange => "value out of range",
        }
    }
}

/// Why a reader refuses. After a refusal each later call of the same reader answers the same.
///
/// Its display text is for a programmer; no contract speaks of it.
#[derive(Clone, Copy, Debug, PartialEq, Eq, Error)]
pub enum ReadFault {
    /// The text isn't in the format.
    #[error("line {line}: {}", .code.text())]
    Fault {
        /// The line of the fault, counted from 1, comments and empty lines included. A line past the greatest `u64` is
        /// told as that number.
        line: u64,
        /// What is wrong there.
        code: FaultCode,
    },
    /// A growth of memory was refused.
    #[error("out of memory")]
    OutOfMemory,
}
