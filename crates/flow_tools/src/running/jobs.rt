//! The jobs of a run, and why a run ends without an answer.
ghost use Rattle.std.specs.Prelude.{◌≡◌};
ghost use Rattle.flow_tools.specs.declared.running.jobs.Stop.TheVariants.{OutOfMemory};

use flow_net::OutOfMemory;
use flow_text::FaultCode;

/// What a run computes and prints.
#[derive(Clone, Copy, Debug, PartialEq, Eq)]
pub enum Job {
    /// The greatest value of a feasible flow, and such a flow.
    Solve {
        /// The value is printed alone.
        value_only: bool,
    },
    /// A minimum cut: the one with the least source side.
    Cut {
        /// The arcs that leave the printed source side are printed too.
        arcs: bool,
        /// The cut with the least sink side is printed in place of the other.
        sink: bool,
    },
    /// The edge connectivity, by arc lines.
    Connect {
        /// Arcs count by their ends, not by their direction.
        undirected: bool,
        /// The sets that count have every source inside and every sink outside.
        pair: bool,
    },
    /// The verdict on a solution.
    Check {
        /// It isn't asked whether a flow of greater value exists.
        feasible_only: bool,
    },
}

/// What each command asks without a flag, `flow solve` with `--value`, and `flow connect` with `--undirected`.
impl Job {
    /// `flow solve`: the greatest value, and a flow that has it.
    pub const SOLVE: Job = Job::Solve { value_only: false };

    /// `flow solve --value`: the greatest value alone.
    pub const VALUE: Job = Job::Solve { value_only: true };

    /// `flow cut`: the capacity of a minimum cut, and the least source side.
    pub const CUT: Job = Job::Cut {
        arcs: false,
        sink: false,
    };

    /// `flow connect`: the edge connectivity, with each arc counted by its direction.
    pub const CONNECT: Job = Job::Connect {
        undirected: false,
        pair: false,
    };

    /// `flow connect --undirected`: the edge connectivity, with each arc counted by its ends.
    pub const UNDIRECTED: Job = Job::Connect {
        undirected: true,
        pair: false,
    };

    /// `flow check`: whether a solution is feasible, and its value the greatest.
    pub const CHECK: Job = Job::Check {
        feasible_only: false,
    };
}

/// Why a run ends without an answer.
#[derive(Clone, Copy, Debug, PartialEq, Eq)]
pub enum Stop {
    /// An input isn't in its format.
    Fault {
        /// Whether the input is the solution; else it is the problem.
        solution: bool,
        /// The line of the fault, counted from 1.
        line: u64,
        /// What is wrong there.
        code: FaultCode,
    },
    /// A pull failed.
    ReadFailed,
    /// A put to the output failed.
    WriteFailed,
    /// A growth of memory was refused.
    OutOfMemory,
}

impl From<OutOfMemory> for Stop {
    ghost from_gives = { λ _ stop. stop ≡ OutOfMemory };

    fn from(_refused: OutOfMemory) -> Stop {
        Stop::OutOfMemory
    }
}
