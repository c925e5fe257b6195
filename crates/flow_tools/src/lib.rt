//! Jobs over whole texts: all that the program does, over any streams.
//!
//! [`run`] reads a problem from an [`Input`] piece by piece, solves it, and writes the answer to an [`Output`]:
//!
//! ```text
//! bytes → reading → Problem → answers (flow_solve) → a flow or a cut → printing → lines → sending → bytes
//! ```
//!
//! `specs/running/Answers.antt` says what a run may write, and `specs/running/Exits.antt` how it ends, with its message
//! and its status. Both speak of bytes and of the definitions of `flow_net` and `flow_text`, never of this code.
//! [`Counted`] makes streams of the standard library's readers and writers, and [`memory`] has streams for tests.
//! [`run_on_texts`], the call for other programs, promises the same for texts in memory
//! (`specs/running/TextRuns.antt`), with refused memory as the only failure.
#![tactic(auto)]

mod cells;
mod checking;
mod connecting;
mod laws;
mod networks;
mod running;
mod solving;
mod streams;

pub use cells::filled;
pub use checking::node_flows::NodeFlows;
pub use checking::sharing::fill;
pub use checking::{check, is_greatest};
pub use connecting::answers::{connect, edge_connectivity};
pub use connecting::connectivity;
pub use laws::{greatest_is_least, printed_cut_is_minimum, solved_is_optimal};
pub use networks::FlowNetwork;
pub use running::jobs::{Job, Stop};
pub use running::run;
pub use running::texts::run_on_texts;
pub use solving::answers::{MinimumCut, Side, Solved, cut, solve, solve_value};
pub use streams::counted::Counted;
pub use streams::sending::put_all;
pub use streams::{Failed, Input, Output, memory};
