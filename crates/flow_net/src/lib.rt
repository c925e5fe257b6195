//! Networks, tables of flows, and the theory of maximum flows and minimum cuts.
//!
//! This is the lowest crate of the toolkit. Its `specs/` define networks, feasible flows, cuts and the edge
//! connectivity; docs/DEFINITIONS.md says which of these files a reader has to believe. `laws` has the theorems that
//! connect them (Ford and Fulkerson 1956).
//!
//! Solvers read and change flows only by the calls of [`FlowTable`], in terms of *half-arcs*: half-arc `2·i` is arc
//! `i`, and half-arc `2·i + 1` its reverse arc in the residual network. Each look and each push is one step. The table
//! counts its steps for contracts alone: the count takes no bytes, and no running program can read it.
#![tactic(auto)]

mod arranging;
pub mod laws;
mod limits;
mod naming;
mod networks;
mod problems;
mod tables;

pub use arranging::{arrange, name_in_order};
pub use limits::{
    FEWEST_NODES, GREATEST_CAPACITY, MOST_ARCS, MOST_ARCS_BOTH_WAYS, MOST_NODES, MOST_PROBLEM_ARCS,
    MOST_PROBLEM_NODES,
};
pub use naming::{is_scattered, name_nodes};
pub use networks::{Arc, Network, OutOfMemory};
pub use problems::Problem;
pub use tables::FlowTable;
