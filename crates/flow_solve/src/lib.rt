//! Maximum flows and minimum cuts.
//!
//! A [`Method`] leaves a maximum flow in a table. [`cut_nearest_sources`] and [`cut_nearest_sinks`] also mark the
//! minimum cut nearest the sources or the sinks. For a feasible flow from elsewhere [`has_augmenting_path`] says
//! whether it is maximum, and [`reach`] and [`reach_back`] mark these cuts. [`connectivity_by_forests`] may give up: it
//! returns nothing if its steps run out, and its callers have another way.
//!
//! A solver reads and changes flows only by the looks and pushes of [`flow_net::FlowTable`], each a counted step; it
//! may read the ends of arcs freely. No call asks for memory. All work is done in the first [`work_len`] cells of a
//! slice that the caller lends. With `n` nodes and `m` arcs these are, in this order: `5·n` to work in, as the head of
//! each file that does so says; `n + 1` for where each node's row begins; `2·m` for the half-arcs, or entries for them,
//! of all rows; and one spare. The forests have a layout of their own.
//!
//! Labels, levels, parents, lists and excess in these cells are *hints*: no proof relies on them. A push never exceeds
//! what a look has shown to remain, and tests or later stages make up for a wrong hint.
#![tactic(auto)]

mod forests;
mod levels;
mod method;
mod paths;
mod residual;
mod sides;
pub mod stages;
mod task;

pub use forests::connectivity_by_forests;
pub use forests::degrees::{are_balanced, least_degree};
pub use levels::Levels;
pub use method::{Method, work_len};
pub use paths::Paths;
pub use sides::{cut_nearest_sinks, cut_nearest_sources, has_augmenting_path, reach, reach_back};
