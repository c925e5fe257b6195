//! The residual network: half-arcs, packed by the node that they leave; searches; cells.
pub(crate) mod cells;
pub(crate) mod half_arcs;
pub(crate) mod packing;
pub(crate) mod searching;
