//! The parameters of methods and searches.

use crate::residual::packing::Packed;
use flow_net::Network;

/// A network and its terminals, as a caller gives them.
#[derive(Clone, Copy)]
pub struct Given<'a> {
    /// The network.
    pub net: &'a Network,
    /// The sources.
    pub s: &'a [u32],
    /// The sinks.
    pub t: &'a [u32],
}

/// What is worked on.
#[derive(Clone, Copy)]
pub struct Task<'a> {
    /// The network with its half-arcs side by side, or with rows of entries.
    pub packed: Packed<'a>,
    /// The sources.
    pub s: &'a [u32],
    /// The sinks.
    pub t: &'a [u32],
}
