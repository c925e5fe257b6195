//! Problems: a network with its sources and sinks.
ghost use Rattle.std.specs.Prelude.{◌≡◌};
ghost use Rattle.flow_net.specs.Limits.{IsProblem};

use crate::networks::Network;
use std::marker::Model;

/// A maximum flow problem of the DIMACS format (1990): a network of at most
/// [`MOST_PROBLEM_NODES`](super::limits::MOST_PROBLEM_NODES) nodes and
/// [`MOST_PROBLEM_ARCS`](super::limits::MOST_PROBLEM_ARCS) arcs with one or more sources and one or more sinks, all
/// different.
#[derive(Drop)]
pub struct Problem {
    net: Network,
    sources: Vec<u32>,
    sinks: Vec<u32>,
}

impl Model for Problem {
    ghost use Rattle.flow_net.specs.Nets.{Instance};
    ghost use Rattle.flow_net.specs.Limits.{IsProblem};

    ghost Value = { Instance };

    ghost view = { λ p. record { net = p.net; sources = p.sources.items; sinks = p.sinks.items } };

    ghost invariant = { λ p. IsProblem (record { net = p.net; sources = p.sources.items; sinks = p.sinks.items }) };
}

impl Problem {
    /// A problem of a network and its terminals. It takes no memory.
    pub fn new(net: Network, sources: Vec<u32>, sinks: Vec<u32>) -> Problem
        requires { IsProblem (record { net = net; sources = sources.items; sinks = sinks.items }) }
        ensures { result ≡ record { net = net; sources = sources.items; sinks = sinks.items } }
    {
        Problem {
            net,
            sources,
            sinks,
        }
    }

    /// The network.
    pub fn net(&self) -> &Network
        ensures net { result.now ≡ self.now.net }
        ensures is_problem { IsProblem self.now }
    {
        &self.net
    }

    /// The sources, in the order in which they were given.
    pub fn sources(&self) -> &[u32]
        ensures sources { result.now ≡ self.now.sources }
        ensures is_problem { IsProblem self.now }
    {
        self.sources.as_slice()
    }

    /// The sinks, in the order in which they were given.
    pub fn sinks(&self) -> &[u32]
        ensures sinks { result.now ≡ self.now.sinks }
        ensures is_problem { IsProblem self.now }
    {
        self.sinks.as_slice()
    }

    /// The network, the sources and the sinks, in that order. It takes no memory.
    pub fn into_parts(self) -> (Network, Vec<u32>, Vec<u32>)
        ensures net { result.0 ≡ self.net }
        ensures sources { result.1.items ≡ self.sources }
        ensures sinks { result.2.items ≡ self.sinks }
        ensures is_problem { IsProblem self }
    {
        let Problem {
            net,
            sources,
            sinks,
        } = self;
        (net, sources, sinks)
    }
}
