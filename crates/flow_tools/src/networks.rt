//! Networks with their terminals.
ghost use Rattle.std.specs.Prelude.{◌≡◌};
ghost use Rattle.flow_net.specs.Limits.{IsProblem, AreTerminals};

use flow_net::{Network, Problem};
use std::marker::Model;

/// A network with one or more sources and one or more sinks, all different: what has a greatest flow. A [`Problem`] is
/// one within the limits of files.
#[derive(Drop)]
pub struct FlowNetwork {
    net: Network,
    sources: Vec<u32>,
    sinks: Vec<u32>,
}

impl Model for FlowNetwork {
    ghost use Rattle.flow_net.specs.Nets.{Instance};
    ghost use Rattle.flow_net.specs.Limits.{AreTerminals};

    ghost Value = { Instance };

    ghost view = { λ n. record { net = n.net; sources = n.sources.items; sinks = n.sinks.items } };

    ghost invariant = { λ n. AreTerminals n.net n.sources.items n.sinks.items };
}

impl FlowNetwork {
    /// A network with its terminals. It takes no memory.
    pub fn new(net: Network, sources: Vec<u32>, sinks: Vec<u32>) -> FlowNetwork
        requires { AreTerminals net sources.items sinks.items }
        ensures { result ≡ record { net = net; sources = sources.items; sinks = sinks.items } }
    {
        FlowNetwork {
            net,
            sources,
            sinks,
        }
    }

    /// The network of a problem, with its terminals. It takes no memory.
    pub fn of_problem(problem: Problem) -> FlowNetwork
        ensures same { result ≡ problem }
        ensures is_problem { IsProblem problem }
    {
        let (net, sources, sinks) = problem.into_parts();
        FlowNetwork {
            net,
            sources,
            sinks,
        }
    }

    /// The network without its terminals.
    pub fn net(&self) -> &Network
        ensures net { result.now ≡ self.now.net }
        ensures terminals { AreTerminals self.now.net self.now.sources self.now.sinks }
    {
        &self.net
    }

    /// The sources, in the order in which they were given.
    pub fn sources(&self) -> &[u32]
        ensures sources { result.now ≡ self.now.sources }
        ensures terminals { AreTerminals self.now.net self.now.sources self.now.sinks }
    {
        self.sources.as_slice()
    }

    /// The sinks, in the order in which they were given.
    pub fn sinks(&self) -> &[u32]
        ensures sinks { result.now ≡ self.now.sinks }
        ensures terminals { AreTerminals self.now.net self.now.sources self.now.sinks }
    {
        self.sinks.as_slice()
    }

    /// The network, the sources and the sinks, in that order. It takes no memory.
    pub fn into_parts(self) -> (Network, Vec<u32>, Vec<u32>)
        ensures net { result.0 ≡ self.net }
        ensures sources { result.1.items ≡ self.sources }
        ensures sinks { result.2.items ≡ self.sinks }
        ensures terminals { AreTerminals self.net self.sources self.sinks }
    {
        let FlowNetwork {
            net,
            sources,
            sinks,
        } = self;
        (net, sources, sinks)
    }
}
