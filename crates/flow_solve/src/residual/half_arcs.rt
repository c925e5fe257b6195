//! Half-arcs: their ends, the other half-arc of the same arc, and directions. No call here is a step: each reads only
//! the arc.
ghost use Rattle.std.specs.Prelude.{◌≡◌, ◌*◌, ◌<◌, length};
ghost use Rattle.flow_net.specs.Nets.{IsNode};
ghost use Rattle.flow_net.specs.Residual.{tail_of, head_of};
ghost use Rattle.flow_solve.specs.residual.HalfArcs.{twin_of, near_end, far_end, crossed};

use flow_net::Network;

/// Which way a search goes over the half-arcs of the residual network.
#[derive(Clone, Copy)]
pub enum Direction {
    /// From where a half-arc begins to where it leads.
    Forwards,
    /// From where a half-arc leads to where it begins.
    Backwards,
}

/// The other direction.
pub(crate) fn turned(direction: Direction) -> Direction {
    match direction {
        Direction::Forwards => Direction::Backwards,
        Direction::Backwards => Direction::Forwards,
    }
}

/// The node that a half-arc leads to. No step: it reads the arc alone.
pub(crate) fn head(net: &Network, half: u32) -> u32
    requires { half < 2 * length net.now.arcs }
    ensures head { result ≡ head_of net.now half }
    ensures node { IsNode net.now result }
{
    let arc = net.arc(half / 2);
    if half % 2 == 0 { arc.dst } else { arc.src }
}

/// The node that a half-arc leaves. No step: it reads the arc alone.
pub(crate) fn tail(net: &Network, half: u32) -> u32
    requires { half < 2 * length net.now.arcs }
    ensures tail { result ≡ tail_of net.now half }
    ensures node { IsNode net.now result }
{
    let arc = net.arc(half / 2);
    if half % 2 == 0 { arc.src } else { arc.dst }
}

/// The other half-arc of the same arc.
pub(crate) fn twin(half: u32) -> u32
    ensures { result ≡ twin_of half }
{
    half ^ 1
}

/// For a half-arc that leaves a node: the half-arc of its arc over which a search may go on from that node.
pub(crate) fn cross(direction: Direction, half: u32) -> u32
    ensures { result ≡ crossed direction half }
{
    match direction {
        Direction::Forwards => half,
        Direction::Backwards => twin(half),
    }
}

/// The node that a half-arc leads to, as a search goes that way over it.
pub(crate) fn far(net: &Network, direction: Direction, half: u32) -> u32
    requires { half < 2 * length net.now.arcs }
    ensures far { result ≡ far_end direction net.now half }
    ensures node { IsNode net.now result }
{
    match direction {
        Direction::Forwards => head(net, half),
        Direction::Backwards => head(net, twin(half)),
    }
}

/// The node that a half-arc comes from, as a search goes that way over it.
pub(crate) fn near(net: &Network, direction: Direction, half: u32) -> u32
    requires { half < 2 * length net.now.arcs }
    ensures near { result ≡ near_end direction net.now half }
    ensures node { IsNode net.now result }
{
    match direction {
        Direction::Forwards => head(net, twin(half)),
        Direction::Backwards => head(net, half),
    }
}
