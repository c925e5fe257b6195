//! How many arcs leave and enter each node. The connectivity is no more than the least of these numbers.
//!
//! Where as many arcs leave each node as enter it, forests one way are enough. Such a network is Eulerian if
//! it is connected. Networks both ways are balanced, with their arcs in any order, and directed rings.
ghost use Rattle.std.specs.Prelude.{◌≡◌, ℕ, ◌+◌, ◌*◌, ◌≤◌, ◌<◌, Bool, IsTrue, length, slice_index, drop};
ghost use Rattle.flow_net.specs.Nets.{IsNode};
ghost use Rattle.flow_net.specs.NodeSets.{just};
ghost use Rattle.flow_net.specs.Connectivity.{leaving, IsProper};
ghost use Rattle.flow_net.specs.Forests.{IsEitherWay, entering};
ghost use Rattle.flow_solve.specs.Forests.{AreDegrees, AreEven, AreLeaving, IsBothWays, facing};

use crate::forests::rows::ends_of;
use crate::residual::half_arcs::Direction;
use flow_net::Network;

/// Counts the arcs that lead on from each node, self-loops left out.
pub(crate) fn count_arcs(net: &Network, direction: Direction, counts: &mut [u32])
    requires { length counts.old ≡ net.now.nodes }
    ensures { AreLeaving (facing direction net.now) counts.new }
{
    counts.fill(0);
    for arc in 0..net.len() {
        let (from, to) = ends_of(net, direction, arc);
        if from != to {
            counts[from as usize - 1] += 1;
        }
    }
}

/// Counts the arcs that leave and that enter each node, self-loops left out.
fn count_degrees(net: &Network, out: &mut [u32], into: &mut [u32])
    requires out { length out.old ≡ net.now.nodes }
    requires into { length into.old ≡ net.now.nodes }
    ensures { AreDegrees net.now out.new into.new }
{
    count_arcs(net, Direction::Backwards, out);
    count_arcs(net, Direction::Forwards, into);
}

/// The least of some numbers, of which there is at least one.
fn least_of(numbers: &[u32]) -> u32
    requires { 0 < length numbers.now }
    ensures found { (i : ℕ) × (i < length numbers.now) × (slice_index numbers.now i ≡ result) }
    ensures least { (i : ℕ) → i < length numbers.now → result ≤ slice_index numbers.now i }
{
    let mut least = numbers[0];
    for number in numbers {
        if *number < least {
            least = *number;
        }
    }
    least
}

/// The least number of arcs that leave a node, or that enter one: the connectivity is no greater. The first cells then
/// have how many leave each node, and those behind them how many enter each; self-loops are left out.
pub fn least_degree(net: &Network, cells: &mut [u32]) -> u64
    requires cells { 2 * net.now.nodes ≤ length cells.old }
    ensures reached { (X : ℕ → Bool) × IsProper net.now X × (leaving net.now X ≡ result) }
    ensures least { (v : ℕ) → IsNode net.now v → result ≤ leaving net.now (just v) }
    ensures least_entering { (v : ℕ) → IsNode net.now v → result ≤ entering net.now (just v) }
    ensures degrees { AreDegrees net.now cells.new (drop net.now.nodes cells.new) }
{
    let n = net.nodes() as usize;
    let (counts, _rest) = cells.split_at_mut(2 * n);
    let (out, into) = counts.split_at_mut(n);
    count_degrees(net, out, into);
    let leaving = least_of(out);
    let entering = least_of(into);
    leaving.min(entering) as u64
}

/// Whether as many arcs leave each node as enter it: as many then leave each set of nodes as enter it.
pub fn are_balanced(net: &Network, degrees: &[u32]) -> bool
    requires cells { 2 * net.now.nodes ≤ length degrees.now }
    requires degrees { AreDegrees net.now degrees.now (drop net.now.nodes degrees.now) }
    ensures balanced { IsTrue result → IsEitherWay net.now }
    ensures unbalanced { IsEitherWay net.now → IsTrue result }
{
    let n = net.nodes() as usize;
    let (leaving, rest) = degrees.split_at(n);
    let (entering, _) = rest.split_at(n);
    leaving == entering
}

/// Whether the second half of the arcs are those of the first turned round, in their order.
pub(crate) fn are_opposite(net: &Network) -> bool
    ensures { IsTrue result → IsBothWays net.now }
{
    // Brings the network's limits, `IsNet`, into the proof.
    let _ = net.nodes();
    let half = net.len() / 2;
    for i in 0..half {
        let there = net.arc(i);
        let back = net.arc(half + i);
        if there.src != back.dst || there.dst != back.src {
            return false;
        }
    }
    net.len() % 2 == 0
}

/// Whether an even number of arcs leaves each set of nodes: the network is paired, each arc with its opposite, and an
/// even number leaves each node.
pub(crate) fn are_even(net: &Network, degrees: &[u32], is_paired: bool) -> bool
    requires both { IsTrue is_paired → IsBothWays net.now }
    requires cells { net.now.nodes ≤ length degrees.now }
    requires degrees { AreDegrees net.now degrees.now (drop net.now.nodes degrees.now) }
    ensures { IsTrue result → AreEven net.now }
{
    if !is_paired {
        return false;
    }
    for node in 0..net.nodes() {
        if degrees[node as usize] % 2 == 1 {
            return false;
        }
    }
    true
}
