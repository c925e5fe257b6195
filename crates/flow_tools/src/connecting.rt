//! Edge connectivity, by disjoint forests and by flows where every capacity is 1.
ghost use Rattle.std.specs.Prelude.{◌≡◌, ◌≢◌, ℕ, ◌+◌, ◌-◌, ◌*◌, ◌≤◌, ◌<◌, Bool, true, false, List, length, drop};
ghost use Rattle.std.specs.Prelude.{slice_index};
ghost use Rattle.std.specs.List.{All};
ghost use Rattle.flow_net.specs.Nets.{Net, IsNode};
ghost use Rattle.flow_net.specs.Limits.{AreTerminals};
ghost use Rattle.flow_net.specs.DerivedNets.{unit};
ghost use Rattle.flow_net.specs.NodeSets.{one_of, just};
ghost use Rattle.flow_net.specs.Flows.{Fits};
ghost use Rattle.flow_net.specs.Connectivity.{leaving, IsProper};
ghost use Rattle.flow_net.specs.LeastCuts.{IsConnectivity, IsPairConnectivity};
ghost use Rattle.flow_solve.specs.Bounds.{work_cells};

pub(crate) mod answers;

use flow_net::{FlowTable, Network};
use flow_solve::{Method, connectivity_by_forests, least_degree, work_len};

/// The least number of arcs that leave a set with the nodes of `s` inside and those of `t` outside, by one solve.
fn pair_value<M: Method>(
    net: &Network,
    s: &[u32],
    t: &[u32],
    flow: &mut FlowTable,
    work: &mut [u32],
) -> u64
    requires fits { Fits net.now flow.old.flows }
    requires unit { All (λ a. a.cap ≡ 1) net.now.arcs }
    requires terminals { AreTerminals net.now s.now t.now }
    requires cells { work_cells net.now ≤ length work.old }
    ensures pair { IsPairConnectivity net.now (one_of s.now) (one_of t.now) result }
    ensures never_lowered { flow.old.steps ≤ flow.new.steps }
    ensures steps { flow.new.steps ≤ flow.old.steps + M.steps_bound net.now }
    ensures still_fits { Fits net.now flow.new.flows }
    ensures rest { drop (work_cells net.now) work.new ≡ drop (work_cells net.now) work.old }
{
    // Brings the network's limits, `IsNet`, into the proof.
    let _ = net.nodes();
    M::greatest(net, s, t, flow, work) as u64
}

/// The connectivity, by a solve from each node to the next in the circle of all nodes: a set that is neither empty nor
/// all has a node inside whose next is outside.
fn least_around<M: Method>(
    net: &Network,
    flow: &mut FlowTable,
    cells: &mut [u32],
    known: u64,
) -> u64
    requires fits { Fits net.now flow.old.flows }
    requires unit { All (λ a. a.cap ≡ 1) net.now.arcs }
    requires cells { length cells.old ≡ work_cells net.now }
    requires known { (X : ℕ → Bool) × IsProper net.now X × (leaving net.now X ≡ known) }
    ensures connectivity { IsConnectivity net.now result }
    ensures never_lowered { flow.old.steps ≤ flow.new.steps }
    ensures steps { flow.new.steps ≤ flow.old.steps + net.now.nodes * M.steps_bound net.now }
    ensures still_fits { Fits net.now flow.new.flows }
{
    let n = net.nodes();
    let mut least = known;
    let mut before = n;
    for v in 1..n + 1 {
        let source = [before];
        let sink = [v];
        let value = pair_value::<M>(net, &source, &sink, flow, cells);
        least = least.min(value);
        before = v;
    }
    least
}

/// The connectivity, in cells that are all its own: by disjoint forests from one root, within the steps of one solve,
/// or else by a solve for each node. Of two nodes these alone may take all steps, so the forests get none.
fn least_cut<M: Method>(net: &Network, flow: &mut FlowTable, cells: &mut [u32]) -> u64
    requires fits { Fits net.now flow.old.flows }
    requires unit { All (λ a. a.cap ≡ 1) net.now.arcs }
    requires cells { length cells.old ≡ work_cells net.now }
    ensures connectivity { IsConnectivity net.now result }
    ensures never_lowered { flow.old.steps ≤ flow.new.steps }
    ensures steps { flow.new.steps ≤ flow.old.steps + 2 * (net.now.nodes - 1) * M.steps_bound net.now }
    ensures still_fits { Fits net.now flow.new.flows }
{
    let spare = if net.nodes() > 2 {
        M::spare_steps(net)
    } else {
        0
    };
    if let Some(connectivity) = connectivity_by_forests(net, flow, cells, spare) {
        return connectivity;
    }
    let least = least_degree(net, cells);
    least_around::<M>(net, flow, cells, least)
}

/// The edge connectivity of a network in which every capacity is 1: the least number of arcs that leave a set of nodes
/// which is neither empty nor all. With `pair` it is the least over the sets with every node of `s` inside and every
/// node of `t` outside; without it `s` and `t` are not looked at. For the undirected number give it the network after
/// [`Network::both_ways`].
///
/// It takes no memory: it works in the first [`work_len`] cells of `work`, and the table holds some flow afterwards.
/// With `pair` it takes one solve. Without it disjoint forests grow from one node, and where one of them doesn't come
/// to a node, a flow between the node and those it has come to is raised as far as the answer can still fall; where
/// that takes the steps of a solve and isn't done, a solve for each node follows.
pub fn connectivity<M: Method>(
    net: &Network,
    pair: bool,
    s: &[u32],
    t: &[u32],
    flow: &mut FlowTable,
    work: &mut [u32],
) -> u64
    requires fits { Fits net.now flow.old.flows }
    requires unit { All (λ a. a.cap ≡ 1) net.now.arcs }
    requires terminals { pair ≡ true → AreTerminals net.now s.now t.now }
    requires cells { work_cells net.now ≤ length work.old }
    ensures pair { pair ≡ true → IsPairConnectivity net.now (one_of s.now) (one_of t.now) result }
    ensures whole { pair ≡ false → IsConnectivity net.now result }
    ensures never_lowered { flow.old.steps ≤ flow.new.steps }
    ensures pair_steps { pair ≡ true → flow.new.steps ≤ flow.old.steps + M.steps_bound net.now }
    ensures steps { pair ≡ false → flow.new.steps ≤ flow.old.steps + 2 * (net.now.nodes - 1) * M.steps_bound net.now }
    ensures still_fits { Fits net.now flow.new.flows }
    ensures rest { drop (work_cells net.now) work.new ≡ drop (work_cells net.now) work.old }
{
    if pair {
        return pair_value::<M>(net, s, t, flow, work);
    }
    let total = work_len(net.nodes(), net.len());
    let (cells, _rest) = work.split_at_mut(total);
    least_cut::<M>(net, flow, cells)
}
