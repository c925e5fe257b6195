//! The laws of maximum flows and minimum cuts. Each is the contract of a function that computes nothing.
ghost use Rattle.flow_net.specs.Forests.{GrowingForests, ConnectivityByForests, BalancedSets, EvenSets};
ghost use Rattle.flow_net.specs.Arrangements.{SameArranged};
ghost use Rattle.flow_net.specs.Laws.{WeakDuality, ClosedCut, MaxFlowMinCut, LeastSourceSide, LeastSinkSide};
ghost use Rattle.flow_net.specs.Laws.{AugmentingPath, PairByFlow, ConnectivityByPairs, UndirectedByBothWays};
ghost use Rattle.flow_net.specs.Laws.{SingleUpgrade, HarmlessFailure};

/// No feasible flow's value passes a cut's capacity (Ford and Fulkerson 1956).
pub fn weak_duality()
    ensures { WeakDuality }
{}

/// A cut that no residual half-arc leaves is minimum, the flow is greatest, and its value is the cut's capacity.
pub fn closed_cut()
    ensures { ClosedCut }
{}

/// The greatest value of a feasible flow is the least capacity of a cut (Ford and Fulkerson 1956).
pub fn max_flow_min_cut()
    ensures { MaxFlowMinCut }
{}

/// What the residual network of a greatest flow reaches from the sources is the least source side.
pub fn least_source_side()
    ensures { LeastSourceSide }
{}

/// What reaches a sink in the residual network of a greatest flow is the least sink side.
pub fn least_sink_side()
    ensures { LeastSinkSide }
{}

/// A push along a residual path keeps a flow feasible and raises its value by the amount (Ford and Fulkerson 1956).
pub fn augmenting_path()
    ensures { AugmentingPath }
{}

/// The connectivity with the terminals is the greatest value of a flow where every capacity is 1.
pub fn pair_by_flow()
    ensures { PairByFlow }
{}

/// The connectivity is the least over one node and every other, both ways.
pub fn connectivity_by_pairs()
    ensures { ConnectivityByPairs }
{}

/// The undirected connectivity is the directed one of the network both ways, with the terminals and without.
pub fn undirected_by_both_ways()
    ensures { UndirectedByBothWays }
{}

/// Forests that have no arc in common grow from one node, along arcs that none of them has and by flows. Each of them
/// brings one more arc into each set without that node, if fewer than k enter it.
pub fn growing_forests()
    ensures { GrowingForests }
{}

/// Where as many arcs leave each node as enter it, as many leave each set of nodes as enter it.
pub fn balanced_sets()
    ensures { BalancedSets }
{}

/// Where an even number of arcs has exactly one end at each node, an even number has exactly one end in each set of
/// nodes (Euler 1736).
pub fn even_sets()
    ensures { EvenSets }
{}

/// If k such forests are done and a set that is neither empty nor all has k arcs, then k is the connectivity.
pub fn connectivity_by_forests()
    ensures { ConnectivityByForests }
{}

/// More capacity on one arc alone raises the greatest value just where the arc begins in the least source side and ends
/// in the least sink side: these are the arcs that leave both the minimum cut nearest the sources and the one nearest
/// the sinks.
pub fn single_upgrade()
    ensures { SingleUpgrade }
{}

/// An arc that carries nothing in one greatest flow can fail without loss: the greatest value stays as it is, and that
/// flow still has it.
pub fn harmless_failure()
    ensures { HarmlessFailure }
{}

/// A network whose nodes are renamed one to one and whose arcs stand in another order keeps the limits, its terminals
/// and its greatest value. A flow that is carried over stays feasible and keeps its value, and each flow is one that is
/// carried over. Minimum cuts, the least source side and the least sink side are the same under the new names.
pub fn same_arranged()
    ensures { SameArranged }
{}
