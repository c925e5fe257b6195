//! What a checker says of a solution.

/// The verdict on a solution of a maximum flow problem: the first of these that applies.
///
/// A pair is two nodes in their order. Its flow is the sum over the solution's flow lines of the pair, its capacity the
/// sum over the problem's arcs of the pair, 0 where there is none.
#[derive(Clone, Copy, Debug, PartialEq, Eq)]
pub enum Verdict {
    /// Some pair's flow is greater than its capacity; this is the least such pair, by `src`, then by `dst`.
    Over {
        /// The node that the flow leaves.
        src: u32,
        /// The node that the flow enters.
        dst: u32,
        /// The pair's flow.
        flow: u128,
        /// The pair's capacity.
        cap: u128,
    },
    /// What enters some node that is neither source nor sink isn't what leaves it; this is the least such node.
    Unbalanced {
        /// The node.
        node: u32,
        /// The sum of the flows that enter it.
        into: u128,
        /// The sum of the flows that leave it.
        out: u128,
    },
    /// The value that the solution gives isn't that of its flow.
    Value {
        /// The value of the solution's `s` line.
        given: u128,
        /// What leaves the sources less what enters them; below 0 where more enters them.
        found: i128,
    },
    /// The flow is feasible and has this value. Said only if it isn't asked whether a flow of greater value exists.
    Feasible(u128),
    /// The flow is feasible and has this value, but a feasible flow of greater value exists.
    NotMaximal(u128),
    /// The flow is feasible and has this value, and no feasible flow's value is greater.
    Optimal(u128),
}
