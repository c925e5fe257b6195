//! Solutions, as their texts give them.

/// A flow from a node to a node, as a line `f SRC DST FLOW` of the DIMACS format (1990) has it.
#[derive(Clone, Copy, Debug, PartialEq, Eq)]
pub struct FlowLine {
    /// The node that the flow leaves, from 1 on.
    pub src: u32,
    /// The node that the flow enters, from 1 on.
    pub dst: u32,
    /// The flow, which is added to that of other lines with the same two nodes.
    pub flow: u64,
}

/// A solution: the value of its solution line, at most `GREATEST_VALUE`, and its flow lines in order, at most
/// `MOST_FLOW_LINES`.
#[derive(Debug, Drop)]
pub struct Solution {
    /// The value of the flow, as the text claims it.
    pub value: u128,
    /// The flow lines, in their order.
    pub lines: Vec<FlowLine>,
}
