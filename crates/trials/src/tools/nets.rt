//! The networks that several tests speak of, as texts of problems.
use flow_net::{Arc, MOST_ARCS, Network};

/// Source 1 and sink 4. A flow of the greatest value, 5, has to fill every arc.
pub(crate) const NET_A: &[u8] =
    b"p max 4 5\nn 1 s\nn 4 t\na 1 2 3\na 1 3 2\na 2 3 1\na 2 4 2\na 3 4 3\n";

/// What `solve` puts for net A.
pub(crate) const SOLVED_A: &[u8] = b"s 5\nf 1 2 3\nf 1 3 2\nf 2 3 1\nf 2 4 2\nf 3 4 3\n";

/// A path from source 1 to sink 3.
pub(crate) const NET_B: &[u8] = b"p max 3 2\nn 1 s\nn 3 t\na 1 2 2\na 2 3 2\n";

/// Parallel and opposite arcs between source 1 and sink 2.
pub(crate) const NET_C: &[u8] = b"p max 2 3\nn 1 s\nn 2 t\na 1 2 1\na 1 2 4\na 2 1 7\n";

/// The sources 1 and 2, whose arcs join before sink 4.
pub(crate) const NET_D: &[u8] = b"p max 4 3\nn 1 s\nn 2 s\nn 4 t\na 1 3 2\na 2 3 2\na 3 4 3\n";

/// A source and a sink without an arc.
pub(crate) const NO_ARCS: &[u8] = b"p max 2 0\nn 1 s\nn 2 t\n";

/// Adds an arc, and answers whether the network can have it and there is memory.
#[must_use]
pub(crate) fn add_arc(net: &mut Network, arc: Arc) -> bool {
    let Arc { src, dst, .. } = arc;
    let nodes = net.nodes();
    if net.len() < MOST_ARCS && 1 <= src && src <= nodes && 1 <= dst && dst <= nodes {
        net.push(arc).is_ok()
    } else {
        false
    }
}
