//! Rows of entries: what they have, by hand.
ghost use Rattle.std.specs.Prelude.{◌≡◌, ◌∷◌, [], length};
ghost use Rattle.flow_net.specs.Limits.{AreTerminals};

use super::*;

/// Is added to the half-arc of an entry that is joined.
const JOINED: u32 = 1 << 31;

/// Node 1 is the source and node 5 the sink. The arcs between nodes 2 and 3 are opposite and follow each other.
const ARCS: &[Triple] = &[
    (1, 2, 9),
    (2, 3, 4),
    (3, 2, 1),
    (2, 2, 7),
    (3, 4, 2),
    (4, 5, 3),
];

/// Where each node's row begins.
const FIRST: [u32; 6] = [0, 1, 2, 4, 5, 6];

/// The rows one after the other: nodes 2 and 4 have no entry that leads to a terminal, and node 2 none for its
/// self-loop.
const ENTRIES: &[u32] = &[0, JOINED + 2, JOINED + 3, 8, 9, 11];

/// Whether the network has the marks and the rows that are expected, between nodes 1 and 5.
fn has_rows(net: &Network) -> bool
    requires terminals { AreTerminals net.now (1 ∷ []) (5 ∷ []) }
    requires nodes { net.now.nodes ≡ 5 }
    requires arcs { length net.now.arcs ≡ 6 }
{
    let mut marks = [7u32; 5];
    let mut first = [7u32; 6];
    let mut halves = [7u32; 12];
    mark_terminals(net, &[1], &[5], &mut marks);
    pack_rows(net, &marks, &mut first, &mut halves);
    let (entries, _free) = halves.split_at(6);
    marks == [1, 0, 0, 0, 1] && first == FIRST && entries == ENTRIES
}

#[test]
fn rows_by_hand(rt: HostRuntime) {
    let net = network(&rt, rt.alloc(), 5, ARCS);
    let has_sizes = net.nodes() == 5 && net.len() == 6;
    assert!(rt; has_sizes && may_be_terminals(&net, &[1, 5], 1) && has_rows(&net));
}
