//! The problems and solutions of the calls.

/// Four nodes and five arcs, of greatest value 5.
pub const FOUR_NODES: &[u8] =
    b"p max 4 5\nn 1 s\nn 4 t\na 1 2 3\na 1 3 2\na 2 3 1\na 2 4 2\na 3 4 3\n";

/// An optimal solution of it.
pub const OPTIMAL: &[u8] = b"s 5\nf 3 4 3\nf 2 4 2\nf 2 3 1\nf 1 3 2\nf 1 2 3\n";

/// A problem that declares one arc more than it has.
pub const TOO_FEW_ARCS: &[u8] = b"p max 2 2\nn 1 s\nn 2 t\na 1 2 1\n";

/// A problem line that declares as many nodes and arcs as there can be.
pub const GREATEST_NUMBERS: &[u8] = b"p max 1000000 4000000\n";
