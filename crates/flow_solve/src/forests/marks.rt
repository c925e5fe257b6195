//! Marks of nodes: a bit for each, so that those of a million nodes stay in the cache of a processor. A forest marks
//! the nodes that it has come to, and a search those that it has seen, each in cells of its own.
ghost use Rattle.std.specs.Prelude.{◌≡◌, ℕ, ◌*◌, ◌≤◌, ◌<◌, IsFalse, IsTrue, length};
ghost use Rattle.flow_solve.specs.Forests.{HasMarked, marked_in};

use crate::residual::cells::{get, put};

/// How many bits a cell has.
const BITS: usize = 32;

/// Whether a node is marked. A number that is no node isn't.
#[inline(always)]
pub(crate) fn is_marked(marks: &[u32], node: u32) -> bool
    requires { 1 ≤ node }
    ensures { result ≡ marked_in marks.now node }
{
    let bit = node as usize - 1;
    (get(marks, bit / BITS) >> (bit % BITS)) & 1 == 1
}

/// Whether it is a node that isn't marked.
#[inline(always)]
pub(crate) fn is_left(marks: &[u32], node: u32) -> bool
    ensures { IsTrue result → node ≤ 32 * length marks.now }
{
    let bit = node.wrapping_sub(1) as usize;
    bit / BITS < marks.len() && (marks[bit / BITS] >> (bit % BITS)) & 1 == 0
}

/// Marks a node.
#[inline(always)]
pub(crate) fn mark(marks: &mut [u32], node: u32)
    requires { (1 ≤ node) × (node ≤ 32 * length marks.old) }
    ensures { HasMarked node marks.old marks.new }
{
    let bit = node as usize - 1;
    marks[bit / BITS] |= 1 << (bit % BITS);
}

/// Marks a node, if it exists: a mark of which nothing is claimed.
pub(crate) fn note(marks: &mut [u32], node: u32) {
    let bit = node.wrapping_sub(1) as usize;
    let cell = get(marks, bit / BITS);
    put(marks, bit / BITS, cell | 1 << (bit % BITS));
}

/// Marks a node no more, if it exists.
pub(crate) fn unmark(marks: &mut [u32], node: u32) {
    let bit = node.wrapping_sub(1) as usize;
    let cell = get(marks, bit / BITS);
    put(marks, bit / BITS, cell & !(1 << (bit % BITS)));
}

/// Marks no node.
pub(crate) fn unmark_all(marks: &mut [u32])
    ensures { (v : ℕ) → IsFalse (marked_in marks.new v) }
{
    marks.fill(0);
}
