//! Memory for cells: if it is refused, the error is [`OutOfMemory`].
ghost use Rattle.std.specs.Prelude.{◌≡◌, ◌≤◌, length, replicate, IfOk};
ghost use Rattle.flow_net.specs.Limits.{IsNet};
ghost use Rattle.flow_solve.specs.Bounds.{work_cells};

use flow_net::{Network, OutOfMemory};
use flow_solve::work_len;
use std::alloc::Global;

/// So many cells, each with this value.
///
/// # Errors
///
/// `OutOfMemory` where the memory was refused.
pub fn filled<T: Clone>(alloc: Global, value: T, len: usize) -> Result<Vec<T>, OutOfMemory>
    ensures len { IfOk result (λ cells. length cells.items ≡ len) }
    ensures all { IfOk result (λ cells. ((y : T) → T.is_clone value y → y ≡ value)
        → cells.items ≡ replicate len value) }
{
    match Vec::from_elem(alloc, value, len) {
        Ok(cells) => Ok(cells),
        Err(_) => Err(OutOfMemory),
    }
}

/// The cells that a solver of a network works in.
pub(crate) fn work_for(alloc: Global, net: &Network) -> Result<Vec<u32>, OutOfMemory>
    ensures enough { IfOk result (λ work. work_cells net.now ≤ length work.items) }
    ensures limits { IfOk result (λ _. IsNet net.now) }
{
    filled(alloc, 0u32, work_len(net.nodes(), net.len()))
}
