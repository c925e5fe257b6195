//! Cells that hold hints: one that does not exist reads as 0, and a write to it is dropped.
ghost use Rattle.std.specs.Prelude.{◌≡◌, slice_index};

/// Stands behind the last node of a queue or a list.
pub(crate) const END: u32 = u32::MAX;

/// So many numbers fit a cell.
pub(crate) const CELL: u64 = u32::MAX as u64 + 1;

/// The number in a cell, or 0.
pub(crate) fn get(cells: &[u32], at: usize) -> u32
    ensures { result ≡ slice_index cells.now at }
{
    if at < cells.len() { cells[at] } else { 0 }
}

/// Sets a cell.
pub(crate) fn put(cells: &mut [u32], at: usize, number: u32) {
    if at < cells.len() {
        cells[at] = number;
    }
}
