//! The stages of [`Levels`](crate::Levels) one by one, for tests, measurements and other methods. To find a maximum
//! flow, call a [`Method`](crate::Method).
pub use crate::levels::allowance;
pub use crate::levels::near_sends::send_near;
pub use crate::levels::phases::run_phases;
pub use crate::levels::rows::{mark_terminals, pack_rows};
pub use crate::levels::testing::{MARKED, Tested, test_flow};
pub use crate::levels::trees::grow_trees;
pub use crate::levels::waves::send_waves;
pub use crate::residual::half_arcs::Direction;
pub use crate::residual::packing::{Packed, pack};
pub use crate::task::{Given, Task};
