//! Greatest flows and minimum cuts, and their texts.

pub(crate) mod answers;
pub(crate) mod arranging;
mod gathering;
pub(crate) mod printing;
