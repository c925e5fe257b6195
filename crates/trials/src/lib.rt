//! Tests of the public calls of `flow_tools`, in a crate of their own: so the library is proved once, and not a second
//! time with its tests. Those of the crates below stand in `text_trials` and `solve_trials`; tests that reach what is
//! private stand in the crate that has it.
#![tactic(auto)]

#[cfg(test)]
mod tools;
