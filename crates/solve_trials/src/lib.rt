//! Tests of `flow_solve`, and of the stages of its method one by one, in a crate of their own: so the solver is proved
//! once, and not a second time with its tests.
#![tactic(auto)]

#[cfg(test)]
mod tests;
