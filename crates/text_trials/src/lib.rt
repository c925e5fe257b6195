//! Tests of the public calls of `flow_net` and `flow_text`, in a crate of their own: so the libraries are proved once,
//! and not a second time with their tests.
#![tactic(auto)]

#[cfg(test)]
mod net;
#[cfg(test)]
mod text;
