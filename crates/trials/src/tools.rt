//! What no contract says: worked problems, streams that fail, and answers against other ways to the same number.

mod arranging;
mod checking;
mod connecting;
mod counted;
mod forests;
mod jobs;
mod nets;
mod runs;
mod shapes;
mod solving;
mod streams;
mod texts;
