//! What all suites are made of: words in chunks, the middle words by their numbers, and the size that bounds a suite.
#![tactic(auto)]

mod chunks;
mod method;
mod middle;
mod size;

pub use chunks::{CHUNK, Chunks, Place, put};
pub use method::Method;
pub use middle::spell;
pub use size::{GREATEST_SUITE, SuiteFault, check_size, middle_count, suite_size};
