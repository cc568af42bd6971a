//! The table learner by its definition, plainly and slowly: over one machine and one list of batches, with no cache, claim or worker.
#![tactic(auto)]

mod batches;
mod cut;
mod difference;
mod hypothesis;
mod learning;
mod rounds;
mod rows;
mod run;
mod suite;
mod table;

pub use batches::Batches;
pub use learning::plain;
pub use run::{PlainRun, plain_run_is_unique};
