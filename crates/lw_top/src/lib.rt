//! The top call: all that the program does, over the files and streams that are handed in.
#![tactic(auto)]

mod arguments;
mod call;
mod entries;
mod file_pair;
mod given;
mod help;
mod matching;
mod options;
mod pages;
mod ranges;
mod reasons;
mod refused;
mod text_reasons;
mod top;
mod untaken;
mod values;

pub use arguments::accept::accept_arguments;
pub use arguments::ask::ask_arguments;
pub use arguments::check::check_arguments;
pub use arguments::compare::compare_arguments;
pub use arguments::learn::learn_arguments;
pub use arguments::recheck::recheck_arguments;
pub use arguments::serve::serve_arguments;
pub use arguments::trial::trial_arguments;
pub use file_pair::FilePair;
pub use top::{run, without_arguments};
pub use values::ArgumentStop;
