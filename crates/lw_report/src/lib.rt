//! How a call of the program ends: its outcome, exit status and text, and the files and streams that it reads and
//! writes.
#![tactic(auto)]

mod acceptor_texts;
mod comparison;
mod end;
mod outcome;
mod reasons;
mod role;
mod stops;
mod system_texts;
mod texts;
mod tried_text;
mod verdict_texts;
mod writing;

pub use comparison::{Comparison, Difference};
pub use end::{End, refuse};
pub use outcome::{Outcome, Tried, status};
pub use role::Role;
pub use stops::{
    TellStop, acceptor_outcome, learn_outcome, no_acceptor_outcome, no_system_outcome,
    read_outcome, start_outcome, system_outcome, unread_outcome,
};
pub use texts::{outcome_text, text};
pub use writing::{Said, UNSAID, put_report, say, write_file};
