//! Files that are worked out by hand from the rules.

mod answers_files;
mod journals;
mod machine_files;
mod machine_limits;
mod setup_files;
