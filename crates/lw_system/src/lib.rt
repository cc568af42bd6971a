//! Systems: the files that say one, and the children that a command starts, from their start to the ends of their links.
#![tactic(auto)]

mod acceptors;
mod child;
mod finding;
mod goal;
mod goals;
mod reading;
mod source;
mod stops;
mod system;

pub use acceptors::{find_acceptor, read_acceptor_file, read_view_file};
pub use child::{line_over, link_of, start_line};
pub use finding::{Found, find_system, read_system};
pub use goal::Goal;
pub use goals::find_for;
pub use reading::{read_answers_file, read_machine_file, read_setup_file, read_setup_with};
pub use source::Source;
pub use stops::{AcceptorStop, NoSystem, ReadStop, SystemStop};
pub use system::System;
