//! Deterministic acceptors (Rabin and Scott 1959): their files, and the Mealy machines that are asked in their place.
#![tactic(auto)]

mod acceptor;
mod fault;
mod laws;
mod names;
mod reader;
mod unviewing;
mod viewing;
mod writer;

pub use acceptor::Acceptor;
pub use fault::{AcceptorFault, AcceptorField, ViewFault};
pub use laws::{
    acceptor_faults_are_one, acceptor_files_have_no_fault, acceptor_files_have_one_value,
    answers_are_told, views_are_machines,
};
pub use names::{answer_names, asked_names, letters_behind};
pub use reader::read_acceptor;
pub use unviewing::unview;
pub use viewing::view;
pub use writer::acceptor_text;
