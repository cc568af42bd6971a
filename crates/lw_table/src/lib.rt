//! The observation table: rows of access words and their extensions, by the outputs on suffixes.
#![tactic(auto)]

mod classes;
mod filling;
mod growing;
mod laws;
mod machine;
mod rows;
mod steps;
mod table;

pub use laws::{
    access_is_crowd, access_leads, cells_stay, closed_has_machine, machine_gives_cells,
    machine_is_plain, new_is_first, new_is_read, one_machine,
};
pub use table::ObservationTable;
