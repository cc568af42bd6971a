//! Systems under learning, whose outputs have names, and sessions that ask them words.
//! A session's journal of finished runs is a value for contracts alone.
#![tactic(auto)]

mod runs;
mod session;
mod system;
mod table;

pub use runs::Run;
pub use session::{NamedAnswer, Session};
pub use system::Sul;
pub use table::TableSul;
