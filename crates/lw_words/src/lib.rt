//! Words over numbered letters and their order, lists of names, recorded answers, and why a run stopped.
#![tactic(auto)]

mod kept;
mod line;
mod memory;
mod names;
mod order;
mod spelling;
mod stop;
mod word;
mod words;

pub use kept::{Kept, KeptAnswer};
pub use line::Line;
pub use memory::NoMemory;
pub use names::{Names, NamesFault};
pub use order::{shortlex, shortlex_is_an_order};
pub use spelling::put_word;
pub use stop::{RunStop, SulStop};
pub use word::{Word, join};
pub use words::Words;
