//! The command `ask`, over the files, streams and children that it is handed.
#![tactic(auto)]

mod arguments;
mod asking;
mod child;
mod command;
mod lines;
mod stop;

pub use arguments::AskArguments;
pub use asking::ask_words;
pub use command::ask;
pub use stop::AskingStop;
