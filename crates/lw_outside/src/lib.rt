//! The outside that the program is handed, as traits: files and streams that count their faults, and forms of them in
//! memory that tell all that they hold, took and were asked, and fail by a plan.
#![tactic(auto)]

mod answer_line;
mod cast;
mod child;
mod files;
mod links;
mod logs;
mod memory_files;
mod memory_link;
mod memory_sink;
mod memory_source;
mod memory_spawner;
mod player;
mod script;
mod served;
mod streams;
mod transcript;
mod world;

pub use answer_line::AnswerLine;
pub use files::{CallKind, Files, FilesStop, WriteStop, longest_of};
pub use links::{JournalStart, Link, Spawner, StartFailure, StartStop, copy_words};
pub use logs::LogFile;
pub use memory_files::{FileCall, MemoryFiles};
pub use memory_link::MemoryLink;
pub use memory_sink::MemorySink;
pub use memory_source::MemorySource;
pub use memory_spawner::MemorySpawner;
pub use player::{Player, Reply};
pub use streams::{Failed, Sink, Source, put_all};
pub use transcript::{Bytes, Transcript};
pub use world::World;
