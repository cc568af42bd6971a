//! Files in JSON: the grammars that are read, over serde_json's reading, and the one text that is written of a value.
#![tactic(auto)]

mod answer_shapes;
mod answers_reader;
mod answers_tokens;
mod answers_writer;
mod fault;
mod files;
mod hint;
mod journal;
mod journal_reader;
mod journal_writer;
mod laws;
mod machine_reader;
mod machine_writer;
mod members;
mod output_names;
mod said_answer;
mod setup;
mod setup_reader;
mod values;
mod word_reader;

pub use answers_reader::read_answers;
pub use answers_writer::answers_text;
pub use fault::{Field, JsonFault};
pub use files::{Answers, Machine};
pub use hint::SetupFile;
pub use journal::is_journal;
pub use journal_writer::{journal_header, journal_line};
pub use laws::{
    a_first_fault_is_one, answers_have_one_order, files_have_no_fault, journals_read_back,
};
pub use machine_reader::read_machine;
pub use machine_writer::machine_text;
pub use members::{list, list_member, texts_member, value_of};
pub use setup::{Command, Setup, Text, Texts};
pub use setup_reader::{read_setup, read_setup_with_hint};
pub use values::{put_member, put_names};
