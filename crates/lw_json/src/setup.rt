//! Setups: where a system comes from.

use lw_words::Names;
use std::marker::Model;

/// A text. Contracts see its bytes.
#[derive(Drop)]
pub struct Text {
    value: String,
}

impl Model for Text {
    ghost use Rattle.std.specs.Prelude.{List, ℕ, string_bytes};

    ghost Value = { List ℕ };

    ghost view = { λ text. string_bytes text.value };
}

impl Text {
    ghost use Rattle.std.specs.Prelude.{◌≡◌, string_bytes};

    /// Takes no memory.
    pub fn new(value: String) -> Text
        ensures { result ≡ string_bytes value }
    {
        Text { value }
    }

    pub fn get(&self) -> &String
        ensures { string_bytes result.now ≡ self.now }
    {
        &self.value
    }
}

/// A list of texts. Contracts see the list of their bytes.
#[derive(Drop)]
pub struct Texts {
    value: Vec<String>,
}

impl Model for Texts {
    ghost use Rattle.std.specs.Prelude.{List, ℕ, map, string_bytes};

    ghost Value = { List (List ℕ) };

    ghost view = { λ texts. map (λ s. string_bytes s) texts.value.items };
}

impl Texts {
    ghost use Rattle.std.specs.Prelude.{◌≡◌, map, string_bytes};

    /// Takes no memory.
    pub fn new(value: Vec<String>) -> Texts
        ensures { result ≡ map (λ s. string_bytes s) value.items }
    {
        Texts { value }
    }

    pub fn get(&self) -> &Vec<String>
        ensures { map (λ s. string_bytes s) result.now.items ≡ self.now }
    {
        &self.value
    }
}

/// What children are started by: the words of the command, the first of them its program; the names of their letters; and
/// those of their outputs, or None where they weren't declared.
#[derive(Drop)]
pub struct Command {
    pub words: Texts,
    pub inputs: Names,
    pub outputs: Option<Names>,
}

/// Where a system comes from.
#[derive(Drop)]
pub enum Setup {
    /// A machine file of this name. It gives the inputs and the outputs.
    Table(Text),
    /// A program.
    Command(Command),
}
