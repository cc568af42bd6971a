//! What machine files and answers files say, with the names of letters and outputs.

ghost use Rattle.std.specs.Prelude.{◌≡◌, ◌≤◌, length};
ghost use Rattle.lw_json.specs.KeptOver.{AreKeptOver};

use lw_mealy::Mealy;
use lw_words::{Kept, Names};

/// A machine with the names of its letters and outputs, by their numbers. It has at most 64 inputs.
#[derive(Drop)]
pub struct Machine {
    pub inputs: Names,
    pub outputs: Names,
    pub mealy: Mealy,
    pub ghost named: { (mealy.inputs ≡ length inputs) × (mealy.outputs ≡ length outputs) },
    pub ghost few: { length inputs ≤ 64 },
}

/// Recorded answers with the names of their letters and outputs, by their numbers. There are at most 64 inputs, and
/// each answer is a word over them with an output for each letter, of an instance up to 16.
#[derive(Drop)]
pub struct Answers {
    pub inputs: Names,
    pub outputs: Names,
    pub kept: Kept,
    pub ghost few: { length inputs ≤ 64 },
    pub ghost over: { AreKeptOver (length inputs) (length outputs) kept.answers },
}
