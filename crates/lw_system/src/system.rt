//! What is asked words.
ghost use Rattle.std.specs.Prelude.{◌≡◌, Some, option_map};
ghost use Rattle.lw_system.specs.Systems.{declared_of, letters_of};

use lw_json::{Command, Machine};
use lw_words::Names;

/// A system that is asked words.
#[derive(Drop)]
pub enum System {
    /// A machine, or instances of it.
    Table(Machine),
    /// Children that a command starts.
    Children(Command),
}

impl System {
    /// The names of its letters.
    pub fn inputs(&self) -> &Names
        ensures { result.now ≡ letters_of self.now }
    {
        match self {
            System::Table(machine) => &machine.inputs,
            System::Children(command) => &command.inputs,
        }
    }

    /// The names of its outputs, where they are declared.
    pub fn outputs(&self) -> Option<&Names>
        ensures { option_map (λ n. n.now) result ≡ declared_of self.now }
    {
        match self {
            System::Table(machine) => Some(&machine.outputs),
            System::Children(command) => command.outputs.as_ref(),
        }
    }
}
