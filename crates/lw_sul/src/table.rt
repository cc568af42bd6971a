//! A machine that is learned from itself.
ghost use Rattle.std.specs.Prelude.{◌≡◌, length};

use crate::Sul;
use lw_mealy::Mealy;
use lw_names::{OutName, name_of};
use lw_words::{Names, SulStop};
use std::marker::Model;

/// A system that is a table: it never stops, and its outputs have their names from the start.
/// Contracts see its machine, its state and the names.
#[derive(Drop)]
pub struct TableSul {
    mealy: Mealy,
    state: u16,
    names: Names,
}

impl Model for TableSul {
    ghost use Rattle.std.specs.Prelude.{◌≡◌, ◌<◌, length};
    ghost use Rattle.lw_sul.specs.TableSulState.{TableSulState};

    ghost Value = { TableSulState };

    ghost view = { λ s. record { machine = s.mealy; state = s.state; names = s.names } };

    ghost invariant = { λ s. (s.state < length s.mealy.rows) × (length s.names ≡ s.mealy.outputs) };
}

impl TableSul {
    /// The system of a machine, with a name for each output. Takes no memory.
    pub fn new(mealy: Mealy, names: Names) -> TableSul
        requires { length names ≡ mealy.outputs }
        ensures machine { result.machine ≡ mealy }
        ensures state { result.state ≡ 0 }
        ensures names { result.names ≡ names }
    {
        let state = mealy.initial();
        TableSul {
            mealy,
            state,
            names,
        }
    }

    /// The machine.
    pub fn machine(&self) -> &Mealy
        ensures { result.now ≡ self.now.machine }
    {
        &self.mealy
    }
}

impl Sul for TableSul {
    ghost use Rattle.lw_sul.specs.TableSulState.{told_table};

    ghost state = { told_table };

    const WAITS: bool = false;

    fn inputs(&self) -> u16 {
        self.mealy.inputs()
    }

    fn outputs(&self) -> u16 {
        self.mealy.outputs()
    }

    fn named(&self) -> u16 {
        self.names.len()
    }

    fn most(&self) -> u16 {
        self.names.len()
    }

    fn name(&self, y: u16) -> OutName {
        name_of(&self.names, y)
    }

    fn reset(&mut self) -> Result<(), SulStop> {
        self.state = self.mealy.initial();
        Ok(())
    }

    fn step(&mut self, x: u16) -> Result<u16, SulStop> {
        let (state, output) = self.mealy.step(self.state, x);
        self.state = state;
        Ok(output)
    }
}
