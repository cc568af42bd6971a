//! The machine of a closed table.
ghost use Rattle.std.specs.Prelude.{◌≡◌, ◌<◌, length, IfOk};
ghost use Rattle.lw_table.specs.Table.{access_row, IsClosedTable, IsMachineOf};
ghost use Rattle.lw_table.specs.bodies.Classes.{AreSingles};
ghost use Rattle.lw_table.specs.bodies.Transitions.{AreTransitions};

use crate::ObservationTable;
use lw_mealy::Mealy;
use lw_words::NoMemory;
use std::alloc::Global;

impl ObservationTable {
    /// The output of a state at each letter.
    fn letter_outputs(&self, state: usize) -> Result<Vec<u16>, NoMemory>
        requires closed { IsClosedTable self.now }
        requires state { state < length self.now.access }
        ensures { IfOk result (λ outs. AreSingles (access_row self.now state) self.now.inputs
            outs.items) }
    {
        let home = self.rows[self.homes[state]];
        self.classes
            .singles(home.class, home.cells, usize::from(self.inputs))
    }

    /// The target and the output of a state at each letter.
    fn transitions(&self, state: usize) -> Result<Vec<(u16, u16)>, NoMemory>
        requires closed { IsClosedTable self.now }
        requires state { state < length self.now.access }
        ensures { IfOk result (λ row. AreTransitions self.now state row.items) }
    {
        let outputs = self.letter_outputs(state)?;
        let letters = usize::from(self.inputs);
        let mut row = Vec::with_capacity(self.alloc, letters)?;
        for (letter, output) in outputs.iter().enumerate() {
            let Some(target) = self.state_of_row(1 + state * letters + letter) else {
                unreachable!();
            };
            row.push((target as u16, *output))?;
        }
        Ok(row)
    }

    /// The machine of a closed table: a state for each access word, in their order.
    ///
    /// # Errors
    /// Only where memory runs out.
    pub fn machine(&self) -> Result<Mealy, NoMemory>
        requires closed { IsClosedTable self.now }
        ensures value { IfOk result (λ m. IsMachineOf self.now m.rows) }
        ensures inputs { IfOk result (λ m. m.inputs ≡ self.now.inputs) }
        ensures outputs { IfOk result (λ m. m.outputs ≡ self.now.outputs) }
    {
        let mut rows = Vec::with_capacity(self.alloc, self.access.len())?;
        for state in 0..self.access.len() {
            rows.push(self.transitions(state)?)?;
        }
        Ok(Mealy::of_rows(self.alloc, self.inputs, self.outputs, rows))
    }
}
