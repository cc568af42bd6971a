//! The machine of a closed tree.
ghost use Rattle.std.specs.Prelude.{◌≡◌, ◌<◌, length, IfOk, MatchOption};
ghost use Rattle.lw_mealy.specs.Machine.{Rows, next, output};
ghost use Rattle.lw_tree.specs.Tree.{IsClosed, IsMachineOf};
ghost use Rattle.lw_tree.specs.bodies.Transitions.{AreSteps, IsStep, IsTransition};

use crate::DiscriminationTree;
use crate::nodes::Content;
use crate::transitions::Edge;
use lw_mealy::Mealy;
use lw_words::NoMemory;
use std::alloc::Global;

impl DiscriminationTree {
    /// The target and the output of a transition.
    fn step_by(&self, edge: Edge) -> (u16, u16)
        requires closed { IsClosed self.now }
        requires edge { IsTransition self.now edge }
        ensures { IsStep self.now edge.state edge.letter result.0 result.1 }
    {
        let place = self.places[edge.number(self.inputs)];
        let Some(output) = place.output else {
            unreachable!();
        };
        let Content::State(target) = &self.nodes.get(place.node).content else {
            unreachable!();
        };
        (*target, output)
    }

    /// The target and the output of a state at a letter.
    pub fn step(&self, state: u16, letter: u16) -> (u16, u16)
        requires closed { IsClosed self.now }
        requires state { state < length self.now.access }
        requires letter { letter < self.now.inputs }
        ensures step { (m : Rows) → IsMachineOf self.now m →
            (result.0 ≡ next m state letter) × (result.1 ≡ output m state letter) }
        ensures within { result.0 < length self.now.access }
    {
        // The tree tells that it is one.
        let _ = &self.access;
        self.step_by(Edge { state, letter })
    }

    /// The targets and the outputs of a state, by letter.
    fn steps(&self, state: u16) -> Result<Vec<(u16, u16)>, NoMemory>
        requires closed { IsClosed self.now }
        requires state { state < length self.now.access }
        ensures { IfOk result (λ row. AreSteps self.now state row.items) }
    {
        let mut row = Vec::with_capacity(self.alloc, usize::from(self.inputs))?;
        for letter in 0..self.inputs {
            row.push(self.step_by(Edge { state, letter }))?;
        }
        Ok(row)
    }

    /// The machine of a closed tree: a state for each access word, in their order.
    ///
    /// # Errors
    /// Only where memory runs out.
    pub fn machine(&self) -> Result<Mealy, NoMemory>
        requires closed { IsClosed self.now }
        ensures value { IfOk result (λ m. IsMachineOf self.now m.rows) }
        ensures inputs { IfOk result (λ m. m.inputs ≡ self.now.inputs) }
        ensures outputs { IfOk result (λ m. m.outputs ≡ self.now.outputs) }
    {
        let mut rows = Vec::with_capacity(self.alloc, self.access.len())?;
        for state in 0..self.access.len() {
            rows.push(self.steps(state as u16)?)?;
        }
        Ok(Mealy::of_rows(self.alloc, self.inputs, self.outputs, rows))
    }
}
