//! Rows as numbers, so that two rows are equal exactly where their numbers are.
ghost use Rattle.std.specs.Prelude.{◌≡◌, ◌≢◌, ℕ, ◌<◌, ◌≤◌, List, [], ◌∷◌, length, slice_index_or, IfOk, OnErr};
ghost use Rattle.std.specs.List.{All, AllPairs};
ghost use Rattle.lw_table.specs.bodies.Classes.{row_of, HasEntered, AreSingles};
ghost use Rattle.lw_table.specs.bodies.Steps.{made};

use lw_words::NoMemory;
use std::alloc::Global;
use std::collections::HashMap;
use std::marker::Model;

/// A row of an earlier class, and the outputs of one cell more.
#[derive(Drop, PartialEq, Eq, Hash)]
pub(crate) struct Step {
    class: usize,
    outputs: Vec<u16>,
}

/// Rows, each once. Class 0 is the row without cells, and each other class a row of an earlier class with a cell more.
/// Contracts see the row of each class.
#[derive(Drop)]
pub(crate) struct Classes {
    /// The step to each class but class 0.
    steps: Vec<Step>,
    /// The place of each step.
    places: HashMap<Step, usize>,
    pub(crate) alloc: Global,
}

impl Model for Classes {
    ghost use Rattle.std.specs.Prelude.{ℕ, List};
    ghost use Rattle.std.specs.HashMap.{get};
    ghost use Rattle.lw_table.specs.bodies.Numbered.{AreNumbered};
    ghost use Rattle.lw_table.specs.bodies.Steps.{step_eq, rows_of, AreClasses};

    ghost Value = { List (List (List ℕ)) };

    ghost view = { λ c. rows_of c.steps.items };

    ghost invariant = { λ c. AreClasses c.steps.items × AreNumbered step_eq c.steps.items (get step_eq c.places) };
}

impl Classes {
    /// The row without cells alone. Takes no memory.
    pub(crate) fn new(alloc: Global) -> Classes
        ensures { result ≡ [] ∷ [] }
    {
        Classes {
            steps: Vec::new(alloc),
            places: HashMap::new(alloc),
            alloc,
        }
    }

    /// The class of a row with a cell more.
    pub(crate) fn enter(&mut self, class: usize, outputs: Vec<u16>) -> Result<usize, NoMemory>
        requires class { class < length self.old }
        ensures entered { IfOk result (HasEntered self.old self.new class outputs.items) }
        ensures differ { AllPairs (λ r s. r ≢ s) self.new }
        ensures err { OnErr result (self.new ≡ self.old) }
    {
        let step = Step { class, outputs };
        if let Some(place) = self.places.get(&step) {
            return Ok(*place + 1);
        }
        self.add(step)
    }

    /// Makes a class for a row that has none: the row of an earlier class with a cell more.
    fn add(&mut self, step: Step) -> Result<usize, NoMemory>
        requires class { step.class < length self.old }
        requires new { All (λ row. row ≢ made self.old step) self.old }
        ensures entered { IfOk result (HasEntered self.old self.new step.class step.outputs.items) }
        ensures differ { AllPairs (λ r s. r ≢ s) self.new }
        ensures err { OnErr result (self.new ≡ self.old) }
    {
        self.steps.reserve(1)?;
        let key = Step {
            class: step.class,
            outputs: step.outputs.to_vec(self.alloc)?,
        };
        self.places.insert(key, self.steps.len())?;
        self.steps.push_reserved(step);
        Ok(self.steps.len())
    }

    /// The outputs of the first cells of a row of this many cells, each of which has one.
    pub(crate) fn singles(
        &self,
        class: usize,
        cells: usize,
        count: usize,
    ) -> Result<Vec<u16>, NoMemory>
        requires class { class < length self.now }
        requires cells { cells ≡ length (row_of self.now class) }
        requires count { count ≤ cells }
        requires each { (k : ℕ) → k < count →
            length (slice_index_or (row_of self.now class) k []) ≡ 1 }
        ensures { IfOk result (λ outs. AreSingles (row_of self.now class) count outs.items) }
    {
        let mut outputs = vec![in self.alloc; 0; count]?;
        let mut class = class;
        let mut place = cells;
        while place > 0 {
            let step = &self.steps[class - 1];
            place -= 1;
            if place < count {
                outputs[place] = step.outputs[0];
            }
            class = step.class;
        }
        Ok(outputs)
    }
}
