//! Laws of the definitions. Each is a function with no code, whose contract is the law.
ghost use Rattle.lw_table.specs.Laws.{NewIsRead, CellsStay, HasMachine, OneMachine, AccessLeads, MachineGivesCells, AccessIsCrowd};
ghost use Rattle.lw_table.specs.Plain.{NewIsFirst, MachineIsPlain};

/// A new table has no cell that could be read otherwise.
pub fn new_is_read()
    ensures { NewIsRead }
{}

/// Answers that come leave what the cells of a table are.
pub fn cells_stay()
    ensures { CellsStay }
{}

/// A closed table has a machine.
pub fn closed_has_machine()
    ensures { HasMachine }
{}

/// It has one at most.
pub fn one_machine()
    ensures { OneMachine }
{}

/// Each access word leads to its state.
pub fn access_leads()
    ensures { AccessLeads }
{}

/// Each access word followed by each letter is known, with the outputs of the table's machine.
pub fn machine_gives_cells()
    ensures { MachineGivesCells }
{}

/// Any two access words are apart.
pub fn access_is_crowd()
    ensures { AccessIsCrowd }
{}

/// A new table is the one that the plain learner begins with, once its cells are asked.
pub fn new_is_first()
    ensures { NewIsFirst }
{}

/// The machine of a closed table is the plain learner's.
pub fn machine_is_plain()
    ensures { MachineIsPlain }
{}
