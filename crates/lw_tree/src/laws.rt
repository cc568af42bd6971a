//! Laws of the definitions. Each is a function with no code, whose contract is the law.
ghost use Rattle.lw_tree.specs.Laws.{NewIsRead, BranchesStay, HasMachine, OneMachine, AccessLeads, MachineGivesSteps, AccessIsCrowd, InnersAreFew, FinalsAreFew, DiscriminatorsAreShort};

/// A new tree has no branch and no output that could be read otherwise.
pub fn new_is_read()
    ensures { NewIsRead }
{}

/// Answers that come leave what the branches of a tree are.
pub fn branches_stay()
    ensures { BranchesStay }
{}

/// A closed tree has a machine.
pub fn closed_has_machine()
    ensures { HasMachine }
{}

/// It has one at most.
pub fn one_machine()
    ensures { OneMachine }
{}

/// Each access word leads to its state.
pub fn access_leads()
    ensures { AccessLeads }
{}

/// Each access word followed by each letter is known, with the outputs of the tree's machine.
pub fn machine_gives_steps()
    ensures { MachineGivesSteps }
{}

/// Any two access words are apart.
pub fn access_is_crowd()
    ensures { AccessIsCrowd }
{}

/// There are fewer inner nodes than states.
pub fn inners_are_few()
    ensures { InnersAreFew }
{}

/// So there are fewer final ones.
pub fn finals_are_few()
    ensures { FinalsAreFew }
{}

/// Where no node is temporary, each discriminator has fewer letters than there are states.
pub fn discriminators_are_short()
    ensures { DiscriminatorsAreShort }
{}
