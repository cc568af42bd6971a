//! What follows from the definitions that the contracts of [`Lists`](crate::Lists) cite. Each law is
//! a function that does nothing and whose contract is the law.

ghost use Rattle.lw_links.specs.Owners.{NextSpellsEachList, OwnerHasTheCell};

/// From an owner's first cell by `next` one goes over the owner's whole list, and then there is none.
pub fn next_spells_each_list()
    ensures { NextSpellsEachList }
{}

/// A cell's owner is the one whose list has it.
pub fn owner_has_the_cell()
    ensures { OwnerHasTheCell }
{}
