//! Laws about the definitions alone, with no code: what the calls answer is there, and is one.
ghost use Rattle.lw_separate.specs.Canonical.{OneCanonical, SomeCanonical, OneAccessWord, OneSeparatingWord, OneLeastAccess, SomeLeastAccess};
ghost use Rattle.lw_separate.specs.Separators.{OneSeparators, SomeSeparators};

/// Two canonical machines of one machine are one.
pub fn canonical_is_unique()
    ensures { OneCanonical }
{}

/// Each machine has a canonical machine, whatever its numbers of states and letters.
/// So the canonical form is there also where `canonical` has no memory for it.
pub fn canonical_exists()
    ensures { SomeCanonical }
{}

/// Two least access words of a state are one.
pub fn access_word_is_unique()
    ensures { OneAccessWord }
{}

/// Two least separating words of two states are one.
pub fn separating_word_is_unique()
    ensures { OneSeparatingWord }
{}

/// Two lists of the least access words of a machine are one.
pub fn least_access_is_unique()
    ensures { OneLeastAccess }
{}

/// A machine whose states are all reached has a list of the least access words.
pub fn least_access_exists()
    ensures { SomeLeastAccess }
{}

/// Two lists of separators of a machine are one.
pub fn separators_are_unique()
    ensures { OneSeparators }
{}

/// A machine any two of whose states differ has a list of separators.
pub fn separators_exist()
    ensures { SomeSeparators }
{}
