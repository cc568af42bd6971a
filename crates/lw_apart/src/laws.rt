//! Laws about the definitions alone, with no code.
ghost use Rattle.lw_apart.specs.Covers.{CoversIsSure};
ghost use Rattle.lw_apart.specs.Missing.{CoveredOrMissing, MissingIsUncovered, MissingIsUnknown, OneMissing};

use lw_separate::least_access_exists;

/// Answers that cover a machine fix it, whatever suite they came by (Dorofeeva, El-Fakih and Koufareva 2005).
pub fn covers_is_sure()
    ensures { CoversIsSure }
{}

/// A word that is missing isn't known: who asks it learns something.
pub fn missing_is_unknown()
    ensures { MissingIsUnknown }
{}

/// At most one word is missing.
pub fn missing_is_unique()
    ensures { OneMissing }
{}

/// Where a word is missing, the answers don't cover the machine.
pub fn missing_is_uncovered()
    ensures { MissingIsUncovered }
{}

/// Answers that a minimal machine gives cover it, or a word is missing.
pub fn covered_or_missing()
    ensures { CoveredOrMissing }
{
    least_access_exists();
}
