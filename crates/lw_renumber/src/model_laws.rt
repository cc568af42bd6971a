//! Outputs under other names change nothing of what was learned. Each law is a function with no code, whose contract is the law.
ghost use Rattle.lw_renumber.specs.Laws.{RenamedIsCanonical, RenamedIsSuite, RenamedIsSure, RenamedIsCertified, RenamedIsEnough, RenamedIsLeast, RenamedIsTooMany, RenamedIsTooLarge, RenamedLearnsPlainly, OutputsOccur};

/// The canonical form of a machine, renamed, is that of the renamed machine.
pub fn renamed_is_canonical()
    ensures { RenamedIsCanonical }
{}

/// A machine's suite is the renamed machine's.
pub fn renamed_is_suite()
    ensures { RenamedIsSuite }
{}

/// Answers that fix a machine among those of this many states more fix it renamed.
pub fn renamed_is_sure()
    ensures { RenamedIsSure }
{}

/// A certified model, renamed, is certified by the renamed answers, with any number of outputs that is enough for it.
pub fn renamed_is_certified()
    ensures { RenamedIsCertified }
{}

/// Answers that are enough for a model by such tests are, renamed, enough for the renamed model.
pub fn renamed_is_enough()
    ensures { RenamedIsEnough }
{}

/// Where no machine of fewer states agrees with the answers, none agrees with them renamed.
pub fn renamed_is_least()
    ensures { RenamedIsLeast }
{}

/// Words that are too many stay so.
pub fn renamed_is_too_many()
    ensures { RenamedIsTooMany }
{}

/// Where a suite was too large it is so of the renamed model.
pub fn renamed_is_too_large()
    ensures { RenamedIsTooLarge }
{}

/// Each output of a certified model came in an answer.
pub fn outputs_occur()
    ensures { OutputsOccur }
{}

/// The plain learner asks the same of a renamed machine, and ends with the renamed model.
pub fn renamed_learns_plainly()
    ensures { RenamedLearnsPlainly }
{}
