//! Laws of the definitions. Each is a function with no code, whose contract is the law.
ghost use Rattle.lw_cache.specs.Clash.{ClearIsUnclashed, ClearStays, AllAreClear, GivenNeverClash};
ghost use Rattle.lw_cache.specs.Known.{KnownIsRead, ReadsOnce, ReadsStay};
ghost use Rattle.lw_cache.specs.Crowd.{CrowdNeedsStates, CrowdStays};

/// An answer is clear exactly where it clashes with no clear answer before it.
pub fn clear_is_unclashed()
    ensures { ClearIsUnclashed }
{}

/// Where nothing clashes every answer is clear.
pub fn all_are_clear()
    ensures { AllAreClear }
{}

/// No machine agrees with two answers that clash.
pub fn given_never_clash()
    ensures { GivenNeverClash }
{}

/// A word is known exactly where it has outputs.
pub fn known_is_read()
    ensures { KnownIsRead }
{}

/// The outputs of a word don't depend on the clear answer that they are taken from.
pub fn reads_once()
    ensures { ReadsOnce }
{}

/// A machine that agrees with the answers has a state for each of some words that are pairwise apart.
pub fn crowd_needs_states()
    ensures { CrowdNeedsStates }
{}

/// More answers behind it change nothing of whether an answer is clear.
pub fn clear_stays()
    ensures { ClearStays }
{}

/// More answers behind them change nothing of what is read.
pub fn reads_stay()
    ensures { ReadsStay }
{}

/// Words that are pairwise apart stay so with more answers.
pub fn crowd_stays()
    ensures { CrowdStays }
{}
