//! Laws about the definitions alone, with no code.
ghost use Rattle.lw_check.specs.Decision.{OneDecision, SomeDecision};

use lw_certify::verdict_exists;

/// A model and answers have one outcome at most, by each method.
pub fn decision_is_unique()
    ensures { OneDecision }
{}

/// A model and answers over the letters that they name have an outcome, by each method.
pub fn decision_exists()
    ensures { SomeDecision }
{
    verdict_exists();
}
