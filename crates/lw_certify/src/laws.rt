//! Laws about the definitions alone, with no code.
ghost use Rattle.lw_certify.specs.Verdict.{EnoughCovers, OneVerdict, SomeVerdict, SuiteIsEnough, SuitesAreOfWords, SureIsSure};
ghost use Rattle.lw_certify.specs.Worked.{AsWorked};

use lw_apart::covered_or_missing;
use lw_suite::suite_exists;
use lw_wp::wp_suite_exists;

/// Where answers are enough by a method, they cover the machine: so what is enough by any is enough by the H-method.
pub fn enough_covers()
    ensures { EnoughCovers }
{}

/// Answers that the machine gives, and that make a suite of it known, are enough by the method that made the suite.
pub fn suite_is_enough()
    ensures { SuiteIsEnough }
{}

/// The words of each suite are over the machine's letters.
pub fn suites_are_of_words()
    ensures { SuitesAreOfWords }
{}

/// The completeness of each method: of the W-method, Vasilevskii (1973) and Chow (1978); of the Wp-method, Fujiwara and others (1991);
/// of the H-method, Dorofeeva, El-Fakih and Koufareva (2005).
pub fn sure_is_sure()
    ensures { SureIsSure }
{}

/// What `Sure` says isn't empty: it holds of the answers of a worked case, which a machine agrees with, and two letters
/// leave a gap.
pub fn sure_is_not_vacuous()
    ensures { AsWorked }
{}

/// Two verdicts by one method on one model and the same answers are one.
pub fn verdict_is_unique()
    ensures { OneVerdict }
{}

/// A machine and answers with an output for each letter have a verdict by each method, whatever their numbers.
pub fn verdict_exists()
    ensures { SomeVerdict }
{
    suite_exists();
    wp_suite_exists();
    covered_or_missing();
}
