//! Laws about the definitions alone, with no code.
ghost use Rattle.lw_suite.specs.Suite.{OneSuite, SomeSuite, SuiteIsCounted, SuiteIsOfWords};

use lw_separate::{least_access_exists, separators_exist};

/// Two suites of one machine are one.
pub fn suite_is_unique()
    ensures { OneSuite }
{}

/// A minimal machine has a suite, whatever its numbers of states and letters.
pub fn suite_exists()
    ensures { SomeSuite }
{
    least_access_exists();
    separators_exist();
}

/// The words of a suite are words over the machine's letters.
pub fn suite_is_of_words()
    ensures { SuiteIsOfWords }
{}

/// A suite has at most as many words as `suite_size` says.
pub fn suite_is_counted()
    ensures { SuiteIsCounted }
{}
