//! Laws about the definitions alone, with no code.
ghost use Rattle.lw_wp.specs.GreedySuite.{GreedySuiteIsHSuite, GreedySuiteIsOfWords, OneGreedySuite, SomeGreedySuite};
ghost use Rattle.lw_wp.specs.HSuite.{WpSuiteIsHSuite};
ghost use Rattle.lw_wp.specs.Identification.{OneIdentification, IdentificationIdentifies};
ghost use Rattle.lw_wp.specs.WpSuite.{OneWpSuite, SomeWpSuite, WpSuiteIsCounted, WpSuiteIsOfWords};
ghost use Rattle.lw_wp.specs.WpTells.{WpSuiteTells};

use lw_separate::{least_access_exists, separators_exist};

/// Two identification sets of one state are one.
pub fn identification_is_unique()
    ensures { OneIdentification }
{}

/// The identification set of a state separates it from each other state, by fewer words than there are states.
pub fn identification_identifies()
    ensures { IdentificationIdentifies }
{}

/// Two Wp-suites of one machine are one.
pub fn wp_suite_is_unique()
    ensures { OneWpSuite }
{}

/// A minimal machine has a Wp-suite, whatever its numbers of states and letters.
pub fn wp_suite_exists()
    ensures { SomeWpSuite }
{
    least_access_exists();
    separators_exist();
}

/// The words of a Wp-suite are words over the machine's letters.
pub fn wp_suite_is_of_words()
    ensures { WpSuiteIsOfWords }
{}

/// A Wp-suite has at most as many words as `suite_size` says.
pub fn wp_suite_is_counted()
    ensures { WpSuiteIsCounted }
{}

/// A Wp-suite tells the states of its machine apart as far as answers need that are to fix it.
pub fn wp_suite_tells()
    ensures { WpSuiteTells }
{}

/// Two lists of the words that `HSuite` has of one machine are one.
pub fn greedy_suite_is_unique()
    ensures { OneGreedySuite }
{}

/// A minimal machine has such a suite, whatever its numbers of states and letters.
pub fn greedy_suite_exists()
    ensures { SomeGreedySuite }
{
    least_access_exists();
    separators_exist();
}

/// The words of such a suite are words over the machine's letters.
pub fn greedy_suite_is_of_words()
    ensures { GreedySuiteIsOfWords }
{}

/// Such a suite is a suite of the H-method.
pub fn greedy_suite_is_h_suite()
    ensures { GreedySuiteIsHSuite }
{}

/// A Wp-suite is a suite of the H-method: so a minimal machine has one.
pub fn wp_suite_is_h_suite()
    ensures { WpSuiteIsHSuite }
{}
