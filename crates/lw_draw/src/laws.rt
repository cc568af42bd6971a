//! Laws about the definitions alone, with no code.
ghost use Rattle.lw_draw.specs.Walks.{OneWalks, SomeWalks, WalksAreOfWords};

use lw_separate::{least_access_exists, separators_exist};

/// Two lists of a machine's walks are one.
pub fn walks_are_one()
    ensures { OneWalks }
{}

/// A minimal machine has walks, whatever its numbers of states and letters.
pub fn walks_exist()
    ensures { SomeWalks }
{
    least_access_exists();
    separators_exist();
}

/// Walks are words over the machine's letters.
pub fn walks_are_of_words()
    ensures { WalksAreOfWords }
{}
