//! A law of the definitions: a function with no code, whose contract is the law.
ghost use Rattle.lw_pool.specs.Sharing.{SettlesAsOracle};

use lw_sul::Sul;

/// What settles a pool settles the oracle that it is.
pub fn settles_as_oracle<S: Sul>()
    ensures { SettlesAsOracle S }
{}
