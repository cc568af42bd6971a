//! Two files that a command is given.
ghost use Rattle.std.specs.Prelude.{◌≡◌, Some, None, Err, IfOk};
ghost use Rattle.clap.specs.Words.{first_of, found_of, rows_of};
ghost use Rattle.lw_top.specs.FilePairs.{pair_from};
ghost use Rattle.lw_top.specs.declared.values.ArgumentStop.{ArgumentStop as Stop};

use crate::ArgumentStop;
use crate::values::required_text_at;
use clap::ArgMatches;
use std::alloc::Global;
use std::marker::Model;

/// The names of two files.
#[derive(Drop)]
pub struct FilePair {
    first: String,
    second: String,
}

impl Model for FilePair {
    ghost use Rattle.std.specs.Prelude.{string_bytes};
    ghost use Rattle.lw_top.specs.FilePairs.{PairValues};

    ghost Value = { PairValues };

    ghost view = { λ p. record { first = string_bytes p.first; second = string_bytes p.second } };
}

impl FilePair {
    pub fn first(&self) -> &str
        ensures { result.now ≡ self.now.first }
    {
        self.first.as_str()
    }

    pub fn second(&self) -> &str
        ensures { result.now ≡ self.now.second }
    {
        self.second.as_str()
    }
}

/// The files that two arguments name.
pub(crate) fn pair_at(
    alloc: Global,
    matches: &ArgMatches,
    first: &str,
    second: &str,
) -> Result<FilePair, ArgumentStop>
    ensures ok { IfOk result (λ p. pair_from (first_of first.now (rows_of (found_of matches.now)))
        (first_of second.now (rows_of (found_of matches.now))) ≡ Some p) }
    ensures refused { result ≡ Err Stop.Usage → pair_from
        (first_of first.now (rows_of (found_of matches.now)))
        (first_of second.now (rows_of (found_of matches.now))) ≡ None }
{
    let first = required_text_at(alloc, matches, first)?;
    let second = required_text_at(alloc, matches, second)?;
    Ok(FilePair { first, second })
}
