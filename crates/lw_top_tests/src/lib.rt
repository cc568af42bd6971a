//! Tests of `lw_top` by its public calls alone.
#![tactic(auto)]

#[cfg(test)]
mod tests;
