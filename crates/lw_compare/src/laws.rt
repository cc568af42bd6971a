//! Laws about the definitions alone, with no code.
ghost use Rattle.lw_compare.specs.Decision.{OneComparison};

/// Two models compare in one way at most.
pub fn comparison_is_unique()
    ensures { OneComparison }
{}
