//! The law of the definitions: a function with no code, whose contract is the law.
ghost use Rattle.lw_settle.specs.Settling.{SomeBlockIsParted};

/// While a node is temporary, and the tree's machine agrees with the answers, some letter parts some block.
pub fn some_block_is_parted()
    ensures { SomeBlockIsParted }
{}
