//! What a suite is made of.
ghost use Rattle.std.specs.Prelude.{◌≡◌, ◌<◌, ◌≤◌, ◌+◌, ◌*◌, length};
ghost use Rattle.lw_chunks.specs.Size.{powers};

use lw_words::Words;

/// The access words and the ends of a suite, and the number of its middle words of at most `longest` letters.
#[derive(Drop)]
pub(crate) struct Parts {
    pub(crate) inputs: u16,
    pub(crate) longest: u8,
    pub(crate) middles: u64,
    pub(crate) access: Words,
    pub(crate) ends: Words,
    pub(crate) ghost letters: { inputs ≤ 64 },
    pub(crate) ghost few: { longest ≤ 5 },
    pub(crate) ghost counted: { middles ≡ powers inputs longest },
    pub(crate) ghost short: { length ends < 1024 },
    pub(crate) ghost bounded: { length access * middles * (1 + length ends) ≤ 8388608 },
}
