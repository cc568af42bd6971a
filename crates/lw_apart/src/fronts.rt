//! What the words that are to be known are made of.
ghost use Rattle.std.specs.Prelude.{◌≡◌, ◌≤◌, ◌*◌, length};
ghost use Rattle.lw_chunks.specs.Size.{powers};

use lw_words::Words;

/// The access words of a machine, and the number of words of at most `longest` letters that each has behind it.
#[derive(Drop)]
pub(crate) struct Fronts {
    pub(crate) inputs: u16,
    pub(crate) longest: u8,
    pub(crate) middles: u64,
    pub(crate) access: Words,
    pub(crate) ghost letters: { inputs ≤ 64 },
    pub(crate) ghost some: { 1 ≤ longest },
    pub(crate) ghost few: { longest ≤ 5 },
    pub(crate) ghost counted: { middles ≡ powers inputs longest },
    pub(crate) ghost bounded: { length access * middles ≤ 8388608 },
}
