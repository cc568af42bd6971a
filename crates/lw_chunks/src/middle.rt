//! The middle words of a suite, by their numbers.
ghost use Rattle.std.specs.Prelude.{◌≡◌, ◌<◌, ◌≤◌, ◌+◌, ◌^◌, ◌++◌, [], OnOk, slice_index_or};
ghost use Rattle.lw_chunks.specs.Size.{powers};
ghost use Rattle.lw_chunks.specs.Middle.{words_of_length, words_up_to};

use lw_words::{NoMemory, Word};

/// Which of the words of this many letters a word is, and how many of these there are.
#[derive(Clone, Copy)]
struct Rank {
    letters: u8,
    number: u64,
    count: u64,
}

/// The rank of the word with this number among those of at most `longest` letters.
#[tactic(auto)]
fn rank_of(inputs: u16, longest: u8, number: u64) -> Rank
    requires letters { inputs ≤ 64 }
    requires few { longest ≤ 5 }
    requires within { number < powers inputs longest }
    ensures count { result.count ≡ inputs ^ result.letters }
    ensures short { result.letters ≤ longest }
    ensures below { result.number < result.count }
    ensures same { slice_index_or (words_up_to inputs longest) number [] ≡
        slice_index_or (words_of_length inputs result.letters) result.number [] }
{
    let mut rank = Rank {
        letters: 0,
        number,
        count: 1,
    };
    while rank.number >= rank.count {
        rank = Rank {
            letters: rank.letters + 1,
            number: rank.number - rank.count,
            count: rank.count * u64::from(inputs),
        };
    }
    rank
}

/// Appends the word with this number among those of at most `longest` letters over this many inputs, in shortlex order.
#[tactic(auto)]
pub fn spell(word: &mut Word, inputs: u16, longest: u8, number: u64) -> Result<(), NoMemory>
    requires letters { inputs ≤ 64 }
    requires few { longest ≤ 5 }
    requires within { number < powers inputs longest }
    ensures { OnOk result (word.new ≡
        word.old ++ slice_index_or (words_up_to inputs longest) number []) }
{
    let rank = rank_of(inputs, longest, number);
    let mut number = rank.number;
    let mut count = rank.count;
    for _ in 0..rank.letters {
        count /= u64::from(inputs);
        word.push((number / count) as u16)?;
        number %= count;
    }
    Ok(())
}
