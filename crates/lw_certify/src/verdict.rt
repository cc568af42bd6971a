//! Verdicts on a model and recorded answers.
use lw_words::Word;

/// The verdict on a model and recorded answers: the first that applies.
#[derive(Drop)]
pub enum Verdict {
    /// No word leads to this state, the least such.
    Unreached(u16),
    /// These two states agree on all words, the first such pair, by the first state, then by the second.
    Alike(u16, u16),
    /// The model disagrees with the answer with this number, the first such, from this place on.
    Differs { answer: usize, place: usize },
    /// The size of the W-method's suite would be this, which is above the greatest.
    TooLarge(u64),
    /// This word isn't known: the first such of the suite, or by the H-method the first that is needed for the answers to cover the model.
    Missing(Word),
    /// None of these: the answers fix the model among all machines of at most this many states more.
    Sure,
}
