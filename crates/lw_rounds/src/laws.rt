//! What the answers of a learning mean. Each law is a function with no code, whose contract is the law.
ghost use Rattle.lw_rounds.specs.Laws.{ModelIsCanonical, ModelIsLeast, TooManyIsNone, TooLargeIsLeast, TooLargeForAll};

/// The model is the canonical form of each machine of at most `extra` states more that agrees with the recorded
/// answers.
pub fn model_is_canonical()
    ensures { ModelIsCanonical }
{}

/// No machine of fewer states than the model agrees with the recorded answers.
pub fn model_is_least()
    ensures { ModelIsLeast }
{}

/// Where the words are too many, no machine of `max_states` states agrees with the recorded answers.
pub fn too_many_is_none()
    ensures { TooManyIsNone }
{}

/// Where the suite is too large, no machine of fewer states than the model agrees with the recorded answers.
pub fn too_large_is_least()
    ensures { TooLargeIsLeast }
{}

/// Where the suite is too large, it is so for each machine that agrees with the recorded answers.
pub fn too_large_for_all()
    ensures { TooLargeForAll }
{}
