//! Outputs under other names change nothing of what is known. Each law is a function with no code, whose contract is the law.
ghost use Rattle.lw_renumber.specs.Laws.{RenamedAnswers, RenamedGives, RenamedClashes, RenamedNeverClash, RenamedIsClear, RenamedIsKnown, RenamedIsRead, RenamedIsCrowd};

/// The answers of a renamed machine are the machine's, renamed; by any function, one that maps two numbers to one too.
pub fn renamed_answers_are()
    ensures { RenamedAnswers }
{}

/// A machine that agrees with answers agrees with them renamed, when it is renamed itself.
pub fn renamed_gives()
    ensures { RenamedGives }
{}

/// Two answers clash exactly where they do so renamed.
pub fn renamed_clashes()
    ensures { RenamedClashes }
{}

/// Where nothing clashes nothing does renamed.
pub fn renamed_never_clash()
    ensures { RenamedNeverClash }
{}

/// The same answers are clear.
pub fn renamed_is_clear()
    ensures { RenamedIsClear }
{}

/// The same words are known.
pub fn renamed_is_known()
    ensures { RenamedIsKnown }
{}

/// A word is read with its outputs renamed.
pub fn renamed_is_read()
    ensures { RenamedIsRead }
{}

/// Words that are apart stay so.
pub fn renamed_is_crowd()
    ensures { RenamedIsCrowd }
{}
