//! Which outcomes a call of `learn` may have where the files' contents are observed. Each law is a function with no
//! code, whose contract is the law.
ghost use Rattle.lw_learn.specs.Told.{BadIsRefused, ToldIsLearned};

/// Where the files tell a system, and, where they are named, prior answers that fit it and words over its letters, none of them is
/// refused.
pub fn told_is_learned()
    ensures { ToldIsLearned }
{}

/// Where the file of the system is observed to be too long, or of none, nothing is learned.
pub fn bad_is_refused()
    ensures { BadIsRefused }
{}
