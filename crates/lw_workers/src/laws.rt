//! Laws of the definitions. Each is a function with no code, whose contract is the law.
ghost use Rattle.lw_workers.specs.Plain.{RunsAreOne};

/// Two runs of the plain learner over one machine have one model, as many refinements and the same words.
pub fn runs_are_one()
    ensures { RunsAreOne }
{}
