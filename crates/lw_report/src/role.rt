//! What a file is to a call of the program.
ghost use Rattle.std.specs.Prelude.{◌≡◌};
ghost use Rattle.lw_report.specs.Reasons.{role_name};

/// What a file is to a call: a setup, a machine that is learned, a model, answers, or those of an earlier call;
/// the second of two models, words that are asked besides, the answers that are kept at any end, or the machine that is left at
/// an end without a model.
#[derive(Clone, Copy, Debug, PartialEq, Eq)]
pub enum Role {
    Setup,
    Table,
    Model,
    Answers,
    Prior,
    Second,
    Words,
    Kept,
    Last,
}

impl Role {
    /// The role as texts have it.
    pub fn name(self) -> &'static str
        ensures { result.now ≡ role_name self }
    {
        match self {
            Role::Setup => "setup",
            Role::Table => "table",
            Role::Model => "model",
            Role::Answers => "answers",
            Role::Prior => "prior",
            Role::Second => "second model",
            Role::Words => "words",
            Role::Kept => "kept",
            Role::Last => "last",
        }
    }
}
