//! The arguments of the command.
ghost use Rattle.std.specs.Prelude.{◌≤◌};

use lw_chunks::Method;
use lw_system::Goal;

/// The values of the arguments of `check`: the goal, which says what the model file is of (a machine, or an acceptor, which counts
/// as the machine that is asked in its place); the names of the model file and of the answers file; the number of extra states,
/// up to 4; and how suites are made.
#[derive(Drop)]
pub struct CheckArguments {
    pub goal: Goal,
    pub model: String,
    pub answers: String,
    pub extra: u8,
    pub suite: Method,
    pub ghost few: { extra ≤ 4 },
}
