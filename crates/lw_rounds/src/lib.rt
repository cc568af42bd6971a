//! The rounds of a learning: a learner is closed, its machine is tested, and a difference refines it.
#![tactic(auto)]

mod conformance;
mod difference;
mod hypothesis;
mod laws;
mod learned;
mod learner;
mod learning;
mod rounds;
mod settings;
mod stops;
mod watcher;

pub use laws::{
    model_is_canonical, model_is_least, too_large_for_all, too_large_is_least, too_many_is_none,
};
pub use learned::Learned;
pub use learner::{Kind, Learner};
pub use learning::learn;
pub use settings::{Settings, Testing};
pub use stops::LearnStop;
pub use watcher::{Phase, Progress, Step, Tests, Unwatched, Watcher, tell_step};
