//! A worker: a session that asks its system the words of places, and makes an ask of the answers.
ghost use Rattle.std.specs.Prelude.{◌≡◌, ◌<◌, ◌≤◌, length, Some, IfOk, IfErr};
ghost use Rattle.std.specs.List.{All};
ghost use Rattle.lw_words.specs.Word.{IsWord};
ghost use Rattle.lw_pool.specs.bodies.Working.{HasAnswered};
ghost use Rattle.lw_pool.specs.Working.{HasGiven, IsUnanswered};

use lw_desk::{Ask, Desk, Failed, Give, Places, Reply};
use lw_sul::{NamedAnswer, Session, Sul};
use lw_turn::Pass;
use lw_words::{RunStop, Word};
use std::alloc::Global;
use std::marker::Model;

/// A session. Contracts see it, and beside it what its system tells.
#[derive(Drop)]
pub(crate) struct Worker<S: Sul> {
    pub(crate) session: Session<S>,
}

impl<S: Sul> Model for Worker<S> {
    ghost use Rattle.lw_pool.specs.Pool.{Member};

    ghost Value = { Member S };

    ghost view = { λ w. record { session = w.session; seen = record { instance = w.session.instance; journal = w.session.journal; names = (S.state w.session.sul).names; most = (S.state w.session.sul).most; stop = (S.state w.session.sul).stop; origin = (S.state w.session.sul).origin; inputs = (S.state w.session.sul).inputs; outputs = (S.state w.session.sul).outputs } } };
}

impl<S: Sul> Worker<S> {
    /// Asks its system the word of a place.
    fn ask(&mut self, batch: &[Word], place: u32) -> Result<Give, RunStop>
        requires within { place < length batch.now }
        requires letters { All (IsWord self.old.seen.inputs) batch.now }
        ensures place { IfOk result (λ g. g.place ≡ place) }
        ensures given { IfOk result (HasGiven batch.now self.old.seen self.new.seen) }
        ensures refused { IfErr result (IsUnanswered self.old.seen self.new.seen) }
    {
        let run = self.session.runs();
        let NamedAnswer { outs, names } = self.session.ask_named(&batch[place as usize])?;
        Ok(Give {
            place,
            outs,
            names,
            run,
        })
    }

    /// Asks its system the words of its places, up to the first that is refused, and takes the memory for the answers first.
    pub(crate) fn answer(
        &mut self,
        alloc: Global,
        batch: &[Word],
        places: &Places,
        wanted: u32,
    ) -> Ask
        requires within { All (λ p. p < length batch.now) places.now }
        requires letters { All (IsWord self.old.seen.inputs) batch.now }
        requires some { 0 < length places.now }
        requires wanted { (0 < wanted) × (wanted ≤ 16) }
        ensures { HasAnswered batch.now places.now self.old.seen self.new.seen result }
    {
        let Ok(mut gives) = Vec::with_capacity(alloc, places.as_slice().len()) else {
            return refused(Vec::new(alloc), places.from(0), RunStop::NoMemory);
        };
        for (i, place) in places.as_slice().iter().enumerate() {
            match self.ask(batch, *place) {
                Ok(give) => gives.push_reserved(give),
                Err(stop) => return refused(gives, places.from(i), stop),
            }
        }
        Ask {
            gives,
            failed: None,
            wanted,
        }
    }
}

/// An ask that gives these answers, and fails these places.
fn refused(gives: Vec<Give>, places: Places, stop: RunStop) -> Ask
    ensures gives { result.gives.items ≡ gives.items }
    ensures failed { result.failed ≡ Some (record { places = places; stop = stop }) }
    ensures wanted { result.wanted ≡ 0 }
{
    Ask {
        gives,
        failed: Some(Failed { places, stop }),
        wanted: 0,
    }
}
