//! A pool as an oracle.
ghost use Rattle.std.specs.Prelude.{◌≡◌, []};
ghost use Rattle.lw_cache.specs.Settling.{OracleState, Keeps};

use crate::Pool;
use lw_cache::{AskStop, Cache, Oracle};
use lw_sul::Sul;
use lw_words::Word;

/// What an oracle tells without settling anything.
pub trait Telling {
    /// What contracts see of it.
    ghost state: { Self → OracleState };

    fn inputs(&self) -> u16
        ensures { result ≡ (state self.now).inputs };

    fn outputs(&self) -> u16
        ensures { result ≡ (state self.now).outputs };

    /// What is known. Nothing is claimed.
    fn cache(&self) -> &Cache
        ensures kept { result.now.kept ≡ (state self.now).kept }
        ensures claims { result.now.claims ≡ [] }
        ensures keeps { Keeps (state self.now) };
}

impl<S: Sul, R> Telling for Pool<S, R> {
    ghost use Rattle.lw_pool.specs.Sharing.{oracle_of};

    ghost state = { oracle_of };

    fn inputs(&self) -> u16 {
        Pool::inputs(self)
    }

    fn outputs(&self) -> u16 {
        Pool::outputs(self)
    }

    fn cache(&self) -> &Cache {
        Pool::cache(self)
    }
}

/// An oracle made of what tells its state, as a `Pool`, and of the call that settles its batches, as `Pool::settle_all`.
/// That a system and a runtime may be shared by threads is known where such a call is written; an implementation of
/// `Oracle` can't ask it of them. So the call is handed in.
#[derive(Drop)]
pub struct ByCall<P, F> {
    pub pool: P,
    pub settle: F,
}

impl<P: Telling, F: Fn(&mut P, &[Word]) -> Result<(), AskStop>> Oracle for ByCall<P, F> {
    ghost use Rattle.lw_pool.specs.Sharing.{SettlesBatches};

    ghost state = { λ o. P.state o.pool };

    ghost can_settle = { λ o. SettlesBatches P.state F.Fn o.settle };

    fn inputs(&self) -> u16 {
        self.pool.inputs()
    }

    fn outputs(&self) -> u16 {
        self.pool.outputs()
    }

    fn cache(&self) -> &Cache {
        self.pool.cache()
    }

    fn settle(&mut self, batch: &[Word]) -> Result<(), AskStop> {
        (self.settle)(&mut self.pool, batch)
    }
}
