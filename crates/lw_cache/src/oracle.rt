//! Oracles: what answers words, and keeps what it answered.
ghost use Rattle.std.specs.Prelude.{◌≡◌, ◌^◌, ◌<◌, [], length, ⊤};
ghost use Rattle.std.specs.List.{All};
ghost use Rattle.lw_words.specs.Word.{IsWord};
ghost use Rattle.lw_cache.specs.Settling.{OracleState, Keeps, Settles};

use crate::{AskStop, Cache};
use lw_words::Word;

/// What answers words: each batch that is settled makes its words known in the cache.
pub trait Oracle {
    /// What contracts see of it.
    ghost state: { Self → OracleState };

    /// What a settling asks of the oracle itself, where it calls a closure; nothing where it doesn't.
    ghost can_settle: { Self → Type 0 } = { λ _. ⊤ };

    fn inputs(&self) -> u16
        ensures { result ≡ (state self.now).inputs };

    fn outputs(&self) -> u16
        ensures { result ≡ (state self.now).outputs };

    /// What is known. Between calls nothing is claimed.
    fn cache(&self) -> &Cache
        ensures kept { result.now.kept ≡ (state self.now).kept }
        ensures claims { result.now.claims ≡ [] }
        ensures keeps { Keeps (state self.now) };

    /// Makes the words of a batch known.
    ///
    /// # Errors
    /// What it stopped by: a system's stop, a clash of recorded answers, or out of memory. Some words of the batch may
    /// be known then.
    fn settle(&mut self, batch: &[Word]) -> Result<(), AskStop>
        requires letters { All (IsWord (state self.old).inputs) batch.now }
        requires few { length batch.now < 2 ^ 32 }
        requires can { can_settle self.old }
        ensures settles { Settles batch.now (state self.old) (state self.new) result }
        ensures can { can_settle self.new };
}
