//! A suite of the H-method that gives its words in chunks.
ghost use Rattle.std.specs.Prelude.{◌≡◌, ℕ, ◌≢◌, ◌↔◌, ◌<◌, ◌≤◌, [], length, take, drop, true, Err, IfOk, OnOk, OnErr};
ghost use Rattle.lw_chunks.specs.Size.{suite_size, greatest_suite};
ghost use Rattle.lw_chunks.specs.declared.size.SuiteFault.{SuiteFault as Fault};
ghost use Rattle.lw_mealy.specs.Machine.{IsMinimal};
ghost use Rattle.lw_separate.specs.Canonical.{AreLeastAccess};
ghost use Rattle.lw_wp.specs.GreedySuite.{IsGreedySuite};
ghost use Rattle.lw_wp.specs.HSuite.{IsHSuite};
ghost use Rattle.lw_wp.specs.bodies.Cursors.{AreParts, words_of};

use crate::h_table::h_table;
use crate::parts::{Parts, parts_by};
use crate::separation::{Separation, separation_of};
use crate::walk::Walk;
use lw_chunks::{Chunks, SuiteFault, check_size};
use lw_mealy::Mealy;
use lw_separate::least_access;
use lw_words::{NoMemory, Word, Words};
use std::alloc::Global;
use std::marker::Model;

/// The parts of a machine's suite of the H-method that isn't too large.
fn parts_of(alloc: Global, m: &Mealy, access: Words, extra: u8) -> Result<Parts, NoMemory>
    requires minimal { IsMinimal m.now.inputs m.now.rows }
    requires few { extra ≤ 4 }
    requires least { AreLeastAccess m.now.inputs m.now.rows access }
    requires size { suite_size (length m.now.rows) m.now.inputs extra ≤ greatest_suite }
    ensures parts { IfOk result AreParts }
    ensures suite { IfOk result (λ p. IsHSuite m.now.inputs m.now.rows extra (words_of p)) }
    ensures words { IfOk result (λ p. IsGreedySuite m.now.inputs m.now.rows extra (words_of p)) }
{
    let by = separation_of(alloc, m)?;
    let table = h_table(alloc, m, &by, extra)?;
    let Separation { words, classes: _ } = by;
    let parts = parts_by(m, access, extra, words, table)?;
    Ok(parts)
}

/// A suite of the H-method, of which some words were given. Contracts see the words that are left.
///
/// It keeps a copy of the machine, the access words, the separating words, and of each state and length of middle words the
/// numbers of those that stand behind; the words of the suite are made as they are asked for.
#[derive(Drop)]
pub struct HSuite {
    walk: Walk,
}

impl Model for HSuite {
    ghost use Rattle.std.specs.Prelude.{ℕ, List};

    ghost Value = { List (List ℕ) };

    ghost view = { λ s. s.walk };

    ghost invariant = { λ s. Unit {0} };
}

impl HSuite {
    /// A suite of the H-method of a minimal machine for `extra` states more (Dorofeeva, El-Fakih and Koufareva 2005), by `ok`,
    /// and by `words` just these words: S·M·(ε, E), where S are the least access words, M the words of at most `extra + 1`
    /// letters, and E separating words. Behind an access word alone these are all. Behind a middle word that leads to a state q
    /// they are G(q), and for each state r to which at most as many letters lead from q as the middle word has fewer than the
    /// longest, that word of G(r) which was chosen first of those that separate r from q.
    ///
    /// G(q) is chosen greedily: each word is the first of those that separate the most of the states that are left from q.
    /// First come the middle words of at most `extra` letters, by access word, then in shortlex order, and then those of one
    /// more; behind each the empty word, and then the others in the order of the separating words.
    ///
    /// # Errors
    /// `TooLarge` with the size of the W-method's suite where that is above 8,388,608, and no memory is taken then.
    pub fn new(alloc: Global, m: &Mealy, extra: u8) -> Result<HSuite, SuiteFault>
        requires minimal { IsMinimal m.now.inputs m.now.rows }
        requires few { extra ≤ 4 }
        ensures ok { IfOk result (IsHSuite m.now.inputs m.now.rows extra) }
        ensures words { IfOk result (IsGreedySuite m.now.inputs m.now.rows extra) }
        ensures within { OnOk result
            (suite_size (length m.now.rows) m.now.inputs extra ≤ greatest_suite) }
        ensures too_large { greatest_suite < suite_size (length m.now.rows) m.now.inputs extra →
            result ≡ Err (Fault.TooLarge (suite_size (length m.now.rows) m.now.inputs extra)) }
        ensures size { (size : ℕ) → result ≡ Err (Fault.TooLarge size) →
            (size ≡ suite_size (length m.now.rows) m.now.inputs extra) ×
            (greatest_suite < size) }
    {
        check_size(m, extra)?; // before the access words take memory
        HSuite::with_access(alloc, m, least_access(alloc, m)?, extra)
    }

    /// The suite, as `new` makes it, of a machine whose least access words are at hand.
    ///
    /// # Errors
    /// As `new`.
    pub fn with_access(
        alloc: Global,
        m: &Mealy,
        access: Words,
        extra: u8,
    ) -> Result<HSuite, SuiteFault>
        requires minimal { IsMinimal m.now.inputs m.now.rows }
        requires least { AreLeastAccess m.now.inputs m.now.rows access }
        requires few { extra ≤ 4 }
        ensures ok { IfOk result (IsHSuite m.now.inputs m.now.rows extra) }
        ensures words { IfOk result (IsGreedySuite m.now.inputs m.now.rows extra) }
        ensures within { OnOk result
            (suite_size (length m.now.rows) m.now.inputs extra ≤ greatest_suite) }
        ensures too_large { greatest_suite < suite_size (length m.now.rows) m.now.inputs extra →
            result ≡ Err (Fault.TooLarge (suite_size (length m.now.rows) m.now.inputs extra)) }
        ensures size { (size : ℕ) → result ≡ Err (Fault.TooLarge size) →
            (size ≡ suite_size (length m.now.rows) m.now.inputs extra) ×
            (greatest_suite < size) }
    {
        check_size(m, extra)?;
        let parts = parts_of(alloc, m, access, extra)?;
        Ok(HSuite {
            walk: Walk::new(alloc, parts),
        })
    }

    /// Replaces the contents of a chunk by the next 512 words, or by those that are left, and answers whether there
    /// were any. The words of the chunk keep their memory.
    ///
    /// # Errors
    /// Only where memory runs out; the suite is then as before, and the chunk is empty.
    pub fn next_chunk(&mut self, chunk: &mut Vec<Word>) -> Result<bool, NoMemory>
        ensures chunk { OnOk result (chunk.new.items ≡ take 512 self.old) }
        ensures left { OnOk result (self.new ≡ drop 512 self.old) }
        ensures more { IfOk result (λ more. (more ≡ true) ↔ (self.old ≢ [])) }
        ensures err { OnErr result ((self.new ≡ self.old) × (chunk.new.items ≡ [])) }
    {
        self.walk.next_chunk(chunk)
    }
}

impl Chunks for HSuite {
    ghost left = { λ words. words };

    fn next_chunk(&mut self, chunk: &mut Vec<Word>) -> Result<bool, NoMemory> {
        HSuite::next_chunk(self, chunk)
    }
}
