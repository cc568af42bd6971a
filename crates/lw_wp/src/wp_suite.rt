//! A Wp-suite that gives its words in chunks.
ghost use Rattle.std.specs.Prelude.{◌≡◌, ℕ, ◌≢◌, ◌↔◌, ◌<◌, ◌≤◌, [], length, take, drop, true, Err, IfOk, OnOk, OnErr};
ghost use Rattle.lw_mealy.specs.Machine.{IsMinimal};
ghost use Rattle.lw_separate.specs.Canonical.{AreLeastAccess};
ghost use Rattle.lw_chunks.specs.Size.{suite_size, greatest_suite};
ghost use Rattle.lw_chunks.specs.declared.size.SuiteFault.{SuiteFault as Fault};
ghost use Rattle.lw_wp.specs.WpSuite.{IsWpSuite};
ghost use Rattle.lw_wp.specs.bodies.Cursors.{AreParts, words_of};

use crate::identification_sets::wp_table;
use crate::parts::{Parts, parts_by};
use crate::separation::{Separation, separation_of};
use crate::walk::Walk;
use lw_chunks::{Chunks, SuiteFault, check_size};
use lw_mealy::Mealy;
use lw_separate::least_access;
use lw_words::{NoMemory, Word, Words};
use std::alloc::Global;
use std::marker::Model;

/// The parts of a machine's Wp-suite that isn't too large.
fn parts_of(alloc: Global, m: &Mealy, access: Words, extra: u8) -> Result<Parts, NoMemory>
    requires minimal { IsMinimal m.now.inputs m.now.rows }
    requires few { extra ≤ 4 }
    requires least { AreLeastAccess m.now.inputs m.now.rows access }
    requires size { suite_size (length m.now.rows) m.now.inputs extra ≤ greatest_suite }
    ensures parts { IfOk result AreParts }
    ensures words { IfOk result (λ p. IsWpSuite m.now.inputs m.now.rows extra (words_of p)) }
{
    let by = separation_of(alloc, m)?;
    let table = wp_table(alloc, m, &by)?;
    let Separation { words, classes: _ } = by;
    let parts = parts_by(m, access, extra, words, table)?;
    Ok(parts)
}

/// The Wp-suite of a machine, of which some words were given. Contracts see the words that are left.
///
/// It keeps a copy of the machine, the access words, the separating words, and of each state the numbers of those that
/// identify it; the words of the suite are made as they are asked for.
#[derive(Drop)]
pub struct WpSuite {
    walk: Walk,
}

impl Model for WpSuite {
    ghost use Rattle.std.specs.Prelude.{ℕ, List};

    ghost Value = { List (List ℕ) };

    ghost view = { λ s. s.walk };

    ghost invariant = { λ s. Unit {0} };
}

impl WpSuite {
    /// The Wp-suite of a minimal machine for `extra` states more (Fujiwara and others 1991): the words S·M·(ε, W), where S
    /// are the least access words, M the words of at most `extra` letters, and W the separating words; and behind them
    /// the words S·L·(ε, I), where L are the words of `extra + 1` letters, and I the identification set of the state that
    /// is reached. By access word, then by middle word in shortlex order, then the empty word before the others in their
    /// order; words that come twice are given twice.
    ///
    /// # Errors
    /// `TooLarge` with the size of the W-method's suite where that is above 8,388,608, and no memory is taken then.
    pub fn new(alloc: Global, m: &Mealy, extra: u8) -> Result<WpSuite, SuiteFault>
        requires minimal { IsMinimal m.now.inputs m.now.rows }
        requires few { extra ≤ 4 }
        ensures ok { IfOk result (IsWpSuite m.now.inputs m.now.rows extra) }
        ensures within { OnOk result
            (suite_size (length m.now.rows) m.now.inputs extra ≤ greatest_suite) }
        ensures too_large { greatest_suite < suite_size (length m.now.rows) m.now.inputs extra →
            result ≡ Err (Fault.TooLarge (suite_size (length m.now.rows) m.now.inputs extra)) }
        ensures size { (size : ℕ) → result ≡ Err (Fault.TooLarge size) →
            (size ≡ suite_size (length m.now.rows) m.now.inputs extra) ×
            (greatest_suite < size) }
    {
        check_size(m, extra)?; // before the access words take memory
        WpSuite::with_access(alloc, m, least_access(alloc, m)?, extra)
    }

    /// The suite, as `new` makes it, of a machine whose least access words are at hand.
    ///
    /// # Errors
    /// As `new`.
    pub fn with_access(
        alloc: Global,
        m: &Mealy,
        access: Words,
        extra: u8,
    ) -> Result<WpSuite, SuiteFault>
        requires minimal { IsMinimal m.now.inputs m.now.rows }
        requires least { AreLeastAccess m.now.inputs m.now.rows access }
        requires few { extra ≤ 4 }
        ensures ok { IfOk result (IsWpSuite m.now.inputs m.now.rows extra) }
        ensures within { OnOk result
            (suite_size (length m.now.rows) m.now.inputs extra ≤ greatest_suite) }
        ensures too_large { greatest_suite < suite_size (length m.now.rows) m.now.inputs extra →
            result ≡ Err (Fault.TooLarge (suite_size (length m.now.rows) m.now.inputs extra)) }
        ensures size { (size : ℕ) → result ≡ Err (Fault.TooLarge size) →
            (size ≡ suite_size (length m.now.rows) m.now.inputs extra) ×
            (greatest_suite < size) }
    {
        check_size(m, extra)?;
        let parts = parts_of(alloc, m, access, extra)?;
        Ok(WpSuite {
            walk: Walk::new(alloc, parts),
        })
    }

    /// Replaces the contents of a chunk by the next 512 words, or by those that are left, and answers whether there
    /// were any. The words of the chunk keep their memory.
    ///
    /// # Errors
    /// Only where memory runs out; the suite is then as before, and the chunk is empty.
    pub fn next_chunk(&mut self, chunk: &mut Vec<Word>) -> Result<bool, NoMemory>
        ensures chunk { OnOk result (chunk.new.items ≡ take 512 self.old) }
        ensures left { OnOk result (self.new ≡ drop 512 self.old) }
        ensures more { IfOk result (λ more. (more ≡ true) ↔ (self.old ≢ [])) }
        ensures err { OnErr result ((self.new ≡ self.old) × (chunk.new.items ≡ [])) }
    {
        self.walk.next_chunk(chunk)
    }
}

impl Chunks for WpSuite {
    ghost left = { λ words. words };

    fn next_chunk(&mut self, chunk: &mut Vec<Word>) -> Result<bool, NoMemory> {
        WpSuite::next_chunk(self, chunk)
    }
}
