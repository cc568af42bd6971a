//! A module for each crate that is tested, and what they share.
ghost use Rattle.std.specs.Prelude.{◌≡◌};

mod certify;
mod cex;
mod links;
mod mealy;
mod oracle;
mod separate;
mod suite;
mod sul;
mod words;
mod wp;

use lw_mealy::Mealy;
use lw_words::Word;
use std::alloc::Global;
use std::process::Abort;

type Rows = Vec<Vec<(u16, u16)>>;

fn rows(rt: &impl Abort, alloc: Global, rows: &[&[(u16, u16)]]) -> Rows {
    let mut all = Vec::new(alloc);
    for row in rows {
        let row = Vec::from_slice(alloc, *row).expect(rt, "memory");
        all.push(row).expect(rt, "memory");
    }
    all
}

/// The machine of these rows.
fn machine(rt: &impl Abort, alloc: Global, inputs: u16, outputs: u16, rows: Rows) -> Mealy
    ensures { result.inputs ≡ inputs }
{
    assert!(rt; (1..=64).contains(&inputs) && (1..=4096).contains(&outputs));
    Mealy::new(alloc, inputs, outputs, rows).expect(rt, "a machine")
}

/// The machine of these rows over one letter, with two outputs.
fn of_one_letter(rt: &impl Abort, alloc: Global, cells: &[(u16, u16)]) -> Mealy {
    let mut rows = Vec::new(alloc);
    for cell in cells {
        let row = Vec::from_slice(alloc, &[*cell]).expect(rt, "memory");
        rows.push(row).expect(rt, "memory");
    }
    machine(rt, alloc, 1, 2, rows)
}

/// The machine of one state over so many letters.
fn of_one_state(rt: &impl Abort, alloc: Global, inputs: u16) -> Mealy {
    let row = vec![in alloc; (0, 0); usize::from(inputs)].expect(rt, "memory");
    let rows = vec![in alloc; row].expect(rt, "memory");
    machine(rt, alloc, inputs, 1, rows)
}

fn word(rt: &impl Abort, alloc: Global, letters: &[u16]) -> Word
    ensures { result ≡ letters.now }
{
    Word::from_letters(alloc, letters.to_vec(alloc).expect(rt, "memory"))
}
