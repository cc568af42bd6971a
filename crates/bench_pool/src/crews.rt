//! Pools of one machine's systems, and the words that they are asked.
ghost use Rattle.std.specs.Prelude.{◌≡◌, ◌<◌, ◌≤◌, ◌^◌, IfOk, None, length};
ghost use Rattle.std.specs.List.{All};
ghost use Rattle.lw_words.specs.Word.{IsWord};
ghost use Rattle.lw_pool.specs.Opening.{AllMayJoin, member_of};

use crate::paced::Paced;
use lw_cache::Cache;
use lw_mealy::Mealy;
use lw_names::OutNames;
use lw_pool::Pool;
use lw_sul::{Session, Sul, TableSul};
use lw_words::{Names, NoMemory, Word};
use rand_core::utils::NextWord;
use rand_pcg::Lcg128Xsl64;
use std::alloc::Global;

/// What the systems are made of: a machine of four letters and two outputs, the outputs' names, and how many turns of a loop a
/// step takes.
#[derive(Drop)]
pub struct Kind {
    pub machine: Mealy,
    pub names: Names,
    pub turns: u64,
    ghost inputs: { machine.inputs ≡ 4 },
    ghost outputs: { machine.outputs ≡ 2 },
    ghost two: { length names ≡ 2 },
}

impl Kind {
    /// A machine of this many states, each of whose letters leads on, over a ring with chords.
    pub fn new(alloc: Global, states: u16, turns: u64) -> Result<Kind, NoMemory> {
        let machine = Mealy::new(alloc, 4, 2, rows(alloc, states)?).map_err(|_| NoMemory)?;
        let names = names(alloc)?;
        if machine.inputs() != 4 || machine.outputs() != 2 || names.len() != 2 {
            return Err(NoMemory);
        }
        Ok(Kind {
            machine,
            names,
            turns,
        })
    }

    /// A system of this kind.
    fn system(&self) -> Result<Paced, NoMemory>
        ensures { IfOk result (λ s. (s.table.machine.inputs ≡ 4) × (s.table.machine.outputs ≡ 2) ×
            (s.table.names ≡ self.now.names)) }
    {
        let table = TableSul::new(self.machine.copy()?, self.names.copy()?);
        Ok(Paced::new(table, self.turns))
    }
}

/// The cell of a state at a letter.
fn cell(states: u16, q: u16, x: u16) -> (u16, u16)
    requires { x < 4 }
{
    let target = (u32::from(q) * (3 + 2 * u32::from(x)) + u32::from(x) + 1)
        % u32::from(states.max(1));
    (target as u16, (q / (x + 1)) % 2)
}

fn row(alloc: Global, states: u16, q: u16) -> Result<Vec<(u16, u16)>, NoMemory> {
    let mut row = Vec::new(alloc);
    for x in 0..4u16 {
        row.push(cell(states, q, x))?;
    }
    Ok(row)
}

fn rows(alloc: Global, states: u16) -> Result<Vec<Vec<(u16, u16)>>, NoMemory> {
    let mut rows = Vec::new(alloc);
    for q in 0..states {
        rows.push(row(alloc, states, q)?)?;
    }
    Ok(rows)
}

fn names(alloc: Global) -> Result<Names, NoMemory> {
    let mut texts = Vec::new(alloc);
    for text in ["0", "1"] {
        texts.push(String::from_str(alloc, text)?)?;
    }
    Names::from_list(alloc, &texts).map_err(|_| NoMemory)
}

/// Sessions of so many systems.
fn hired(
    alloc: Global,
    kind: &Kind,
    shared: &OutNames,
    count: u32,
) -> Result<Vec<Session<Paced>>, NoMemory>
    requires { shared.now ≡ record { names = kind.now.names; brought = None } }
    ensures count { IfOk result (λ ss. length ss.items ≡ count) }
    ensures join { IfOk result (λ ss. AllMayJoin (member_of ⟦<Paced as Sul>⟧.state) shared.now 4 2
        ss.items) }
{
    let mut sessions = Vec::new(alloc);
    for instance in 0..count {
        sessions.push(Session::new(alloc, instance, kind.system()?))?;
    }
    Ok(sessions)
}

/// A pool of so many systems.
pub fn pool_of<R: Drop>(
    rt: R,
    alloc: Global,
    kind: &Kind,
    count: u32,
) -> Result<Pool<Paced, R>, NoMemory>
    requires { (1 ≤ count) × (count ≤ 16) }
    ensures { IfOk result (λ p. p.inputs ≡ 4) }
{
    let shared = OutNames::declared(alloc, &kind.names)?;
    let sessions = hired(alloc, kind, &shared, count)?;
    match Pool::new(rt, alloc, 4, 2, sessions, shared, Cache::new(alloc)) {
        Ok(pool) => Ok(pool),
        Err(_) => Err(NoMemory),
    }
}

/// A word of so many letters.
fn drawn(alloc: Global, numbers: &mut Lcg128Xsl64, letters: u32) -> Result<Word, NoMemory>
    ensures { IfOk result (IsWord 4) }
{
    let mut word = Word::new(alloc);
    for _ in 0..letters {
        word.push((numbers.next_word() % 4) as u16)?;
    }
    Ok(word)
}

/// So many of them.
pub fn batch_of(
    alloc: Global,
    numbers: &mut Lcg128Xsl64,
    words: u32,
    letters: u32,
) -> Result<Vec<Word>, NoMemory>
    ensures letters { IfOk result (λ ws. All (IsWord 4) ws.items) }
    ensures count { IfOk result (λ ws. length ws.items ≡ words) }
{
    let mut batch = Vec::new(alloc);
    for _ in 0..words {
        batch.push(drawn(alloc, numbers, letters)?)?;
    }
    Ok(batch)
}
