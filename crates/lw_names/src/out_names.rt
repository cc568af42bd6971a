//! The shared names of outputs.
ghost use Rattle.std.specs.Prelude.{◌≡◌, ℕ, ◌+◌, ◌<◌, ◌≤◌, ◌↔◌, List, [], ◌∷◌, ◌++◌, length, map, drop, slice_index, slice_index_or, replicate, IfOk, IsTrue, Some, None, true, false, is_some, vec_len, vec_capacity};
ghost use Rattle.std.specs.List.{All};
ghost use Rattle.std.specs.List.Sorted.{IsPermutation};
ghost use Rattle.lw_words.specs.Word.{IsName, IsNames, AllDiffer, number_of, name_at};
ghost use Rattle.lw_names.specs.Names.{with_name};
ghost use Rattle.lw_names.specs.Naming.{Naming, own_names, bring, shared, AreSorted, Renumbers, HasLists};

use crate::sorting::{rank_names, renumber_tables, sort_names};
use crate::{Named, OutName};
use lw_words::{Names, NoMemory, Word};
use std::alloc::Global;
use std::marker::Model;

/// The greatest number of names.
const MOST_NAMES: usize = 4096;

/// How many instances may bring names.
const MOST_INSTANCES: usize = 16;

/// How many names an instance brings at most.
const MOST_OWN: usize = 256;

/// The names of outputs, by the numbers that recorded answers have. They are declared; or they are free, and then each
/// instance brings names, and its own numbers of them are kept too.
/// Contracts see the names, and what each instance brought (`Naming`).
#[derive(Drop)]
pub struct OutNames {
    names: Vec<OutName>,
    tables: Vec<Vec<u16>>,
    free: bool,
}

impl Model for OutNames {
    ghost use Rattle.std.specs.Prelude.{map, vec_capacity};
    ghost use Rattle.lw_names.specs.Naming.{Naming};
    ghost use Rattle.lw_names.specs.bodies.OutNames.{brought_of, IsOutNames};

    ghost Value = { Naming };

    ghost view = { λ n. record { names = n.names.items; brought = brought_of n.free n.names.items (map (λ t. t.items) n.tables.items) } };

    ghost invariant = { λ n. IsOutNames n.free n.names.items (map (λ t. t.items) n.tables.items) (vec_capacity n.names) (map (λ t. vec_capacity t) n.tables.items) };
}

/// Copies the names of a list.
fn copy_names(alloc: Global, names: &Names) -> Result<Vec<OutName>, NoMemory>
    requires { IsNames names.now }
    ensures { IfOk result (λ copy. copy.items ≡ names.now) }
{
    let mut copy = Vec::with_capacity(alloc, usize::from(names.len()))?;
    for n in 0..names.len() {
        let Some(name) = OutName::new(names.name(n)) else {
            unreachable!();
        };
        copy.push(name)?;
    }
    Ok(copy)
}

/// An empty table for each instance, with room for all that it may bring.
fn empty_tables(alloc: Global) -> Result<Vec<Vec<u16>>, NoMemory>
    ensures empty { IfOk result (λ tables. map (λ t. t.items) tables.items ≡ replicate 16 []) }
    ensures rooms { IfOk result (λ tables.
        All (λ n. 256 ≤ n) (map (λ t. vec_capacity t) tables.items)) }
{
    let mut tables = Vec::with_capacity(alloc, MOST_INSTANCES)?;
    for _ in 0..MOST_INSTANCES {
        tables.push(Vec::with_capacity(alloc, MOST_OWN)?)?;
    }
    Ok(tables)
}

/// The number of a name, where the list has it.
fn find(names: &[OutName], name: &[u8]) -> Option<usize>
    ensures { result ≡ number_of name.now names.now }
{
    names.iter().position(|n| name == n.as_slice())
}

/// The number of a name, which is put last where the list lacks it.
fn number_of_name(names: &mut Vec<OutName>, name: &OutName) -> u16
    requires few { length names.old.items < 4096 }
    requires room { 4096 ≤ vec_capacity names.old }
    ensures names { names.new.items ≡ with_name names.old.items name.now }
    ensures capacity { vec_capacity names.new ≡ vec_capacity names.old }
    ensures within { result < length names.new.items }
    ensures number { name_at names.new.items result ≡ name.now }
    ensures name { IsName name.now }
{
    if let Some(number) = find(names.as_slice(), name.as_slice()) {
        return number as u16;
    }
    let number = names.len();
    names.push_reserved(name.copy());
    number as u16
}

impl OutNames {
    /// Names that are declared, in their order.
    pub fn declared(alloc: Global, names: &Names) -> Result<OutNames, NoMemory>
        ensures { IfOk result (λ n. n ≡ record { names = names.now; brought = None }) }
    {
        let count = names.len();
        let copy = copy_names(alloc, names)?;
        Ok(OutNames {
            names: copy,
            tables: Vec::new(alloc),
            free: false,
        })
    }

    /// Free names, of which none was brought yet. Takes the memory for all that may be brought.
    pub fn free(alloc: Global) -> Result<OutNames, NoMemory>
        ensures { IfOk result (λ n. n ≡ record { names = []; brought = Some (replicate 16 []) }) }
    {
        Ok(OutNames {
            names: Vec::with_capacity(alloc, MOST_NAMES)?,
            tables: empty_tables(alloc)?,
            free: true,
        })
    }

    /// How many names there are. Takes no memory.
    pub fn len(&self) -> u16
        ensures value { result ≡ length self.now.names }
        ensures few { length self.now.names ≤ 4096 }
        ensures each { All IsName self.now.names }
        ensures differ { AllDiffer self.now.names }
    {
        self.names.len() as u16
    }

    /// The name with this number. Takes no memory.
    pub fn name(&self, n: u16) -> OutName
        requires { n < length self.now.names }
        ensures value { result ≡ name_at self.now.names n }
        ensures few { length self.now.names ≤ 4096 }
        ensures each { All IsName self.now.names }
        ensures differ { AllDiffer self.now.names }
    {
        self.names[usize::from(n)].copy()
    }

    /// Whether instances bring the names.
    pub fn is_free(&self) -> bool
        ensures free { result ≡ is_some self.now.brought }
        ensures lists { HasLists self.now.brought 16 }
    {
        self.free
    }

    /// Puts one more name of an instance last. Takes no memory.
    fn bring_one(&mut self, actor: u32, name: &OutName)
        requires free { is_some self.old.brought ≡ true }
        requires actor { actor < 16 }
        requires few { length (own_names self.old actor) < 256 }
        ensures brings { self.new ≡ bring self.old actor (name.now ∷ []) }
        ensures own { own_names self.new actor ≡ own_names self.old actor ++ name.now ∷ [] }
    {
        let number = number_of_name(&mut self.names, name);
        let table = &mut self.tables[actor as usize];
        table.push_reserved(number);
    }

    /// An instance brings names. Takes no memory.
    pub fn bring(&mut self, actor: u32, names: &Named)
        requires actor { actor < 16 }
        requires declared { is_some self.old.brought ≡ false → names.now ≡ [] }
        requires few { is_some self.old.brought ≡ true →
            length (own_names self.old actor) + length names.now ≤ 256 }
        ensures brings { self.new ≡ bring self.old actor names.now }
        ensures own { own_names self.new actor ≡ own_names self.old actor ++ names.now }
    {
        for i in 0..names.len() {
            self.bring_one(actor, names.get(i));
        }
    }

    /// An instance's outputs, by the shared numbers of their names. Takes no memory.
    pub fn renumber(&self, actor: u32, mut outs: Word) -> Word
        requires actor { actor < 16 }
        requires numbers { All (λ y. y < length (own_names self.now actor)) outs }
        ensures { result ≡ shared self.now actor outs }
    {
        if !self.free {
            return outs;
        }
        outs.renumber(self.tables[actor as usize].as_slice());
        outs
    }

    /// Sorts free names by their bytes, and writes into `to[y]` the new number of the name that had the number `y`. Instances
    /// go on from the names that they brought. Takes no memory. Compares each name with each.
    pub fn sort(&mut self, to: &mut [u16])
        requires free { is_some self.old.brought ≡ true }
        requires room { length self.old.names ≤ length to.old }
        ensures sorted { AreSorted self.new.names }
        ensures permuted { IsPermutation self.old.names self.new.names }
        ensures numbers { Renumbers to.new self.old.names self.new.names }
        ensures brought { self.new.brought ≡ self.old.brought }
        ensures count { length to.new ≡ length to.old }
        ensures rest { drop (length self.old.names) to.new
            ≡ drop (length self.old.names) to.old }
    {
        rank_names(self.names.as_slice(), to);
        sort_names(&mut self.names);
        renumber_tables(self.tables.as_mut_slice(), to);
    }
}
