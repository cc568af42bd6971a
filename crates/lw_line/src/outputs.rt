//! The names of a system's outputs.
ghost use Rattle.std.specs.Prelude.{◌≡◌, ◌+◌, ◌<◌, ◌≤◌, [], ◌∷◌, ◌++◌, length, IfOk, IfSome, IfNone, Some, None, vec_capacity};
ghost use Rattle.lw_words.specs.Word.{AllDiffer, number_of, name_at};
ghost use Rattle.lw_names.specs.Names.{AreNamed, Brings};
ghost use Rattle.lw_line.specs.LineState.{IsNaming};
ghost use Rattle.lw_line.specs.bodies.Naming.{IsOutputList, naming_of};

use lw_names::{OutName, name_of};
use lw_words::{Names, NoMemory};
use std::alloc::Global;
use std::marker::Model;

/// The greatest number of names where none is declared.
const MOST_FREE: u16 = 256;

/// How many numbers outputs have where no name is declared.
const FREE_RANGE: u16 = 4096;

#[derive(Drop)]
enum OutputList {
    /// These alone.
    Declared(Names),
    /// Those that came, in their order.
    Free(Vec<OutName>),
}

/// The names of a system's outputs: declared, or free, and then each gets its number as it comes.
/// Contracts see the names so far, how many they may become, and how many numbers there are.
#[derive(Drop)]
pub(crate) struct OutputNames {
    list: OutputList,
}

impl Model for OutputNames {
    ghost use Rattle.lw_line.specs.bodies.Naming.{OutputNaming, naming_of, IsOutputList};

    ghost Value = { OutputNaming };

    ghost view = { λ o. naming_of o.list };

    ghost invariant = { λ o. IsOutputList o.list };
}

/// The number of a declared name, where the list has it.
fn declared_number(names: &Names, name: &OutName) -> Option<u16>
    ensures { result ≡ number_of name.now names.now }
{
    match str::from_utf8(name.as_slice()) {
        Ok(text) => names.number(text),
        Err(_) => unreachable!(),
    }
}

/// The place of a name, where the list has it.
fn find(names: &[OutName], name: &[u8]) -> Option<usize>
    ensures { result ≡ number_of name.now names.now }
{
    names.iter().position(|n| name == n.as_slice())
}

/// The number of a name, which is put last where the list lacks it and may become longer.
fn free_number(names: &mut Vec<OutName>, name: &OutName) -> Option<u16>
    requires lawful { AreNamed 256 names.old.items }
    requires room { 256 ≤ vec_capacity names.old }
    ensures none { IfNone result ((number_of name.now names.old.items ≡ None) ×
        (length names.old.items ≡ 256) × (names.new ≡ names.old)) }
    ensures some { IfSome result (λ y. (number_of name.now names.new.items ≡ Some y) ×
        Brings names.old.items names.new.items y × (y < 256)) }
    ensures lawful { AreNamed 256 names.new.items }
    ensures room { vec_capacity names.new ≡ vec_capacity names.old }
{
    if let Some(number) = find(names.as_slice(), name.as_slice()) {
        return Some(number as u16);
    }
    let count = names.len() as u16;
    if count == MOST_FREE {
        return None;
    }
    names.push_reserved(name.copy());
    Some(count)
}

/// The number of a name, where it has one or gets one.
fn number_in(list: &mut OutputList, name: &OutName) -> Option<u16>
    requires { IsOutputList list.old }
    ensures none { IfNone result ((number_of name.now (naming_of list.old).names ≡ None) ×
        (length (naming_of list.old).names ≡ (naming_of list.old).most) × (list.new ≡ list.old)) }
    ensures some { IfSome result (λ y. (number_of name.now (naming_of list.new).names ≡ Some y) ×
        Brings (naming_of list.old).names (naming_of list.new).names y ×
        (y < (naming_of list.old).range)) }
    ensures lawful { IsOutputList list.new }
    ensures same { ((naming_of list.new).most ≡ (naming_of list.old).most) ×
        ((naming_of list.new).range ≡ (naming_of list.old).range) }
{
    match list {
        OutputList::Declared(names) => declared_number(names, name),
        OutputList::Free(names) => free_number(names, name),
    }
}

impl OutputNames {
    /// For the proof alone: how many names there may be, and how many numbers.
    pub fn tells_naming(&self)
        ensures { IsNaming self.now.names self.now.most self.now.range }
    {
        let _ = &self.list;
    }

    /// These names alone. Takes no memory.
    pub fn declared(names: Names) -> OutputNames
        ensures { result ≡ record { names = names; most = length names; range = length names } }
    {
        let _count = names.len();
        OutputNames {
            list: OutputList::Declared(names),
        }
    }

    /// No name yet. Takes the room for all that may come.
    pub fn free(alloc: Global) -> Result<OutputNames, NoMemory>
        ensures { IfOk result (λ o. o ≡ record { names = []; most = 256; range = 4096 }) }
    {
        Ok(OutputNames {
            list: OutputList::Free(Vec::with_capacity(alloc, usize::from(MOST_FREE))?),
        })
    }

    /// How many names there are.
    pub fn len(&self) -> u16
        ensures count { result ≡ length self.now.names }
        ensures lawful { AreNamed self.now.most self.now.names }
    {
        match &self.list {
            OutputList::Declared(names) => names.len(),
            OutputList::Free(names) => names.len() as u16,
        }
    }

    /// How many names there may be.
    pub fn most(&self) -> u16
        ensures { result ≡ self.now.most }
    {
        match &self.list {
            OutputList::Declared(names) => names.len(),
            OutputList::Free(_) => MOST_FREE,
        }
    }

    /// How many numbers there are.
    pub fn range(&self) -> u16
        ensures { result ≡ self.now.range }
    {
        match &self.list {
            OutputList::Declared(names) => names.len(),
            OutputList::Free(_) => FREE_RANGE,
        }
    }

    /// The name with this number. Takes no memory.
    pub fn name(&self, y: u16) -> OutName
        requires { y < length self.now.names }
        ensures { result ≡ name_at self.now.names y }
    {
        match &self.list {
            OutputList::Declared(names) => name_of(names, y),
            OutputList::Free(names) => names[usize::from(y)].copy(),
        }
    }

    /// The number of a name, where it has one or gets one. Takes no memory.
    pub fn number(&mut self, name: &OutName) -> Option<u16>
        ensures none { IfNone result ((number_of name.now self.old.names ≡ None) ×
            (length self.old.names ≡ self.old.most) × (self.new ≡ self.old)) }
        ensures some { IfSome result (λ y. (number_of name.now self.new.names ≡ Some y) ×
            Brings self.old.names self.new.names y × (y < self.old.range)) }
        ensures differ { AllDiffer self.new.names }
        ensures same { (self.new.most ≡ self.old.most) × (self.new.range ≡ self.old.range) }
    {
        number_in(&mut self.list, name)
    }
}
