//! Lists of names, and the numbers that they give.

ghost use Rattle.std.specs.Prelude.{◌≡◌, ℕ, ◌<◌, ◌≤◌, ◌↔◌, List, length, map, string_bytes, slice_get, Some, IfOk, OnOk, IfErr, IfSome, IfNone, IsTrue, take};
ghost use Rattle.std.specs.List.{All};
ghost use Rattle.lw_words.specs.First.{FailsFirst};
ghost use Rattle.lw_words.specs.Name.{HasFault};
ghost use Rattle.lw_words.specs.Word.{IsName, IsNames, AllDiffer, number_of};
ghost use Rattle.lw_words.specs.bodies.Numbers.{AreNumbers};

use crate::NoMemory;
use indexmap::IndexSet;
use std::alloc::{AllocError, AllocFailed, Global};
use std::collections::HashMap;
use std::marker::Model;

/// The greatest number of names in a list.
const MOST_NAMES: usize = 4096;

/// The greatest number of bytes of a name.
const LONGEST_NAME: usize = 64;

/// Why a list of texts is no list of names: the first of these that applies.
#[derive(Clone, Copy, Debug, PartialEq, Eq)]
pub enum NamesFault {
    /// There is no name.
    Empty,
    /// There are this many, and that is above the limit, which is 4,096 where none is said.
    TooMany(usize),
    /// The first text that isn't 1 to 64 bytes from 0x21 to 0x7E stands here.
    BadName(usize),
    /// The name at the second place, the first that stood before, stands at the first place too.
    Repeated(usize, usize),
    NoMemory,
}

impl From<AllocError> for NamesFault {
    ghost use Rattle.std.specs.Prelude.{◌≡◌};
    ghost use Rattle.lw_words.specs.declared.names.NamesFault.TheVariants.{NoMemory};

    ghost from_gives = { λ _ fault. fault ≡ NoMemory };

    fn from(_: AllocError) -> NamesFault {
        NamesFault::NoMemory
    }
}

impl<T: Drop> From<AllocFailed<T>> for NamesFault {
    ghost use Rattle.std.specs.Prelude.{◌≡◌};
    ghost use Rattle.lw_words.specs.declared.names.NamesFault.TheVariants.{NoMemory};

    ghost from_gives = { λ _ fault. fault ≡ NoMemory };

    fn from(_: AllocFailed<T>) -> NamesFault {
        NamesFault::NoMemory
    }
}

/// A list of 1 to 4,096 different names, each with its place as its number.
/// Contracts see the list of their bytes.
#[derive(Drop)]
pub struct Names {
    names: Vec<String>,
    /// The place of each name.
    numbers: HashMap<String, u16>,
    alloc: Global,
}

impl Model for Names {
    ghost use Rattle.std.specs.Prelude.{List, ℕ, map, string_bytes};
    ghost use Rattle.lw_words.specs.Word.{IsNames};
    ghost use Rattle.lw_words.specs.bodies.Numbers.{AreNumbers};

    ghost Value = { List (List ℕ) };

    ghost view = { λ n. map (λ s. string_bytes s) n.names.items };

    ghost invariant = { λ n. IsNames (map (λ s. string_bytes s) n.names.items) × AreNumbers n.numbers (map (λ s. string_bytes s) n.names.items) };
}

/// Whether a text is a name: 1 to 64 bytes, each from 0x21 to 0x7E.
fn is_name(text: &str) -> bool
    ensures { IsTrue result ↔ IsName text.now }
{
    let bytes = text.as_bytes();
    !bytes.is_empty()
        && bytes.len() <= LONGEST_NAME
        && bytes.iter().all(|b| 0x21 <= *b && *b <= 0x7e)
}

/// The first place of a text that is no name.
fn first_bad_name(list: &[String]) -> Option<usize>
    ensures none { IfNone result (All IsName (map (λ s. string_bytes s) list.now)) }
    ensures some { IfSome result (FailsFirst IsName (map (λ s. string_bytes s) list.now)) }
{
    for (place, name) in list.iter().enumerate() {
        if !is_name(name.as_str()) {
            return Some(place);
        }
    }
    None
}

/// Puts the names in their order, up to the first that stood before.
fn in_order<'a>(alloc: Global, list: &'a [String]) -> Result<IndexSet<&'a str>, NamesFault>
    requires few { length list.now ≤ 4096 }
    requires each { All IsName (map (λ s. string_bytes s) list.now) }
    ensures ok { IfOk result (λ names. map (λ t. t.now) names.keys ≡
        map (λ s. string_bytes s) list.now) }
    ensures differ { OnOk result (AllDiffer (map (λ s. string_bytes s) list.now)) }
    ensures err { IfErr result (λ fault. (limit : ℕ) → length list.now ≤ limit →
        HasFault limit (map (λ s. string_bytes s) list.now) fault) }
{
    let mut names = IndexSet::with_capacity(alloc, list.len())?;
    for (place, name) in list.iter().enumerate() {
        let (first, is_new) = names.insert_full(name.as_str())?;
        if !is_new {
            return Err(NamesFault::Repeated(first, place));
        }
    }
    Ok(names)
}

/// The numbers of names that differ: their places.
fn numbered(alloc: Global, names: &[&str]) -> Result<HashMap<String, u16>, AllocError>
    requires few { length names.now ≤ 4096 }
    requires differ { AllDiffer (map (λ t. t.now) names.now) }
    ensures { IfOk result (λ numbers. AreNumbers numbers (map (λ t. t.now) names.now)) }
{
    let mut numbers = HashMap::with_capacity(alloc, names.len())?;
    for (place, name) in names.iter().enumerate() {
        let name = String::from_str(alloc, name)?;
        numbers.insert(name, place as u16)?;
    }
    Ok(numbers)
}

/// Numbers the names in their order, up to the first that stood before.
fn numbers_of(alloc: Global, list: &[String]) -> Result<HashMap<String, u16>, NamesFault>
    requires few { length list.now ≤ 4096 }
    requires each { All IsName (map (λ s. string_bytes s) list.now) }
    ensures ok { IfOk result (λ numbers. AreNumbers numbers (map (λ s. string_bytes s) list.now)) }
    ensures differ { OnOk result (AllDiffer (map (λ s. string_bytes s) list.now)) }
    ensures err { IfErr result (λ fault. (limit : ℕ) → length list.now ≤ limit →
        HasFault limit (map (λ s. string_bytes s) list.now) fault) }
{
    let names = in_order(alloc, list)?;
    let numbers = numbered(alloc, names.as_slice())?;
    Ok(numbers)
}

impl Names {
    /// Numbers these names from 0 in their order.
    pub fn from_list(alloc: Global, list: &[String]) -> Result<Names, NamesFault>
        ensures ok { IfOk result (λ names. names ≡ map (λ s. string_bytes s) list.now) }
        ensures names { IfOk result IsNames }
        ensures err { IfErr result (HasFault 4096 (map (λ s. string_bytes s) list.now)) }
    {
        Names::from_list_within(alloc, list, MOST_NAMES)
    }

    /// Numbers these names from 0 in their order, where there are at most `limit`.
    pub fn from_list_within(
        alloc: Global,
        list: &[String],
        limit: usize,
    ) -> Result<Names, NamesFault>
        requires { limit ≤ 4096 }
        ensures ok { IfOk result (λ names. names ≡ map (λ s. string_bytes s) list.now) }
        ensures names { IfOk result IsNames }
        ensures few { OnOk result (length list.now ≤ limit) }
        ensures err { IfErr result (HasFault limit (map (λ s. string_bytes s) list.now)) }
    {
        if list.is_empty() {
            return Err(NamesFault::Empty);
        }
        if list.len() > limit {
            return Err(NamesFault::TooMany(list.len()));
        }
        if let Some(place) = first_bad_name(list) {
            return Err(NamesFault::BadName(place));
        }
        let numbers = numbers_of(alloc, list)?;
        let names = list.to_vec(alloc)?;
        Ok(Names {
            names,
            numbers,
            alloc,
        })
    }

    pub fn len(&self) -> u16
        ensures value { result ≡ length self.now }
        ensures names { IsNames self.now }
    {
        self.names.len() as u16
    }

    /// The number of a name, or None where it isn't in the list. Takes no memory.
    pub fn number(&self, name: &str) -> Option<u16>
        ensures value { result ≡ number_of name.now self.now }
        ensures inverse { IfSome result (λ n. slice_get self.now n ≡ Some name.now) }
    {
        self.numbers.get(name).copied()
    }

    pub fn name(&self, n: u16) -> &str
        requires { n < length self.now }
        ensures value { slice_get self.now n ≡ Some result.now }
        ensures inverse { number_of result.now self.now ≡ Some n }
    {
        self.names[usize::from(n)].as_str()
    }

    pub fn copy(&self) -> Result<Names, NoMemory>
        ensures { IfOk result (λ names. names ≡ self.now) }
    {
        match Names::from_list(self.alloc, &self.names) {
            Ok(names) => Ok(names),
            Err(_) => Err(NoMemory),
        }
    }

    /// Whether both are the same names in the same order.
    pub fn same(&self, other: &Names) -> bool
        ensures { IsTrue result ↔ (self.now ≡ other.now) }
    {
        self.names.as_slice() == other.names.as_slice()
    }
}
