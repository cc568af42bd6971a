//! Words over numbered letters.
ghost use Rattle.std.specs.Prelude.{◌≡◌, ◌<◌, ◌≤◌, [], ◌∷◌, ◌++◌, length, take, IfOk, OnOk, OnErr};
ghost use Rattle.std.specs.List.{All};
ghost use Rattle.lw_words.specs.Renumbering.{renumbered};

use crate::NoMemory;
use std::alloc::Global;
use std::marker::Model;

/// A word over numbered letters. Contracts see the list of its letters.
#[derive(Drop)]
pub struct Word {
    letters: Vec<u16>,
    alloc: Global,
}

/// Puts `to[y]` in place of each number `y`.
fn renumber(numbers: &mut [u16], to: &[u16])
    requires { All (λ y. y < length to.now) numbers.old }
    ensures { numbers.new ≡ renumbered to.now numbers.old }
{
    for y in numbers.iter_mut() {
        *y = to[usize::from(*y)];
    }
}

impl Model for Word {
    ghost use Rattle.std.specs.Prelude.{ℕ, List};

    ghost Value = { List ℕ };

    ghost view = { λ word. word.letters.items };
}

impl Word {
    /// The empty word. Takes no memory.
    pub fn new(alloc: Global) -> Self
        ensures { result ≡ [] }
    {
        Word {
            letters: Vec::new(alloc),
            alloc,
        }
    }

    /// The word of these letters. Takes no memory.
    pub fn from_letters(alloc: Global, letters: Vec<u16>) -> Self
        ensures { result ≡ letters.items }
    {
        Word { letters, alloc }
    }

    /// Its letters, taken out of it. Takes no memory.
    pub fn into_letters(self) -> Vec<u16>
        ensures { result.items ≡ self }
    {
        let Word { letters, alloc: _ } = self;
        letters
    }

    pub fn as_slice(&self) -> &[u16]
        ensures { result.now ≡ self.now }
    {
        self.letters.as_slice()
    }

    pub fn len(&self) -> usize
        ensures { result ≡ length self.now }
    {
        self.letters.len()
    }

    /// Appends a letter. The word is unchanged where there is no memory.
    pub fn push(&mut self, x: u16) -> Result<(), NoMemory>
        ensures ok { OnOk result (self.new ≡ self.old ++ x ∷ []) }
        ensures err { OnErr result (self.new ≡ self.old) }
    {
        self.letters.push(x)?;
        Ok(())
    }

    /// Appends the letters of a slice. The word is unchanged where there is no memory.
    pub fn extend(&mut self, letters: &[u16]) -> Result<(), NoMemory>
        ensures ok { OnOk result (self.new ≡ self.old ++ letters.now) }
        ensures err { OnErr result (self.new ≡ self.old) }
    {
        self.letters.extend_from_slice(letters)?;
        Ok(())
    }

    /// Makes it the empty word. Keeps the memory that it has, and takes none.
    pub fn clear(&mut self)
        ensures { self.new ≡ [] }
    {
        self.letters.clear();
    }

    /// Puts `to[y]` in place of each letter `y`. Takes no memory.
    pub fn renumber(&mut self, to: &[u16])
        requires { All (λ y. y < length to.now) self.old }
        ensures { self.new ≡ renumbered to.now self.old }
    {
        renumber(self.letters.as_mut_slice(), to);
    }

    pub fn copy(&self) -> Result<Word, NoMemory>
        ensures { IfOk result (λ word. word ≡ self.now) }
    {
        let letters = self.letters.clone()?;
        Ok(Word {
            letters,
            alloc: self.alloc,
        })
    }

    /// The first `n` letters.
    pub fn prefix(&self, n: usize) -> Result<Word, NoMemory>
        requires { n ≤ length self.now }
        ensures { IfOk result (λ word. word ≡ take n self.now) }
    {
        let letters = self.letters[..n].to_vec(self.alloc)?;
        Ok(Word {
            letters,
            alloc: self.alloc,
        })
    }
}

/// `a` followed by `b`.
pub fn join(a: &Word, b: &Word) -> Result<Word, NoMemory>
    ensures { IfOk result (λ word. word ≡ a.now ++ b.now) }
{
    let mut both = a.copy()?;
    both.letters.extend_from_slice(b.as_slice())?;
    Ok(both)
}
