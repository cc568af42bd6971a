//! The name of an output.
ghost use Rattle.std.specs.Prelude.{◌≡◌, ◌↔◌, ◌<◌, length, IfSome, IfNone, IsTrue};
ghost use Rattle.lw_words.specs.Word.{IsName, name_at};

use lw_words::Names;
use std::marker::Model;

/// The greatest number of bytes of a name.
const LONGEST_NAME: usize = 64;

/// The name of an output, 1 to 64 bytes from 0x21 to 0x7E, kept without memory. Contracts see the list of its bytes.
#[derive(Drop)]
pub struct OutName {
    bytes: [u8; LONGEST_NAME],
    len: u8,
}

impl Model for OutName {
    ghost use Rattle.std.specs.Prelude.{ℕ, ◌≤◌, List, take};
    ghost use Rattle.lw_words.specs.Word.{IsName};

    ghost Value = { List ℕ };

    ghost view = { λ name. take name.len name.bytes };

    ghost invariant = { λ name. (name.len ≤ 64) × IsName (take name.len name.bytes) };
}

/// Whether these bytes are a name.
fn is_name(bytes: &[u8]) -> bool
    ensures { IsTrue result ↔ IsName bytes.now }
{
    !bytes.is_empty()
        && bytes.len() <= LONGEST_NAME
        && bytes.iter().all(|b| 0x21 <= *b && *b <= 0x7e)
}

impl OutName {
    /// The text as a name, or None where it is none.
    pub fn new(name: &str) -> Option<OutName>
        ensures some { IfSome result (λ n. n ≡ name.now) }
        ensures none { IfNone result (¬ IsName name.now) }
    {
        OutName::from_bytes(name.as_bytes())
    }

    /// These bytes as a name, or None where they are none.
    pub fn from_bytes(name: &[u8]) -> Option<OutName>
        ensures some { IfSome result (λ n. n ≡ name.now) }
        ensures lawful { IfSome result IsName }
        ensures none { IfNone result (¬ IsName name.now) }
    {
        if !is_name(name) {
            return None;
        }
        let mut bytes = [0u8; LONGEST_NAME];
        bytes[..name.len()].copy_from_slice(name);
        Some(OutName {
            bytes,
            len: name.len() as u8,
        })
    }

    pub fn as_slice(&self) -> &[u8]
        ensures value { result.now ≡ self.now }
        ensures name { IsName self.now }
    {
        &self.bytes[..usize::from(self.len)]
    }

    /// The same name once more. Takes no memory.
    pub fn copy(&self) -> OutName
        ensures { result ≡ self.now }
    {
        OutName {
            bytes: self.bytes,
            len: self.len,
        }
    }

    /// Whether both are the same name.
    pub fn same(&self, other: &OutName) -> bool
        ensures { IsTrue result ↔ (self.now ≡ other.now) }
    {
        self.as_slice() == other.as_slice()
    }
}

/// The name with this number. Takes no memory.
pub fn name_of(names: &Names, y: u16) -> OutName
    requires { y < length names.now }
    ensures { result ≡ name_at names.now y }
{
    let _names = names.len();
    let Some(name) = OutName::new(names.name(y)) else {
        unreachable!();
    };
    name
}
