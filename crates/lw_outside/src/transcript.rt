//! What went over a link.
use std::marker::Model;

/// Bytes. Contracts see the list of them.
#[derive(Drop)]
pub struct Bytes {
    value: Vec<u8>,
}

impl Model for Bytes {
    ghost use Rattle.std.specs.Prelude.{List, ℕ};

    ghost Value = { List ℕ };

    ghost view = { λ bytes. bytes.value.items };
}

impl Bytes {
    ghost use Rattle.std.specs.Prelude.{◌≡◌};

    /// Takes no memory.
    pub fn new(value: Vec<u8>) -> Bytes
        ensures { result ≡ value.items }
    {
        Bytes { value }
    }

    pub fn get(&self) -> &Vec<u8>
        ensures { result.now.items ≡ self.now }
    {
        &self.value
    }
}

/// The bytes that were sent over a link, and those that were received.
#[derive(Drop)]
pub struct Transcript {
    pub sent: Bytes,
    pub received: Bytes,
}
