//! A child in memory that says what its script has.
ghost use Rattle.std.specs.Prelude.{◌≡◌, ◌<◌, [], ◌∷◌, length, drop, true, false, IfSome, IfNone};

/// What is to be said, and how many bytes of it were.
#[derive(Drop)]
pub(crate) struct Script {
    pub(crate) bytes: Vec<u8>,
    pub(crate) given: usize,
}

impl Script {
    /// Whether there is a byte to be said.
    pub(crate) fn is_ready(&self) -> bool
        ensures ready { result ≡ true → 0 < length (drop self.now.given self.now.bytes.items) }
        ensures silent { result ≡ false → drop self.now.given self.now.bytes.items ≡ [] }
    {
        self.given < self.bytes.len()
    }

    /// Says the next byte.
    pub(crate) fn next(&mut self) -> Option<u8>
        ensures some { IfSome result (λ b. drop self.old.given self.old.bytes.items ≡
            b ∷ drop self.new.given self.new.bytes.items) }
        ensures none { IfNone result (drop self.old.given self.old.bytes.items ≡ []) }
        ensures kept { IfNone result (self.new ≡ self.old) }
        ensures same { self.new.bytes ≡ self.old.bytes }
    {
        let byte = *self.bytes.get(self.given)?;
        self.given += 1;
        Some(byte)
    }
}
