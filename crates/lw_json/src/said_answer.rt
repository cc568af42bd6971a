//! An answer as it is written, and all that an answers file says.

ghost use Rattle.std.specs.Prelude.{◌≤◌};

/// An answer as it is written: its origin and its two texts.
#[derive(Drop)]
pub struct SaidAnswer<'a> {
    pub instance: u32,
    pub run: u64,
    pub word: &'a str,
    pub outs: &'a str,
    pub ghost known: { instance ≤ 16 },
}

/// What an answers file says, before its names are looked at.
#[derive(Drop)]
pub struct Said<'a> {
    pub inputs: Vec<String>,
    pub outputs: Vec<String>,
    pub answers: Vec<SaidAnswer<'a>>,
}
