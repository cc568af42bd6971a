//! Transitions, by the state and the letter that they begin with.
ghost use Rattle.std.specs.Prelude.{◌≡◌, ℕ, ◌+◌, ◌*◌, ◌<◌, ◌≤◌};

/// Where a transition stands in the discrimination tree, and its output, where that is known.
#[derive(Clone, Copy, Drop)]
pub struct Place {
    pub(crate) output: Option<u16>,
    pub(crate) node: u32,
}

/// A transition that was asked nothing yet stands at the root.
pub(crate) const UNASKED: Place = Place {
    output: None,
    node: 0,
};

/// A transition: the state that it begins at, and its letter.
#[derive(Clone, Copy, Drop)]
pub struct Edge {
    pub(crate) state: u16,
    pub(crate) letter: u16,
}

impl Edge {
    /// The transition with this number.
    pub(crate) fn with_number(inputs: u16, number: usize) -> Edge
        requires inputs { 1 ≤ inputs }
        requires number { number < 65536 * inputs }
        ensures number { number ≡ result.state * inputs + result.letter }
        ensures letter { result.letter < inputs }
        ensures state { (count : ℕ) → number < count * inputs → result.state < count }
    {
        let letters = usize::from(inputs);
        Edge {
            state: (number / letters) as u16,
            letter: (number % letters) as u16,
        }
    }

    /// Its number: by state, and then by letter.
    pub(crate) fn number(self, inputs: u16) -> usize
        ensures { result ≡ self.state * inputs + self.letter }
    {
        usize::from(self.state) * usize::from(inputs) + usize::from(self.letter)
    }
}
