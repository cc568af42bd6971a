//! The faults of rows that are no machine.

/// Why rows are no machine: the first of these that applies, within a kind by state, then by letter.
#[derive(Clone, Copy, Debug, PartialEq, Eq)]
pub enum MealyFault {
    /// There is no row.
    NoState,
    /// There are this many rows, and that is above 1,024.
    TooMany(usize),
    /// The row of this state hasn't one pair for each input.
    Ragged(u16),
    /// At this state and letter the target is no state.
    Target(u16, u16, u16),
    /// At this state and letter the output is not below the number of outputs.
    Output(u16, u16, u16),
    NoMemory,
}
