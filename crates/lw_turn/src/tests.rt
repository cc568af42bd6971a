//! The turnstile by hand and in threads, over a core that adds.
mod calls;
mod tally;
