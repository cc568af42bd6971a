//! What a call of the program is handed.

/// What a call of the program is handed, and all that it can touch: files, what starts children, the input, the output, the
/// stream of errors and a log.
#[derive(Drop)]
pub struct World<F, P, I, O, E, G> {
    pub files: F,
    pub spawner: P,
    pub input: I,
    pub out: O,
    pub err: E,
    pub log: G,
}
