//! How a suite is made.

/// How the words are chosen that are to tell a machine from all others of not many more states. Behind each access word and each
/// middle word stand nothing and some of the separating words.
#[derive(Clone, Copy, Debug, PartialEq, Eq)]
pub enum Method {
    /// The W-method: all of them (Vasilevskii 1973, Chow 1978).
    W,
    /// The Wp-method: all of them, but behind the longest middle words only those that identify the state which is reached
    /// (Fujiwara, von Bochmann, Khendek, Amalou and Ghedamsi 1991).
    Wp,
    /// The H-method: behind the access words all of them, and behind each middle word just those that tell its state from all others,
    /// and from those further on, by words that are asked there too (Dorofeeva, El-Fakih and Koufareva 2005).
    H,
}
