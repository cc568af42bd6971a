//! What is shared: a core, whose every call is one entry of its history.
ghost use Rattle.std.specs.Prelude.{◌≡◌, ℕ, ◌+◌, ◌^◌, ◌<◌, ◌≤◌, List, [], ◌∷◌, ◌++◌, length};

/// One call of a core: who asked, what, and the reply.
#[derive(Drop)]
pub struct Entry<A, B> {
    pub actor: u32,
    pub ask: A,
    pub reply: B,
}

/// A state machine that several actors ask, one at a time. It keeps the list of all entries since its opening.
pub trait Core {
    type Opening;

    type Ask;

    type Reply;

    ghost use Rattle.std.specs.Prelude.{◌≡◌, ℕ, ◌+◌, ◌^◌, ◌<◌, ◌≤◌, List, [], ◌∷◌, ◌++◌, length};
    ghost use Rattle.lw_turn.specs.declared.shared.Entry.{Entry};
    ghost use Rattle.lw_turn.specs.History.{entries_of};

    // What no call changes.
    ghost opening: { Self → Self.Opening };

    // The calls since the opening, in order.
    ghost entries: { Self → List (Entry Self.Ask Self.Reply) };

    // Some opening, whichever: the place of a pass that was joined shows it.
    ghost some_opening: { Self.Opening };

    // How many actors there are. They are numbered from 0.
    ghost actor_count: { Self.Opening → ℕ };

    // One thread gets these entries from the opening.
    ghost legal: { Self.Opening → List (Entry Self.Ask Self.Reply) → Type 0 };

    // An actor whose own entries are these may make this ask.
    ghost may: { Self.Opening → List (Entry Self.Ask Self.Reply) → Self.Ask → Type 0 };

    // The greatest number of entries.
    ghost most: { Self.Opening → ℕ };

    fn actors(&self) -> u32
        ensures count { result ≡ actor_count (opening self.now) }
        ensures legal { legal (opening self.now) (entries self.now) };

    /// Appends exactly one entry, and takes no memory.
    fn on(&mut self, actor: u32, ask: Self::Ask) -> Self::Reply
        requires actor { actor < actor_count (opening self.old) }
        requires may { may (opening self.old) (entries_of actor (entries self.old)) ask }
        ensures entry { entries self.new ≡ entries self.old ++
            record { actor = actor; ask = ask; reply = result } ∷ [] }
        ensures opening { opening self.new ≡ opening self.old }
        ensures legal { legal (opening self.new) (entries self.new) };

    // A legal history has at most this many entries, and with the actors they are below 2^64.
    ghost bounded: { (o : Self.Opening) (es : List (Entry Self.Ask Self.Reply)) → legal o es → (length es ≤ most o) × (most o + actor_count o < 2 ^ 64) };
}
