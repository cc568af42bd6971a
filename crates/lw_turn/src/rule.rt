//! The rule of the shared table, and what each kind of atomic step tells its caller.
use crate::shared::Core;
use crate::view::Doing;
use atomic_table::{Join, Play, Split, TableRule};
use std::marker::PhantomData;
use std::snapshot::Snapshot;

/// Word 0 is the next ticket, word 1 the ticket that is served, and the slot holds the core.
pub struct Law<C> {
    of: PhantomData<C>,
}

impl<C: Core> TableRule<Option<C>, Doing<C::Opening, C::Ask, C::Reply>, Snapshot<C>> for Law<C> {
    ghost use Rattle.lw_turn.specs.Rule.{RuleHolds};
    ghost use Rattle.lw_turn.specs.Steps.{first_place};

    ghost holds = { λ key. RuleHolds C.actor_count C.legal C.opening C.entries (C.opening key.value) };

    ghost first = { λ key. first_place (C.opening key.value) };
}

/// A ticket is drawn.
pub struct Draws;

impl<C, O, A, B> Play<Option<C>, Doing<O, A, B>> for Draws {
    ghost use Rattle.lw_turn.specs.Steps.{Draw};

    ghost then = { Draw };
}

/// A look at the ticket that is served. Where it is the caller's, its turn begins.
pub struct Looks<C> {
    of: PhantomData<C>,
}

impl<C: Core> Play<Option<C>, Doing<C::Opening, C::Ask, C::Reply>> for Looks<C> {
    ghost use Rattle.lw_turn.specs.Steps.{Look};

    ghost then = { Look C.actor_count C.opening C.entries };
}

/// A turn ends: the core goes back, and the next ticket is served.
pub struct Ends<C> {
    of: PhantomData<C>,
}

impl<C: Core> Play<Option<C>, Doing<C::Opening, C::Ask, C::Reply>> for Ends<C> {
    ghost use Rattle.lw_turn.specs.Steps.{End};

    ghost then = { End C.entries };
}

/// Pass 0 learns what the pass that was joined last had seen.
pub struct Learns;

impl<C, O, A, B> Play<Option<C>, Doing<O, A, B>> for Learns {
    ghost use Rattle.lw_turn.specs.Steps.{Learn};

    ghost then = { Learn };
}

/// A pass more is made.
pub struct Splits;

impl<O, A, B> Split<Doing<O, A, B>> for Splits {
    ghost use Rattle.lw_turn.specs.Steps.{one_more, next_place};

    ghost left = { one_more };

    ghost right = { next_place };
}

/// Pass 0 takes in a pass that has ended.
pub struct Joins<C> {
    of: PhantomData<C>,
}

impl<C: Core> Join<Doing<C::Opening, C::Ask, C::Reply>> for Joins<C> {
    ghost use Rattle.lw_turn.specs.Steps.{with_ended, spent_place};

    ghost both = { with_ended };

    ghost spent = { spent_place C.some_opening };
}
