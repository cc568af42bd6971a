//! The right of one actor to take turns.
use crate::shared::Core;
use crate::view::Doing;
use atomic_table::Seat;
use std::marker::Model;

/// A pass of a turnstile over the core C. Contracts see the turnstile that it belongs to and what it knows.
#[derive(Drop)]
pub struct PassParts<C: Core<Opening = O, Ask = A, Reply = B>, O, A, B> {
    pub(crate) seat: Seat<Option<C>, Doing<O, A, B>>,
    pub(crate) number: u32,
    pub(crate) made: u32,
}

impl<C: Core<Opening = O, Ask = A, Reply = B>, O, A, B> Model for PassParts<C, O, A, B> {
    ghost use Rattle.std.specs.Prelude.{◌≡◌, []};
    ghost use Rattle.lw_turn.specs.Held.{Held};

    ghost Value = { Held O A B };

    ghost use Rattle.lw_turn.specs.Seated.{held, IsSeated};

    ghost view = { held };

    ghost invariant = { IsSeated C.actor_count };
}

/// A pass of a turnstile over the core C.
pub type Pass<C> = PassParts<C, <C as Core>::Opening, <C as Core>::Ask, <C as Core>::Reply>;
