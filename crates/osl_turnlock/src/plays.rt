//! The kinds of step, each with what it tells its seat.
ghost use Rattle.std.specs.Prelude.{ℕ};
ghost use Rattle.osl_turnlock.specs.Views.{giver, taker, both, spent};
ghost use Rattle.osl_turnlock.specs.Steps.{drawn, awaited, gave, ended, counted, learned};

use crate::board::Known;
use crate::held::Held;
use atomic_table::{Join, Play, Split};
use std::marker::{Brand, PhantomData};

/// Draws a number: 1 is added to `TICKET`.
pub(crate) struct Draw;

impl<T: Held> Play<Option<T>, Known<T::Entry, T::Base>> for Draw {
    ghost then = { drawn };
}

/// Looks which number is served. Where it is the seat's own, the same step takes the slot.
pub(crate) struct Await;

impl<T: Held> Play<Option<T>, Known<T::Entry, T::Base>> for Await {
    ghost then = { awaited T.log T.mark T.base };
}

/// Adds the number of new entries, which may be 0, to `COUNT`. The same step gives the slot back.
pub(crate) struct Give;

impl<T: Held> Play<Option<T>, Known<T::Entry, T::Base>> for Give {
    ghost then = { gave T.log T.mark T.base };
}

/// Has the next number served: 1 is added to `SERVING`.
pub(crate) struct End;

impl<T: Held> Play<Option<T>, Known<T::Entry, T::Base>> for End {
    ghost then = { ended };
}

/// Looks how long the log is.
pub(crate) struct Count;

impl<T: Held> Play<Option<T>, Known<T::Entry, T::Base>> for Count {
    ghost then = { counted };
}

/// Looks, after a join, what the rule says of the seat's own view. It changes nothing.
pub(crate) struct Learn;

impl<T: Held> Play<Option<T>, Known<T::Entry, T::Base>> for Learn {
    ghost then = { learned };
}

/// How many spare seats a new seat gets. Each call of `cut` picks it.
pub(crate) trait Giving {
    ghost give: { ℕ };
}

impl Giving for Brand {
    ghost give = { 0 };
}

/// Cuts a new seat off.
pub(crate) struct Cut<G> {
    giving: PhantomData<G>,
}

impl<E, B, G: Giving> Split<Known<E, B>> for Cut<G> {
    ghost left = { giver G.give };

    ghost right = { taker G.give };
}

/// Makes one seat of two.
pub(crate) struct Glue;

impl<E, B> Join<Known<E, B>> for Glue {
    ghost both = { both };

    ghost spent = { spent };
}
