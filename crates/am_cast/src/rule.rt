//! What holds of the table between two steps, whichever seat stepped last. `specs/Rule.antt` says
//! it: the words, the slots and what each seat knows agree with one log, one account of each lane
//! and one cursor's view of each lane. `board` has the steps, and what each word and slot is for.
ghost use Rattle.std.specs.Prelude.{ℕ, Option};

use crate::views::View;
use atomic_table::{Seat, Shared, Table, TableRule};
use std::alloc::Global;
use std::marker::{Brand, PhantomData};

/// What the keys of a batch are: for each lane one.
pub trait Keyed<B, K> {
    ghost key: { B → ℕ → K };
}

/// The rule of a log's table. `R` says which key of a batch is each lane's.
pub struct LogRule<R> {
    of: PhantomData<R>,
}

impl<B, K, A, R: Keyed<B, K>> TableRule<Option<K>, View<B, K, A>, u64> for LogRule<R> {
    ghost use Rattle.am_cast.specs.Rule.{Ruled, first_view};

    ghost holds = { λ places. Ruled R.key };

    ghost first = { λ places. first_view places };
}

/// The table of a log of any batches. `B` is what is known of one, `K` a key of it, `A` what a
/// subscription notes down.
pub type AnyBoard<B, K, A, R> = Table<Option<K>, View<B, K, A>, u64, LogRule<R>, Global>;

/// What the seats share of it.
pub type AnyTop<B, K, A, R> = Shared<Option<K>, View<B, K, A>, u64, LogRule<R>>;

/// One seat: what it knows, and the slots in its hand.
pub type AnySeat<B, K, A> = Seat<Option<K>, View<B, K, A>>;

/// What a subscription notes down. A caller picks it.
pub trait HasNote<A> {
    ghost note: { Option A };
}

impl<A> HasNote<A> for Brand {
    ghost use Rattle.std.specs.Prelude.{None};

    ghost note = { None };
}

/// A new batch, as contracts see it. A caller picks it.
pub trait NewBatch<B> {
    ghost batch: { Option B };
}

impl<B> NewBatch<B> for Brand {
    ghost use Rattle.std.specs.Prelude.{None};

    ghost batch = { None };
}
