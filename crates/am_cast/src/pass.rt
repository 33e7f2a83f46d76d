//! A publisher's token: what it has posted, and how far it knows the log.
ghost use Rattle.std.specs.Prelude.{◌≡◌, ◌<◌, ◌≤◌, ◌++◌, ◌∷◌, [], ℕ, length};
ghost use mathlib.Core.Option.{some};
ghost use mathlib.Core.List.{IsPrefix};
ghost use lib.ListN.{get_elem?};
ghost use Rattle.am_cast.specs.declared.views.Own.{Own};
ghost use Rattle.am_cast.specs.declared.batch_view.BatchView.{BatchView};
ghost use Rattle.am_cast.specs.Changes.{AreInLog};
ghost use Rattle.am_cast.specs.Rule.{Once};

use crate::batch_view::LogSeat;
use crate::board;
use crate::cursor::{Cast, Cursor};
use crate::feed::Feed;
use crate::handle::AsCast;
use std::marker::{Model, PhantomData};

/// Contracts see it as what it owns and has noted of the log.
#[derive(Drop)]
pub struct Pass<T, N: Feed, P = (), A = ()> {
    pub(crate) seat: LogSeat<T, P, A>,
    pub(crate) of: PhantomData<N>,
}

impl<T, N: Feed, P, A> Model for Pass<T, N, P, A> {
    ghost use Rattle.am_cast.specs.Posters.{PassView, pass_view};
    ghost use Rattle.am_cast.specs.inside.Posters.{PassOk};

    ghost Value = { PassView T P };

    ghost view = { λ p. pass_view p.seat.me.0 };

    ghost invariant = { λ p. PassOk N.table p.seat.table_id p.seat.me };
}

impl<T, N: Feed, P, A> Pass<T, N, P, A> {
    // It notes how long the log is.
    pub(crate) fn note(&mut self, cast: &Cast<T, N, P, A>)
        ensures own { self.new.own ≡ self.old.own }
        ensures noted { IsPrefix self.old.noted self.new.noted × AreInLog self.new.own self.new.noted }
    {
        board::note_log(&cast.board.shared, &mut self.seat);
    }

    /// Each own post that the cursor has seen is at its place there. From then on the pass knows at
    /// least as much of the log as the cursor.
    pub fn meet<C: AsCast<T, N, P, A>>(
        &mut self,
        cast: &Cast<T, N, P, A>,
        cursor: &mut Cursor<C, T, N, P, A>,
    )
        ensures same { (self.new.own ≡ self.old.own) × (cursor.new ≡ cursor.old) }
        ensures own { (k : ℕ) (o : Own (BatchView T P)) → get_elem? self.old.own k ≡ some o
            → o.place < length cursor.old.lane.front
            → get_elem? cursor.old.lane.front o.place ≡ some o.batch }
        ensures noted { IsPrefix self.old.noted self.new.noted
            × IsPrefix cursor.old.lane.front self.new.noted × AreInLog self.old.own self.new.noted }
    {
        let top = &cast.board.shared;
        board::tell_seat(top, &mut cursor.seat, &mut self.seat);
        board::weigh_view(top, &mut self.seat);
        board::note_log(top, &mut self.seat);
    }

    /// All that another pass has posted is this one's too.
    pub fn merge(&mut self, cast: &Cast<T, N, P, A>, other: Pass<T, N, P, A>)
        ensures { (self.new.own ≡ self.old.own ++ other.own) × (self.new.noted ≡ self.old.noted) }
    {
        board::take_in(&cast.board.shared, &mut self.seat, other.seat);
    }

    // No place is its own twice.
    pub(crate) fn weigh(&mut self, cast: &Cast<T, N, P, A>)
        ensures same { self.new ≡ self.old }
        ensures once { Once self.old.own }
    {
        board::weigh_view(&cast.board.shared, &mut self.seat);
    }
}
