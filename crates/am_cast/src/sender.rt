//! A publisher for who posts alone: it has the handle, the writer and the pass that the calls below it are handed.
//! Several posters have a pass each, and share the writer under a lock.
ghost use Rattle.std.specs.Prelude.{◌≡◌, ◌≢◌, ◌↔◌, ◌<◌, ◌∷◌, [], false, ℕ, length, slice_index_or, IsOk, IfOk, IfErr, OnOk, OnErr};
ghost use Rattle.am_cast.specs.Changes.{shut_tail};
ghost use Rattle.am_cast.specs.Seats.{account_of};
ghost use Rattle.am_cast.specs.Writers.{AreLoaded, IsCutAs, IsReclaimedAs, SameAdmission, StaysAs};
ghost use Rattle.am_cast.specs.Posters.{IsPosted, KnowsOwn};
ghost use Rattle.am_cast.specs.Admissions.{IsAdmitted, IsGivenOut};
ghost use Rattle.am_cast.specs.Refusals.{IsAdmitRefusal, IsCutRefusal, IsRefusal};

use crate::cursor::{Cast, Cursor};
use crate::faults::{AdmitFault, CloseFault, Refused, RefusedItem};
use crate::feed::Feed;
use crate::handle::AsCast;
use crate::limits::LANES;
use crate::pass::Pass;
use crate::writer::{Published, Writer};
use am_segment::SegmentBuilder;
use std::alloc::Global;
use std::marker::Model;
use std::snapshot::Snapshot;

/// The one poster of a log, as tokio's `broadcast::Sender`, but without `Clone`, and so without a lock. To end its log,
/// take it apart by `into_parts`. Contracts see it as what its writer and its pass know.
pub struct Sender<C: AsCast<T, N, P, A>, T, N: Feed, P = (), A = ()> {
    cast: C,
    writer: Writer<T, N, P, A>,
    pass: Pass<T, N, P, A>,
}

/// A sender that borrows its log.
pub type LentSender<'a, T, N, P = (), A = ()> = Sender<&'a Cast<T, N, P, A>, T, N, P, A>;

impl<C: AsCast<T, N, P, A>, T, N: Feed, P, A> Model for Sender<C, T, N, P, A> {
    ghost use Rattle.am_cast.specs.Posters.{SenderView};

    ghost Value = { SenderView T P A };

    ghost view = { λ s. record { writer = s.writer; pass = s.pass } };
}

impl<C: AsCast<T, N, P, A>, T, N: Feed, P, A> Sender<C, T, N, P, A> {
    pub fn new(cast: C, writer: Writer<T, N, P, A>, pass: Pass<T, N, P, A>) -> Sender<C, T, N, P, A>
        ensures { (result.writer ≡ writer) × (result.pass ≡ pass) }
    {
        Sender { cast, writer, pass }
    }

    /// What it reaches the log by, to have it once more for `subscribe`.
    pub fn handle(&self) -> &C {
        &self.cast
    }

    /// What it knows of its log and the lanes.
    pub fn writer(&self) -> &Writer<T, N, P, A>
        ensures { result.now ≡ self.now.writer }
    {
        &self.writer
    }

    /// The handle, the writer and the pass.
    pub fn into_parts(self) -> (C, Writer<T, N, P, A>, Pass<T, N, P, A>)
        ensures { (result.1 ≡ self.writer) × (result.2 ≡ self.pass) }
    {
        let Sender { cast, writer, pass } = self;
        (cast, writer, pass)
    }
}

impl<C: AsCast<T, N, P, A>, T: Drop, N: Feed, P, A> Sender<C, T, N, P, A> {
    /// As `Writer::publish`.
    pub fn publish(
        &mut self,
        batch: SegmentBuilder<T>,
        post: Snapshot<P>,
    ) -> Result<u64, Refused<T>>
        requires { 0 < length batch.items }
        ensures ok { IfOk result (IsPosted batch.items post.value self.old.writer self.new.writer
            self.old.pass self.new.pass) }
        ensures known { OnOk result (KnowsOwn self.old.pass self.new.pass) }
        ensures lanes { (l : ℕ) → l < LANES
            → StaysAs (account_of self.old.writer l) (account_of self.new.writer l) }
        ensures loads { AreLoaded self.old.writer self.new.writer }

        ensures err { OnErr result ((self.new.writer.tail ≡ self.old.writer.tail)
            × (self.new.pass ≡ self.old.pass)) }
        ensures refused { IfErr result (λ e. (e.batch ≡ batch)
            × IsRefusal self.old.writer self.new.writer e.fault) }
    {
        let cast = self.cast.as_cast();
        let done = self.writer.publish(cast, batch, post, &mut self.pass);
        cast.wake();
        done
    }

    /// As `Writer::publish_cutting`.
    pub fn publish_cutting(
        &mut self,
        batch: SegmentBuilder<T>,
        post: Snapshot<P>,
    ) -> Result<Published, Refused<T>>
        requires { 0 < length batch.items }
        ensures ok { IfOk result (λ r. IsPosted batch.items post.value self.old.writer
            self.new.writer self.old.pass self.new.pass r.place) }
        ensures cut { IfOk result (λ r. (l : ℕ) → l < LANES → IsCutAs (length self.old.writer.tail.log)
            self.old.writer.tail.places (account_of self.old.writer l) (account_of self.new.writer l)
            (slice_index_or r.cut l false)) }
        ensures known { OnOk result (KnowsOwn self.old.pass self.new.pass) }
        ensures lanes { (l : ℕ) → l < LANES
            → SameAdmission (account_of self.old.writer l) (account_of self.new.writer l) }
        ensures loads { AreLoaded self.old.writer self.new.writer }

        ensures err { OnErr result ((self.new.writer.tail ≡ self.old.writer.tail)
            × (self.new.pass ≡ self.old.pass) × ((l : ℕ) → l < LANES
            → StaysAs (account_of self.old.writer l) (account_of self.new.writer l))) }
        ensures refused { IfErr result (λ e. (e.batch ≡ batch)
            × IsCutRefusal self.old.writer e.fault) }
    {
        let cast = self.cast.as_cast();
        let done = self
            .writer
            .publish_cutting(cast, batch, post, &mut self.pass);
        cast.wake();
        done
    }

    /// As `Writer::publish_one`.
    pub fn publish_one(
        &mut self,
        alloc: Global,
        item: T,
        post: Snapshot<P>,
    ) -> Result<u64, RefusedItem<T>>
        ensures ok { IfOk result (IsPosted (item ∷ []) post.value self.old.writer self.new.writer
            self.old.pass self.new.pass) }
        ensures known { OnOk result (KnowsOwn self.old.pass self.new.pass) }
        ensures lanes { (l : ℕ) → l < LANES
            → StaysAs (account_of self.old.writer l) (account_of self.new.writer l) }
        ensures loads { AreLoaded self.old.writer self.new.writer }

        ensures err { OnErr result ((self.new.writer.tail ≡ self.old.writer.tail)
            × (self.new.pass ≡ self.old.pass)) }
        ensures refused { IfErr result (λ e. (e.item ≡ item)
            × IsRefusal self.old.writer self.new.writer e.fault) }
    {
        let cast = self.cast.as_cast();
        let done = self
            .writer
            .publish_one(alloc, cast, item, post, &mut self.pass);
        cast.wake();
        done
    }

    /// The lowest idle lane, as `Writer::admit`. Its cursor owns this handle.
    pub fn subscribe<D: AsCast<T, N, P, A> + Drop>(
        &mut self,
        handle: D,
        note: Snapshot<A>,
    ) -> Result<Cursor<D, T, N, P, A>, AdmitFault>
        ensures same { (self.new.writer.tail ≡ self.old.writer.tail) × (self.new.pass ≡ self.old.pass) }
        ensures ok { IfOk result (IsAdmitted note.value self.old.writer) }
        ensures lane { IfOk result (IsGivenOut note.value self.old.writer self.new.writer) }
        ensures others { IfOk result (λ c. (m : ℕ) → m ≢ c.lane.number
            → account_of self.new.writer m ≡ account_of self.old.writer m) }

        ensures open { OnOk result (self.old.writer.tail.closed ≡ false) }
        ensures err { OnErr result (self.new ≡ self.old) }
        ensures refused { IfErr result (λ e. IsAdmitRefusal self.old.writer e) }
    {
        self.writer.admit(handle, note)
    }

    /// As `Writer::reclaim`.
    pub fn reclaim(&mut self) -> [bool; LANES]
        ensures same { (self.new.writer.tail ≡ self.old.writer.tail) × (self.new.pass ≡ self.old.pass) }
        ensures lanes { (l : ℕ) → l < LANES → IsReclaimedAs (account_of self.old.writer l)
            (account_of self.new.writer l) (slice_index_or result l false) }
    {
        self.writer.reclaim(self.cast.as_cast())
    }

    /// As `Writer::close`.
    pub fn close(&mut self) -> Result<(), CloseFault>
        ensures ok { OnOk result (self.new ≡ record self.old {
          writer = record self.old.writer { tail = shut_tail self.old.writer.tail };
        }) }

        ensures open { IsOk result ↔ (self.old.writer.tail.closed ≡ false) }
        ensures err { OnErr result (self.new ≡ self.old) }
    {
        let cast = self.cast.as_cast();
        let done = self.writer.close(cast);
        cast.wake();
        done
    }
}
