//! Publishing, from the call down to the steps: each live lane gets its key of the next place, the
//! other keys wait in its row, and then the place is there.
//!
//! All lanes' words loaded first, so that their lines come together, brought nothing. Nor does a fill
//! exchange the new key for an old one: that would keep keys of passed places for a turn, which
//! `Writer::freed` promises it doesn't. A shorter way through the lanes, 896 instructions of 1,024 with eight
//! readers, made a log of one reader that sleeps up to 7 % slower.
ghost use Rattle.std.specs.Prelude.{◌≡◌, ◌≢◌, ◌+◌, ◌<◌, ◌≤◌, true, false, length, None, Some, [], ℕ, IfOk, IfSome, IfNone, ◌++◌, ◌∷◌, IfErr, OnOk, OnErr};
ghost use Rattle.am_segment.specs.Segments.{MayJoin};
ghost use Rattle.am_cast.specs.declared.batch_view.BatchView.{BatchView};
ghost use Rattle.am_cast.specs.Rule.{live};
ghost use Rattle.am_cast.specs.Changes.{longer_tail, back, laying, longer, both_of, own_at};
ghost use Rattle.am_cast.specs.Seats.{account_of};
ghost use Rattle.am_cast.specs.Keys.{batch_items, key_of};
ghost use Rattle.am_cast.specs.inside.Tags.{batch_of_tag};
ghost use Rattle.am_cast.specs.Writers.{AreLoaded, Calm, HasRoom, IsBehind, SameAdmission, StaysAs};
ghost use Rattle.am_cast.specs.Posters.{IsPosted, KnowsOwn};
ghost use Rattle.am_cast.specs.inside.Filling.{FilledTo, AllLaid, AreReady, owner_of};
ghost use Rattle.am_cast.specs.inside.WriterStates.{OneAccount};
ghost use Rattle.am_cast.specs.inside.KeyRows.{bucket_of};
ghost use Rattle.am_cast.specs.inside.Waiting.{Gathered, is_live};
ghost use Rattle.am_cast.specs.Refusals.{IsRefusal, IsOpen};

use crate::batch_view::{BatchView, LogSeat, SegmentKeys};
use crate::board;
use crate::cursor::Cast;
use crate::faults::{PublishFault, Refused};
use crate::feed::Feed;
use crate::key_rows::Row;
use crate::limits::{LANES, LONGEST_LOG};
use crate::pass::Pass;
use crate::tag::{Tag, tag_batch};
use crate::writer::Writer;
use crate::writer::state::WriterState;
use am_segment::{KeyRun, SegKey, SegmentBuilder};
use std::alloc::AllocError;
use std::marker::Brand;
use std::snapshot::Snapshot;

impl<T: Drop, N: Feed, P, A> Writer<T, N, P, A> {
    /// A new place, with the batch. Its number is the length before, and the pass owns it. Whatever it
    /// answers, it loads the word of each live lane and of each cut lane whose key is away first, and ends
    /// the segments that all lanes have passed.
    pub fn publish(
        &mut self,
        cast: &Cast<T, N, P, A>,
        batch: SegmentBuilder<T>,
        post: Snapshot<P>,
        pass: &mut Pass<T, N, P, A>,
    ) -> Result<u64, Refused<T>>
        requires { 0 < length batch.items }
        ensures ok { IfOk result (IsPosted batch.items post.value self.old self.new pass.old pass.new) }
        ensures known { OnOk result (KnowsOwn pass.old pass.new) }
        ensures lanes { (l : ℕ) → l < LANES → StaysAs (account_of self.old l) (account_of self.new l) }
        ensures loads { AreLoaded self.old self.new }

        ensures err { OnErr result ((self.new.tail ≡ self.old.tail) × (pass.new ≡ pass.old)) }
        ensures refused { IfErr result (λ e. (e.batch ≡ batch)
            × IsRefusal self.old self.new e.fault) }
    {
        let full = self.harvest(cast);
        if let Some(fault) = self.fault_of(full) {
            return Err(Refused::new(fault, batch));
        }
        match self.publish_harvested(cast, batch, post, pass) {
            Ok(place) => Ok(place),
            Err(batch) => Err(Refused::new(PublishFault::NoMemory, batch)),
        }
    }

    // Why nothing can be published, after a harvest that answered so.
    pub(crate) fn fault_of(&self, full: Option<(usize, u64)>) -> Option<PublishFault>
        requires full { IfSome full (λ r. (r.0 < LANES) × (r.1 ≡ (account_of self.now r.0).known)
            × IsBehind self.now r.0 × HasRoom self.now r.0) }
        requires room { IfNone full (HasRoom self.now LANES) }
        ensures some { IfSome result (λ e. IsRefusal self.now self.now e) }
        ensures none { IfNone result (IsOpen self.now × HasRoom self.now LANES) }
    {
        if self.is_closed() {
            return Some(PublishFault::Closed);
        }
        if self.len() >= LONGEST_LOG {
            return Some(PublishFault::LogEnd);
        }
        match full {
            Some((lane, passed)) => Some(PublishFault::Full { lane, passed }),
            None => None,
        }
    }

    /// As `publish`, after a `harvest` that answered that no lane is full: the lanes aren't looked at
    /// again, and only a lack of memory refuses the batch.
    pub fn publish_harvested(
        &mut self,
        cast: &Cast<T, N, P, A>,
        batch: SegmentBuilder<T>,
        post: Snapshot<P>,
        pass: &mut Pass<T, N, P, A>,
    ) -> Result<u64, SegmentBuilder<T>>
        requires some { 0 < length batch.items }
        requires room { IsOpen self.old × HasRoom self.old LANES }
        ensures ok { IfOk result (λ place. (place ≡ length self.old.tail.log)
            × ((x : BatchView T P) × (x.post ≡ post.value) × (batch_items x ≡ batch.items)
            × (self.new.tail ≡ longer_tail x self.old.tail)
            × (pass.new.own ≡ pass.old.own ++ own_at place x ∷ []))) }
        ensures known { OnOk result (KnowsOwn pass.old pass.new) }
        ensures lanes { (l : ℕ) → l < LANES → StaysAs (account_of self.old l) (account_of self.new l) }

        ensures err { OnErr result ((self.new ≡ self.old) × (pass.new ≡ pass.old)) }
        ensures refused { IfErr result (λ back. back ≡ batch) }
    {
        if self.state.reserve().is_err() {
            return Err(batch);
        }
        let place = self.len();
        self.state.post(cast, batch, post, &mut pass.seat);
        pass.note(cast);
        Ok(place)
    }
}

impl<T: Drop, N: Feed, P, A> WriterState<T, N, P, A> {
    /// Makes the room that the next place's keys need.
    pub(crate) fn reserve(&mut self) -> Result<(), AllocError>
        ensures known { self.new.known ≡ self.old.known }
        ensures ok { OnOk result (1 ≤ (bucket_of self.new.rows (length self.old.known.tail.log)).room) }
    {
        self.rows.reserve(self.next.index())
    }

    /// One place more, which is the other seat's own.
    pub(crate) fn post(
        &mut self,
        cast: &Cast<T, N, P, A>,
        batch: SegmentBuilder<T>,
        post: Snapshot<P>,
        to: &mut LogSeat<T, P, A>,
    )
        requires writer { (self.old.known.tail.closed ≡ false)
            × (length self.old.known.tail.log < LONGEST_LOG) × Calm self.old.known
            × HasRoom self.old.known LANES }
        requires batch { 0 < length batch.items }
        requires row { 1 ≤ (bucket_of self.old.rows (length self.old.known.tail.log)).room }
        requires to { to.old.table_id ≡ N.table }
        ensures calm { Calm self.new.known }
        ensures same { (l : ℕ) → l < LANES
            → SameAdmission (account_of self.old.known l) (account_of self.new.known l)
            × ((account_of self.new.known l).stand ≡ (account_of self.old.known l).stand)
            × ((account_of self.new.known l).known ≡ (account_of self.old.known l).known)
            × ((account_of self.new.known l).half ≡ (account_of self.old.known l).half) }
        ensures place { (x : BatchView T P) × (x.post ≡ post.value) × (batch_items x ≡ batch.items)
            × (self.new.known.tail ≡ longer_tail x self.old.known.tail)
            × (to.new.table_id ≡ to.old.table_id) × (to.new.me.1 ≡ to.old.me.1)
            × (to.new.me.0 ≡ both_of to.old.me.0 (owner_of (length self.old.known.tail.log) x)) }
    {
        let (first, rest) = batch.hand_out(LANES).next();
        let Some(rest) = rest else { unreachable!() };
        let tag = tag_batch(&first, post);
        let row = self.fill(cast, &tag, first, rest);
        self.store(cast, &tag, row, to);
    }

    // Each live lane gets its key of the next place. The other keys go into the place's row, those of the
    // idle lanes at the end all at once.
    fn fill(
        &mut self,
        cast: &Cast<T, N, P, A>,
        tag: &Tag<T, P>,
        first: SegKey<T>,
        rest: KeyRun<T>,
    ) -> Row<T>
        requires writer { Calm self.old.known × HasRoom self.old.known LANES }
        requires keys { (first ≡ key_of (batch_of_tag tag.now) 0)
            × (rest ≡ key_of (batch_of_tag tag.now) 1) }
        ensures writer { FilledTo key_of self.old.known (batch_of_tag tag.now) LANES self.new.known }
        ensures rows { self.new.rows ≡ self.old.rows }
        ensures row { (result.place ≡ length self.old.known.tail.log) × Gathered (batch_of_tag tag.now) (λ l.
            is_live (account_of self.old.known l)) LANES result.keys }
    {
        let end = self.used_end();
        let dealt = if end == LANES { LANES - 1 } else { end };
        let mut row = Row::new(self.next.number());
        self.put_key(cast, 0, first, &mut row);
        let mut rest = rest;
        for lane in 1..dealt {
            let (key, others) = rest.split_first();
            rest = others;
            self.put_key(cast, lane, key, &mut row);
        }
        if end == LANES {
            self.put_key(cast, LANES - 1, rest.into_last(), &mut row);
        } else {
            row.add_rest(rest);
        }
        row
    }

    // The lane's key of the next place goes into its slot if the lane is live, or else into the place's row.
    fn put_key(&mut self, cast: &Cast<T, N, P, A>, lane: usize, key: SegKey<T>, row: &mut Row<T>)
        requires account { let b = account_of self.old.known lane in (lane < LANES) × (b.stand ≡ live
            → (b.out ≡ 0) × (b.laid ≡ None) × (b.stop ≡ length self.old.known.tail.log)
            × (b.stop < b.cleared + self.old.known.tail.places)) }
        requires row { MayJoin row.old.keys key }
        ensures same { (self.new.rows ≡ self.old.rows) × (row.new.place ≡ row.old.place) }
        ensures live { (account_of self.old.known lane).stand ≡ live
            → OneAccount self.old self.new lane (laying key (account_of self.old.known lane))
            × (row.new ≡ row.old) }
        ensures rest { (account_of self.old.known lane).stand ≢ live → (self.new ≡ self.old)
            × (row.new ≡ record row.old { keys = row.old.keys ++ key ∷ [] }) }
    {
        if self.is_live(lane) {
            self.fill_one(cast, lane, key);
        } else {
            row.add(key);
        }
    }

    /// The key goes into the lane's slot of the next place.
    fn fill_one(&mut self, cast: &Cast<T, N, P, A>, lane: usize, key: SegKey<T>)
        requires account { (lane < LANES) × ((account_of self.old.known lane).stand ≡ live)
            × ((account_of self.old.known lane).out ≡ 0)
            × ((account_of self.old.known lane).laid ≡ None) }
        requires space { let b = account_of self.old.known lane in
            (b.stop ≡ length self.old.known.tail.log)
            × (b.stop < b.cleared + self.old.known.tail.places) }
        ensures { OneAccount self.old self.new lane (laying key (account_of self.old.known lane)) }
    {
        let at = self.next.slot(lane);
        board::fill_slot(&cast.board.shared, &mut self.seat, at, lane, key);
    }

    // The place is there, and becomes the other seat's own. Its row waits for the keys that are out.
    fn store(
        &mut self,
        cast: &Cast<T, N, P, A>,
        tag: &Tag<T, P>,
        row: Row<T>,
        to: &mut LogSeat<T, P, A>,
    )
        requires writer { (self.old.known.tail.closed ≡ false)
            × (length self.old.known.tail.log < LONGEST_LOG)
            × AllLaid key_of self.old.known (batch_of_tag tag.now) × AreReady self.old.known }
        requires row { (row.place ≡ length self.old.known.tail.log)
            × Gathered (batch_of_tag tag.now) (λ l. is_live (account_of self.old.known l)) LANES row.keys
            × (1 ≤ (bucket_of self.old.rows row.place).room) }
        requires to { to.old.table_id ≡ N.table }
        ensures writer { self.new.known ≡ longer (batch_of_tag tag.now) self.old.known }
        ensures to { (to.new.table_id ≡ to.old.table_id) × (to.new.me.1 ≡ to.old.me.1)
            × (to.new.me.0 ≡ both_of to.old.me.0 (owner_of (length self.old.known.tail.log)
            (batch_of_tag tag.now))) }
    {
        let top = &cast.board.shared;
        let index = self.next.index();
        board::publish_batch::<BatchView<T, P>, SegKey<T>, A, SegmentKeys<T, P>, Brand, Tag<T, P>>(
            top,
            &mut self.seat,
            self.next.number(),
            tag,
        );
        self.next.go_on();
        board::hand_own(top, &mut self.seat, to);
        if row.is_full() {
            self.rows.end_row(row);
        } else {
            self.rows.insert(index, row);
        }
    }
}
