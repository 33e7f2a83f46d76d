//! The Book: the stored alerts, the journal, and the writer of the log. It is under the lock.
//! Calls of several steps have files in `book/`.
//!
//! What a Book promises: whatever posts, subscriptions, collections and ends come, the stored alerts
//! and the log are those that its journal of accepted calls gives, and the journal is legal. A post
//! goes out as one batch, with what each of its alerts became. What a subscription has taken begins
//! what the journal owes it, and is all of it if `next` answered `Closed`. A refused call
//! changes nothing but how far the writer knows its readers.
//!
//! A post looks at the lanes before it grows anything, so that E13 is reported before E0.

ghost use Rattle.std.specs.Prelude.{◌≡◌, ◌≢◌, ◌↔◌, ◌≤◌, ◌<◌, ◌+◌, IsTrue, IfOk, IfErr, OnOk, OnErr, IsErr, ℕ, ◌-◌, None, false, [], length, filter, drop, nat_le, slice_index_or, take};
ghost use Rattle.std.specs.Arc.{arc_value};
ghost use Rattle.std.specs.List.{All};
ghost use Rattle.std.specs.Option.{option_map};
ghost use Rattle.am_cast.specs.Rule.{idle};
ghost use Rattle.am_cast.specs.Changes.{shut_tail};
ghost use Rattle.am_cast.specs.Seats.{account_of};
ghost use Rattle.am_store.specs.Journal.{with_call, call_count, is_closed, posts_of, new_journal};
ghost use Rattle.am_store.specs.Journal.{journal_of};
ghost use Rattle.am_store.specs.AlertList.{lookup};
ghost use Rattle.am_store.specs.AlertMaps.{stored_in};
ghost use Rattle.am_store.specs.Trims.{IsTrimmed};
ghost use Rattle.am_store.specs.Stored.{stored};
ghost use Rattle.am_provider.specs.BookView.{IsFaithful, IsNewBook, batches};
ghost use Rattle.am_provider.specs.Posts.{KeepsRest};

mod collect;
mod post;
mod settle;
mod subscribe;
mod trim;

use crate::answers::{Counts, Ended, Page, Policy};
use crate::feed::{Cast, Origin, Writer, end_log};
use crate::item::Item;
use crate::kept_endings::KeptEndings;
use crate::parts::{Begun, Parts};
use crate::pass::deal;
use crate::sending::EmptiedBatch;
use am_alert::Alerts;
use am_cast::CloseFault;
use am_labels::LabelSet;
use am_store::lanes::{LANES, Lanes, OpenLane};
use am_store::store::absorb::Change;
use am_store::store::{AlertMap, Store};
use am_store::{Call, Discarded, Journal, KeptJournal, SharedAlert, StoredAlerts};
use std::alloc::{AllocError, Global};
use std::marker::Model;
use std::mem;
use std::sync::ledger;

// An entry of the journal, one to end each lane, and one to end the log.
const ENTRIES: usize = LANES + 2;

/// What lies under the lock: the stored alerts, the journal, and the writer of the log.
pub struct Book<N: Origin> {
    stored: Store,
    // It has room for a Left of each open lane and, until the log is ended, for a Closed.
    journal: KeptJournal,
    log: Writer<N>,
    // How many posts the journal has.
    posts: u64,
    lanes: Lanes,
    // It has room for the ending of each open lane.
    endings: KeptEndings,
    policy: Policy,
    // How many passes there are.
    posters: u32,
    // It counts the places of all passes.
    tally: ledger::Book<N>,
    // What the last post is done with, the opening of the subscription that left last, as its lane and itself had it,
    // and what a trim or a compaction discarded: for who drops them once the lock is given back.
    spent: Option<Spent>,
    left: Left,
    discarded: Discarded,
}

impl<N: Origin> Model for Book<N> {
    ghost use Rattle.std.specs.Coded.{codes};
    ghost use Rattle.std.specs.Prelude.{◌≡◌, ◌≤◌, ◌+◌, length};
    ghost use Rattle.am_alert.specs.Alerts.{coded_alert};
    ghost use Rattle.am_store.specs.contracts.call.Call as call;
    ghost use Rattle.am_store.specs.contracts.lanes.OpenLane as lane;
    ghost use Rattle.am_store.specs.AlertMaps.{stored_in};
    ghost use Rattle.am_provider.specs.BookView.{BookView};
    ghost use Rattle.am_provider.specs.inside.Endings.{AreEndingsOf};
    ghost use Rattle.am_provider.specs.inside.Shelves.{view_of, IsKeptBook};

    ghost Value = { BookView };

    ghost coded = { Prim.hlevel (codes, coded_alert, call.the_row.coded, lane.the_row.coded) };

    ghost view = { λ b. view_of (record {
      stored = stored_in b.stored;
      journal = b.journal;
      log = b.log;
      posts = b.posts;
      lanes = b.lanes;
      endings = b.endings.endings;
      early = b.endings.early;
      policy = b.policy;
    }) };

    ghost invariant = { λ b. IsKeptBook (record {
      stored = stored_in b.stored;
      journal = b.journal;
      log = b.log;
      posts = b.posts;
      lanes = b.lanes;
      endings = b.endings.endings;
      early = b.endings.early;
      policy = b.policy;
    }) b.tally.total (length b.endings.endings + b.endings.room) × (b.posters ≡ N.parts) × (1 ≤ b.posters) × AreEndingsOf b.endings b.journal };
}

// What a post replaced, and the list of what it sent out.
pub(crate) type Spent = (Vec<Change>, EmptiedBatch);

// The opening of a subscription that left, as its lane and itself had it.
pub(crate) type Left = (Option<OpenLane>, Option<StoredAlerts>);

// What memory has of a Book.
pub(crate) struct Held<N: Origin> {
    pub(crate) journal: Journal,
    pub(crate) store: AlertMap,
    pub(crate) ended: Vec<Ended>,
    // How many other endings there were.
    pub(crate) early: u64,
    pub(crate) posters: u32,
    pub(crate) log: Writer<N>,
    pub(crate) tally: ledger::Book<N>,
}

impl<N: Origin> Book<N> {
    /// A new provider over these parts, and its passes.
    pub fn begin(alloc: Global, parts: Parts, policy: Policy) -> Result<Begun<N>, AllocError>
        requires table { parts.log.board.shared.table_id ≡ N.table }
        requires ledger { (parts.ledger.name ≡ N.name) × (parts.ledger.parts ≡ N.parts) }
        ensures book { IfOk result (λ begun. IsNewBook policy parts.log.places begun.book) }
        ensures passes { IfOk result (λ begun. (length begun.passes.items ≡ parts.posters)
            × All (λ pass. pass ≡ record { noted = []; own = [] }) begun.passes.items) }
    {
        let Parts {
            log,
            ledger,
            history: _,
            posters,
        } = parts;
        Book::begin_over(alloc, log, ledger, posters, policy, false)
    }

    /// The same over a log and a ledger. It says whether what trims and compactions discard is kept for `take_discarded`.
    pub(crate) fn begin_over(
        alloc: Global,
        log: am_cast::Parts<Item, Call, OpenLane>,
        ledger: ledger::Blank,
        posters: u32,
        policy: Policy,
        keeps: bool,
    ) -> Result<Begun<N>, AllocError>
        requires table { log.board.shared.table_id ≡ N.table }
        requires ledger { (ledger.name ≡ N.name) × (ledger.parts ≡ N.parts) }
        requires posters { (posters ≡ N.parts) × (1 ≤ posters) }
        ensures book { IfOk result (λ begun. IsNewBook policy log.places begun.book) }
        ensures lanes { IfOk result (λ begun. (lane : ℕ) → lane < 8
            → (account_of begun.book.log lane).stand ≡ idle) }
        ensures passes { IfOk result (λ begun. (length begun.passes.items ≡ posters)
            × All (λ pass. pass ≡ record { noted = []; own = [] }) begun.passes.items) }
    {
        let am_cast::Begun {
            cast,
            writer,
            passes,
        } = am_cast::begin::<Item, N, Call, OpenLane>(log, posters as usize)?;
        let (tally, share) = ledger.open::<N>();
        match deal(alloc, passes, share) {
            Ok(passes) => match Book::over(alloc, writer, tally, posters, policy, keeps) {
                Ok(book) => Ok(Begun { cast, book, passes }),
                Err(writer) => {
                    end_log(cast, writer);
                    Err(AllocError)
                }
            },
            Err(error) => {
                end_log(cast, writer);
                Err(error)
            }
        }
    }

    // An empty Book over a log's writer. The writer comes back if there is no memory.
    pub(crate) fn over(
        alloc: Global,
        log: Writer<N>,
        tally: ledger::Book<N>,
        posters: u32,
        policy: Policy,
        keeps: bool,
    ) -> Result<Book<N>, Writer<N>>
        requires posters { (posters ≡ N.parts) × (1 ≤ posters) }
        requires empty { (log.tail.log ≡ []) × (log.tail.closed ≡ false) }
        requires idle { (lane : ℕ) → lane < 8 → (account_of log lane).stand ≡ idle }
        requires tally { tally.total ≡ 0 }
        ensures book { IfOk result (IsNewBook policy log.tail.places) }
        ensures log { IfOk result (λ book. book.log ≡ log) }
        ensures err { IfErr result (λ back. back ≡ log) }
    {
        let journal = match room_for_calls(alloc) {
            Ok(journal) => journal,
            Err(_) => return Err(log),
        };
        Ok(Book {
            stored: Store::new(alloc),
            journal,
            log,
            posts: 0,
            lanes: [None, None, None, None, None, None, None, None],
            endings: KeptEndings::new(alloc),
            policy,
            posters,
            tally,
            spent: None,
            left: (None, None),
            discarded: Discarded::new(alloc, keeps),
        })
    }

    /// Drops a Book, with its log.
    pub(crate) fn discard(self, cast: Cast<N>) {
        let Held {
            journal: _,
            store: _,
            ended: _,
            early: _,
            posters: _,
            log,
            tally: _,
        } = self.into_parts();
        end_log(cast, log);
    }

    // What memory has of it.
    pub(crate) fn into_parts(self) -> Held<N>
        ensures gone { (self.journal.before ≤ self.gone) × (self.gone ≤ call_count self.journal) }
        ensures journal { IsTrimmed self.journal (self.gone - self.journal.before) (journal_of result.journal) }
        ensures stored { stored_in result.store.entries ≡ self.stored }
        ensures ended { result.ended.items ≡ filter (λ ended. nat_le self.gone ended.at) self.endings }
        ensures early { result.early + length result.ended.items ≡ self.early + length self.endings }
        ensures posters { (result.posters ≡ N.parts) × (1 ≤ result.posters) }
        ensures log { (result.log ≡ self.log) × (result.tally.total ≡ length (batches self)) }
        ensures faithful { IsFaithful self }
    {
        let Book {
            stored,
            journal,
            log,
            posts: _,
            lanes: _,
            endings,
            policy: _,
            posters,
            tally,
            spent: _,
            left: _,
            discarded: _,
        } = self;
        let (ended, early) = endings.into_held();
        Held {
            journal: journal.into_held(),
            store: stored.into_map(),
            ended,
            early,
            posters,
            log,
            tally,
        }
    }

    /// Ends the log: no post and no subscription is accepted from now on.
    pub fn close(&mut self, cast: &Cast<N>) -> Result<(), CloseFault>
        ensures journal { OnOk result (self.new.journal ≡ with_call self.old.journal Call.Closed) }
        ensures stored { self.new.stored ≡ self.old.stored }
        ensures log { OnOk result
            (self.new.log ≡ record self.old.log { tail = shut_tail self.old.log.tail }) }
        ensures rest { KeepsRest self.old self.new }

        ensures closed { IsErr result ↔ IsTrue (is_closed self.old.journal) }
        ensures err { OnErr result (self.new ≡ self.old) }
    {
        match self.log.close(cast) {
            Ok(()) => {
                self.journal.push(Call::Closed);
                Ok(())
            }
            Err(CloseFault) => Err(CloseFault),
        }
    }

    /// What is stored, in order (`provider.Alerts`' GetPending). It is no call of the journal and takes
    /// no lane.
    pub fn stored(&mut self) -> Result<StoredAlerts, AllocError>
        ensures alerts { IfOk result (λ alerts. alerts ≡ self.old.stored) }
        ensures same { self.new ≡ self.old }
    {
        self.stored.share_all()
    }

    /// What is stored, in order, from an index on, and at most `most` alerts of it. It is no call of the
    /// journal and takes no lane.
    pub fn stored_page(&self, from: u64, most: u64) -> Result<Page, AllocError>
        ensures alerts { IfOk result (λ page. page.alerts ≡ take most (drop from self.now.stored)) }
        ensures stored { IfOk result (λ page. page.stored ≡ length self.now.stored) }
        ensures calls { IfOk result (λ page. page.calls ≡ call_count self.now.journal) }
    {
        let alerts = self.stored.share_page(from as usize, most as usize)?;
        Ok(Page {
            alerts,
            stored: self.stored.len() as u64,
            calls: self.journal.call_count(),
        })
    }

    /// The stored alert of a label set (`provider.Alerts`' Get). It is no call of the journal, takes no
    /// memory, and fails only if the alert has 2^63 owners already.
    pub fn get(&self, labels: &LabelSet) -> Result<Option<SharedAlert>, AllocError>
        ensures found { IfOk result (λ found.
            option_map arc_value found ≡ lookup labels.now self.now.stored) }
        ensures stored { OnErr result (lookup labels.now self.now.stored ≢ None) }
    {
        self.stored.share_of(labels)
    }

    /// What is stored, what was sent out and how its subscriptions ended are what its journal
    /// gives, whatever was called before. It does nothing.
    pub fn kept(&self)
        ensures { IsFaithful self.now }
    {
        let _ = &self.stored;
    }

    // What the last post is done with. It is given once.
    pub(crate) fn take_spent(&mut self) -> Option<Spent>
        ensures { self.new ≡ self.old }
    {
        self.spent.take()
    }

    // The opening of the subscription that left last. It is given once.
    pub(crate) fn take_left(&mut self) -> Left
        ensures { self.new ≡ self.old }
    {
        mem::replace(&mut self.left, (None, None))
    }

    // A list of what is stored that was shared and has changed since: for who drops it once the lock is given back. It
    // is given once.
    pub(crate) fn take_outdated(&mut self) -> Option<StoredAlerts>
        ensures { self.new ≡ self.old }
    {
        self.stored.take_outdated()
    }

    // The call that came last.
    pub(crate) fn last_call(&self) -> &Call
        requires { self.now.gone < call_count self.now.journal }
        ensures { result.now ≡ slice_index_or self.now.journal.calls
            (length self.now.journal.calls - 1) result.now }
    {
        self.journal.last_call()
    }

    /// How many places, posts and stored alerts there are. Whatever Book it is asked of, what is
    /// stored, what was sent out and how its subscriptions ended are what its journal gives.
    pub fn counts(&self) -> Counts
        ensures kept { IsFaithful self.now }
        ensures places { result.places ≡ length (batches self.now) }
        ensures posts { result.posts ≡ posts_of self.now.journal }
        ensures stored { result.stored ≡ length self.now.stored }
    {
        Counts {
            places: self.log.len(),
            posts: self.posts,
            stored: self.stored.len() as u64,
        }
    }
}

// A journal without a call, with room for what may come.
fn room_for_calls(alloc: Global) -> Result<KeptJournal, AllocError>
    ensures journal { IfOk result (λ made. made.journal ≡ new_journal) }
    ensures gone { IfOk result (λ made. made.gone ≡ 0) }
    ensures room { IfOk result (λ made. 1 ≤ made.room) }
{
    let mut journal = KeptJournal::new(alloc)?;
    journal.reserve(ENTRIES)?;
    Ok(journal)
}
