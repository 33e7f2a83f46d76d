//! A subscriber's place. It reads without the provider: no lock, no memory, no waiting.
//!
//! The opening is let go when the first alert posted since is shown, not with the opening's last: that one is lent
//! until the next call. `next_slice` lends two kinds of slice, since one kind for both would copy them.

ghost use Rattle.std.specs.Prelude.{◌≡◌, ℕ, ◌+◌, ◌<◌, ◌^◌, IfNone, IfSome, Some, false, true, [], length};
ghost use Rattle.am_cast.specs.Cursors.{shown_items};
ghost use Rattle.am_provider.specs.Subscriptions.{taken};
ghost use Rattle.am_cast.specs.Lent.{IsPending};
ghost use Rattle.am_provider.specs.Showings.{HasNews, ShowsNone, StaysShown};
ghost use Rattle.am_provider.specs.inside.Advances.{Advances, AdvancesPast, LetsGo, Notes};
ghost use Rattle.am_provider.specs.inside.Slices.{AdvancesSlice, ShowsOpening};
ghost use Rattle.am_provider.specs.Posts.{HasMet};
ghost use Rattle.am_provider.specs.inside.Subscribed.{IsFresh, IsSubscription};
ghost use Rattle.am_provider.specs.inside.Vouched.{IsVouched};

use crate::answers::{Slice, Step};
use crate::feed::{Cast, Cursor, Origin, Writer};
use crate::pass::Pass;
use am_cast::Moved;
use am_store::{BLOCK, Past, StoredAlerts};
use std::marker::Model;
use std::sync::Wait;
use std::time::Duration;

/// One subscriber's place. It must be given back by `leave`. Contracts see it as what was stored when
/// it came, how much of that was shown, and its cursor in the log. Each call writes to it, so keep it in its
/// own thread's memory: two threads' subscriptions on one cache line slow each other down.
pub struct Subscription<'a, N: Origin> {
    at: u64,
    // What was stored when it came, for contracts alone: a past value takes no memory.
    opening: Past<StoredAlerts>,
    // What memory has of it: all, until an alert of the log was shown.
    held: Option<StoredAlerts>,
    // How many alerts were stored when it came, and how many of them it has shown.
    stored: usize,
    shown: usize,
    cursor: Cursor<'a, N>,
    closed_told: bool,
    // How many alerts it has shown in all, as far as a u64 counts.
    count: u64,
}

impl<'a, N: Origin> Model for Subscription<'a, N> {
    ghost use Rattle.std.specs.Coded.{codes};
    ghost use Rattle.am_alert.specs.Alerts.{coded_alert};
    ghost use Rattle.am_store.specs.contracts.call.Call as call;
    ghost use Rattle.am_store.specs.contracts.lanes.OpenLane as lane;
    ghost use Rattle.am_provider.specs.Subscriptions.{SubscriptionView};
    ghost use Rattle.am_provider.specs.inside.Subscribed.{IsSubscription, IsHeld};

    ghost Value = { SubscriptionView };

    ghost coded = { Prim.hlevel (codes, coded_alert, call.the_row.coded, lane.the_row.coded) };

    ghost view = { λ s. record {
      at = s.at;
      opening = s.opening.value;
      shown = s.shown;
      cursor = s.cursor;
      closed_told = s.closed_told;
    } };

    ghost invariant = { λ s. IsSubscription (record {
      at = s.at;
      opening = s.opening.value;
      shown = s.shown;
      cursor = s.cursor;
      closed_told = s.closed_told;
    }) s.count × IsHeld s.opening.value s.cursor s.held s.stored };
}

/// What an advance answers, before the alert itself is lent.
#[derive(Clone, Copy, Debug, PartialEq, Eq, Drop)]
pub(crate) enum Advance {
    /// One alert more of the opening.
    Opened,
    /// One alert more of the log.
    Logged,
    Pending,
    Closed,
    Cut,
}

impl<'a, N: Origin> Subscription<'a, N> {
    /// A subscription that has shown nothing yet.
    pub(crate) fn begin(
        at: u64,
        opening: StoredAlerts,
        cursor: Cursor<'a, N>,
    ) -> Subscription<'a, N>
        requires { IsFresh cursor
            × (cursor.lane.note ≡ Some (record { at = at; opening = opening })) }
        ensures { result ≡ record {
          at = at;
          opening = opening;
          shown = 0;
          cursor = cursor.entry;
          closed_told = false;
        } }
    {
        Subscription {
            at,
            opening: Past::of(&opening),
            stored: opening.len(),
            held: Some(opening),
            shown: 0,
            cursor,
            closed_told: false,
            count: 0,
        }
    }

    /// When it was subscribed, how many alerts it has shown, whether it answered `Closed`, its cursor, and what memory has of
    /// its opening.
    pub(crate) fn into_parts(self) -> (u64, u64, bool, Cursor<'a, N>, Option<StoredAlerts>)
        ensures parts { (result.0 ≡ self.entry.at) × (result.2 ≡ self.entry.closed_told)
            × (result.3 ≡ self.entry.cursor) }
        ensures kept { IsSubscription self.entry result.1 }
        ensures few { length self.entry.opening < 2 ^ 63 }
    {
        let Subscription {
            at,
            opening: _,
            held,
            stored: _,
            shown: _,
            cursor,
            closed_told,
            count,
        } = self;
        (at, count, closed_told, cursor, held)
    }

    /// The log's writer says of the cursor, which goes on, what it says of one that is given back.
    pub(crate) fn vouch(&mut self, cast: &Cast<N>, log: &mut Writer<N>)
        ensures same { (self.new ≡ self.old) × (log.new ≡ log.old) }
        ensures kept { (count : ℕ) × IsSubscription self.old count }
        ensures vouched { IsVouched log.old self.old.cursor }
    {
        log.vouch(cast, &mut self.cursor);
    }

    /// The lane that it has.
    pub fn lane(&self) -> u32
        ensures { result ≡ self.now.cursor.lane.number }
    {
        self.cursor.lane() as u32
    }

    /// Whether `next` has anything to answer but `Pending`: by what is known and, if that was all shown, by one look at
    /// the log. No says what `Pending` says.
    pub fn has_news(&mut self) -> bool
        ensures yes { result ≡ true → HasNews self.old self.new }
        ensures no { result ≡ false
            → ShowsNone self.old self.old.closed_told self.new × IsPending self.old.cursor self.new.cursor }
    {
        if self.shown < self.stored || self.closed_told {
            return true;
        }
        self.cursor.has_news()
    }

    /// Sleeps until a post, a close or a cut, unless there are news already. It may also return for no reason.
    pub fn wait<R: Wait>(&mut self, rt: &R)
        ensures { StaysShown self.old self.new }
    {
        if self.shown >= self.stored && !self.closed_told {
            self.cursor.wait(rt);
        }
    }

    /// As `wait`, at most for this long.
    pub fn wait_timeout<R: Wait>(&mut self, rt: &R, timeout: Duration)
        ensures { StaysShown self.old self.new }
    {
        if self.shown >= self.stored && !self.closed_told {
            self.cursor.wait_timeout(rt, timeout);
        }
    }

    /// How many alerts were stored at the subscription.
    pub fn opening(&self) -> u64
        ensures { result ≡ length self.now.opening }
    {
        self.stored as u64
    }

    // The opening, which memory has until an alert of the log was shown.
    fn held_opening(&self) -> &StoredAlerts
        requires { shown_items self.now.cursor ≡ [] }
        ensures { result.now ≡ self.now.opening }
    {
        match &self.held {
            Some(opening) => opening,
            None => unreachable!(),
        }
    }

    // One alert more of the opening is shown, if there is one.
    fn show_opening(&mut self) -> bool
        ensures yes { result ≡ true → (self.old.shown < length self.old.opening) × IsFresh self.old.cursor
            × (self.old.closed_told ≡ false)
            × (self.new ≡ record self.old { shown = self.old.shown + 1 }) }
        ensures no { result ≡ false
            → (self.old.shown ≡ length self.old.opening) × (self.new ≡ self.old) }
    {
        if self.shown >= self.stored {
            return false;
        }
        self.shown += 1;
        self.count = self.count.wrapping_add(1);
        true
    }

    // Counts the next alert as shown, if there is one.
    pub(crate) fn advance(&mut self) -> Advance
        ensures { Advances self.old result self.new }
    {
        if self.show_opening() {
            return Advance::Opened;
        }
        let moved = self.cursor.advance();
        let_go_after(moved, &mut self.held);
        note(moved, &mut self.count, &mut self.closed_told)
    }

    // As `advance`, but nothing is left only if each place that the pass knows was passed.
    pub(crate) fn advance_past(&mut self, pass: &mut Pass<N>) -> Advance
        ensures advances { Advances self.old result self.new }
        ensures past { AdvancesPast pass.old.noted self.new result }
        ensures pass { pass.new ≡ pass.old }
    {
        if self.show_opening() {
            return Advance::Opened;
        }
        let moved = self.cursor.advance_past(&mut pass.pass);
        let_go_after(moved, &mut self.held);
        note(moved, &mut self.count, &mut self.closed_told)
    }

    // What lies together of the rest of the opening is shown, if there is any. Answers at which index it begins.
    fn show_opening_run(&mut self) -> Option<usize>
        ensures some { IfSome result (λ from. ShowsOpening self.old from self.new) }
        ensures none { IfNone result
            ((self.old.shown ≡ length self.old.opening) × (self.new ≡ self.old)) }
    {
        let from = self.shown;
        if from >= self.stored {
            return None;
        }
        self.shown = self.stored.min(from + (BLOCK - from % BLOCK));
        self.count = self.count.wrapping_add((self.shown - from) as u64);
        Some(from)
    }

    // As `advance`, but all that lies together counts as shown, of the opening or of a batch. Answers with it at
    // which index that begins.
    fn advance_slice(&mut self) -> (Advance, usize)
        ensures { AdvancesSlice self.old result.0 result.1 self.new }
    {
        if let Some(from) = self.show_opening_run() {
            return (Advance::Opened, from);
        }
        match self.cursor.advance_slice() {
            (Moved::One, from) => {
                let_go_after(Moved::One, &mut self.held);
                let shown = self.cursor.in_hand_from(from).len();
                self.count = self.count.wrapping_add(shown as u64);
                (Advance::Logged, from)
            }
            (other, from) => {
                let advance = note(other, &mut self.count, &mut self.closed_told);
                (advance, from)
            }
        }
    }

    /// Each own post of the pass that the subscription has seen is at its place there, and the
    /// pass knows at least as much of the log as the subscription.
    pub fn meet(&mut self, cast: &Cast<N>, pass: &mut Pass<N>)
        ensures same { self.new ≡ self.old }
        ensures met { HasMet self.old.cursor.lane.front pass.old pass.new }
    {
        pass.pass.meet(cast, &mut self.cursor);
    }
}

impl<'a, N: Origin> Subscription<'a, N> {
    ghost use Rattle.std.specs.Prelude.{◌≡◌};
    ghost use Rattle.std.specs.Borrow.{sem};
    ghost use Rattle.am_provider.specs.Lending.{AfterTheLoan};
    ghost use Rattle.am_provider.specs.Showings.{Shows, ShowsPast};
    ghost use Rattle.am_provider.specs.inside.Advances.{CanShow, IsShown};

    // What an advance shows.
    fn shown(&mut self, advance: Advance) -> Step<'_>
        requires { CanShow advance self.old }
        ensures* lender { sem 𝓛 (AfterTheLoan N.row N.Feed N.Ledger self.entry
            (λ subscription. subscription ≡ self.old)) }
        ensures shown { IsShown self.old advance result }
    {
        match advance {
            Advance::Opened => {
                let last = self.shown - 1;
                match self.held_opening().get(last) {
                    Some(alert) => Step::Item(alert),
                    None => unreachable!(),
                }
            }
            Advance::Logged => Step::Item(self.cursor.in_hand().alert()),
            Advance::Pending => Step::Pending,
            Advance::Closed => Step::Closed,
            Advance::Cut => Step::Cut,
        }
    }

    /// The next alert: first those that were stored at the subscription, then those of the log since.
    /// It is lent until the next call.
    pub fn next(&mut self) -> Step<'_>
        ensures* lender { sem 𝓛 (AfterTheLoan N.row N.Feed N.Ledger self.entry
            (λ subscription. Shows self.old result subscription)) }
    {
        let advance = self.advance();
        self.shown(advance)
    }

    /// The next alert. It isn't `Pending` while a place that the pass knows isn't passed: who has the
    /// pass of a poster reads what that poster has posted.
    pub fn next_past(&mut self, pass: &mut Pass<N>) -> Step<'_>
        ensures* lender { sem 𝓛 (AfterTheLoan N.row N.Feed N.Ledger self.entry
            (λ subscription. Shows self.old result subscription
            × ShowsPast pass.old.noted result subscription)) }
        ensures pass { pass.new ≡ pass.old }
    {
        let advance = self.advance_past(pass);
        self.shown(advance)
    }
}

impl<'a, N: Origin> Subscription<'a, N> {
    ghost use Rattle.std.specs.Prelude.{◌≡◌};
    ghost use Rattle.std.specs.Borrow.{sem};
    ghost use Rattle.am_provider.specs.Lending.{AfterTheLoan};
    ghost use Rattle.am_provider.specs.Showings.{ShowsSlice};
    ghost use Rattle.am_provider.specs.inside.Slices.{CanShowFrom, IsSliceShown};

    // What an advance of `advance_slice` shows.
    fn shown_from(&mut self, advance: Advance, from: usize) -> Slice<'_>
        requires { CanShowFrom advance from self.old }
        ensures* lender { sem 𝓛 (AfterTheLoan N.row N.Feed N.Ledger self.entry
            (λ subscription. subscription ≡ self.old)) }
        ensures shown { IsSliceShown self.old advance from result }
    {
        match advance {
            Advance::Opened => Slice::Stored(self.held_opening().run_from(from)),
            Advance::Logged => Slice::Posted(self.cursor.in_hand_from(from)),
            Advance::Pending => Slice::Pending,
            Advance::Closed => Slice::Closed,
            Advance::Cut => Slice::Cut,
        }
    }

    /// The next alerts, as many as lie together: of those that were stored at the subscription (up to `BLOCK`
    /// of them), or what is left of a post's batch. They are taken by this call, and lent until the next one.
    pub fn next_slice(&mut self) -> Slice<'_>
        ensures* lender { sem 𝓛 (AfterTheLoan N.row N.Feed N.Ledger self.entry
            (λ subscription. ShowsSlice self.old result subscription)) }
    {
        let (advance, from) = self.advance_slice();
        self.shown_from(advance, from)
    }
}

// Lets go of the opening once an alert of the log was shown, which is read after it.
fn let_go_after(moved: Moved, held: &mut Option<StoredAlerts>)
    ensures { LetsGo moved held.old held.new }
{
    if moved == Moved::One {
        *held = None;
    }
}

// What a move of the cursor is to a subscription: one alert more is counted, or the end is noted.
fn note(moved: Moved, count: &mut u64, closed_told: &mut bool) -> Advance
    ensures { Notes moved count.old closed_told.old result count.new closed_told.new }
{
    match moved {
        Moved::One => {
            *count = count.wrapping_add(1);
            Advance::Logged
        }
        Moved::Pending => Advance::Pending,
        Moved::Closed => {
            *closed_told = true;
            Advance::Closed
        }
        Moved::Cut => Advance::Cut,
    }
}
