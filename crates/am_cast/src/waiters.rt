//! How an idle cursor sleeps, and how who posts wakes it. It is apart from the log, and none of the promises rests on
//! it: that a sleeper is woken is tested, and no contract says it.
//!
//! A cursor counts itself among the sleepers, notes how often they were woken, and looks at the log. Only if
//! nothing is there does it sleep, and not if they were woken since it noted that. Who posts changes the log
//! first and then looks whether anyone sleeps. All of this is sequentially consistent. So either the cursor
//! finds what was changed, or who changed it finds the cursor counted and wakes it.
//!
//! A list of sleepers, one a cursor, would wake none that isn't owed anything; but a batch is for every cursor.
ghost use Rattle.std.specs.Prelude.{◌≡◌};
ghost use Rattle.am_cast.specs.Cursors.{GoesOn, shown_items};

use crate::cursor::{Cast, Cursor};
use crate::feed::Feed;
use crate::handle::AsCast;
use std::sync::Wait;
use std::sync::atomic::{AtomicU64, Ordering};
use std::time::Duration;

/// The sleepers of one log.
#[derive(Drop)]
pub(crate) struct Waiters {
    // How many cursors sleep, or are about to.
    sleepers: AtomicU64,
    // How often they were woken. Its low 32 bits are what a sleeper compares.
    wakes: AtomicU64,
}

impl Waiters {
    pub(crate) fn new() -> Waiters {
        Waiters {
            sleepers: AtomicU64::new(0),
            wakes: AtomicU64::new(0),
        }
    }

    // One sleeper more. Answers how often they were woken, in 32 bits.
    fn enter(&self) -> u32 {
        self.sleepers.fetch_add(1, Ordering::SeqCst);
        (self.wakes.load(Ordering::SeqCst) % (1 << 32)) as u32
    }

    // Sleeps until the next wake, unless there was one since `enter`, and at most as long as the limit.
    fn sleep<R: Wait>(&self, rt: &R, wakes: u32, limit: Option<Duration>) {
        match limit {
            Some(limit) => self.wakes.park_timeout(rt, wakes, limit),
            None => self.wakes.park(rt, wakes),
        }
    }

    fn leave(&self) {
        self.sleepers.fetch_sub(1, Ordering::SeqCst);
    }
}

impl<T, N: Feed, P, A> Cast<T, N, P, A> {
    /// Wakes all cursors of the log that sleep, for who has published or closed. If none sleeps it is one load, else a call of
    /// the system. A `Sender` does it itself. A `Writer` doesn't, so that its caller can give its lock back first.
    pub fn wake(&self) {
        let waiters = &self.waiters;
        if waiters.sleepers.load(Ordering::SeqCst) > 0 {
            waiters.wakes.fetch_add(1, Ordering::SeqCst);
            waiters.wakes.wake_all();
        }
    }
}

impl<C: AsCast<T, N, P, A>, T, N: Feed, P, A> Cursor<C, T, N, P, A> {
    /// Sleeps until the next `Cast::wake`, unless there are news already. It may also return for no reason, so `next` is
    /// what to call then. It shows nothing.
    pub fn wait<R: Wait>(&mut self, rt: &R)
        ensures on { GoesOn self.old self.new }
        ensures taken { shown_items self.new ≡ shown_items self.old }
    {
        self.sleep(rt, None);
    }

    /// As `wait`, at most for this long.
    pub fn wait_timeout<R: Wait>(&mut self, rt: &R, timeout: Duration)
        ensures on { GoesOn self.old self.new }
        ensures taken { shown_items self.new ≡ shown_items self.old }
    {
        self.sleep(rt, Some(timeout));
    }

    fn sleep<R: Wait>(&mut self, rt: &R, limit: Option<Duration>)
        ensures on { GoesOn self.old self.new }
        ensures taken { shown_items self.new ≡ shown_items self.old }
    {
        let wakes = self.cast.as_cast().waiters.enter();
        if !self.has_news() {
            self.cast.as_cast().waiters.sleep(rt, wakes, limit);
        }
        self.cast.as_cast().waiters.leave();
    }
}
