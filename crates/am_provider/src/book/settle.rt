//! The end: what the passes own, joined and settled.

ghost use Rattle.std.specs.Prelude.{◌≡◌, ◌↔◌, ◌≤◌, ◌<◌, IsTrue, ℕ, length};
ghost use Rattle.std.specs.List.{All};
ghost use Rattle.am_cast.specs.Rule.{Once};
ghost use Rattle.am_cast.specs.Changes.{AreInLog};
ghost use Rattle.am_provider.specs.Rising.{IsRising};
ghost use Rattle.am_provider.specs.Settling.{IsOwn, IsSettled, own_in, own_of, parts_in};

use crate::answers::Counts;
use crate::book::{Book, Held};
use crate::feed::{Cast, Origin, Writer, end_log};
use crate::pass::{Joined, Pass, join_all};
use crate::settled::Settled;
use std::sync::ledger;

impl<N: Origin> Book<N> {
    /// Ends a Book, and with it its log. Its subscriptions were given back, since they borrow the log.
    pub fn settle(self, cast: Cast<N>, passes: Vec<Pass<N>>) -> Settled
        ensures settled { IsSettled self (own_of passes.items) result }
        ensures rising { All (λ pass. IsRising pass.own) passes.items }
        ensures complete { IsTrue result.complete ↔ (length passes.items ≡ N.parts) }
    {
        let count = passes.len();
        let all = join_all(&cast, passes);
        self.settle_joined(cast, all, count)
    }

    /// The same with passes that were joined.
    pub(crate) fn settle_joined(
        self,
        cast: Cast<N>,
        all: Option<Joined<N>>,
        count: usize,
    ) -> Settled
        requires { parts_in all ≡ count }
        ensures settled { IsSettled self (own_in all) result }
        ensures complete { IsTrue result.complete ↔ (count ≡ N.parts) }
    {
        let Counts {
            places,
            posts,
            stored: _,
        } = self.counts();
        let Held {
            journal,
            store,
            ended,
            early,
            posters,
            mut log,
            mut tally,
        } = self.into_parts();
        let complete = audit(&cast, &mut log, &mut tally, all, count, posters);
        end_log(cast, log);
        Settled {
            journal,
            store,
            ended,
            early,
            complete,
            places,
            posts,
        }
    }
}

// Whether these are all passes. What they posted is in the log, and is all of it if they are all.
fn audit<N: Origin>(
    cast: &Cast<N>,
    log: &mut Writer<N>,
    tally: &mut ledger::Book<N>,
    all: Option<Joined<N>>,
    count: usize,
    posters: u32,
) -> bool
    requires count { parts_in all ≡ count }
    requires posters { (posters ≡ N.parts) × (1 ≤ posters) }
    requires tally { tally.old.total ≡ length log.old.tail.log }
    ensures same { log.new ≡ log.old }
    ensures stand { AreInLog (own_in all) log.old.tail.log }
    ensures once { Once (own_in all) }
    ensures all { IsTrue result → (place : ℕ) → place < length log.old.tail.log
        → IsOwn (own_in all) place }
    ensures complete { IsTrue result ↔ (count ≡ N.parts) }
{
    let Some(mut all) = all else {
        return false;
    };
    all.audit(cast, log, tally);
    count == posters as usize
}
