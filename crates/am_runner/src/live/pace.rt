//! When the journal of a live run is compacted.
//!
//! A compaction takes a step for each stored alert, for each call that it takes out of memory, and for each alert of
//! these. It is made once the calls since the last one, with the alerts that they posted or removed, are more than
//! half of the alerts that were stored then, and more than 1,024. No more alerts are stored by now than were stored
//! then and were posted since. So a compaction takes at most four times as many steps as were counted, and the count
//! begins at nothing again: on average a line pays for its own alerts and one call, O(1), however many are stored.
//!
//! Before the next one the journal has at most half as many calls and alerts as were stored at the last, or 1,024,
//! and those of one line more. So memory depends on what is stored, and not on how many lines there were.
//!
//! A trim would keep all calls since the earliest open subscription. With all instead of half a program that holds
//! 10,000 alerts took 1.7 times what one takes that was just begun.

ghost use Rattle.std.specs.Prelude.{◌≡◌, ◌+◌, ◌/◌, ◌<◌, ◌↔◌, IsTrue, min, unwrap_or};
ghost use Rattle.am_runner.specs.live.inside.Paces.{growth_by, growth_of};

use am_answers::Answer;

// What makes no compaction due, however little is stored.
const LITTLE: u64 = 1_024;

/// How many calls and posted or removed alerts there were since the last compaction, and how many alerts were
/// stored then.
#[derive(Clone, Copy, Debug, Drop)]
pub(crate) struct Pace {
    since: u64,
    stored: u64,
}

impl Pace {
    /// No call was made yet, and nothing is stored.
    pub(crate) fn begin() -> Pace
        ensures { result ≡ record { since = 0; stored = 0 } }
    {
        Pace {
            since: 0,
            stored: 0,
        }
    }

    /// Notes the call of a line by what was answered.
    pub(crate) fn note(&mut self, answers: &[Answer])
        ensures { self.new ≡ record self.old { since = min (self.old.since + growth_of answers.now) u64.MAX } }
    {
        let grown = match answers.first() {
            Some(first) => growth_by(first),
            None => 0,
        };
        self.since = self.since.saturating_add(grown);
    }

    /// Whether it is time for a compaction.
    pub(crate) fn is_due(&self) -> bool
        ensures { IsTrue result ↔ ((LITTLE < self.now.since) × (self.now.stored / 2 < self.now.since)) }
    {
        self.since > LITTLE && self.since > self.stored / 2
    }

    /// The journal was compacted. `stored` alerts are stored, or at most those before and those posted since,
    /// if that couldn't be asked.
    pub(crate) fn restart(&mut self, stored: Option<u64>)
        ensures { self.new ≡ record {
          since = 0;
          stored = unwrap_or stored (min (self.old.stored + self.old.since) u64.MAX);
        } }
    {
        let most = self.stored.saturating_add(self.since);
        self.stored = stored.unwrap_or(most);
        self.since = 0;
    }
}

// The call that was answered so, and the alerts that it posted or removed.
fn growth_by(answer: &Answer) -> u64
    ensures { result ≡ min (growth_by answer.now) u64.MAX }
{
    match answer {
        Answer::Posted { valid, place: _ } => u64::from(*valid) + 1,
        Answer::Collected(removed) | Answer::Taken(removed) => removed.saturating_add(1),
        Answer::Subscribed { .. } | Answer::Left { .. } | Answer::CloseAccepted => 1,
        _ => 0,
    }
}
