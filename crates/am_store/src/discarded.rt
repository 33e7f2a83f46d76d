//! What trims and compactions take out of memory, for who drops it later: a caller that has a lock to give back first.

use crate::call::Call;
use crate::lanes::OpenLane;
use crate::shared_alerts::StoredAlerts;
use std::alloc::Global;

/// What was taken out of memory: calls, what was stored before a journal's first call, and openings.
#[derive(Debug, Drop)]
pub struct Discarded {
    // Whether it is kept here until this is dropped, as far as there is memory for a list of it, and not dropped at once.
    keeps: bool,
    calls: Vec<Call>,
    lists: Vec<StoredAlerts>,
}

impl Discarded {
    /// Nothing yet. It keeps what comes, or drops it at once.
    pub fn new(alloc: Global, keeps: bool) -> Discarded {
        Discarded {
            keeps,
            calls: Vec::new(alloc),
            lists: Vec::new(alloc),
        }
    }

    // Makes room for that many calls more.
    pub(crate) fn reserve(&mut self, calls: usize) {
        if self.keeps {
            let _ = self.calls.reserve(calls);
        }
    }

    pub(crate) fn add_call(&mut self, call: Call) {
        if self.keeps {
            let _ = self.calls.push(call);
        }
    }

    pub(crate) fn add_list(&mut self, list: StoredAlerts) {
        if self.keeps {
            let _ = self.lists.push(list);
        }
    }

    pub(crate) fn add_opening(&mut self, lane: Option<OpenLane>) {
        if let Some(OpenLane { at: _, opening }) = lane {
            self.add_list(opening);
        }
    }
}
