//! How `{:?}` shows the types whose parts lie in a table that threads share: by their names.

use crate::front::Front;
use crate::history::History;
use crate::history_table::HistoryTable;
use crate::new_history::{NewHistory, Opened};
use crate::timeline::{EntryLedger, Timeline};
use std::fmt;

impl<E, N: Timeline> fmt::Debug for Front<E, N> {
    fn fmt<W: fmt::Write>(&self, f: &mut fmt::Formatter<W>) -> fmt::Result {
        f.debug_struct("Front")
            .field("count", &self.count)
            .finish_non_exhaustive()
    }
}

impl<E, N: Timeline> fmt::Debug for History<E, N> {
    fn fmt<W: fmt::Write>(&self, f: &mut fmt::Formatter<W>) -> fmt::Result {
        f.debug_struct("History")
            .field("count", &self.count)
            .finish_non_exhaustive()
    }
}

impl<E, N: Timeline> fmt::Debug for HistoryTable<E, N> {
    fn fmt<W: fmt::Write>(&self, f: &mut fmt::Formatter<W>) -> fmt::Result {
        f.debug_struct("HistoryTable").finish_non_exhaustive()
    }
}

impl<E> fmt::Debug for NewHistory<E> {
    fn fmt<W: fmt::Write>(&self, f: &mut fmt::Formatter<W>) -> fmt::Result {
        f.debug_struct("NewHistory")
            .field("holders", &self.holders)
            .finish_non_exhaustive()
    }
}

impl<E, N: Timeline> fmt::Debug for Opened<E, N> {
    fn fmt<W: fmt::Write>(&self, f: &mut fmt::Formatter<W>) -> fmt::Result {
        f.debug_struct("Opened").finish_non_exhaustive()
    }
}

impl<N> fmt::Debug for EntryLedger<N> {
    fn fmt<W: fmt::Write>(&self, f: &mut fmt::Formatter<W>) -> fmt::Result {
        f.debug_struct("EntryLedger").finish_non_exhaustive()
    }
}
