//! What a run of the provider is asked for.

ghost use Rattle.std.specs.Prelude.{◌+◌, ◌≤◌};

use crate::words::{number, small_number};
use am_cast::LANES;

/// What is posted.
#[derive(Clone, Copy, Debug, Drop, PartialEq, Eq)]
pub(crate) enum Kind {
    /// Posts that were read before.
    Ready,
    /// Bodies of alerts of four labels.
    Bytes,
    /// Bodies of alerts as Prometheus posts them.
    Full,
}

impl Kind {
    fn read(word: &str) -> Kind {
        if word == "ready" {
            Kind::Ready
        } else if word == "full" {
            Kind::Full
        } else {
            Kind::Bytes
        }
    }
}

/// How much is posted, by how many posters, and to how many readers.
#[derive(Clone, Copy, Debug, Drop)]
pub(crate) struct Load {
    pub(crate) kind: Kind,
    pub(crate) posters: u32,
    pub(crate) readers: u32,
    pub(crate) posts: u64,
    pub(crate) alerts: u64,
    pub(crate) labels: u64,
    pub(crate) compact: u64,
    ghost some: { (1 ≤ posters) × (posters + readers ≤ 64) × (1 ≤ labels) },
}

impl Load {
    pub(crate) fn read(words: &[String]) -> Option<Load> {
        let kind = Kind::read(words.first()?.as_str());
        let posters = small_number(words, 1)?;
        let readers = small_number(words, 2)?;
        let posts = number(words, 3)?;
        let alerts = number(words, 4)?;
        let labels = number(words, 5)?;
        let compact = number(words, 6)?;
        if readers > LANES as u32 || posters == 0 || posters > 64 - readers {
            return None;
        }
        if alerts == 0 || labels == 0 {
            return None;
        }
        Some(Load {
            kind,
            posters,
            readers,
            posts,
            alerts,
            labels,
            compact,
        })
    }

    /// Two posters and two readers of a few posts, with compactions.
    pub(crate) fn small() -> Load {
        Load {
            kind: Kind::Bytes,
            posters: 2,
            readers: 2,
            posts: 100,
            alerts: 3,
            labels: 10,
            compact: 50,
        }
    }
}
