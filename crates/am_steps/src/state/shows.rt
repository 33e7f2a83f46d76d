//! Whether a state is the one that `plain.rt` has, field by field, for tests.
use crate::cursor::Cursor;
use crate::lane::Lane;
use crate::lane_record::LaneRecord;
use crate::plain::{Plain, PlainLane, PlainPoster, Stage};
use crate::poster::Poster;
use crate::state::State;

impl State {
    pub(crate) fn shows(&self, plain: &Plain) -> bool {
        self.places == plain.places
            && self.log.as_slice() == plain.log.as_slice()
            && self.closed == plain.closed
            && self.lanes.len() == plain.lanes.len()
            && self.posters.len() == plain.posters.len()
            && self
                .lanes
                .iter()
                .zip(plain.lanes.iter())
                .all(|(lane, plain)| lane_shows(lane, plain))
            && self
                .posters
                .iter()
                .zip(plain.posters.iter())
                .all(|(it, plain)| poster_shows(it, plain))
    }
}

fn lane_shows(lane: &Lane<u64>, plain: &PlainLane) -> bool {
    match (lane, plain.stage) {
        (Lane::Idle, Stage::Idle) => true,
        (Lane::Admitted(record), Stage::Admitted) => {
            let cut = if record.cut { 1 } else { 0 };
            record_shows(record, plain)
                && plain.word == record.start.wrapping_mul(4).wrapping_add(cut)
        }
        (Lane::Open(record, cursor), Stage::Open) => {
            record_shows(record, plain)
                && cursor_shows(cursor, plain)
                && record.cut == (plain.word % 2 == 1)
        }
        (Lane::Left(record), Stage::Left) => record_shows(record, plain),
        _ => false,
    }
}

fn record_shows(record: &LaneRecord, plain: &PlainLane) -> bool {
    record.start == plain.start
        && record.known == plain.found / 4
        && record.key_out == (plain.found / 2 % 2 == 1)
        && record.cut == (plain.found % 2 == 1)
}

fn cursor_shows(cursor: &Cursor<u64>, plain: &PlainLane) -> bool {
    cursor.passed == plain.word / 4
        && cursor.held == (plain.word / 2 % 2 == 1)
        && cursor.seen == plain.seen
        && cursor.told == plain.told
        && cursor.told_cut == plain.told_cut
        && cursor.got.names.as_slice() == plain.got.as_slice()
}

fn poster_shows(poster: &Poster<u64>, plain: &PlainPoster) -> bool {
    poster.places_known == plain.places_known && poster.own.posts.as_slice() == plain.own.as_slice()
}
