//! A seat compares what it knows.
ghost use Rattle.std.specs.Prelude.{◌≡◌, ◌≢◌, ◌<◌, None, Some, length};
ghost use Rattle.am_cast.specs.declared.limits.TheConstants.{LANES};
ghost use Rattle.am_cast.specs.Changes.{both_of, only_lane, without_lane};
ghost use Rattle.am_cast.specs.Rule.{Sound, idle};
ghost use Rattle.am_cast.specs.Steps.{Weighed, Weighs};
ghost use Rattle.am_cast.specs.Seats.{IsSized, account_of, lane_of, writer_of};

use crate::board::admit::Deal;
use crate::board::take_in::Hear;
use crate::rule::{AnySeat, AnyTop, Keyed};
use crate::views::View;
use atomic_table::Play;

pub(crate) struct Weigh;

impl<B, K, A> Play<Option<K>, View<B, K, A>> for Weigh {
    ghost then = { Weighs };
}

/// A load that tells what the seat's parts say of each other.
pub(crate) fn weigh_view<B, K, A, R: Keyed<B, K>>(
    top: &AnyTop<B, K, A, R>,
    seat: &mut AnySeat<B, K, A>,
)
    requires table { (seat.old.table_id ≡ top.now.table_id) × IsSized top.now.table_id }
    ensures same { (seat.new.table_id ≡ seat.old.table_id) × (seat.new.me.0 ≡ seat.old.me.0)
        × (seat.new.me.1 ≡ seat.old.me.1) }
    ensures weighed { Weighed seat.old.me.0 }
{
    top.load::<Weigh>(seat, 0);
}

/// What the writer's seat and a lane's say of each other. What each of them has and knows of it stays; what they had
/// heard of the log may be forgotten. A slot in the lane's hand stays there.
pub(crate) fn weigh_lane<B, K, A, R: Keyed<B, K>>(
    top: &AnyTop<B, K, A, R>,
    writer: &mut AnySeat<B, K, A>,
    reader: &mut AnySeat<B, K, A>,
)
    requires table { (writer.old.table_id ≡ top.now.table_id)
        × (reader.old.table_id ≡ top.now.table_id) × IsSized top.now.table_id }
    requires writer { let q = writer_of writer.old.me.0 in (writer.old.me.0.writer ≡ Some q)
        × (length q.accounts ≡ LANES) × (writer.old.me.0.lane ≡ None) }
    requires reader { let v = lane_of reader.old.me.0 in (reader.old.me.0.lane ≡ Some v)
        × (v.number < LANES) × (reader.old.me.0.writer ≡ None) }
    ensures writer { (writer.new.table_id ≡ writer.old.table_id) × (writer.new.me.1 ≡ writer.old.me.1)
        × (writer.new.me.0.writer ≡ writer.old.me.0.writer) × (writer.new.me.0.lane ≡ None)
        × (writer.new.me.0.own ≡ writer.old.me.0.own) }
    ensures reader { (reader.new.table_id ≡ reader.old.table_id) × (reader.new.me.1 ≡ reader.old.me.1)
        × (reader.new.me.0.lane ≡ reader.old.me.0.lane) × (reader.new.me.0.writer ≡ None)
        × (reader.new.me.0.own ≡ reader.old.me.0.own) }
    ensures sound { let q = writer_of writer.old.me.0 in let v = lane_of reader.old.me.0 in
        Sound q.tail (account_of q v.number) v v.number × ((account_of q v.number).stand ≢ idle) }
{
    let lane = top.split_seat::<Deal>(reader);
    top.join_seat::<Hear>(writer, lane);
    weigh_view(top, writer);
    let back = top.split_seat::<Deal>(writer);
    top.join_seat::<Hear>(reader, back);
}
