//! Sending a batch out: the segment of its alerts, and its place in the log.

ghost use Rattle.std.specs.Prelude.{◌≡◌, ◌≢◌, ◌<◌, false, length, IfOk, IfErr, OnOk, OnErr};
ghost use Rattle.std.specs.Arc.{arc_value};
ghost use Rattle.am_store.specs.Shared.{alerts_in};
ghost use Rattle.am_cast.specs.declared.limits.TheConstants.{LONGEST_LOG};
ghost use Rattle.am_cast.specs.Writers.{Harvested, HasRoom};
ghost use Rattle.am_provider.specs.declared.answers.Policy.TheVariants.{Refuse};
ghost use Rattle.am_provider.specs.Rising.{AreBelow};
ghost use Rattle.am_provider.specs.Sending.{IsLogCause, IsSent, IsUnsent, NamesALane, fault_as_put};

use crate::answers::Policy;
use crate::feed::{Cast, Origin, Writer};
use crate::item::Item;
use am_cast::{LONGEST_LOG, PublishFault, Published, Refused};
use am_segment::SegmentBuilder;
use am_store::lanes::OpenLane;
use am_store::{Call, PutFault, SharedAlert};
use std::alloc::AllocError;
use std::snapshot::Snapshot;
use std::vec;

/// The pass as the log has it.
pub(crate) type LogPass<N> = am_cast::Pass<Item, N, Call, OpenLane>;

/// A batch's list, whose alerts were taken out of it.
pub(crate) type EmptiedBatch = vec::IntoIter<SharedAlert>;

// A segment of these alerts, and the list that they were in. If a segment of their number has ended, it lies where
// that one was.
fn segment_of<N: Origin>(
    writer: &mut Writer<N>,
    batch: Vec<SharedAlert>,
) -> Result<(SegmentBuilder<Item>, EmptiedBatch), AllocError>
    requires { 0 < length batch.items }
    ensures segment { IfOk result (λ made. made.0.items ≡ alerts_in batch.items) }
    ensures same { writer.new ≡ writer.old }
{
    let mut segment = match writer.spare(batch.len()) {
        Some(segment) => segment,
        None => SegmentBuilder::with_places(*batch.allocator(), batch.len())?,
    };
    let mut alerts = batch.into_iter();
    while let Some(alert) = alerts.next() {
        match segment.push(Item::new(alert)) {
            Ok(()) => {}
            Err(_) => unreachable!(),
        }
    }
    Ok((segment, alerts))
}

/// Looks at the lanes, and says why the log takes no batch, if it takes none.
pub(crate) fn look_for_room<N: Origin>(
    writer: &mut Writer<N>,
    cast: &Cast<N>,
    policy: Policy,
) -> Result<(), PutFault>
    requires { writer.old.tail.closed ≡ false }
    ensures harvested { Harvested writer.old writer.new 8 }
    ensures few { OnOk result (length writer.new.tail.log < LONGEST_LOG) }
    ensures room { OnOk result (policy ≡ Refuse → HasRoom writer.new 8) }
    ensures refused { IfErr result (λ fault. (fault ≢ PutFault.Closed) × (fault ≢ PutFault.NoMemory)
        × IsLogCause policy writer.old writer.new fault) }
{
    let full = writer.harvest(cast);
    if writer.len() >= LONGEST_LOG {
        return Err(PutFault::LogEnd);
    }
    match (policy, full) {
        (Policy::Refuse, Some((lane, passed))) => Err(PutFault::Full {
            lane: lane as u32,
            passed,
        }),
        _ => Ok(()),
    }
}

/// Sends a batch of alerts out, or says why the log doesn't take it. The batch's list comes back: whoever holds the
/// lock frees it after the unlock.
pub(crate) fn send_batch<N: Origin>(
    writer: &mut Writer<N>,
    cast: &Cast<N>,
    policy: Policy,
    batch: Vec<SharedAlert>,
    call: &Call,
    pass: &mut LogPass<N>,
) -> Result<(Published, EmptiedBatch), PutFault>
    requires some { 0 < length batch.items }
    requires open { (writer.old.tail.closed ≡ false) × (length writer.old.tail.log < LONGEST_LOG) }
    requires room { policy ≡ Refuse → HasRoom writer.old 8 }
    ensures sent { IfOk result (λ done. IsSent policy writer.old writer.new pass.old pass.new call.now (alerts_in batch.items) done.0.place done.0.cut) }
    ensures above { IfOk result (λ done. AreBelow done.0.place pass.old.own) }
    ensures unsent { IfErr result (λ fault. IsUnsent policy writer.old writer.new fault) }
    ensures err { OnErr result (pass.new ≡ pass.old) }
{
    let (segment, emptied) = segment_of(writer, batch)?;
    match send(writer, cast, policy, segment, call, pass) {
        Ok(sent) => {
            // The writer hears which places are the pass's: the new one is above them all.
            writer.confirm(cast, pass);
            Ok((sent, emptied))
        }
        Err(fault) => Err(fault),
    }
}

// The batch goes out as the log's next place, which becomes the pass's own, or it is dropped and says
// why. If slow lanes are to be cut, they are looked at once more: one that has moved on isn't cut.
fn send<N: Origin>(
    writer: &mut Writer<N>,
    cast: &Cast<N>,
    policy: Policy,
    batch: SegmentBuilder<Item>,
    call: &Call,
    pass: &mut LogPass<N>,
) -> Result<Published, PutFault>
    requires some { 0 < length batch.items }
    requires open { (writer.old.tail.closed ≡ false) × (length writer.old.tail.log < LONGEST_LOG) }
    requires room { policy ≡ Refuse → HasRoom writer.old 8 }
    ensures sent { IfOk result (λ sent. IsSent policy writer.old writer.new pass.old pass.new call.now batch.items sent.place sent.cut) }
    ensures unsent { IfErr result (λ fault. IsUnsent policy writer.old writer.new fault) }
    ensures err { OnErr result (pass.new ≡ pass.old) }
{
    let post = Snapshot::of(call);
    match policy {
        Policy::Refuse => match writer.publish_harvested(cast, batch, post, pass) {
            Ok(place) => Ok(Published {
                place,
                cut: [false; 8],
            }),
            Err(batch) => {
                batch.discard();
                Err(PutFault::NoMemory)
            }
        },
        Policy::Cut => match writer.publish_cutting(cast, batch, post, pass) {
            Ok(sent) => Ok(sent),
            Err(refused) => Err(give_up(refused)),
        },
    }
}

// Drops a batch that the log refused, and answers why in the provider's words.
fn give_up(refused: Refused<Item>) -> PutFault
    requires { NamesALane refused.fault }
    ensures { result ≡ fault_as_put refused.fault }
{
    let Refused { fault, batch } = refused;
    batch.discard();
    match fault {
        PublishFault::NoMemory => PutFault::NoMemory,
        PublishFault::Closed => PutFault::Closed,
        PublishFault::LogEnd => PutFault::LogEnd,
        PublishFault::Full { lane, passed } => PutFault::Full {
            lane: lane as u32,
            passed,
        },
        _ => unreachable!(),
    }
}
