//! Publishing one item, for a caller that has no batch of it.
ghost use Rattle.std.specs.Prelude.{◌≡◌, ◌<◌, [], ℕ, IfOk, ◌∷◌, IfErr, OnOk, OnErr};
ghost use Rattle.am_cast.specs.declared.limits.TheConstants.{LANES};
ghost use Rattle.am_cast.specs.Seats.{account_of};
ghost use Rattle.am_cast.specs.Writers.{AreLoaded, StaysAs};
ghost use Rattle.am_cast.specs.Posters.{IsPosted, KnowsOwn};
ghost use Rattle.am_cast.specs.Refusals.{IsRefusal};

use crate::cursor::Cast;
use crate::faults::{PublishFault, RefusedItem};
use crate::feed::Feed;
use crate::pass::Pass;
use crate::writer::Writer;
use am_segment::SegmentBuilder;
use std::alloc::Global;
use std::snapshot::Snapshot;

impl<T: Drop, N: Feed, P, A> Writer<T, N, P, A> {
    /// As `publish`, of a batch of this one item: in a spare block of one place if there is one, or in new memory.
    pub fn publish_one(
        &mut self,
        alloc: Global,
        cast: &Cast<T, N, P, A>,
        item: T,
        post: Snapshot<P>,
        pass: &mut Pass<T, N, P, A>,
    ) -> Result<u64, RefusedItem<T>>
        ensures ok { IfOk result (IsPosted (item ∷ []) post.value self.old self.new pass.old pass.new) }
        ensures known { OnOk result (KnowsOwn pass.old pass.new) }
        ensures lanes { (l : ℕ) → l < LANES → StaysAs (account_of self.old l) (account_of self.new l) }
        ensures loads { AreLoaded self.old self.new }

        ensures err { OnErr result ((self.new.tail ≡ self.old.tail) × (pass.new ≡ pass.old)) }
        ensures refused { IfErr result (λ e. (e.item ≡ item) × IsRefusal self.old self.new e.fault) }
    {
        let full = self.harvest(cast);
        if let Some(fault) = self.fault_of(full) {
            return Err(RefusedItem { fault, item });
        }
        let batch = match self.batch_of(alloc, item) {
            Ok(batch) => batch,
            Err(item) => {
                let fault = PublishFault::NoMemory;
                return Err(RefusedItem { fault, item });
            }
        };
        match self.publish_harvested(cast, batch, post, pass) {
            Ok(place) => Ok(place),
            Err(batch) => {
                let fault = PublishFault::NoMemory;
                let item = item_of(batch);
                Err(RefusedItem { fault, item })
            }
        }
    }

    // A batch of this item. It comes back if there is no memory.
    fn batch_of(&mut self, alloc: Global, item: T) -> Result<SegmentBuilder<T>, T>
        ensures same { self.new ≡ self.old }
        ensures ok { IfOk result (λ batch. batch.items ≡ item ∷ []) }
        ensures err { IfErr result (λ back. back ≡ item) }
    {
        let mut batch = match self.spare(1) {
            Some(batch) => batch,
            None => match SegmentBuilder::with_places(alloc, 1) {
                Ok(batch) => batch,
                Err(_) => return Err(item),
            },
        };
        let Ok(()) = batch.push(item) else {
            unreachable!()
        };
        Ok(batch)
    }
}

// The one item of a batch, whose block is freed.
fn item_of<T>(batch: SegmentBuilder<T>) -> T
    requires { (item : T) × (batch.items ≡ item ∷ []) }
    ensures { batch.items ≡ result ∷ [] }
{
    let mut batch = batch;
    let Some(item) = batch.pop() else {
        unreachable!()
    };
    batch.free();
    item
}
