//! Posting, to all lanes as one batch.

ghost use Rattle.std.specs.Prelude.{◌≡◌, ◌↔◌, ◌≤◌, ◌<◌, IsTrue, IfOk, IfErr, OnOk, OnErr, IsErrOf, Some, false, [], length};
ghost use mathlib.Core.List.{IsPrefix};
ghost use Rattle.am_alert.specs.declared.post.TheConstants.{MAX_ALERTS};
ghost use Rattle.am_cast.specs.Rule.{cut};
ghost use Rattle.am_store.specs.Journal.{with_call, call_count, is_closed};
ghost use Rattle.am_store.specs.Judging.{AreJudged};
ghost use Rattle.am_provider.specs.BookView.{batches};
ghost use Rattle.am_provider.specs.Posts.{AddsOwn, IsCutTo, PutsOrRefuses, PutsIf, IsPutCause, IsPutIfCause};
ghost use Rattle.am_provider.specs.Posts.{IsAsBefore, Loads, KeepsRest, WasAskedBefore};

use crate::answers::{Posted, PostedIf};
use crate::book::{Book, ENTRIES};
use crate::feed::{Cast, Origin};
use crate::pass::Pass;
use crate::prepared_post::PreparedPost;
use crate::sending::{look_for_room, send_batch};
use am_alert::{Alert, Alerts, Moment, Post};
use am_cast::Published;
use am_store::store::absorb::{Absorbed, PreparedReports};
use am_store::store::judge::Judged;
use am_store::{Call, LaneSet, PutFault};
use std::alloc::AllocError;

impl<N: Origin> Book<N> {
    /// Stores the valid alerts of a post, each into what those before it left, and sends out what
    /// they became as one batch, which the pass then owns. A post with no valid alert is accepted and
    /// sends nothing out.
    pub fn post(
        &mut self,
        cast: &Cast<N>,
        pass: &mut Pass<N>,
        post: Post,
        now: Moment,
    ) -> Result<Posted, PutFault>
        ensures { PutsOrRefuses self.old self.new pass.old pass.new now post result }
    {
        let post = PreparedPost::of(*self.stored.allocator(), post);
        self.post_prepared(cast, pass, post, now)
    }

    /// The same of a post that was prepared before the lock was taken.
    pub(crate) fn post_prepared(
        &mut self,
        cast: &Cast<N>,
        pass: &mut Pass<N>,
        post: PreparedPost,
        now: Moment,
    ) -> Result<Posted, PutFault>
        ensures { PutsOrRefuses self.old self.new pass.old pass.new now post result }
    {
        let (Post { valid, faults }, reports) = post.into_parts();
        if self.log.is_closed() {
            return Err(PutFault::Closed);
        }
        if valid.as_slice().is_empty() {
            self.post_nothing(valid, now)?;
            return Ok(Posted::nothing(faults));
        }
        let valid_count = valid.as_slice().len() as u32;
        let Published { place, cut } = self.post_some(cast, pass, valid, reports, now)?;
        Ok(Posted {
            valid: valid_count,
            place: Some(place),
            cut: LaneSet::from_flags(&cut),
            faults,
        })
    }

    /// Posts those valid alerts that a filter accepts (what `provider/mem`'s Put does by its callback's
    /// PreStore). The filter is shown each alert as it would be stored, over what those before it that it
    /// accepted left, and whether no alert of its label set is stored. One that it refuses is as if it
    /// hadn't been posted. The filter is asked once the log is known to be open.
    pub fn post_if<F: FnMut(&Alert, bool) -> bool>(
        &mut self,
        cast: &Cast<N>,
        pass: &mut Pass<N>,
        post: Post,
        now: Moment,
        accepts: &mut F,
    ) -> Result<PostedIf, PutFault>
        requires { F.IsAlwaysCallable accepts.old }
        ensures posted { IfOk result
            (PutsIf F.FnMut accepts.old accepts.new self.old self.new pass.old pass.new now post) }
        ensures log { IsPrefix (batches self.old) (batches self.new) }
        ensures rest { KeepsRest self.old self.new }

        ensures closed { IsErrOf result PutFault.Closed ↔ IsTrue (is_closed self.old.journal) }
        ensures refused { IfErr result
            (IsPutIfCause F.FnMut accepts.old accepts.new self.old self.new now post) }
        ensures callable { F.IsAlwaysCallable accepts.new }
        ensures err { OnErr result (IsAsBefore self.old self.new × (pass.new ≡ pass.old)) }
    {
        let (accepted, refused) = self.judge(post, now, accepts)?;
        match self.post(cast, pass, accepted, now) {
            Ok(posted) => Ok(PostedIf { posted, refused }),
            Err(fault) => Err(fault),
        }
    }

    // What a filter accepts of a post, and the indices of what it refuses.
    pub(crate) fn judge<F: FnMut(&Alert, bool) -> bool>(
        &mut self,
        post: Post,
        now: Moment,
        accepts: &mut F,
    ) -> Result<(Post, Vec<u32>), PutFault>
        requires { F.IsAlwaysCallable accepts.old }
        ensures judged { IfOk result (λ done. AreJudged F.FnMut now accepts.new accepts.old 0
            self.old.stored post.valid done.0.valid done.1.items) }
        ensures asked { IfErr result
            (WasAskedBefore F.FnMut accepts.old accepts.new now self.old.stored post.valid) }
        ensures callable { F.IsAlwaysCallable accepts.new }
        ensures faults { IfOk result (λ done. done.0.faults ≡ post.faults) }
        ensures same { self.new ≡ self.old }
        ensures open { OnOk result (is_closed self.old.journal ≡ false) }
        ensures refused { IfErr result (IsPutCause self.old self.old 0) }
    {
        if self.log.is_closed() {
            return Err(PutFault::Closed);
        }
        let Post { valid, faults } = post;
        let Judged { accepted, refused } = self.stored.judge(valid, now, accepts)?;
        let accepted = Post {
            valid: accepted,
            faults,
        };
        Ok((accepted, refused))
    }

    // Takes a post with no valid alert.
    fn post_nothing(&mut self, none: Alerts, now: Moment) -> Result<(), AllocError>
        requires open { is_closed self.old.journal ≡ false }
        requires none { none ≡ [] }
        ensures journal { OnOk result
            (self.new.journal ≡ with_call self.old.journal (Call.Posted now [])) }
        ensures last { OnOk result (self.new.gone < call_count self.new.journal) }
        ensures log { self.new.log ≡ self.old.log }
        ensures endings { (self.new.endings ≡ self.old.endings) × (self.new.early ≡ self.old.early)
            × (self.new.policy ≡ self.old.policy) }
        ensures gone { self.new.gone ≡ self.old.gone }
        ensures err { OnErr result (self.new ≡ self.old) }
    {
        self.journal.reserve(ENTRIES)?;
        self.journal.push(Call::Posted { now, alerts: none });
        self.posts += 1;
        Ok(())
    }

    // Takes a post with valid alerts: room first, then the store, then the log; the store is taken back
    // if the log refuses.
    fn post_some(
        &mut self,
        cast: &Cast<N>,
        pass: &mut Pass<N>,
        valid: Alerts,
        reports: Result<PreparedReports, AllocError>,
        now: Moment,
    ) -> Result<Published, PutFault>
        requires prepared { IfOk reports (λ reports. reports ≡ valid) }
        requires given { (is_closed self.old.journal ≡ false) × (0 < length valid) × (length valid ≤ MAX_ALERTS) }
        ensures journal { OnOk result (self.new.journal ≡ with_call self.old.journal (Call.Posted now valid)) }
        ensures last { OnOk result (self.new.gone < call_count self.new.journal) }
        ensures own { IfOk result (λ sent. (sent.place ≡ length (batches self.old))
            × AddsOwn pass.old now valid (Some sent.place) pass.new) }
        ensures log { IsPrefix (batches self.old) (batches self.new) }
        ensures cut { IfOk result (λ sent. IsCutTo self.old self.new sent.cut) }
        ensures loads { Loads self.old.log self.new.log }
        ensures rest { KeepsRest self.old self.new }
        ensures refused { IfErr result (IsPutCause self.old self.new (length valid)) }
        ensures err { OnErr result (IsAsBefore self.old self.new × (pass.new ≡ pass.old)) }
    {
        let policy = self.policy;
        look_for_room(&mut self.log, cast, policy)?;
        self.journal.reserve(ENTRIES)?;
        let Absorbed { batch, undo } = self.stored.absorb(reports?, now)?;
        let call = Call::Posted { now, alerts: valid };
        match send_batch(&mut self.log, cast, policy, batch, &call, &mut pass.pass) {
            Ok((sent, emptied)) => {
                self.tally.add(&mut pass.share, 1);
                self.journal.push(call);
                self.posts += 1;
                self.spent = Some((undo, emptied));
                Ok(sent)
            }
            Err(fault) => {
                self.stored.take_back(undo);
                Err(fault)
            }
        }
    }
}
