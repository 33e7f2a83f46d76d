//! Posts: a body is read, and its alerts are put into blocks, before the lock is taken. They are merged under it.

ghost use Rattle.std.specs.Prelude.{◌≡◌, IfOk, OnErr};
ghost use Rattle.std.specs.Duration.{as_nanos};
ghost use Rattle.am_provider.specs.Callers.{AnswersBody, AnswersPostIf, SeesCall};
ghost use Rattle.am_provider.specs.Headline.{AnswersPost};
ghost use Rattle.am_provider.specs.Posts.{AddsOwn};

use crate::answers::{Posted, PostedIf};
use crate::caller::Caller;
use crate::feed::Recorded;
use crate::gate::Gate;
use crate::prepared_post::PreparedPost;
use crate::provider::Provider;
use am_alert::{Alert, Moment, Post};
use am_posts::read_post;
use am_store::{BodyFault, PutFault};
use std::sync::Wait;

impl<N: Recorded> Provider<N> {
    /// Reads a post's body, and then posts its valid alerts. The body is read before the lock is
    /// taken.
    pub fn post<R: Wait, G: Gate>(
        &self,
        rt: &R,
        caller: &mut Caller<N>,
        gate: &G,
        body: &[u8],
        now: Moment,
    ) -> Result<Posted, BodyFault>
        ensures { AnswersBody N.policy N.places now (as_nanos self.now.resolve_timeout) body.now
            caller.old.pass caller.new.pass caller.old.front caller.new.front result }
    {
        let post = match read_post(self.alloc, body, now, self.resolve_timeout) {
            Ok(post) => post,
            Err(fault) => return Err(BodyFault::Unread(fault)),
        };
        match self.put(rt, caller, gate, post, now) {
            Ok(posted) => Ok(posted),
            Err(fault) => Err(BodyFault::Put(fault)),
        }
    }

    /// Posts the valid alerts of a post that was read or made before (`provider.Alerts`' Put).
    pub fn put<R: Wait, G: Gate>(
        &self,
        rt: &R,
        caller: &mut Caller<N>,
        gate: &G,
        post: Post,
        now: Moment,
    ) -> Result<Posted, PutFault>
        ensures sees { SeesCall caller.old.front caller.new.front
            (AnswersPost N.policy N.places now post result) }
        ensures own { IfOk result (λ posted.
            AddsOwn caller.old.pass now post.valid posted.place caller.new.pass) }
        ensures err { OnErr result (caller.new.pass ≡ caller.old.pass) }
    {
        let post = PreparedPost::of(self.alloc, post);
        let (answer, _spent) = {
            let recorded = &mut *self.lock(rt);
            gate.held(rt);
            let answer = recorded.post(&self.cast, &self.table, caller, post, now);
            (answer, recorded.book.take_spent())
        };
        self.cast.wake();
        answer
    }

    /// Posts those valid alerts that a filter accepts (what `provider/mem`'s Put does by its callback's
    /// PreStore). The filter is asked under the lock: it gets each alert as it would be stored, over what the
    /// accepted ones before it left, and whether no alert of its label set is stored. One that it refuses is
    /// as if it hadn't been posted. It is asked once of each, in order, and can be asked afterwards what it
    /// counted.
    pub fn put_if<R: Wait, G: Gate, F: FnMut(&Alert, bool) -> bool>(
        &self,
        rt: &R,
        caller: &mut Caller<N>,
        gate: &G,
        post: Post,
        now: Moment,
        accepts: &mut F,
    ) -> Result<PostedIf, PutFault>
        requires { F.IsAlwaysCallable accepts.old }
        ensures answers { AnswersPostIf F.FnMut accepts.old accepts.new N.policy N.places now post
            caller.old.pass caller.new.pass caller.old.front caller.new.front result }
        ensures callable { F.IsAlwaysCallable accepts.new }
    {
        let (done, _spent) = {
            let recorded = &mut *self.lock(rt);
            gate.held(rt);
            recorded.book.kept();
            let (accepted, refused) = match recorded.book.judge(post, now, accepts) {
                Ok(judged) => judged,
                Err(fault) => {
                    recorded.history.show(&self.table, &mut caller.front);
                    return Err(fault);
                }
            };
            // What is accepted is known only here, so that its blocks are made under the lock.
            let accepted = PreparedPost::of(self.alloc, accepted);
            let posted = match recorded.post(&self.cast, &self.table, caller, accepted, now) {
                Ok(posted) => posted,
                Err(fault) => return Err(fault),
            };
            (PostedIf { posted, refused }, recorded.book.take_spent())
        };
        self.cast.wake();
        Ok(done)
    }
}
