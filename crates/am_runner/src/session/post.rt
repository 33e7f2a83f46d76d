//! Posts: of a body, or of alerts that are read already.

ghost use Rattle.std.specs.Prelude.{◌≡◌, ◌++◌, IfOk, OnOk, map};
ghost use Rattle.am_runner.specs.Putting.{AnswersRead};
ghost use Rattle.am_config.specs.declared.config.Config.{Config};
ghost use Rattle.am_runner.specs.Sessions.{Does, cut_below, setting_of, posted_answers};

use crate::context::Context;
use crate::session::Session;
use am_alert::{AlertFault, Moment, Post, PostFault};
use am_answers::{Answer, one};
use am_posts::{Body, post_from_alerts};
use am_provider::{BodyFault, Caller, Gate, Posted, Recorded};
use am_script::{Command, PutAlerts};
use am_store::LaneSet;
use std::alloc::{AllocError, Global};
use std::sync::Wait;

impl<'p, 'c, N: Recorded> Session<'p, 'c, N> {
    pub(super) fn post<R: Wait, G: Gate>(
        &mut self,
        context: &Context<'p, 'c, N, R, G>,
        at: Moment,
        body: &Body,
    ) -> Result<Vec<Answer>, AllocError>
        ensures { IfOk result (λ answers. (config : Config)
            → Does config (setting_of N.places N.policy context.now.provider.now.resolve_timeout)
            self.old (Command.Post at body.now) answers.items self.new) }
    {
        let read = body.read(context.alloc, at, context.provider.resolve_timeout());
        let posted = match put_read(context, &mut self.caller, at, read) {
            Ok(posted) => posted,
            Err(why) => return one(context.alloc, Answer::PostRefused(why)),
        };
        posted_answers(context.alloc, &posted)
    }

    pub(super) fn put<R: Wait, G: Gate>(
        &mut self,
        context: &Context<'p, 'c, N, R, G>,
        at: Moment,
        alerts: &PutAlerts,
    ) -> Result<Vec<Answer>, AllocError>
        ensures { IfOk result (λ answers. (config : Config)
            → Does config (setting_of N.places N.policy context.now.provider.now.resolve_timeout)
            self.old (Command.Put at alerts.now) answers.items self.new) }
    {
        let read = post_from_alerts(context.alloc, alerts.as_slice());
        let posted = match put_read(context, &mut self.caller, at, read) {
            Ok(posted) => posted,
            Err(why) => return one(context.alloc, Answer::PostRefused(why)),
        };
        posted_answers(context.alloc, &posted)
    }
}

// Posts what was read, if it was.
fn put_read<N: Recorded, R: Wait, G: Gate>(
    context: &Context<'_, '_, N, R, G>,
    caller: &mut Caller<N>,
    at: Moment,
    read: Result<Post, PostFault>,
) -> Result<Posted, BodyFault>
    ensures { AnswersRead (λ answer. answer ≡ read) N.policy N.places at
        caller.old.pass caller.new.pass caller.old.front caller.new.front result }
{
    let post = match read {
        Ok(post) => post,
        Err(fault) => return Err(BodyFault::Unread(fault)),
    };
    match context
        .provider
        .put(context.rt, caller, context.turns, post, at)
    {
        Ok(posted) => Ok(posted),
        Err(fault) => Err(BodyFault::Put(fault)),
    }
}

// That a post was accepted, its invalid alerts, and the lanes that it cut.
fn posted_answers(alloc: Global, posted: &Posted) -> Result<Vec<Answer>, AllocError>
    ensures { IfOk result (λ answers. answers.items ≡ posted_answers posted.now) }
{
    let mut answers = one(
        alloc,
        Answer::Posted {
            valid: posted.valid,
            place: posted.place,
        },
    )?;
    add_invalid(&mut answers, posted.faults.as_slice())?;
    add_cut(&mut answers, posted.cut)?;
    Ok(answers)
}

fn add_invalid(answers: &mut Vec<Answer>, faults: &[(u32, AlertFault)]) -> Result<(), AllocError>
    ensures { OnOk result (answers.new.items
        ≡ answers.old.items ++ map (λ fault. Answer.Invalid fault.0 fault.1) faults.now) }
{
    for fault in faults {
        answers.push(Answer::Invalid {
            index: fault.0,
            fault: fault.1,
        })?;
    }
    Ok(())
}

fn add_cut(answers: &mut Vec<Answer>, lanes: LaneSet) -> Result<(), AllocError>
    ensures { OnOk result
        (answers.new.items ≡ answers.old.items ++ map Answer.CutLane (cut_below lanes 8)) }
{
    for lane in 0..8u32 {
        if lanes.contains(lane) {
            answers.push(Answer::CutLane(lane))?;
        }
    }
    Ok(())
}
