//! What is stored: all of it, a page, one alert, and what a collection removes.

ghost use Rattle.std.specs.Prelude.{◌≡◌, ◌++◌, ◌∷◌, [], IfOk, OnErr, OnOk, map, option_map};
ghost use Rattle.std.specs.Arc.{arc_value};
ghost use Rattle.am_config.specs.declared.config.Config.{Config};
ghost use Rattle.am_runner.specs.Sessions.{Does, Setting, found_answer, stored_answers, page_answers};
ghost use Rattle.am_runner.specs.Sessions.{taken_answers};
ghost use Rattle.am_runner.specs.Unanswered.{IsDone};
ghost use Rattle.am_provider.specs.Callers.{SeesCall};
ghost use Rattle.am_provider.specs.Headline.{AnswersPage};

use crate::context::Context;
use crate::session::Session;
use am_alert::Moment;
use am_answers::{Answer, PageHead, RoomForAnswer, one};
use am_labels::LabelSet;
use am_provider::{Page, Recorded};
use am_script::{Command, Verb};
use am_store::{SharedAlert, StoredAlerts};
use std::alloc::{AllocError, Global};
use std::sync::Wait;

impl<'p, 'c, N: Recorded> Session<'p, 'c, N> {
    pub(super) fn collect<R: Wait, G>(
        &mut self,
        context: &Context<'p, 'c, N, R, G>,
        at: Moment,
    ) -> Result<Vec<Answer>, AllocError>
        ensures does { IfOk result (λ answers. (config : Config) (setting : Setting) → Does config setting
            self.old (Command.Collect at) answers.items self.new) }
        ensures err { OnErr result (self.new ≡ self.old) }
    {
        let room = RoomForAnswer::make(context.alloc)?;
        let provider = context.provider;
        let removed = match provider.collect_resolved(context.rt, &mut self.caller, at) {
            Ok(removed) => removed,
            Err(_) => return Ok(room.filled(Answer::OutOfMemory(Verb::Collect))),
        };
        Ok(room.filled(Answer::Collected(removed)))
    }

    pub(super) fn take<R: Wait, G>(
        &mut self,
        context: &Context<'p, 'c, N, R, G>,
        at: Moment,
    ) -> Result<Vec<Answer>, AllocError>
        ensures { IfOk result (λ answers. (config : Config) (setting : Setting) → Does config setting
            self.old (Command.Take at) answers.items self.new) }
    {
        let provider = context.provider;
        let removed = match provider.take_resolved(context.rt, &mut self.caller, at) {
            Ok(removed) => removed,
            Err(_) => return one(context.alloc, Answer::OutOfMemory(Verb::Take)),
        };
        taken_answers(context.alloc, &removed)
    }

    pub(super) fn stored<R: Wait, G>(
        &mut self,
        context: &Context<'p, 'c, N, R, G>,
    ) -> Result<Vec<Answer>, AllocError>
        ensures does { IfOk result (λ answers. (config : Config) (setting : Setting) → Does config setting
            self.old Command.Stored answers.items self.new) }
        ensures asked { OnErr result ((config : Config) (setting : Setting)
            → IsDone config setting self.old Command.Stored self.new) }
    {
        let provider = context.provider;
        let stored = match provider.stored(context.rt, &mut self.caller) {
            Ok(stored) => stored,
            Err(_) => return one(context.alloc, Answer::OutOfMemory(Verb::Stored)),
        };
        stored_answers(context.alloc, &stored)
    }

    pub(super) fn stored_page<R: Wait, G>(
        &mut self,
        context: &Context<'p, 'c, N, R, G>,
        from: u32,
        max: u32,
    ) -> Result<Vec<Answer>, AllocError>
        ensures does { IfOk result (λ answers. (config : Config) (setting : Setting) → Does config setting
            self.old (Command.StoredPage from max) answers.items self.new) }
        ensures asked { OnErr result ((config : Config) (setting : Setting)
            → IsDone config setting self.old (Command.StoredPage from max) self.new) }
    {
        let page = match self.page(context, from, max) {
            Ok(page) => page,
            Err(_) => return one(context.alloc, Answer::OutOfMemory(Verb::Stored)),
        };
        page_answers(context.alloc, from, &page)
    }

    pub(super) fn page<R: Wait, G>(
        &mut self,
        context: &Context<'p, 'c, N, R, G>,
        from: u32,
        max: u32,
    ) -> Result<Page, AllocError>
        ensures sees { SeesCall self.old.front self.new.front (AnswersPage from max result) }
        ensures same { self.new ≡ record self.old { front = self.new.front } }
    {
        let (from, max) = (u64::from(from), u64::from(max));
        context
            .provider
            .stored_page(context.rt, &mut self.caller, from, max)
    }

    pub(super) fn get<R: Wait, G>(
        &mut self,
        context: &Context<'p, 'c, N, R, G>,
        labels: &LabelSet,
    ) -> Result<Answer, AllocError>
        ensures does { IfOk result (λ answer. (config : Config) (setting : Setting) → Does config setting
            self.old (Command.Get labels.now) (answer ∷ []) self.new) }
        ensures asked { OnErr result ((config : Config) (setting : Setting)
            → IsDone config setting self.old (Command.Get labels.now) self.new) }
    {
        let provider = context.provider;
        let found = match provider.get(context.rt, &mut self.caller, labels) {
            Ok(found) => found,
            Err(_) => return Ok(Answer::OutOfMemory(Verb::Get)),
        };
        found_answer(&found)
    }
}

// How many alerts are stored, and each of them.
fn stored_answers(alloc: Global, stored: &StoredAlerts) -> Result<Vec<Answer>, AllocError>
    ensures { IfOk result (λ answers. answers.items ≡ stored_answers stored.now) }
{
    let mut answers = one(alloc, Answer::StoredCount(stored.len() as u64))?;
    add_stored(&mut answers, stored)?;
    Ok(answers)
}

// How many alerts a collection removed, and each of them.
fn taken_answers(alloc: Global, removed: &StoredAlerts) -> Result<Vec<Answer>, AllocError>
    ensures { IfOk result (λ answers. answers.items ≡ taken_answers removed.now) }
{
    let mut answers = one(alloc, Answer::Taken(removed.len() as u64))?;
    add_stored(&mut answers, removed)?;
    Ok(answers)
}

// What a page from an index on is a page of, and each of its alerts.
fn page_answers(alloc: Global, from: u32, page: &Page) -> Result<Vec<Answer>, AllocError>
    ensures { IfOk result (λ answers. answers.items ≡ page_answers from page.now) }
{
    let alerts = &page.alerts;
    let mut answers = one(
        alloc,
        Answer::Page(PageHead {
            alerts: alerts.len() as u64,
            from: u64::from(from),
            stored: page.stored,
            calls: page.calls,
        }),
    )?;
    add_stored(&mut answers, alerts)?;
    Ok(answers)
}

fn add_stored(answers: &mut Vec<Answer>, stored: &StoredAlerts) -> Result<(), AllocError>
    ensures { OnOk result
        (answers.new.items ≡ answers.old.items ++ map Answer.StoredAlert stored.now) }
{
    for alert in stored {
        answers.push(Answer::StoredAlert(alert.copy()?))?;
    }
    Ok(())
}

// The stored alert that was found, if one was.
fn found_answer(found: &Option<SharedAlert>) -> Result<Answer, AllocError>
    ensures { IfOk result (λ answer. answer ≡ found_answer (option_map arc_value found.now)) }
{
    match found {
        Some(alert) => Ok(Answer::StoredAlert(alert.copy()?)),
        None => Ok(Answer::NotStored),
    }
}
