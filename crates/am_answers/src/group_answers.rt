//! What is answered of the groups of a dispatcher, and of what mutes their alerts.

ghost use Rattle.std.specs.Prelude.{◌≡◌, ◌++◌, ◌∷◌, [], Some, IfOk, OnOk, flat_map, map};
ghost use Rattle.std.specs.Option.{option_map};
ghost use Rattle.am_answers.specs.Consuming.{answers_of_each, answers_of_group, answers_of_group_at};
ghost use Rattle.am_answers.specs.Consuming.{answers_of_member, head_of_group, muting_at};
ghost use Rattle.am_answers.specs.Consumers.{unasked};

use crate::answer::{Answer, GroupHead};
use am_alert::{Alert, Moment};
use am_inhibit::Inhibitor;
use am_labels::{LabelSet, Text};
use am_routes::Group;
use std::alloc::{AllocError, Global};

// Each group, followed by its alerts. With an inhibitor and a moment each alert is followed by what mutes it then.
pub(crate) fn groups_of(
    alloc: Global,
    groups: &[Group<'_>],
    inhibitor: &mut Option<Inhibitor<'_>>,
    at: Option<Moment>,
) -> Result<Vec<Answer>, AllocError>
    ensures answers { IfOk result (λ answers.
        answers.items ≡ answers_of_each at (option_map unasked inhibitor.old) groups.now) }
    ensures same { option_map unasked inhibitor.new ≡ option_map unasked inhibitor.old }
{
    match at {
        Some(now) => groups_for(alloc, groups, inhibitor, now),
        None => plain_groups(alloc, groups),
    }
}

fn groups_for(
    alloc: Global,
    groups: &[Group<'_>],
    inhibitor: &mut Option<Inhibitor<'_>>,
    now: Moment,
) -> Result<Vec<Answer>, AllocError>
    ensures answers { IfOk result (λ answers.
        answers.items ≡ answers_of_each (Some now) (option_map unasked inhibitor.old) groups.now) }
    ensures same { option_map unasked inhibitor.new ≡ option_map unasked inhibitor.old }
{
    match inhibitor {
        Some(inhibitor) => groups_at(alloc, groups, inhibitor, now),
        None => plain_groups(alloc, groups),
    }
}

fn plain_groups(alloc: Global, groups: &[Group<'_>]) -> Result<Vec<Answer>, AllocError>
    ensures { IfOk result (λ answers. answers.items ≡ flat_map answers_of_group groups.now) }
{
    let mut answers = Vec::new(alloc);
    for group in groups {
        add_group(&mut answers, group)?;
    }
    Ok(answers)
}

fn add_group(answers: &mut Vec<Answer>, group: &Group<'_>) -> Result<(), AllocError>
    ensures { OnOk result
        (answers.new.items ≡ answers.old.items ++ answers_of_group group.now) }
{
    add_group_line(answers, group)?;
    add_members(answers, group.alerts())
}

fn add_group_line(answers: &mut Vec<Answer>, group: &Group<'_>) -> Result<(), AllocError>
    ensures { OnOk result
        (answers.new.items ≡ answers.old.items ++ Answer.Group (head_of_group group.now) ∷ []) }
{
    let alloc = *answers.allocator();
    answers.push(Answer::Group(GroupHead {
        route: group.route().0,
        receiver: Text::from_str(alloc, group.receiver())?,
        labels: group.labels().copy()?,
        alerts: group.alerts().len() as u64,
    }))?;
    Ok(())
}

fn add_members(answers: &mut Vec<Answer>, alerts: &[Alert]) -> Result<(), AllocError>
    ensures { OnOk result
        (answers.new.items ≡ answers.old.items ++ map Answer.Member alerts.now) }
{
    for alert in alerts {
        answers.push(Answer::Member(alert.copy()?))?;
    }
    Ok(())
}

// Each group, followed by its alerts with what mutes them at a moment.
fn groups_at(
    alloc: Global,
    groups: &[Group<'_>],
    inhibitor: &mut Inhibitor<'_>,
    now: Moment,
) -> Result<Vec<Answer>, AllocError>
    ensures answers { IfOk result (λ answers.
        answers.items ≡ flat_map (answers_of_group_at inhibitor.old now) groups.now) }
    ensures same { unasked inhibitor.new ≡ unasked inhibitor.old }
{
    let mut answers = Vec::new(alloc);
    for group in groups {
        add_group_at(&mut answers, group, inhibitor, now)?;
    }
    Ok(answers)
}

fn add_group_at(
    answers: &mut Vec<Answer>,
    group: &Group<'_>,
    inhibitor: &mut Inhibitor<'_>,
    now: Moment,
) -> Result<(), AllocError>
    ensures added { OnOk result (answers.new.items
        ≡ answers.old.items ++ answers_of_group_at inhibitor.old now group.now) }
    ensures same { unasked inhibitor.new ≡ unasked inhibitor.old }
{
    add_group_line(answers, group)?;
    add_members_at(answers, group.alerts(), inhibitor, now)
}

fn add_members_at(
    answers: &mut Vec<Answer>,
    alerts: &[Alert],
    inhibitor: &mut Inhibitor<'_>,
    now: Moment,
) -> Result<(), AllocError>
    ensures added { OnOk result (answers.new.items
        ≡ answers.old.items ++ flat_map (answers_of_member inhibitor.old now) alerts.now) }
    ensures same { unasked inhibitor.new ≡ unasked inhibitor.old }
{
    for alert in alerts {
        add_member_at(answers, alert, inhibitor, now)?;
    }
    Ok(())
}

// An alert, and what mutes it.
fn add_member_at(
    answers: &mut Vec<Answer>,
    alert: &Alert,
    inhibitor: &mut Inhibitor<'_>,
    now: Moment,
) -> Result<(), AllocError>
    ensures added { OnOk result (answers.new.items
        ≡ answers.old.items ++ answers_of_member inhibitor.old now alert.now) }
    ensures same { unasked inhibitor.new ≡ unasked inhibitor.old }
{
    answers.reserve(2)?;
    answers.push_reserved(Answer::Member(alert.copy()?));
    answers.push_reserved(muting_at(inhibitor, &alert.labels, now)?);
    Ok(())
}

// What mutes a target.
fn muting_at(
    inhibitor: &mut Inhibitor<'_>,
    labels: &LabelSet,
    now: Moment,
) -> Result<Answer, AllocError>
    ensures muting { IfOk result (λ answer. answer ≡ muting_at inhibitor.old now labels.now) }
    ensures same { unasked inhibitor.new ≡ unasked inhibitor.old }
{
    match inhibitor.mutes(labels, now)? {
        Some(muting) => Ok(Answer::Muted {
            rule: muting.0,
            by: muting.1.copy()?,
        }),
        None => Ok(Answer::NotMuted),
    }
}
