//! How answers are printed as JSON.

ghost use Rattle.std.specs.Prelude.{◌≡◌, ◌++◌, ◌∷◌, [], IfSome, OnOk, codes, string_bytes};
ghost use Rattle.json.specs.Token.{end_object};
ghost use Rattle.json.specs.Tree.{members_tokens};
ghost use Rattle.am_script.specs.ScriptTexts.{verb_text};
ghost use Rattle.am_script.specs.JsonLines.{about_line, named, object_line, refusing};
ghost use Rattle.am_answers.specs.PrintingJson.{answer_members, count_members, counting, group_members};
ghost use Rattle.am_answers.specs.PrintingJson.{grouping_json, invalid_members, left_members, listed_members};
ghost use Rattle.am_answers.specs.PrintingJson.{matched_members, muted_members, not_open_members, objects_text};
ghost use Rattle.am_answers.specs.PrintingJson.{page_members, posted_members, showing};
ghost use Rattle.am_answers.specs.PrintingJson.{subscribed_members, swept_members};

use crate::answer::{Answer, GroupHead, PageHead};
use crate::codes::{BodyCode, CLOSED, InvalidCode, SubscribeCode};
use am_alert::{Alert, AlertFault};
use am_config::GroupBy;
use am_labels::{LabelSet, Text};
use am_routes::{ListedRoute, MatchedRoute, Swept};
use am_script::{JsonLine, Verb};
use am_store::SubFault;
use std::alloc::{AllocError, Global};
use std::{fmt, slice};

/// Writes an object for each answer to the line of input with this number, and one with how many
/// there are.
pub(crate) fn write_objects(
    text: &mut String,
    number: u64,
    given: &[Answer],
) -> Result<(), AllocError>
    ensures { OnOk result
        (string_bytes text.new ≡ string_bytes text.old ++ objects_text number given.now) }
{
    for answer in given {
        write_object(text, number, answer)?;
    }
    write_count(text, number, given.len() as u64)
}

fn write_object(text: &mut String, number: u64, answer: &Answer) -> Result<(), AllocError>
    ensures { OnOk result (string_bytes text.new
        ≡ string_bytes text.old ++ object_line (about_line number (answer_members answer.now))) }
{
    let mut line = JsonLine::about(*text.allocator(), number)?;
    write_members(&mut line, answer)?;
    line.end(text)
}

/// Writes how many answers the line of input with this number has.
pub fn write_count(text: &mut String, number: u64, answers: u64) -> Result<(), AllocError>
    ensures { OnOk result (string_bytes text.new
        ≡ string_bytes text.old ++ object_line (about_line number (count_members answers))) }
{
    let mut line = JsonLine::about(*text.allocator(), number)?;
    line.number("answers", answers)?;
    line.end(text)
}

/// Writes the members of an answer. The brace that closes them is still to come.
pub(crate) fn write_members(line: &mut JsonLine, answer: &Answer) -> Result<(), AllocError>
    ensures { OnOk result
        (line.new ++ end_object ∷ [] ≡ line.old ++ members_tokens (answer_members answer.now)) }
{
    match answer {
        Answer::Posted { valid, place } => write_posted(line, *valid, *place),
        Answer::Invalid { index, fault } => write_invalid(line, *index, *fault),
        Answer::CutLane(lane) => write_number(line, "cut_lane", "lane", u64::from(*lane)),
        Answer::PostRefused(fault) => write_fault(line, Verb::Post, &BodyCode(*fault)),
        Answer::Subscribed { lane, opening } => write_subscribed(line, *lane, *opening),
        Answer::SubscribeRefused(fault) => write_subscribe_refused(line, *fault),
        Answer::Item(alert) => write_alert(line, "item", alert),
        Answer::Pending => line.text("answer", "pending"),
        Answer::SawClosed => line.text("answer", "closed"),
        Answer::SawCut => line.text("answer", "cut"),
        Answer::Left { taken, closed, cut } => write_left(line, *taken, *closed, *cut),
        Answer::Collected(removed) => write_number(line, "collect", "removed", *removed),
        Answer::Taken(removed) => write_number(line, "take", "removed", *removed),
        Answer::CloseAccepted => line.text("answer", "close"),
        Answer::CloseRefused => write_refused(line, Verb::Close, CLOSED),
        Answer::Trimmed(dropped) => write_number(line, "trim", "dropped", *dropped),
        Answer::Compacted(dropped) => write_number(line, "compact", "dropped", *dropped),
        Answer::Group(group) => write_group(line, group),
        Answer::Member(alert) => write_alert(line, "member", alert),
        Answer::Swept(swept) => write_swept(line, *swept),
        Answer::Forgotten(alerts) => write_number(line, "forget", "alerts", *alerts),
        Answer::Muted { rule, by } => write_muted(line, *rule, by),
        Answer::NotMuted => line.text("answer", "not_muted"),
        Answer::StoredCount(count) => write_number(line, "stored", "alerts", *count),
        Answer::Page(page) => write_page(line, *page),
        Answer::StoredAlert(alert) => write_alert(line, "alert", alert),
        Answer::NotStored => line.text("answer", "no_alert"),
        Answer::Route(route) => write_route(line, route),
        Answer::Matched(route) => write_matched(line, route),
        Answer::OutOfMemory(verb) => write_refused(line, *verb, "E0 NoMemory"),
        Answer::NotOpen(verb) => write_not_open(line, *verb),
    }
}

fn write_posted(line: &mut JsonLine, valid: u32, place: Option<u64>) -> Result<(), AllocError>
    ensures { OnOk result
        (line.new ++ end_object ∷ [] ≡ line.old ++ members_tokens (posted_members valid place)) }
{
    line.text("answer", "post")?;
    line.number("valid", u64::from(valid))?;
    match place {
        Some(place) => line.number("place", place),
        None => line.null("place"),
    }
}

fn write_left(line: &mut JsonLine, taken: u64, closed: bool, cut: bool) -> Result<(), AllocError>
    ensures { OnOk result
        (line.new ++ end_object ∷ [] ≡ line.old ++ members_tokens (left_members taken closed cut)) }
{
    line.text("answer", "leave")?;
    line.number("taken", taken)?;
    line.flag("closed", closed)?;
    line.flag("cut", cut)
}

fn write_group(line: &mut JsonLine, group: &GroupHead) -> Result<(), AllocError>
    ensures { OnOk result
        (line.new ++ end_object ∷ [] ≡ line.old ++ members_tokens (group_members group.now)) }
{
    line.text("answer", "group")?;
    line.number("route", group.route)?;
    line.text("receiver", group.receiver.as_str())?;
    line.labels("labels", &group.labels)?;
    line.number("alerts", group.alerts)
}

fn write_route(line: &mut JsonLine, route: &ListedRoute) -> Result<(), AllocError>
    ensures { OnOk result
        (line.new ++ end_object ∷ [] ≡ line.old ++ members_tokens (listed_members route.now)) }
{
    line.text("answer", "route")?;
    line.number("route", route.id.0)?;
    line.number("depth", route.depth)?;
    line.text("receiver", route.receiver.as_str())?;
    line.texts("matchers", route.matchers.as_slice())?;
    write_grouping(line, route.receiver.allocator(), &route.group_by)?;
    line.flag("continue", route.continues)
}

fn write_grouping(line: &mut JsonLine, alloc: Global, group_by: &GroupBy) -> Result<(), AllocError>
    ensures { OnOk result
        (line.new ≡ line.old ++ named (codes "group_by") (grouping_json group_by.now)) }
{
    match group_by {
        GroupBy::All => {
            let all = Text::from_str(alloc, "...")?;
            line.texts("group_by", slice::from_ref(&all))
        }
        GroupBy::Names(names) => line.texts("group_by", names.as_slice()),
    }
}

fn write_matched(line: &mut JsonLine, route: &MatchedRoute) -> Result<(), AllocError>
    ensures { OnOk result
        (line.new ++ end_object ∷ [] ≡ line.old ++ members_tokens (matched_members route.now)) }
{
    line.text("answer", "matched")?;
    line.number("route", route.id.0)?;
    line.text("receiver", route.receiver.as_str())?;
    line.labels("labels", &route.labels)
}

fn write_swept(line: &mut JsonLine, swept: Swept) -> Result<(), AllocError>
    ensures { OnOk result
        (line.new ++ end_object ∷ [] ≡ line.old ++ members_tokens (swept_members swept)) }
{
    let Swept { alerts, groups } = swept;
    line.text("answer", "sweep")?;
    line.number("alerts", alerts)?;
    line.number("groups", groups)
}

fn write_page(line: &mut JsonLine, page: PageHead) -> Result<(), AllocError>
    ensures { OnOk result
        (line.new ++ end_object ∷ [] ≡ line.old ++ members_tokens (page_members page)) }
{
    line.text("answer", "page")?;
    line.number("alerts", page.alerts)?;
    line.number("from", page.from)?;
    line.number("stored", page.stored)?;
    line.number("calls", page.calls)
}

fn write_invalid(line: &mut JsonLine, index: u32, fault: AlertFault) -> Result<(), AllocError>
    ensures { OnOk result
        (line.new ++ end_object ∷ [] ≡ line.old ++ members_tokens (invalid_members index fault)) }
{
    line.text("answer", "invalid")?;
    line.number("index", u64::from(index))?;
    line.shown("fault", &InvalidCode(fault))
}

fn write_subscribed(line: &mut JsonLine, lane: u32, opening: u64) -> Result<(), AllocError>
    ensures { OnOk result
        (line.new ++ end_object ∷ [] ≡ line.old ++ members_tokens (subscribed_members lane opening)) }
{
    line.text("answer", "subscribe")?;
    line.number("lane", u64::from(lane))?;
    line.number("opening", opening)
}

fn write_muted(line: &mut JsonLine, rule: u64, by: &LabelSet) -> Result<(), AllocError>
    ensures { OnOk result
        (line.new ++ end_object ∷ [] ≡ line.old ++ members_tokens (muted_members rule by.now)) }
{
    line.text("answer", "muted")?;
    line.number("rule", rule)?;
    line.labels("by", by)
}

fn write_not_open(line: &mut JsonLine, verb: Verb) -> Result<(), AllocError>
    ensures { OnOk result
        (line.new ++ end_object ∷ [] ≡ line.old ++ members_tokens (not_open_members verb)) }
{
    line.text("answer", "none")?;
    line.shown("do", &verb)
}

// An answer that shows an alert.
fn write_alert(line: &mut JsonLine, word: &str, alert: &Alert) -> Result<(), AllocError>
    ensures { OnOk result
        (line.new ++ end_object ∷ [] ≡ line.old ++ members_tokens (showing word.now alert.now)) }
{
    line.text("answer", word)?;
    line.alert("alert", alert)
}

// An answer that has a number.
fn write_number(line: &mut JsonLine, word: &str, name: &str, number: u64) -> Result<(), AllocError>
    ensures { OnOk result (line.new ++ end_object ∷ []
        ≡ line.old ++ members_tokens (counting word.now name.now number)) }
{
    line.text("answer", word)?;
    line.number(name, number)
}

// That a call was refused, for a fault.
fn write_fault<F: fmt::Display>(
    line: &mut JsonLine,
    verb: Verb,
    fault: &F,
) -> Result<(), AllocError>
    ensures { OnOk result (IfSome (F.output fault.now) (λ why.
        line.new ++ end_object ∷ [] ≡ line.old ++ members_tokens (refusing (verb_text verb) why))) }
{
    line.text("answer", "refused")?;
    line.shown("do", &verb)?;
    line.shown("fault", fault)
}

fn write_subscribe_refused(line: &mut JsonLine, fault: SubFault) -> Result<(), AllocError>
    ensures { OnOk result (line.new ++ end_object ∷ []
        ≡ line.old ++ members_tokens (answer_members (Answer.SubscribeRefused fault))) }
{
    write_fault(line, Verb::Subscribe, &SubscribeCode(fault))
}

// The same, for what has this text.
fn write_refused(line: &mut JsonLine, verb: Verb, why: &str) -> Result<(), AllocError>
    ensures { OnOk result
        (line.new ++ end_object ∷ [] ≡ line.old ++ members_tokens (refusing (verb_text verb) why.now)) }
{
    line.text("answer", "refused")?;
    line.shown("do", &verb)?;
    line.text("fault", why)
}
