//! What the calls of a script answered, and how an answer is printed.

ghost use Rattle.std.specs.Prelude.{◌≡◌, ◌++◌, ◌∷◌, [], IfOk, OnOk, Some, string_bytes};
ghost use Rattle.std.specs.Fmt.{DisplaysOnOk};
ghost use Rattle.am_answers.specs.Answers.{is_item, is_out_of_memory};
ghost use Rattle.am_answers.specs.Forms.{answers_printed};
ghost use Rattle.am_answers.specs.Printing.{answer_text, answers_text, group_text, left_text};
ghost use Rattle.am_answers.specs.Printing.{matched_text, page_text, posted_text, swept_text};

use crate::answer_json::write_objects;
use crate::codes::{BodyCode, CLOSED, InvalidCode, SubscribeCode};
use crate::room_for_answer::RoomForAnswer;
use am_alert::{Alert, AlertFault, PostFault};
use am_labels::{LabelSet, Quoted, Text};
use am_routes::{ListedRoute, MatchedRoute, Swept};
use am_script::{Form, Verb};
use am_store::{BodyFault, PutFault, SubFault};
use std::alloc::{AllocError, Global};
use std::fmt;

/// One answer, which is one line of the output.
#[derive(Debug, Drop)]
pub enum Answer {
    Posted { valid: u32, place: Option<u64> },
    /// An invalid alert of an accepted post, by its index in the post.
    Invalid { index: u32, fault: AlertFault },
    /// The post before it cut this lane, whose subscriber was too slow.
    CutLane(u32),
    PostRefused(BodyFault),
    Subscribed { lane: u32, opening: u64 },
    SubscribeRefused(SubFault),
    Item(Alert),
    Pending,
    /// A subscription was answered that the log is closed.
    SawClosed,
    /// A subscription was answered that it was cut.
    SawCut,
    Left { taken: u64, closed: bool, cut: bool },
    Collected(u64),
    /// How many alerts a collection removed; they follow.
    Taken(u64),
    CloseAccepted,
    CloseRefused,
    /// How many calls were dropped from the journal.
    Trimmed(u64),
    /// How many calls of the journal went out of memory.
    Compacted(u64),
    Group(GroupHead),
    /// An alert of the last group before it.
    Member(Alert),
    Swept(Swept),
    /// How many alerts a sweep of an inhibitor dropped.
    Forgotten(u64),
    /// A target is muted by the rule of this number, and by the alert of this label set.
    Muted { rule: u64, by: LabelSet },
    NotMuted,
    /// How many alerts are stored; they follow.
    StoredCount(u64),
    /// A page of what is stored, whose alerts follow.
    Page(PageHead),
    /// An alert that is stored, or that was until a collection removed it.
    StoredAlert(Alert),
    /// No alert of the label set is stored.
    NotStored,
    /// A route of the routing tree.
    Route(ListedRoute),
    /// A route that a label set matches.
    Matched(MatchedRoute),
    /// This command was out of memory. After an item it is `take`: the consumer of its subscription didn't take it.
    OutOfMemory(Verb),
    /// The command's subscription isn't open, since its subscribe was refused.
    NotOpen(Verb),
}

/// A group of a dispatcher, with how many alerts it has.
#[derive(Debug, Drop)]
pub struct GroupHead {
    pub route: u64,
    pub receiver: Text,
    pub labels: LabelSet,
    pub alerts: u64,
}

/// A page of what is stored.
#[derive(Clone, Copy, Debug, Drop)]
pub struct PageHead {
    /// How many alerts it has.
    pub alerts: u64,
    /// The index of the first.
    pub from: u64,
    /// How many are stored in all.
    pub stored: u64,
    /// How many calls were accepted by then.
    pub calls: u64,
}

impl Answer {
    pub fn is_item(&self) -> bool
        ensures { result ≡ is_item self.now }
    {
        matches!(self, Answer::Item(_))
    }

    /// Whether the call was out of memory.
    pub fn is_out_of_memory(&self) -> bool
        ensures { result ≡ is_out_of_memory self.now }
    {
        match self {
            Answer::PostRefused(BodyFault::Unread(PostFault::NoMemory))
            | Answer::PostRefused(BodyFault::Put(PutFault::NoMemory))
            | Answer::SubscribeRefused(SubFault::NoMemory)
            | Answer::OutOfMemory(_) => true,
            _ => false,
        }
    }
}

impl fmt::Display for Answer {
    ghost output = { λ answer. Some (answer_text answer) };

    fn fmt<W: fmt::Write>(&self, f: &mut fmt::Formatter<W>) -> fmt::Result {
        match self {
            Answer::Posted { valid, place } => write_posted(*valid, *place, f),
            Answer::Invalid { index, fault } => write_invalid(*index, *fault, f),
            Answer::CutLane(lane) => write!(f, "cut lane {lane}"),
            Answer::PostRefused(fault) => write!(f, "post refused {}", BodyCode(*fault)),
            Answer::Subscribed { lane, opening } => {
                write!(f, "subscribe lane {lane} opening {opening}")
            }
            Answer::SubscribeRefused(fault) => write_subscribe_refused(*fault, f),
            Answer::Item(alert) => write!(f, "item {alert}"),
            Answer::Pending => f.write_str("pending"),
            Answer::SawClosed => f.write_str("closed"),
            Answer::SawCut => f.write_str("cut"),
            Answer::Left { taken, closed, cut } => write_left(*taken, *closed, *cut, f),
            Answer::Collected(removed) => write!(f, "collect removed {removed}"),
            Answer::Taken(removed) => write!(f, "take removed {removed}"),
            Answer::CloseAccepted => f.write_str("close"),
            Answer::CloseRefused => write!(f, "close refused {CLOSED}"),
            Answer::Trimmed(dropped) => write!(f, "trim dropped {dropped}"),
            Answer::Compacted(dropped) => write!(f, "compact dropped {dropped}"),
            Answer::Group(group) => write_group(group, f),
            Answer::Member(alert) => write!(f, "member {alert}"),
            Answer::Swept(swept) => write_swept(*swept, f),
            Answer::Forgotten(alerts) => write!(f, "forget alerts {alerts}"),
            Answer::Muted { rule, by } => write!(f, "muted rule {rule} by {by}"),
            Answer::NotMuted => f.write_str("not muted"),
            Answer::StoredCount(count) => write!(f, "stored {count}"),
            Answer::Page(page) => write_page(*page, f),
            Answer::StoredAlert(alert) => write!(f, "alert {alert}"),
            Answer::NotStored => f.write_str("no alert"),
            Answer::Route(route) => write!(f, "route {route}"),
            Answer::Matched(route) => write_matched(route, f),
            Answer::OutOfMemory(verb) => write!(f, "{verb} refused E0 NoMemory"),
            Answer::NotOpen(verb) => write!(f, "{verb} none"),
        }
    }
}

fn write_posted<W: fmt::Write>(
    valid: u32,
    place: Option<u64>,
    f: &mut fmt::Formatter<W>,
) -> fmt::Result
    ensures { DisplaysOnOk W.write_str_gives f.old result (Some (posted_text valid place)) f.new }
{
    match place {
        Some(place) => write!(f, "post valid {valid} place {place}"),
        None => write!(f, "post valid {valid} no place"),
    }
}

fn write_invalid<W: fmt::Write>(
    index: u32,
    fault: AlertFault,
    f: &mut fmt::Formatter<W>,
) -> fmt::Result
    ensures { DisplaysOnOk W.write_str_gives f.old result (Some (answer_text (Answer.Invalid index fault))) f.new }
{
    write!(f, "invalid {index} {}", InvalidCode(fault))
}

fn write_subscribe_refused<W: fmt::Write>(fault: SubFault, f: &mut fmt::Formatter<W>) -> fmt::Result
    ensures { DisplaysOnOk W.write_str_gives f.old result (Some (answer_text (Answer.SubscribeRefused fault))) f.new }
{
    write!(f, "subscribe refused {}", SubscribeCode(fault))
}

fn write_left<W: fmt::Write>(
    taken: u64,
    closed: bool,
    cut: bool,
    f: &mut fmt::Formatter<W>,
) -> fmt::Result
    ensures { DisplaysOnOk W.write_str_gives f.old result (Some (left_text taken closed cut)) f.new }
{
    write!(f, "leave taken {taken}")?;
    if closed {
        f.write_str(" closed")?;
    }
    if cut {
        f.write_str(" cut")?;
    }
    Ok(())
}

fn write_group<W: fmt::Write>(group: &GroupHead, f: &mut fmt::Formatter<W>) -> fmt::Result
    ensures { DisplaysOnOk W.write_str_gives f.old result (Some (group_text group.now)) f.new }
{
    let (route, alerts) = (group.route, group.alerts);
    let receiver = Quoted(group.receiver.as_str());
    let labels = &group.labels;
    write!(
        f,
        "group route {route} receiver {receiver} labels {labels} alerts {alerts}"
    )
}

fn write_matched<W: fmt::Write>(route: &MatchedRoute, f: &mut fmt::Formatter<W>) -> fmt::Result
    ensures { DisplaysOnOk W.write_str_gives f.old result (Some (matched_text route.now)) f.new }
{
    let number = route.id.0;
    let receiver = Quoted(route.receiver.as_str());
    let labels = &route.labels;
    write!(
        f,
        "matched route {number} receiver {receiver} labels {labels}"
    )
}

fn write_swept<W: fmt::Write>(swept: Swept, f: &mut fmt::Formatter<W>) -> fmt::Result
    ensures { DisplaysOnOk W.write_str_gives f.old result (Some (swept_text swept)) f.new }
{
    let Swept { alerts, groups } = swept;
    write!(f, "sweep alerts {alerts} groups {groups}")
}

fn write_page<W: fmt::Write>(page: PageHead, f: &mut fmt::Formatter<W>) -> fmt::Result
    ensures { DisplaysOnOk W.write_str_gives f.old result (Some (page_text page)) f.new }
{
    let PageHead {
        alerts,
        from,
        stored,
        calls,
    } = page;
    write!(f, "page {alerts} from {from} of {stored} after {calls}")
}

pub fn one(alloc: Global, answer: Answer) -> Result<Vec<Answer>, AllocError>
    ensures { IfOk result (λ answers. answers.items ≡ answer ∷ []) }
{
    Ok(RoomForAnswer::make(alloc)?.filled(answer))
}

/// Writes the answers to the line of input with this number.
pub fn write_answers(
    text: &mut String,
    form: Form,
    number: u64,
    given: &[Answer],
) -> Result<(), AllocError>
    ensures { OnOk result
        (string_bytes text.new ≡ string_bytes text.old ++ answers_printed form number given.now) }
{
    match form {
        Form::Text => write_lines(text, number, given),
        Form::Json => write_objects(text, number, given),
    }
}

// Writes a line of words for each answer.
fn write_lines(text: &mut String, number: u64, given: &[Answer]) -> Result<(), AllocError>
    ensures { OnOk result
        (string_bytes text.new ≡ string_bytes text.old ++ answers_text number given.now) }
{
    for answer in given {
        write!(text, "{number} {answer}\n")?;
    }
    Ok(())
}
