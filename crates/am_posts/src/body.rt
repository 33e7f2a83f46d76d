//! The body of a post that is given as a value of JSON.

ghost use Rattle.std.specs.Prelude.{◌≡◌, ◌<◌, ◌≤◌, IfOk, IfSome, None, length};
ghost use Rattle.std.specs.Duration.{as_nanos};
ghost use Rattle.json.specs.Print.{quoted};
ghost use Rattle.serde_json.specs.Data.{array};
ghost use Rattle.serde_json.specs.Find.{as_str};
ghost use Rattle.serde_json.specs.View.{view, items_view, members_view};
ghost use Rattle.am_posts.specs.Bodies.{IsBodyOf, IsPostOfBody};
ghost use Rattle.am_posts.specs.Tokens.{IsNextBody};
ghost use Rattle.am_posts.specs.inside.Rooms.{HasRoom, ItemsHaveRoom, MembersHaveRoom};

use crate::array_reader::read_elements;
use crate::elements::Elements;
use crate::post_reader::read_post;
use crate::room::{Room, text_left};
use am_alert::{MAX_ALERTS, MAX_BYTES, Moment, Post, PostFault};
use am_labels::{PairBuffer, Text};
use json::{Reader, Token};
use serde_json::{Map, Value};
use std::alloc::{AllocError, Global};
use std::time::Duration;

// An array that nests deeper than the elements of a post do is written.
const LEVELS: u32 = 4;

/// The body of a post: bytes, or the elements of an array that was read already.
#[derive(Debug, Drop)]
pub enum Body {
    Text(Text),
    Elements(Elements),
}

impl Body {
    /// What a value is posted as: a text as its bytes, any other value as its compact text. The text of
    /// an array of alerts isn't written only to be read again: its elements are taken from the value.
    pub fn of(alloc: Global, value: Value) -> Result<Body, AllocError>
        ensures { IfOk result (IsBodyOf (view value)) }
    {
        match value {
            Value::String(text) => Ok(Body::Text(Text::new(text))),
            Value::Array(items) => of_items(alloc, items),
            other => written(alloc, &other),
        }
    }

    /// The body that comes next in a text that is read token by token: a text, or an array that is written as
    /// clients write it, whose arrays and objects nest no deeper than this. None of anything else. The buffer
    /// is for names and values.
    pub fn read_next(
        alloc: Global,
        reader: &mut Reader<'_>,
        pairs: &mut PairBuffer,
        depth: usize,
    ) -> Result<Option<Body>, AllocError>
        ensures read { IfOk result (λ read. IfSome read (IsNextBody depth reader.old reader.new)) }
        ensures shorter { IfOk result (λ read. IfSome read (λ _. length reader.new < length reader.old)) }
    {
        match reader.next() {
            Some(Token::String(text)) => Ok(Some(Body::Text(Text::from_str(alloc, text)?))),
            Some(Token::BeginArray) if depth > 0 => {
                let mut room = Room::new(MAX_BYTES - 1);
                match read_elements(alloc, reader, pairs, &mut room, depth - 1)? {
                    Some(elements) => Ok(Some(Body::Elements(elements))),
                    None => Ok(None),
                }
            }
            _ => Ok(None),
        }
    }

    /// The alerts and faults of a body, or why it is refused as a whole, as `read_post` gives them of
    /// its text.
    pub fn read(
        &self,
        alloc: Global,
        now: Moment,
        resolve_timeout: Duration,
    ) -> Result<Post, PostFault>
        ensures { IsPostOfBody now (as_nanos resolve_timeout) self.now result }
    {
        match self {
            Body::Text(text) => read_post(alloc, text.as_str().as_bytes(), now, resolve_timeout),
            Body::Elements(elements) => elements.post(alloc, now, resolve_timeout),
        }
    }
}

fn of_items(alloc: Global, items: Vec<Value>) -> Result<Body, AllocError>
    ensures { IfOk result (IsBodyOf (array (items_view items.items))) }
{
    if items.len() <= MAX_ALERTS && items_left(LEVELS, MAX_BYTES - 1, &items).is_some() {
        return Ok(Body::Elements(Elements::read(alloc, items)?));
    }
    written(alloc, &Value::Array(items))
}

// A value that isn't a text.
fn written(alloc: Global, value: &Value) -> Result<Body, AllocError>
    requires { as_str (view value.now) ≡ None }
    ensures { IfOk result (IsBodyOf (view value.now)) }
{
    Ok(Body::Text(Text::new(value.to_string(alloc)?)))
}

// How much of some room the compact text of a value leaves, at least. None of a value with a number, whose
// text may be another one's, or with more levels, or where the room may be too small.
#[cycle(room)]
fn room_left(levels: u32, room: usize, value: &Value) -> Option<usize>
    ensures { IfSome result (HasRoom (view value.now) room) }
{
    match value {
        Value::Null => room.checked_sub(4),
        Value::Bool(_) => room.checked_sub(5),
        Value::Number(_) => None,
        Value::String(text) => text_left(room, text),
        Value::Array(items) => items_left(levels.checked_sub(1)?, room.checked_sub(1)?, items),
        Value::Object(members) => members_left(
            levels.checked_sub(1)?,
            room.checked_sub(1)?,
            members,
        ),
    }
}

#[cycle(room)]
fn items_left(levels: u32, room: usize, items: &[Value]) -> Option<usize>
    ensures { IfSome result (ItemsHaveRoom (items_view items.now) room) }
{
    // The closing bracket, and before each item a comma.
    let mut left = room.checked_sub(1)?;
    for item in items {
        left = room_left(levels, left.checked_sub(1)?, item)?;
    }
    Some(left)
}

#[cycle(room)]
fn members_left(levels: u32, room: usize, members: &Map<String, Value>) -> Option<usize>
    ensures { IfSome result (MembersHaveRoom (members_view members.now.entries) room) }
{
    // The closing bracket, and for each member a comma and a colon.
    let mut left = room.checked_sub(1)?;
    for (name, member) in members.iter() {
        left = room_left(levels, text_left(left.checked_sub(2)?, name)?, member)?;
    }
    Some(left)
}
