//! Reading an element of a post, or a whole alert, as its text is read, with no value of JSON between.
//!
//! It reads what Alertmanager's clients send: objects whose members are texts or objects of texts, the names of
//! labels and of annotations in byte order. Of any other text it answers nothing, and then the text is read as a
//! value. Either way the bytes mean what serde_json's `read` says, and the contract is the same.

ghost use Rattle.std.specs.Prelude.{◌≡◌, ◌≢◌, ◌<◌, ℕ, IfOk, IfSome, IsTrue, codes, length};
ghost use Rattle.am_posts.specs.inside.Streams.{AreMembersOf, ArePairsOf, AreTextsOf, BeginsWithText};
ghost use Rattle.am_posts.specs.inside.Streams.{IsBefore, IsDraftAhead, TakesMember};

use crate::draft::Draft;
use crate::postable::labels_of_pairs;
use crate::room::Room;
use am_labels::{LabelSet, PairBuffer};
use json::{Reader, Token};
use std::alloc::{AllocError, Global};

/// What the next object gives, whose arrays and objects may nest so deep. The buffer is for its names and values.
pub(crate) fn read_draft(
    alloc: Global,
    reader: &mut Reader<'_>,
    pairs: &mut PairBuffer,
    room: &mut Room,
    depth: usize,
) -> Result<Option<Draft>, AllocError>
    ensures read { IfOk result (λ read. IfSome read
        (IsDraftAhead depth reader.old reader.new room.old.left room.new.left)) }
    ensures shorter { IfOk result (λ read. IfSome read (λ _. length reader.new < length reader.old)) }
{
    let Some(Token::BeginObject) = reader.next() else {
        return Ok(None);
    };
    if depth == 0 || !room.take(1) {
        return Ok(None);
    }
    let Some(draft) = read_members(alloc, reader, pairs, room, depth - 1)? else {
        return Ok(None);
    };
    Ok(Some(draft))
}

// The members of an object up to the brace that closes it, in whichever order they come.
fn read_members(
    alloc: Global,
    reader: &mut Reader<'_>,
    pairs: &mut PairBuffer,
    room: &mut Room,
    depth: usize,
) -> Result<Option<Draft>, AllocError>
    ensures read { IfOk result (λ read. IfSome read
        (AreMembersOf depth reader.old reader.new room.old.left room.new.left)) }
    ensures shorter { IfOk result (λ read. IfSome read (λ _. length reader.new < length reader.old)) }
{
    let mut draft = Draft::new();
    if !room.take(1) {
        return Ok(None);
    }
    'members: loop {
        let Ok(key) = reader.next_key() else {
            return Ok(None);
        };
        let Some(name) = key else {
            return Ok(Some(draft));
        };
        if !room.take_name(name) {
            return Ok(None);
        }
        if !read_member(alloc, reader, pairs, room, depth, name, &mut draft)? {
            return Ok(None);
        }
    }
}

// Whether a member is read into a draft.
fn read_member(
    alloc: Global,
    reader: &mut Reader<'_>,
    pairs: &mut PairBuffer,
    room: &mut Room,
    depth: usize,
    name: &str,
    draft: &mut Draft,
) -> Result<bool, AllocError>
    ensures read { IfOk result (λ read. IsTrue read → TakesMember depth name.now
        reader.old reader.new room.old.left room.new.left draft.old draft.new) }
    ensures shorter { IfOk result (λ read. IsTrue read → length reader.new < length reader.old) }
{
    if name == "labels" {
        if !read_texts(reader, pairs, room, depth)? {
            return Ok(false);
        }
        draft.labels = Some(labels_of_pairs(alloc, pairs)?);
        Ok(true)
    } else if name == "annotations" {
        if !read_texts(reader, pairs, room, depth)? {
            return Ok(false);
        }
        draft.annotations = LabelSet::from_buffer(alloc, pairs)?;
        Ok(true)
    } else {
        if !read_plain(alloc, reader, room, name, draft)? {
            return Ok(false);
        }
        Ok(true)
    }
}

// The same of a member that is a text, true or false.
fn read_plain(
    alloc: Global,
    reader: &mut Reader<'_>,
    room: &mut Room,
    name: &str,
    draft: &mut Draft,
) -> Result<bool, AllocError>
    requires not_labels { name.now ≢ codes "labels" }
    requires not_annotations { name.now ≢ codes "annotations" }
    ensures read { IfOk result (λ read. IsTrue read → (depth : ℕ) → TakesMember depth name.now
        reader.old reader.new room.old.left room.new.left draft.old draft.new) }
    ensures shorter { IfOk result (λ read. IsTrue read → length reader.new < length reader.old) }
{
    match reader.next() {
        Some(Token::String(text)) => {
            if !room.take_text(text) {
                return Ok(false);
            }
            if !draft.take(alloc, name, text)? {
                return Ok(false);
            }
            Ok(true)
        }
        Some(Token::Bool(flag)) => Ok(room.take(5) && draft.take_flag(name, flag)),
        _ => Ok(false),
    }
}

// A text.
fn read_text<'a>(reader: &mut Reader<'a>, room: &mut Room) -> Option<&'a str>
    ensures read { IfSome result (λ text. BeginsWithText reader.old reader.new
        room.old.left room.new.left text.now) }
    ensures shorter { IfSome result (λ _. length reader.new < length reader.old) }
{
    match reader.next() {
        Some(Token::String(text)) if room.take_text(text) => Some(text),
        _ => None,
    }
}

// Whether an object of texts, with its names in byte order, is read into a buffer.
fn read_texts(
    reader: &mut Reader<'_>,
    pairs: &mut PairBuffer,
    room: &mut Room,
    depth: usize,
) -> Result<bool, AllocError>
    ensures read { IfOk result (λ read. IsTrue read → AreTextsOf depth
        reader.old reader.new room.old.left room.new.left pairs.new) }
    ensures shorter { IfOk result (λ read. IsTrue read → length reader.new < length reader.old) }
{
    let Some(Token::BeginObject) = reader.next() else {
        return Ok(false);
    };
    if depth == 0 || !room.take(1) {
        return Ok(false);
    }
    if !read_pairs(reader, pairs, room, depth - 1)? {
        return Ok(false);
    }
    Ok(true)
}

// The same of names and values up to the brace that closes their object.
fn read_pairs(
    reader: &mut Reader<'_>,
    pairs: &mut PairBuffer,
    room: &mut Room,
    depth: usize,
) -> Result<bool, AllocError>
    ensures read { IfOk result (λ read. IsTrue read → ArePairsOf depth
        reader.old reader.new room.old.left room.new.left pairs.new) }
    ensures shorter { IfOk result (λ read. IsTrue read → length reader.new < length reader.old) }
{
    pairs.clear();
    let mut last = None;
    if !room.take(1) {
        return Ok(false);
    }
    'pairs: loop {
        let Ok(key) = reader.next_key() else {
            return Ok(false);
        };
        let Some(name) = key else {
            return Ok(true);
        };
        if !is_above(name, last) || !room.take_name(name) {
            return Ok(false);
        }
        let Some(value) = read_text(reader, room) else {
            return Ok(false);
        };
        pairs.push(name, value)?;
        last = Some(name);
    }
}

// Whether a name comes after another one in byte order, if there is one.
fn is_above(name: &str, last: Option<&str>) -> bool
    ensures { IsTrue result → IfSome last.entry (λ last. IsBefore last.now name.now) }
{
    match last {
        Some(last) => last < name,
        None => true,
    }
}
