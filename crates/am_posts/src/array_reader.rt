//! Reading the elements of a post's array as its text is read, with no value of JSON between. Of an array that
//! isn't written as clients write it, it answers nothing, and then the text is read as a value.

ghost use Rattle.std.specs.Prelude.{◌<◌, IfOk, IfSome, length};
ghost use Rattle.am_posts.specs.inside.Streams.{AreElementsOf, IsArrayOf, IsElementOf};

use crate::draft_reader::read_draft;
use crate::elements::Elements;
use crate::postable::Postable;
use crate::room::Room;
use am_alert::MAX_ALERTS;
use am_labels::PairBuffer;
use json::{Reader, Scratch, Token};
use std::alloc::{AllocError, Global};

// How deep the arrays and objects in a post's array may nest: one level less than in a text.
const ARRAY_DEPTH: usize = 126;

/// The elements of the array that a text is, or none if it isn't written as clients write it.
pub(crate) fn read_array(
    alloc: Global,
    text: &str,
    scratch: &mut Scratch,
    pairs: &mut PairBuffer,
) -> Result<Option<Elements>, AllocError>
    ensures { IfOk result (λ read. IfSome read (IsArrayOf text.now)) }
{
    let mut reader = Reader::new(text, scratch)?;
    let Some(Token::BeginArray) = reader.next() else {
        return Ok(None);
    };
    // The text's own length is what counts here.
    let mut room = Room::new(usize::MAX);
    let Some(elements) = read_elements(alloc, &mut reader, pairs, &mut room, ARRAY_DEPTH)? else {
        return Ok(None);
    };
    match reader.next() {
        None => Ok(Some(elements)),
        Some(_) => Ok(None),
    }
}

/// The elements up to the bracket that closes their array. The buffer is for the names and values of each.
pub(crate) fn read_elements(
    alloc: Global,
    reader: &mut Reader<'_>,
    pairs: &mut PairBuffer,
    room: &mut Room,
    depth: usize,
) -> Result<Option<Elements>, AllocError>
    ensures read { IfOk result (λ read. IfSome read
        (AreElementsOf depth reader.old reader.new room.old.left room.new.left)) }
    ensures shorter { IfOk result (λ read. IfSome read (λ _. length reader.new < length reader.old)) }
{
    // Most posts have one.
    let mut elements = Vec::with_capacity(alloc, 1)?;
    if !room.take(1) {
        return Ok(None);
    }
    'elements: while !reader.take_end_array() {
        if elements.len() == MAX_ALERTS || !room.take(1) {
            return Ok(None);
        }
        let Some(element) = read_element(alloc, reader, pairs, room, depth)? else {
            return Ok(None);
        };
        elements.push(Some(element))?;
    }
    Ok(Some(Elements::new(elements)))
}

fn read_element(
    alloc: Global,
    reader: &mut Reader<'_>,
    pairs: &mut PairBuffer,
    room: &mut Room,
    depth: usize,
) -> Result<Option<Postable>, AllocError>
    ensures read { IfOk result (λ read. IfSome read
        (IsElementOf depth reader.old reader.new room.old.left room.new.left)) }
    ensures shorter { IfOk result (λ read. IfSome read (λ _. length reader.new < length reader.old)) }
{
    match read_draft(alloc, reader, pairs, room, depth)? {
        Some(draft) => Ok(draft.into_postable()),
        None => Ok(None),
    }
}
