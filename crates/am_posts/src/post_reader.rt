//! Reading a post: from the bytes of a request to `/api/v2/alerts` to its valid alerts and its
//! faults.
//!
//! For one bad element the whole post is refused; an invalid alert affects no other.
//!
//! A `Caller` has no reader, which would take 16 KiB in each list of callers: who posts many bodies keeps one,
//! and calls `Provider::put`.

ghost use Rattle.std.specs.Prelude.{◌<◌, ◌≤◌, IfOk, IfSome, IsUtf8, OnErr, length};
ghost use Rattle.std.specs.Duration.{as_nanos};
ghost use Rattle.serde_json.specs.View.{items_view};
ghost use Rattle.am_posts.specs.Posts.{elements_of, IsPostOf, ReadsEach};
ghost use Rattle.am_posts.specs.inside.Streams.{IsArrayOf};

use crate::array_reader::read_array;
use crate::elements::Elements;
use am_alert::{MAX_ALERTS, MAX_BYTES, Moment, Post, PostFault};
use am_labels::PairBuffer;
use json::Scratch;
use serde_json::Value;
use std::alloc::{AllocError, Global};
use std::fmt;
use std::time::Duration;

/// Reads posts one after another. The memory that reading one takes is kept for the next: 16 KiB, and as much as
/// the longest post has bytes.
#[derive(Drop)]
pub struct PostReader {
    alloc: Global,
    scratch: Scratch,
    // Names and values of the alert at hand.
    pairs: PairBuffer,
}

impl PostReader {
    /// It takes no memory of the allocator's yet.
    pub fn new(alloc: Global) -> PostReader {
        PostReader {
            alloc,
            scratch: Scratch::new(alloc),
            pairs: PairBuffer::new(alloc),
        }
    }

    /// The alerts and faults of a post's bytes, or why it is refused as a whole. `now` is the post's
    /// moment; an alert without an end ends at `now` and the resolve timeout.
    pub fn read(
        &mut self,
        bytes: &[u8],
        now: Moment,
        resolve_timeout: Duration,
    ) -> Result<Post, PostFault>
        ensures { IsPostOf now (as_nanos resolve_timeout) bytes.now result }
    {
        if bytes.len() > MAX_BYTES {
            return Err(PostFault::TooMany);
        }
        let alloc = self.alloc;
        match read_directly(alloc, bytes, &mut self.scratch, &mut self.pairs)? {
            Some(elements) => match elements.post(alloc, now, resolve_timeout) {
                Ok(post) => Ok(post),
                Err(e) => Err(e),
            },
            None => read_as_value(alloc, bytes, now, resolve_timeout),
        }
    }
}

/// What `PostReader::read` answers, for one post alone.
pub fn read_post(
    alloc: Global,
    bytes: &[u8],
    now: Moment,
    resolve_timeout: Duration,
) -> Result<Post, PostFault>
    ensures { IsPostOf now (as_nanos resolve_timeout) bytes.now result }
{
    PostReader::new(alloc).read(bytes, now, resolve_timeout)
}

// The elements of the array that some bytes are the text of, or none if it isn't written as clients write it.
fn read_directly(
    alloc: Global,
    bytes: &[u8],
    scratch: &mut Scratch,
    pairs: &mut PairBuffer,
) -> Result<Option<Elements>, AllocError>
    ensures read { IfOk result (λ read. IfSome read (λ elements. IsUtf8 bytes.now × IsArrayOf bytes.now elements)) }
    ensures memory { OnErr result (0 < length bytes.now) }
{
    match str::from_utf8(bytes) {
        Ok(text) if !text.is_empty() => read_array(alloc, text, scratch, pairs),
        _ => Ok(None),
    }
}

// The same of any bytes, by the value that their JSON is.
fn read_as_value(
    alloc: Global,
    bytes: &[u8],
    now: Moment,
    resolve_timeout: Duration,
) -> Result<Post, PostFault>
    requires { length bytes.now ≤ MAX_BYTES }
    ensures { IsPostOf now (as_nanos resolve_timeout) bytes.now result }
{
    let value = match Value::from_slice(alloc, bytes) {
        Ok(value) => value,
        Err(e) => {
            return Err(if e.is_memory() {
                PostFault::NoMemory
            } else {
                PostFault::NotJson
            });
        }
    };
    let Value::Array(elements) = value else {
        return Err(PostFault::NotAnArray);
    };
    if elements.len() > MAX_ALERTS {
        return Err(PostFault::TooMany);
    }
    match read_elements(alloc, elements, now, resolve_timeout) {
        Ok(post) => Ok(post),
        Err(e) => Err(e),
    }
}

// The elements in order; the first bad one decides.
fn read_elements(
    alloc: Global,
    elements: Vec<Value>,
    now: Moment,
    resolve_timeout: Duration,
) -> Result<Post, PostFault>
    requires { length elements.items ≤ MAX_ALERTS }
    ensures { ReadsEach result
        (elements_of now (as_nanos resolve_timeout) 0 (items_view elements.items)) }
{
    Elements::read(alloc, elements)?.post(alloc, now, resolve_timeout)
}

impl fmt::Debug for PostReader {
    fn fmt<W: fmt::Write>(&self, f: &mut fmt::Formatter<W>) -> fmt::Result {
        f.debug_struct("PostReader").finish_non_exhaustive()
    }
}
