//! What a new batch is made of, as contracts see it. It has no bytes.
ghost use Rattle.std.specs.Prelude.{◌≡◌, ◌<◌, Some, length, slice_get};

use am_segment::SegKey;
use std::snapshot::Snapshot;

/// A key of the batch, its first item, and what its poster says of it, as contracts see them.
#[derive(Drop)]
pub(crate) struct Tag<T, P> {
    pub(crate) key: Snapshot<SegKey<T>>,
    pub(crate) first: Snapshot<T>,
    pub(crate) post: Snapshot<P>,
}

/// The tag of a batch, of which this is a key.
pub(crate) fn tag_batch<T, P>(key: &SegKey<T>, post: Snapshot<P>) -> Tag<T, P>
    requires { 0 < length key.now.items }
    ensures key { result.key.value ≡ key.now }
    ensures first { slice_get key.now.items 0 ≡ Some result.first.value }
    ensures post { result.post.value ≡ post.value }
{
    let Some(first) = key.get(0) else {
        unreachable!()
    };
    Tag {
        key: Snapshot::of(key),
        first: Snapshot::of(first),
        post,
    }
}
