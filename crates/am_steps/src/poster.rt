//! One poster: who publishes through the writer, and learns from the log which places are its own.
ghost use Rattle.std.specs.Prelude.{◌≡◌, ◌↔◌, IfOk, OnErr, IsSome, IsTrue, slice_get, Some};
ghost use Rattle.std.specs.List.{Contains};
ghost use Rattle.am_steps.specs.inside.LaneRows.{DoesNote};
ghost use Rattle.am_steps.specs.Steps.{MayOwn};

use crate::batch_names::OwnPosts;
use std::alloc::AllocError;

/// What a poster knows of the log.
#[derive(Debug, Drop)]
pub struct Poster<N> {
    /// The log's length when it last looked.
    pub places_known: u64,
    /// The places that it knows to be its own.
    pub own: OwnPosts<N>,
}

impl Poster<u64> {
    pub(crate) fn note(&mut self, log: &[u64], own: Option<(u64, u64)>) -> Result<bool, AllocError>
        ensures noted { IfOk result (DoesNote log.now own self.old self.new) }
        ensures possible { OnErr result (IsSome own × MayOwn log.now self.old own) }
        ensures err { OnErr result (self.new ≡ self.old) }
    {
        if let Some(post) = own {
            if !stands(log, post) || is_in(self.own.posts.as_slice(), post) {
                return Ok(false);
            }
            self.own.posts.push(post)?;
        }
        self.places_known = log.len() as u64;
        Ok(true)
    }
}

// Whether the post's name is in the log at its place.
fn stands(log: &[u64], post: (u64, u64)) -> bool
    ensures { IsTrue result ↔ (slice_get log.now post.0 ≡ Some post.1) }
{
    post.0 < log.len() as u64 && log[post.0 as usize] == post.1
}

fn is_in(posts: &[(u64, u64)], post: (u64, u64)) -> bool
    ensures { IsTrue result ↔ Contains posts.now post }
{
    posts.contains(&post)
}
