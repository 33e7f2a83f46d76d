//! A post that is ready to be posted.

ghost use Rattle.std.specs.Prelude.{◌≡◌, IfOk};

use am_alert::Post;
use am_store::store::absorb::PreparedReports;
use std::alloc::{AllocError, Global};
use std::marker::Model;

/// A post and its alerts in blocks, made before the lock is taken. Contracts see the post. If memory ran out,
/// that is answered only once the log was looked at.
#[derive(Debug, Drop)]
pub(crate) struct PreparedPost {
    post: Post,
    reports: Result<PreparedReports, AllocError>,
}

impl Model for PreparedPost {
    ghost use Rattle.std.specs.Prelude.{◌≡◌, IfOk};
    ghost use Rattle.am_alert.specs.declared.post.Post.{Post};
    ghost use Rattle.am_alert.specs.contracts.post.Post as posted;

    ghost Value = { Post };

    ghost coded = { posted.the_row.coded };

    ghost view = { λ p. p.post };

    ghost invariant = { λ p. IfOk p.reports (λ reports. reports ≡ p.post.valid) };
}

impl PreparedPost {
    pub(crate) fn of(alloc: Global, post: Post) -> PreparedPost
        ensures { result ≡ post }
    {
        let reports = PreparedReports::of(alloc, post.valid.as_slice());
        PreparedPost { post, reports }
    }

    pub(crate) fn into_parts(self) -> (Post, Result<PreparedReports, AllocError>)
        ensures post { result.0 ≡ self }
        ensures reports { IfOk result.1 (λ reports. reports ≡ self.valid) }
    {
        let PreparedPost { post, reports } = self;
        (post, reports)
    }
}
