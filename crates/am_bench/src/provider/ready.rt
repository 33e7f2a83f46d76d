//! Posts that were read before, to a Book under a lock, while readers read.

ghost use Rattle.std.specs.Prelude.{◌≡◌};

use crate::provider::load::Load;
use crate::provider::{Measured, Posted, count_shown, moment, wait, wait_for};
use crate::stopwatch::since;
use am_alert::Post;
use am_posts::PostReader;
use am_provider::{Begun, Book, Cast, Origin, Parts, Pass, Policy};
use std::alloc::{AllocError, Global};
use std::sync::atomic::{AtomicU64, Ordering};
use std::sync::{Mutex, Wait};
use std::thread;
use std::thread::Threads;
use std::time::{Clock, Duration, Instant};

// How many alerts all readers received.
fn sum_of(shown: Result<Vec<u64>, AllocError>) -> u64 {
    let mut sum: u64 = 0;
    if let Ok(shown) = shown {
        for one in &shown {
            sum = sum.wrapping_add(*one);
        }
    }
    sum
}

// The posts, read from their bodies.
pub(crate) fn read_posts(
    alloc: Global,
    bodies: &[String],
    load: Load,
) -> Result<Vec<Post>, AllocError> {
    let mut reader = PostReader::new(alloc);
    let mut posts = Vec::new(alloc);
    for at in 0..load.posts {
        if let Some(body) = bodies.get((at % load.labels) as usize)
            && let Ok(post) = reader.read(body.as_bytes(), moment(at), Duration::from_secs(300))
        {
            posts.push(post)?;
        }
    }
    Ok(posts)
}

// As `read`, over a Book.
fn read_book<N: Origin, R: Wait + Clock>(
    rt: &R,
    cast: &Cast<N>,
    book: &Mutex<Book<N>>,
    arrived: &AtomicU64,
) -> u64 {
    let Ok(mut subscription) = book.lock(rt).subscribe(cast) else {
        return 0;
    };
    arrived.fetch_add(1, Ordering::SeqCst);
    let shown = count_shown(rt, &mut subscription);
    book.lock(rt).leave(cast, subscription);
    shown
}

// Posts what was read once the readers have subscribed, and closes the log. What a full log refuses
// isn't posted again.
fn post_ready<N: Origin, R: Wait + Clock>(
    rt: &R,
    cast: &Cast<N>,
    book: &Mutex<Book<N>>,
    pass: &mut Pass<N>,
    posts: Vec<Post>,
    arrived: &AtomicU64,
    load: Load,
) -> Posted {
    let mut turns = 0;
    let mut accepted: u64 = 0;
    let mut at: u64 = 0;
    wait_for(arrived, load.readers);
    let begin = Instant::now(rt);
    for post in posts {
        match book.lock(rt).post(cast, pass, post, moment(at)) {
            Ok(_) => accepted = accepted.wrapping_add(1),
            Err(_) => wait(&mut turns),
        }
        at = at.wrapping_add(1);
    }
    let posting = since(rt, begin);
    let _closed = book.lock(rt).close(cast);
    Posted {
        accepted,
        posting,
        subscribing: 0,
    }
}

// Posts that were read before, to a Book, while the readers read.
pub(crate) fn run_ready<N: Origin + Send + Sync, R: Threads + Wait + Clock + Sync>(
    rt: &R,
    alloc: Global,
    parts: Parts,
    posts: Vec<Post>,
    load: Load,
) -> Result<Measured, AllocError>
    requires table { parts.log.board.shared.table_id ≡ N.table }
    requires ledger { (parts.ledger.name ≡ N.name) × (parts.ledger.parts ≡ N.parts) }
{
    let Begun {
        cast,
        book,
        mut passes,
    } = Book::<N>::begin(alloc, parts, Policy::Refuse)?;
    let book = Mutex::new(book);
    let arrived = AtomicU64::new(0);
    let (log, shared, come) = (&cast, &book, &arrived);
    let poster = passes.first_mut();
    let readers = load.readers as usize;
    let (posted, shown) = thread::join(
        rt,
        move || match poster {
            Some(pass) => post_ready(rt, log, shared, pass, posts, come, load),
            None => Posted::NOTHING,
        },
        move || thread::map_indices(
            rt,
            alloc,
            readers,
            &|_reader| read_book(rt, log, shared, come),
        ),
    );
    let settled = book.into_inner().settle(cast, passes);
    Ok(Measured {
        posted,
        shown: sum_of(shown),
        stored: settled.store.len() as u64,
    })
}
