//! The parts of a new log, before a type names it, and how a log begins and ends.
ghost use Rattle.std.specs.Prelude.{false, ◌≡◌, ◌*◌, ◌<◌, ◌≤◌, ◌↔◌, IsOk, IfOk, IfErr, [], ℕ, slice_index, length};
ghost use Rattle.std.specs.List.{All};
ghost use Rattle.am_cast.specs.declared.limits.TheConstants.{MAX_PLACES};
ghost use Rattle.am_cast.specs.Rule.{gone, lane_word, blank};
ghost use Rattle.am_cast.specs.Changes.{copied};
ghost use Rattle.am_cast.specs.inside.Starts.{PartsOk};
ghost use Rattle.am_cast.specs.Writers.{IsIdle};

use crate::batch_view::{Board, LogSeat};
use crate::board;
use crate::cursor::Cast;
use crate::feed::Feed;
use crate::key_rows::KeyRows;
use crate::limits::{LANES, WORDS};
use crate::pass::Pass;
use crate::ring_place::RingPlace;
use crate::waiters::Waiters;
use crate::writer::Writer;
use crate::writer::lane_account::{LaneAccount, Stand};
use crate::writer::state::WriterState;
use std::alloc::{AllocError, Global};
use std::marker::PhantomData;

/// A new table, and the memory of a writer. It must be spent by `begin`.
pub struct Parts<T, P = (), A = ()> {
    pub board: Board<T, P, A>,
    seat: LogSeat<T, P, A>,
    rows: KeyRows<T>,
    alloc: Global,
    pub places: u64,
    ghost ok: { PartsOk board.shared.table_id seat.table_id seat.me rows places },
}

// The words of a log whose lanes are all idle.
fn first_words() -> [u64; WORDS]
    ensures tail { (length result ≡ WORDS) × (slice_index result 0 ≡ 0) }
    ensures lanes { (l : ℕ) → l < LANES → slice_index result (lane_word l) ≡ gone }
{
    let mut words = [0; WORDS];
    for lane in 0..LANES {
        words[16 * lane + 16] = u64::MAX;
    }
    words
}

impl<T, P, A> Parts<T, P, A> {
    /// The parts of a log whose live lanes may lag by at most `places` batches.
    pub fn make(alloc: Global, places: u64) -> Result<Parts<T, P, A>, AllocError>
        requires { (0 < places) × (places ≤ MAX_PLACES) }
        ensures { IfOk result (λ p. p.places ≡ places) }
    {
        let words = first_words();
        let rows = KeyRows::new(alloc, places as usize)?;
        let Ok((board, seat)) = Board::vacant(alloc, &words, LANES * places as usize, &places)
        else {
            rows.end();
            return Err(AllocError);
        };
        Ok(Parts {
            board,
            seat,
            rows,
            alloc,
            places,
        })
    }
}

/// The ends of a log.
pub struct Begun<T, N: Feed, P = (), A = ()> {
    pub cast: Cast<T, N, P, A>,
    pub writer: Writer<T, N, P, A>,
    pub passes: Vec<Pass<T, N, P, A>>,
}

// A pass for each poster. They know nothing yet.
fn deal_passes<T, N: Feed, P, A>(
    alloc: Global,
    board: &Board<T, P, A>,
    seat: &mut LogSeat<T, P, A>,
    posters: usize,
) -> Result<Vec<Pass<T, N, P, A>>, AllocError>
    requires table { (board.now.shared.table_id ≡ N.table) × (seat.old.table_id ≡ N.table)
        × (N.table.words ≡ WORDS) }
    requires fresh { (seat.old.me.1 ≡ []) × (copied seat.old.me.0 ≡ blank) }
    ensures seat { (seat.new.table_id ≡ seat.old.table_id) × (seat.new.me ≡ seat.old.me) }
    ensures passes { IfOk result (λ made. (length made.items ≡ posters)
        × All (λ pass. pass ≡ record { noted = []; own = [] }) made.items) }
{
    let mut passes = Vec::with_capacity(alloc, posters)?;
    for _poster in 0..posters {
        passes.push_reserved(Pass {
            seat: board::new_seat(&board.shared, seat),
            of: PhantomData,
        });
    }
    Ok(passes)
}

// The writer of a log that has no batch, and whose lanes are all idle.
fn first_writer<T, N: Feed, P, A>(
    seat: LogSeat<T, P, A>,
    rows: KeyRows<T>,
    places: u64,
) -> Writer<T, N, P, A>
    requires { PartsOk N.table seat.table_id seat.me rows places }
    ensures empty { result.tail ≡ record { places = places; log = []; closed = false } }
    ensures idle { IsIdle result }
{
    let state = WriterState {
        seat,
        rows,
        next: RingPlace::new(0, places),
        closed: false,
        lanes: [LaneAccount {
            stand: Stand::Idle,
            word: 0,
        }; LANES],
        of: PhantomData,
    };
    Writer { state }
}

/// A log over these parts, with one pass for each poster.
pub fn begin<T: Drop, N: Feed, P, A>(
    parts: Parts<T, P, A>,
    posters: usize,
) -> Result<Begun<T, N, P, A>, AllocError>
    requires { parts.board.shared.table_id ≡ N.table }
    ensures empty { IfOk result (λ begun. begun.writer.tail ≡ record {
      places = parts.places;
      log = [];
      closed = false;
    }) }
    ensures idle { IfOk result (λ begun. IsIdle begun.writer) }
    ensures passes { IfOk result (λ begun. (length begun.passes.items ≡ posters)
        × All (λ pass. pass ≡ record { noted = []; own = [] }) begun.passes.items) }
{
    let Parts {
        board,
        mut seat,
        rows,
        alloc,
        places,
    } = parts;
    let passes = deal_passes(alloc, &board, &mut seat, posters);
    let cast = Cast {
        board,
        waiters: Waiters::new(),
        of: PhantomData,
    };
    let writer = first_writer(seat, rows, places);
    match passes {
        Ok(passes) => Ok(Begun {
            cast,
            writer,
            passes,
        }),
        Err(_) => {
            free(cast, writer);
            Err(AllocError)
        }
    }
}

/// A log that was not ended, since a lane is in use. It comes back as it was.
pub struct InUse<T, N: Feed, P = (), A = ()> {
    pub cast: Cast<T, N, P, A>,
    pub writer: Writer<T, N, P, A>,
}

impl<T, N: Feed, P, A> InUse<T, N, P, A> {
    /// Lets the log go, for a caller that can't go on until its lanes are idle. Its own memory is freed. A batch that a
    /// lane hasn't passed never ends: its items aren't dropped, and their memory is never given back.
    pub fn leak(self) {
        let InUse { cast, writer } = self;
        writer.leak();
        cast.leak();
    }
}

/// The end of a log: its memory is freed, if all its lanes are idle.
pub fn end<T: Drop, N: Feed, P, A>(
    cast: Cast<T, N, P, A>,
    writer: Writer<T, N, P, A>,
) -> Result<(), InUse<T, N, P, A>>
    ensures ok { IsOk result ↔ IsIdle writer }
    ensures err { IfErr result (λ back. (back.cast ≡ cast) × (back.writer ≡ writer)) }
{
    if !writer.is_idle() {
        return Err(InUse { cast, writer });
    }
    free(cast, writer);
    Ok(())
}

// Frees a log whose lanes are all idle.
fn free<T: Drop, N: Feed, P, A>(cast: Cast<T, N, P, A>, writer: Writer<T, N, P, A>)
    requires { IsIdle writer }
{
    let Cast {
        board,
        waiters: _,
        of: _,
    } = cast;
    let Writer { state } = writer;
    let WriterState {
        seat,
        rows,
        next: _,
        closed: _,
        lanes: _,
        of: _,
    } = state;
    rows.end();
    let mut closed = board.close_with(seat);
    for index in 0..closed.slot_count() {
        match closed.take(index) {
            None => {}
            Some(_) => unreachable!(),
        }
    }
    closed.free();
}
