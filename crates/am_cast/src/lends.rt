//! How a cursor moves on, and `next`, which lends the item. Their file isn't the cursor's, since
//! the clause of `next` names the type of `Cursor`.
ghost use Rattle.std.specs.Prelude.{◌≡◌, ◌<◌, ◌≤◌, true, false, drop, length, IfSome, IfNone};
ghost use Rattle.std.specs.Borrow.{sem};
ghost use Rattle.am_cast.specs.Lending.{AfterTheLoan};
ghost use Rattle.am_cast.specs.Cursors.{GoesOn, items_at};
ghost use Rattle.am_cast.specs.Lent.{Moves, MovesPast, MovesSlice, Lends, LendsPast, LendsSlice, HasNews, IsInHand, IsPending};
ghost use Rattle.am_cast.specs.inside.Moving.{TriesTake, AfterLook, NeedsLook, AreAllSeen, LendsInHand, without_item};

use crate::board;
use crate::cursor::Cursor;
use crate::feed::Feed;
use crate::handle::AsCast;
use crate::pass::Pass;

/// An answer of `next`.
#[derive(Debug, Drop)]
pub enum Step<'s, T> {
    /// The next item. It is lent until the next call.
    Item(&'s T),
    /// Nothing is there that wasn't shown, and more may come.
    Pending,
    /// All was shown, and no more will come.
    Closed,
    /// The lane was too slow for the log, and was cut.
    Cut,
}

/// An answer of `next_slice`.
#[derive(Debug, Drop)]
pub enum Slice<'s, T> {
    /// The next items, of which there is one at least. They are lent until the next call.
    Items(&'s [T]),
    /// Nothing is there that wasn't shown, and more may come.
    Pending,
    /// All was shown, and no more will come.
    Closed,
    /// The lane was too slow for the log, and was cut.
    Cut,
}

/// What `advance` answers: the answer of `next` without the item.
#[derive(Clone, Copy, Debug, PartialEq, Eq, Drop)]
pub enum Moved {
    /// One item more was shown; `in_hand` lends it.
    One,
    Pending,
    Closed,
    Cut,
}

impl<C: AsCast<T, N, P, A>, T, N: Feed, P, A> Cursor<C, T, N, P, A> {
    // The items of the place in hand, read where their key lies.
    fn items_in_hand(&mut self) -> &[T]
        requires { self.old.lane.held ≡ true }
        ensures* lender { sem 𝓛 (AfterTheLoan C.row T.row P.row A.row N.row N.Feed self.entry
            (λ cursor. cursor ≡ self.old)) }
        ensures items { result.now ≡ items_at self.old.lane.front self.old.lane.passed }
    {
        let at = self.next.slot(self.number);
        let top = &self.cast.as_cast().board.shared;
        let seat = &mut self.seat;
        board::key_in(seat, top, at).as_slice()
    }

    /// The item that was shown last, while the place that it is of is in hand.
    pub fn in_hand(&mut self) -> &T
        requires { self.old.lane.held ≡ true }
        ensures* lender { sem 𝓛 (AfterTheLoan C.row T.row P.row A.row N.row N.Feed self.entry
            (λ cursor. cursor ≡ self.old)) }
        ensures item { IsInHand self.old result.now }
    {
        let last = self.shown - 1;
        &self.items_in_hand()[last]
    }

    /// The items of the place in hand, from an index on.
    pub fn in_hand_from(&mut self, index: usize) -> &[T]
        requires { (self.old.lane.held ≡ true)
            × (index ≤ length (items_at self.old.lane.front self.old.lane.passed)) }
        ensures* lender { sem 𝓛 (AfterTheLoan C.row T.row P.row A.row N.row N.Feed self.entry
            (λ cursor. cursor ≡ self.old)) }
        ensures items { result.now ≡ drop index (items_at self.old.lane.front self.old.lane.passed) }
    {
        &self.items_in_hand()[index..]
    }

    // The key of the next place, or that the lane was cut.
    fn take_one(&mut self) -> Moved
        requires { (self.old.lane.held ≡ false) × (self.old.shown ≡ 0)
            × (self.old.lane.cut ≡ false) × (self.old.lane.passed < length self.old.lane.front) }
        ensures on { GoesOn self.old self.new }
        ensures takes { TriesTake self.old self.new result }
    {
        if self.take() { Moved::One } else { Moved::Cut }
    }

    // What needs no look: an item more of the place in hand, or what follows from the looks so far,
    // with at most one Take.
    fn advance_seen(&mut self) -> Option<Moved>
        ensures on { GoesOn self.old self.new }
        ensures moves { IfSome result (λ moved. Moves self.old self.new moved × AreAllSeen moved) }
        ensures none { IfNone result (NeedsLook self.old self.new) }
    {
        if self.show() {
            return Some(Moved::One);
        }
        self.put_back();
        if self.is_cut() {
            return Some(Moved::Cut);
        }
        if self.has_more() {
            return Some(self.take_one());
        }
        if self.is_told() {
            return Some(Moved::Closed);
        }
        None
    }

    // Whether `next` needs no look: it has an item, or knows of a place more, or that the log is closed or
    // its lane cut. If not, the place in hand has gone home.
    fn knows_more(&mut self) -> bool
        ensures on { GoesOn self.old self.new }
        ensures yes { result ≡ true → HasNews self.old self.new }
        ensures no { result ≡ false → NeedsLook self.old self.new }
    {
        if self.has_item() {
            return true;
        }
        self.put_back();
        self.is_cut() || self.has_more() || self.is_told()
    }

    /// Whether `next` has anything to answer but `Pending`: by what is known and, if that was all shown, by one look at
    /// the log. A lane is cut for a batch, so a look tells of a cut too. A caller that sleeps while there is nothing looks
    /// so first.
    pub fn has_news(&mut self) -> bool
        ensures on { GoesOn self.old self.new }
        ensures yes { result ≡ true → HasNews self.old self.new }
        ensures no { result ≡ false → IsPending self.old self.new }
    {
        if self.knows_more() {
            return true;
        }
        self.look();
        self.has_more() || self.is_told()
    }

    // What follows from a look, with at most one Take.
    fn advance_found(&mut self) -> Moved
        requires { (self.old.lane.held ≡ false) × (self.old.shown ≡ 0)
            × (self.old.lane.cut ≡ false) }
        ensures on { GoesOn self.old self.new }
        ensures found { AfterLook self.old self.new result }
    {
        if self.has_more() {
            return self.take_one();
        }
        if self.is_told() {
            Moved::Closed
        } else {
            Moved::Pending
        }
    }

    /// `next` in two halves, for a caller that moves on before it lends: one item more is in hand, or
    /// the answer says why not.
    pub fn advance(&mut self) -> Moved
        ensures on { GoesOn self.old self.new }
        ensures moves { Moves self.old self.new result }
    {
        if let Some(moved) = self.advance_seen() {
            return moved;
        }
        self.look();
        self.advance_found()
    }

    /// As `advance`, but a look comes after what the pass knows.
    pub fn advance_past(&mut self, pass: &mut Pass<T, N, P, A>) -> Moved
        ensures on { GoesOn self.old self.new }
        ensures moves { Moves self.old self.new result }
        ensures past { MovesPast pass.old.noted self.new result }
        ensures pass { pass.new ≡ pass.old }
    {
        if let Some(moved) = self.advance_seen() {
            return moved;
        }
        self.look_past(pass);
        self.advance_found()
    }

    // The answer of `next` after a move: it lends the item in hand, or says why there is none.
    fn lend(&mut self, moved: Moved) -> Step<'_, T>
        requires { moved ≡ Moved.One → self.old.lane.held ≡ true }
        ensures* lender { sem 𝓛 (AfterTheLoan C.row T.row P.row A.row N.row N.Feed self.entry
            (λ cursor. cursor ≡ self.old)) }
        ensures answer { without_item result ≡ moved }
        ensures item { LendsInHand self.old result }
    {
        match moved {
            Moved::One => Step::Item(self.in_hand()),
            Moved::Pending => Step::Pending,
            Moved::Closed => Step::Closed,
            Moved::Cut => Step::Cut,
        }
    }

    /// The next item, lent until the next call.
    pub fn next(&mut self) -> Step<'_, T>
        ensures* lender { sem 𝓛 (AfterTheLoan C.row T.row P.row A.row N.row N.Feed self.entry
            (λ cursor. GoesOn self.old cursor × Lends self.old cursor result)) }
    {
        let moved = self.advance();
        self.lend(moved)
    }

    /// The next item. It isn't `Pending` while a place that the pass knows isn't passed.
    pub fn next_past(&mut self, pass: &mut Pass<T, N, P, A>) -> Step<'_, T>
        ensures* lender { sem 𝓛 (AfterTheLoan C.row T.row P.row A.row N.row N.Feed self.entry
            (λ cursor. GoesOn self.old cursor × Lends self.old cursor result
            × LendsPast pass.old.noted cursor result)) }
        ensures pass { pass.new ≡ pass.old }
    {
        let moved = self.advance_past(pass);
        self.lend(moved)
    }

    /// `next_slice` in two halves, for a caller that moves on before it lends: the items are those in
    /// hand from an index on, or the answer says why there are none.
    pub fn advance_slice(&mut self) -> (Moved, usize)
        ensures on { GoesOn self.old self.new }
        ensures moves { MovesSlice self.old self.new result.0 result.1 }
    {
        match self.advance() {
            Moved::One => (Moved::One, self.show_rest()),
            other => (other, 0),
        }
    }

    /// The next items: what is left of the batch in hand, or the whole of the next one. They are lent
    /// until the next call.
    pub fn next_slice(&mut self) -> Slice<'_, T>
        ensures* lender { sem 𝓛 (AfterTheLoan C.row T.row P.row A.row N.row N.Feed self.entry
            (λ cursor. GoesOn self.old cursor × LendsSlice self.old cursor result)) }
    {
        let (moved, from) = self.advance_slice();
        match moved {
            Moved::One => Slice::Items(self.in_hand_from(from)),
            Moved::Pending => Slice::Pending,
            Moved::Closed => Slice::Closed,
            Moved::Cut => Slice::Cut,
        }
    }
}
