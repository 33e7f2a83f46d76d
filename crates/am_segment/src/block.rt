//! The raw block under a segment: the only raw pointers of this repository.
//!
//! A `Block` has one owner, who fills it. Shared, it is a `Claim`, the right to have it back, and
//! a `Part` that reads its items and can be split. All parts together give the block back for the
//! claim. Numbers, keys and what a caller sees of a segment are not here.

ghost use Rattle.std.specs.Prelude.{◌≡◌, ◌≢◌, ℕ, Bool, true, false, cond, ◌+◌, ◌-◌, ◌^◌, ◌≤◌, ◌<◌, List, [], ◌∷◌, ◌++◌, length, drop, IfOk};
ghost use Rattle.std.specs.List.{range_with_len};
ghost use Rattle.std.specs.Vec.Ownership.{FitsInBlock};
ghost use base.Fml.{ftrue};
ghost use denote.RawPtr.{Ptr};
ghost use Rattle.am_segment.specs.inside.Ownership.{block_owns, claim_owns, part_owns, part_shares};

use std::alloc::{AllocError, Allocator};
use std::marker::{Model, PhantomData, Send, Sync};
use std::mem::{align_of, size_of};
use std::slice;

/// A block with places for items, the first of which are filled, and the right to free it.
pub(crate) struct Block<T, A: Allocator> {
    ptr: *mut T,
    by: PhantomData<*const (T, A)>,
    pub(crate) ghost items: { List T },
    pub(crate) ghost places: { ℕ },
    pub(crate) ghost alloc: { A },
}

impl<T, A: Allocator> Model for Block<T, A> {
    ghost also_owns = { λ b. block_owns (A.dealloc_token b.alloc) T.row b.ptr b.places b.items };

    ghost also_shares = { λ _ _ _. ftrue };
}

unsafe impl<T: Send, A: Allocator + Send> Send for Block<T, A> {}

// A `&` to it reads nothing.
unsafe impl<T, A: Allocator> Sync for Block<T, A> {}

impl<T, A: Allocator> Block<T, A> {
    /// An empty block with this number of places.
    pub(crate) fn allocate(alloc: &A, places: usize) -> Result<Block<T, A>, AllocError>
        requires { FitsInBlock T.row places }
        ensures { IfOk result
            (λ b. (b.items ≡ []) × (b.places ≡ places) × (b.alloc ≡ alloc.now)) }
    {
        match alloc.allocate(places * size_of::<T>(), align_of::<T>()) {
            Ok(ptr) => Ok(Block {
                ptr: ptr as *mut T,
                by: PhantomData,
            }),
            Err(error) => Err(error),
        }
    }

    /// Puts an item into the place after the `count` items.
    pub(crate) fn push(&mut self, count: usize, item: T)
        requires { (count ≡ length self.old.items) × (count < self.old.places) }
        ensures { self.new ≡ record self.old { items = self.old.items ++ item ∷ [] } }
    {
        unsafe { self.ptr.add(count).write(item) }
    }

    /// Takes the last item out. `rest` items are left.
    pub(crate) fn pop(&mut self, rest: usize) -> T
        requires { (rest + 1 ≡ length self.old.items) × (rest + 1 ≤ self.old.places) }
        ensures items { self.old.items ≡ self.new.items ++ result ∷ [] }
        ensures block { (self.new.places ≡ self.old.places) × (self.new.alloc ≡ self.old.alloc) }
    {
        unsafe { self.ptr.add(rest).read() }
    }

    /// Gives a block without items back to its allocator.
    pub(crate) fn free(self, alloc: &A, places: usize)
        requires { (self.items ≡ []) × (self.places ≡ places) × (self.alloc ≡ alloc.now) }
    {
        let Block { ptr, by: _ } = self;
        unsafe {
            alloc.deallocate(ptr as *mut u8, places * size_of::<T>(), align_of::<T>());
        }
    }

    /// Lends the items out to `keys` keys, for as long as a part of them is about.
    pub(crate) fn share(self, keys: usize) -> (Claim<T, A>, Part<T>)
        ensures claim { (result.0.there ≡ true) × (result.0.at ≡ result.1.ptr)
            × (result.0.items ≡ self.items) × (result.0.places ≡ self.places)
            × (result.0.alloc ≡ self.alloc) }
        ensures part { (result.1.segment ≡ result.0.segment) × (result.1.items ≡ self.items)
            × (result.1.places ≡ self.places) × (result.1.count ≡ 2 ^ 63) }
        ensures key { (result.1.keys ≡ keys) × (result.1.numbers ≡ range_with_len 0 keys) }
    {
        let Block { ptr, by: _ } = self;
        (Claim { by: PhantomData }, Part { ptr })
    }
}

/// The right to a shared block once all of its parts are back, if it is there. It takes no space.
pub(crate) struct Claim<T, A: Allocator> {
    by: PhantomData<*const (T, A)>,
    // Of a block's claims one is there. No memory depends on which, so none says so at run time.
    pub(crate) ghost there: { Bool },
    pub(crate) ghost at: { Ptr },
    pub(crate) ghost items: { List T },
    pub(crate) ghost places: { ℕ },
    pub(crate) ghost alloc: { A },
    pub(crate) ghost segment: { ℕ },
}

impl<T, A: Allocator> Model for Claim<T, A> {
    ghost also_owns = { λ c.
        claim_owns (A.dealloc_token c.alloc) T.row c.at c.places c.items c.segment c.there };

    ghost also_shares = { λ _ _ _. ftrue };
}

unsafe impl<T: Send, A: Allocator + Send> Send for Claim<T, A> {}

// A `&` to it reads nothing.
unsafe impl<T, A: Allocator> Sync for Claim<T, A> {}

impl<T, A: Allocator> Claim<T, A> {
    /// A claim that isn't there, and this one.
    pub(crate) fn split(self) -> (Claim<T, A>, Claim<T, A>)
        ensures { (result.0 ≡ record self { there = false }) × (result.1 ≡ self) }
    {
        let Claim { by: _ } = self;
        (Claim { by: PhantomData }, Claim { by: PhantomData })
    }

    /// The other claim if it is there, or else this one.
    pub(crate) fn join(self, other: Claim<T, A>) -> Claim<T, A>
        ensures { result ≡ cond other.there other self }
    {
        let Claim { by: _ } = self;
        let Claim { by: _ } = other;
        Claim { by: PhantomData }
    }

    /// The block, for all parts of it.
    pub(crate) fn settle(self, all: Part<T>) -> Block<T, A>
        requires there { self.there ≡ true }
        requires all { (all.ptr ≡ self.at) × (all.segment ≡ self.segment) × (all.count ≡ 2 ^ 63) }
        ensures { (result.items ≡ self.items) × (result.places ≡ self.places)
            × (result.alloc ≡ self.alloc) }
    {
        let Claim { by: _ } = self;
        let Part { ptr } = all;
        Block {
            ptr,
            by: PhantomData,
        }
    }

    /// Lets the claim go. If it is there, the block is never had back.
    pub(crate) fn leak(self) {
        let Claim { by: _ } = self;
    }
}

/// The right to read a shared block's items. A block has 2^63 parts, and this is `count` of them.
pub(crate) struct Part<T> {
    pub(crate) ptr: *mut T,
    pub(crate) ghost items: { List T },
    pub(crate) ghost places: { ℕ },
    pub(crate) ghost segment: { ℕ },
    pub(crate) ghost count: { ℕ },
    // Which of how many keys it is of: no memory depends on it, so no key keeps it at run time.
    pub(crate) ghost numbers: { List ℕ },
    pub(crate) ghost keys: { ℕ },
}

impl<T> Model for Part<T> {
    ghost also_owns = { λ p. part_owns T.row p.ptr p.places p.items p.segment p.count };

    ghost also_shares = { λ p _ κ. part_shares T.row p.ptr p.places p.items p.segment κ };
}

unsafe impl<T: Sync> Send for Part<T> {}

unsafe impl<T: Sync> Sync for Part<T> {}

impl<T> Part<T> {
    /// The items, of which there are `count`.
    pub(crate) fn items(&self, count: usize) -> &[T]
        requires { (count ≡ length self.now.items) × (count ≤ self.now.places) }
        ensures { result.now ≡ self.now.items }
    {
        unsafe { slice::from_raw_parts(self.ptr, count) }
    }

    /// One part for the key of a number, and the others.
    pub(crate) fn split_one(self, number: usize) -> (Part<T>, Part<T>)
        requires { (1 < self.count) × (self.count ≤ 2 ^ 63) }
        ensures one { result.0 ≡ record self { numbers = number ∷ []; count = 1 } }
        ensures others { result.1 ≡ record self {
          count = self.count - 1;
          numbers = drop 1 self.numbers;
        } }
    {
        let Part { ptr } = self;
        (Part { ptr }, Part { ptr })
    }

    /// All parts of one block, and a part of another: no two blocks have one name.
    pub(crate) fn tell_apart(self, other: Part<T>) -> (Part<T>, Part<T>)
        requires { (self.count ≡ 2 ^ 63) × (0 < other.count) }
        ensures same { (result.0 ≡ self) × (result.1 ≡ other) }
        ensures apart { self.segment ≢ other.segment }
    {
        let Part { ptr } = self;
        let Part { ptr: at } = other;
        (Part { ptr }, Part { ptr: at })
    }

    /// Two parts of one block as one.
    pub(crate) fn join(self, other: Part<T>) -> Part<T>
        requires same { other.segment ≡ self.segment }
        requires parts { (0 < self.count) × (self.count + other.count ≤ 2 ^ 63) }
        ensures { result ≡ record self {
          count = self.count + other.count;
          numbers = self.numbers ++ other.numbers;
        } }
    {
        let Part { ptr } = self;
        let Part { ptr: _ } = other;
        Part { ptr }
    }

    /// Lets the part go. Its block is never had back.
    pub(crate) fn leak(self) {
        let Part { ptr: _ } = self;
    }
}
