//! What the seats of one log know. No value of these types is made.
//! `B` is what is known of a batch, `K` a key of one, and `A` what a subscription notes down.
//!
//! A lane's seat is cut off from the writer's at its Admit. It takes in the writer's at its Retire, or is let
//! go as the lane is left, so the writer keeps no idle seats. The lane's admission number and its note are in
//! both views meanwhile.
use std::collections::LinkedList;

/// What the tail word shows.
pub struct Tail<B> {
    /// By how many batches a live lane may lag.
    pub places: u64,
    /// What is known of each batch, in order.
    pub log: LinkedList<B>,
    pub closed: bool,
}

/// What the writer knows of one lane.
pub struct Account<K, A> {
    /// 0 idle, 1 live, 2 cut, 3 vacated: found left.
    pub stand: u64,
    /// How often it was admitted.
    pub turn: u64,
    /// What its subscription noted down when it was admitted last.
    pub note: Option<A>,
    /// The log's length then: its first place.
    pub start: u64,
    /// The number of places passed, as found last.
    pub known: u64,
    /// Half of the word, as found last: twice the number passed, and one more if a key was in hand.
    pub half: u64,
    /// The slots of the places below are empty.
    pub cleared: u64,
    /// If the lane isn't live, it has no key from there on.
    pub stop: u64,
    /// The key of the place `known` was in the cursor's hand when the lane was cut, and isn't back yet.
    pub away: bool,
    /// 0, or 1 more than the place whose slot is in the writer's hand.
    pub out: u64,
    /// The key that lies in the slot of the next place.
    pub laid: Option<K>,
    /// How often its word was loaded.
    pub loads: u64,
}

/// What the writer knows.
pub struct WriterView<B, K, A> {
    pub tail: Tail<B>,
    /// One for each lane. A clause reads an array as a list, of any length.
    pub accounts: LinkedList<Account<K, A>>,
}

/// What a lane knows.
pub struct LaneView<B, A> {
    pub number: u64,
    pub places: u64,
    /// As in the writer's account of it.
    pub turn: u64,
    pub note: Option<A>,
    pub start: u64,
    /// It was admitted, and hasn't left.
    pub here: bool,
    /// Its cursor reads.
    pub begun: bool,
    /// The log when it looked last.
    pub front: LinkedList<B>,
    /// How many places lie before its next one.
    pub passed: u64,
    /// The key of the place `passed` is in its hand.
    pub held: bool,
    /// Its last look showed the log closed.
    pub told: bool,
    /// Its cursor has answered that it was cut.
    pub cut: bool,
    /// How often it looked.
    pub looks: u64,
}

/// A place of the log, and the batch there.
pub struct Own<B> {
    pub place: u64,
    pub batch: B,
}

/// What a seat knows. Each part goes its own way at a split.
pub struct View<B, K, A> {
    pub writer: Option<WriterView<B, K, A>>,
    pub lane: Option<LaneView<B, A>>,
    /// The log when this seat noted it last.
    pub noted: LinkedList<B>,
    /// What another seat has seen of the log.
    pub heard: LinkedList<B>,
    /// The log was closed by then.
    pub whole: bool,
    /// The places that are this seat's own.
    pub own: LinkedList<Own<B>>,
    /// How many of them it has noted: the first ones.
    pub counted: u64,
}
