//! Which calls are made, and whole runs of them.

ghost use Rattle.std.specs.Prelude.{◌≡◌};

use crate::calls::{Both, KINDS, Reader};
use crate::log::{Log, begin_log, end_log};
use am_cast::{Cast, Feed, LANES, Parts, Pass, Writer};
use am_steps::{Event, State};
use std::alloc::{AllocError, Global};
use std::marker::Brand;
use std::test::Fail;

impl<'a, N: Feed> Both<'a, N> {
    // A call of that kind. Answers whether both did the same.
    fn call(
        &mut self,
        kind: u64,
        writer: &mut Writer<u64, N>,
        pass: &mut Pass<u64, N>,
        first: &mut Reader<'a, N>,
        second: &mut Reader<'a, N>,
    ) -> Result<bool, AllocError> {
        let same = match kind {
            0 => self.publish(writer, pass)?,
            1 => self.publish_cutting(writer, pass)?,
            2 => {
                self.harvest()?;
                writer.harvest(self.cast) == self.full_lane()
            }
            3 => self.admit(writer, first)?,
            4 => self.admit(writer, second)?,
            5 => self.retire(writer, first)?,
            6 => self.retire(writer, second)?,
            7 => self.next(first)?,
            8 => self.next(second)?,
            9 => self.next_past(first, pass)?,
            10 => self.next_past(second, pass)?,
            11 => self.meet(first, pass)?,
            12 => self.publish_harvested(writer, pass)?,
            _ => self.state.apply(Event::Close)? == writer.close(self.cast).is_ok(),
        };
        let shown = self.has_shown(first) && self.has_shown(second);
        Ok(same && shown && self.frees_the_same(writer))
    }
}

/// What to call: each kind in turn after two subscriptions and a post, or a number of kinds from a seed.
#[derive(Clone, Copy, Drop)]
enum Script {
    Two(u64, u64),
    Seeded(u64, u32),
}

// The next number of a fixed sequence.
fn next_seed(seed: u64) -> u64 {
    seed.wrapping_mul(6_364_136_223_846_793_005)
        .wrapping_add(1_442_695_040_888_963_407)
}

fn play<'a, N: Feed>(
    both: &mut Both<'a, N>,
    script: Script,
    writer: &mut Writer<u64, N>,
    pass: &mut Pass<u64, N>,
    first: &mut Reader<'a, N>,
    second: &mut Reader<'a, N>,
) -> Result<bool, AllocError> {
    match script {
        Script::Two(one, other) => {
            let mut same = true;
            for kind in [3, 4, 0, 7, one, other, 7, 8, 1] {
                same &= both.call(kind, writer, pass, first, second)?;
            }
            Ok(same)
        }
        Script::Seeded(start, calls) => {
            let mut seed = start;
            for _call in 0..calls {
                seed = next_seed(seed);
                // No Close, after which little would happen.
                let kind = (seed >> 33) % (KINDS - 1);
                if !both.call(kind, writer, pass, first, second)? {
                    return Ok(false);
                }
            }
            both.call(KINDS - 1, writer, pass, first, second)
        }
    }
}

fn new_reader<'a, N: Feed>(alloc: Global) -> Reader<'a, N> {
    Reader {
        lane: 0,
        cursor: None,
        shown: Vec::new(alloc),
        of_hand: 0,
    }
}

// The reader's cursor goes back to the writer.
fn give_back<N: Feed>(cast: &Cast<u64, N>, writer: &mut Writer<u64, N>, reader: Reader<'_, N>) {
    let Reader {
        lane: _,
        cursor,
        shown: _,
        of_hand: _,
    } = reader;
    match cursor {
        Some(cursor) => writer.retire(cast, cursor),
        None => {}
    }
}

// A whole run on a new log. Answers whether both did the same throughout.
fn run<N: Feed>(parts: Parts<u64>, alloc: Global, script: Script) -> Result<bool, Fail>
    requires { parts.board.shared.table_id ≡ N.table }
{
    let Log {
        cast,
        mut writer,
        mut pass,
    } = begin_log::<u64, N>(parts)?;
    let log = &cast;
    let mut first = new_reader(alloc);
    let mut second = new_reader(alloc);
    let same = match State::new(alloc, 1, LANES, 1) {
        Ok(state) => {
            let mut both = Both {
                alloc,
                cast: log,
                state,
                length: 0,
            };
            play(
                &mut both,
                script,
                &mut writer,
                &mut pass,
                &mut first,
                &mut second,
            )
        }
        Err(error) => Err(error),
    };
    give_back(log, &mut writer, first);
    give_back(log, &mut writer, second);
    end_log(cast, writer)?;
    Ok(same?)
}

fn run_of(alloc: Global, script: Script) -> Result<bool, Fail> {
    let parts = Parts::make(alloc, 1)?;
    run::<Brand>(parts, alloc, script)
}

#[test]
fn each_kind_after_each_other_kind(rt: HostRuntime) -> Result<(), Fail> {
    for one in 0..KINDS {
        for other in 0..KINDS {
            assert!(rt; run_of(rt.alloc(), Script::Two(one, other))?);
        }
    }
    Ok(())
}

#[test]
fn two_thousand_calls(rt: HostRuntime) -> Result<(), Fail> {
    for start in 1..5 {
        assert!(rt; run_of(rt.alloc(), Script::Seeded(start, 500))?);
    }
    Ok(())
}
