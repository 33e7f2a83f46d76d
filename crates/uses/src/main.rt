//! Five programs to copy, one a file. They run one after another.
#![tactic(auto)]

mod filtered_post;
mod one_thread;
mod printed_all;
mod slow_reader;
mod who_is_notified;

use anyhow::Result;
use std::alloc::Global;
use std::sync::Wait;
use std::thread::Threads;

fn main(rt: HostRuntime) -> Result<()> {
    start(&rt, rt.alloc())
}

fn start<R: Threads + Wait + Print + AllocGlobal + Sync>(rt: &R, alloc: Global) -> Result<()> {
    one_thread::start(rt, alloc)?;
    filtered_post::start(rt, alloc)?;
    slow_reader::start(rt, alloc)?;
    printed_all::start(rt, alloc)?;
    who_is_notified::start(rt, alloc)
}
