//! Tests of the log without a lock and of its segments, of what no contract says:
//! what whole runs show, in one thread and in several.
#![tactic(auto)]

#[cfg(test)]
mod calls;
#[cfg(test)]
mod ends;
#[cfg(test)]
mod example;
#[cfg(test)]
mod log;
#[cfg(test)]
mod longest;
#[cfg(test)]
mod owned;
#[cfg(test)]
mod segments;
#[cfg(test)]
mod shared;
#[cfg(test)]
mod sleepers;
#[cfg(test)]
mod threads;
