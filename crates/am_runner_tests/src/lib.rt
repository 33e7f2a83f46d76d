//! Tests of what no contract says of the runner for threads, and of the crates below it that have no tests of their own: that
//! each thread runs its own lines concurrently with the others, what whole scripts answer in their order, that an input of the
//! greatest size is read, also in threads, and what fronts of a history count.
#![tactic(auto)]

#[cfg(test)]
mod beside;
#[cfg(test)]
mod history;
#[cfg(test)]
mod in_order;
#[cfg(test)]
mod reading;
#[cfg(test)]
mod runs;
#[cfg(test)]
mod scripts;
