//! Tests of the provider for threads, of what no contract says: what whole runs show, in one thread and
//! in several.
#![tactic(auto)]

#[cfg(test)]
mod bodies;
#[cfg(test)]
mod books;
#[cfg(test)]
mod call_numbers;
#[cfg(test)]
mod compactions;
#[cfg(test)]
mod comparison;
#[cfg(test)]
mod crews;
#[cfg(test)]
mod cut_races;
#[cfg(test)]
mod filters;
#[cfg(test)]
mod greatest;
#[cfg(test)]
mod locked;
#[cfg(test)]
mod many_subscriptions;
#[cfg(test)]
mod many_threads;
#[cfg(test)]
mod one_thread;
#[cfg(test)]
mod openings;
#[cfg(test)]
mod plain_store;
#[cfg(test)]
mod posts;
#[cfg(test)]
mod reads;
#[cfg(test)]
mod reports;
#[cfg(test)]
mod shown;
#[cfg(test)]
mod sleepers;
#[cfg(test)]
mod slices;
#[cfg(test)]
mod slow_lanes;
#[cfg(test)]
mod stopped;
#[cfg(test)]
mod tries;
#[cfg(test)]
mod trims;
