//! Tests of rules and sessions, over the public calls of their crates: what no clause says, as that a call succeeds where
//! there is memory.
#![tactic(auto)]

#[cfg(test)]
mod ballots;
#[cfg(test)]
mod batches;
#[cfg(test)]
mod calls;
#[cfg(test)]
mod client_kinds;
#[cfg(test)]
mod clients;
#[cfg(test)]
mod groups;
#[cfg(test)]
mod hand;
#[cfg(test)]
mod last_numbers;
#[cfg(test)]
mod names;
#[cfg(test)]
mod requests;
#[cfg(test)]
mod rings;
#[cfg(test)]
mod sources;
#[cfg(test)]
mod subscribers;
#[cfg(test)]
mod subscriptions;
#[cfg(test)]
mod votes;
