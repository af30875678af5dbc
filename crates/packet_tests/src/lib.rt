//! Tests of packets, entries, answers and views, over the public calls of their crates: what no clause says, as that a
//! call succeeds where there is memory.
#![tactic(auto)]

#[cfg(test)]
mod attributes;
#[cfg(test)]
mod bodies;
#[cfg(test)]
mod entries;
#[cfg(test)]
mod envelopes;
#[cfg(test)]
mod exchanges;
#[cfg(test)]
mod heads;
#[cfg(test)]
mod lists;
#[cfg(test)]
mod packets;
#[cfg(test)]
mod samples;
#[cfg(test)]
mod views;
