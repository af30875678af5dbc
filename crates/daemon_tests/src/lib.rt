//! Tests of daemons: worked rows of what one reads, sends and records over a link, a clock and a sink in memory, byte for
//! byte; the clients that it is given; what it is asked for, and what it is asked about itself; how it ends; and its parts over the sockets of the system.
#![tactic(auto)]

#[cfg(test)]
mod clients;
#[cfg(test)]
mod endings;
#[cfg(test)]
mod failing;
#[cfg(test)]
mod itself;
#[cfg(test)]
mod machines;
#[cfg(test)]
mod options;
#[cfg(test)]
mod questions;
#[cfg(test)]
mod runs;
#[cfg(test)]
mod sockets;
#[cfg(test)]
mod turns;
