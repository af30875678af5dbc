//! What a call works over.
use crate::output::Output;

/// What a call of the program works over: where it reads, and the outside, which is also where it writes.
#[derive(Drop)]
pub struct Edges<S, O> {
    pub input: S,
    pub output: Output<O>,
}
