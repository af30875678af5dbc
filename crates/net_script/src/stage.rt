//! What a play has.

use crate::World;
use client_callbacks::{Callbacks, ScriptClient};
use load_script::Counts;
use play_state::Cuts;

/// The world that a script is played in, which nodes are cut off from each other, what was counted of the records so
/// far, and the lines of these that are still to be written.
#[derive(Drop)]
pub struct Stage<C: Callbacks = ScriptClient> {
    pub world: World<C>,
    pub cuts: Cuts,
    pub counts: Counts,
    pub text: Vec<u8>,
}
