//! The lists that a node answers with.
ghost use Rattle.std.specs.Prelude.{◌≡◌, IfOk, length, List};
ghost use Rattle.view_state.specs.declared.install.Part.{Part};

use rsct_packet::NoMemory;
use std::alloc::Global;
use view_state::Parts;

/// A node's own lists in name order. They are copied where an answer carries them, and not before.
pub trait OwnLists {
    ghost parts_of: { Self → List Part };

    /// How many they are.
    fn count(&self) -> usize
        ensures { result ≡ length (parts_of self.now) };

    /// A copy of each.
    fn parts(&self, alloc: Global) -> Result<Parts, NoMemory>
        ensures { IfOk result (λ ps. ps ≡ parts_of self.now) };
}
