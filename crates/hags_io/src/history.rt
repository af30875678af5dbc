//! A history of deeds that only proofs read. It takes no memory, and its functions do nothing when they run.
ghost use Rattle.std.specs.Prelude.{◌≡◌, List, [], ◌∷◌, ◌++◌};
ghost use Rattle.std.specs.Borrow.{ftrue};
ghost use Rattle.hags_io.specs.declared.link.LinkCall.TheVariants as call;
ghost use Rattle.hags_io.specs.Deeds.{Deed, Read, Placed, Opened, Exchanged, Wrote};

use std::marker::Model;

/// The deeds so far, in their order.
#[derive(Drop)]
pub struct History {
    pub ghost deeds: { List Deed },
}

impl Model for History {
    ghost also_owns = { λ _. ftrue };
}

impl History {
    /// Before the first deed.
    pub fn new() -> History
        ensures { result.deeds ≡ [] }
    {
        History {}
    }

    /// With one deed more, which the caller's proof picks by what is told of it.
    fn with<T>(_before: &History, _told: &T) -> History
        ghost deed: { Deed }
        ensures { result.deeds ≡ _before.now.deeds ++ deed ∷ [] }
    {
        History {}
    }

    /// A moment was read.
    pub fn read(&self, moment: u64) -> History
        ensures { result.deeds ≡ self.now.deeds ++ Read moment ∷ [] }
    {
        History::with(self, &moment)
    }

    /// A place was told.
    pub fn placed(&self, node: u8, network: u8, address: u32, port: u16) -> History
        ensures { result.deeds ≡ self.now.deeds ++ Placed node network address port ∷ [] }
    {
        History::with(self, &(node, network, address, port))
    }

    /// The link was opened, or could not be.
    pub fn opened(&self, port: u16, done: bool) -> History
        ensures { result.deeds ≡ self.now.deeds ++ Opened port done ∷ [] }
    {
        History::with(self, &(port, done))
    }

    /// A datagram came on a network.
    pub fn received(&self, network: u8, bytes: &[u8]) -> History
        ensures { result.deeds
            ≡ self.now.deeds ++ Exchanged (call.Received network bytes.now) ∷ [] }
    {
        History::with(self, &(network, bytes))
    }

    /// Nothing came.
    pub fn quiet(&self) -> History
        ensures { result.deeds ≡ self.now.deeds ++ Exchanged call.Quiet ∷ [] }
    {
        History::with(self, &())
    }

    /// A receive failed.
    pub fn failed(&self) -> History
        ensures { result.deeds ≡ self.now.deeds ++ Exchanged call.Failed ∷ [] }
    {
        History::with(self, &())
    }

    /// A piece was sent, or the link failed to.
    pub fn sent(&self, node: u8, network: u8, bytes: &[u8], out: bool) -> History
        ensures { result.deeds
            ≡ self.now.deeds ++ Exchanged (call.Sent node network bytes.now out) ∷ [] }
    {
        History::with(self, &(node, network, bytes, out))
    }

    /// Bytes were written: all of them, or an unknown front.
    pub fn wrote(&self, bytes: &[u8], whole: bool) -> History
        ensures { result.deeds ≡ self.now.deeds ++ Wrote bytes.now whole ∷ [] }
    {
        History::with(self, &(bytes, whole))
    }
}
