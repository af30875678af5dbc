//! What a daemon counts of what it does.
ghost use Rattle.std.specs.Prelude.{◌≡◌, ℕ};
ghost use Rattle.hags_io.specs.declared.link.LinkCall.TheVariants as call;
ghost use Rattle.daemon_model.specs.Counts.{nothing_counted, counted_by};

use piece_link::read_piece;

/// What came to a daemon, or to another who receives over an outside: how many receives there were so far (`turns`); the
/// datagrams that they brought (`received`), and those of them that were no piece, so that no message came of them
/// (`strays`); and how many receives failed (`failed`). Each count stays at 18,446,744,073,709,551,615 once it is there.
#[derive(Clone, Copy, Debug, PartialEq, Eq)]
pub struct ReceiveCounts {
    pub turns: u64,
    pub received: u64,
    pub strays: u64,
    pub failed: u64,
}

impl ReceiveCounts {
    /// Before the first receive.
    pub fn new() -> ReceiveCounts
        ensures { result ≡ nothing_counted }
    {
        ReceiveCounts {
            turns: 0,
            received: 0,
            strays: 0,
            failed: 0,
        }
    }

    /// A receive brought this datagram.
    pub fn note_datagram(&mut self, datagram: &[u8])
        ensures { (network : ℕ) → self.new
            ≡ counted_by (call.Received network datagram.now) self.old }
    {
        self.turns = self.turns.saturating_add(1);
        self.received = self.received.saturating_add(1);
        match read_piece(datagram) {
            None => self.strays = self.strays.saturating_add(1),
            Some(_piece) => {}
        }
    }

    /// A receive brought nothing.
    pub fn note_quiet(&mut self)
        ensures { self.new ≡ counted_by call.Quiet self.old }
    {
        self.turns = self.turns.saturating_add(1);
    }

    /// A receive failed.
    pub fn note_failure(&mut self)
        ensures { self.new ≡ counted_by call.Failed self.old }
    {
        self.turns = self.turns.saturating_add(1);
        self.failed = self.failed.saturating_add(1);
    }
}

/// What the line `hagsd` tells: the ticks of the daemon's node; what came; the datagrams that it sent, as if each went out,
/// up to 18,446,744,073,709,551,615; how many keys it keeps (at most 1,024), and how many have ended (at most 1,048,576),
/// which are none where no clients on other machines are served.
#[derive(Clone, Copy, Debug, PartialEq, Eq)]
pub struct Counts {
    pub ticks: u64,
    pub receives: ReceiveCounts,
    pub sent: u64,
    pub keys: usize,
    pub ended: usize,
}
