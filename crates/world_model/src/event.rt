//! What happens in a world.
use node_state::{CallLine, What};
use rsct_packet::{List, Mask};

/// A plain event: one thing that happens at one node.
pub enum Event {
    /// The node starts, in its next incarnation.
    Start(u8),
    Stop(u8),
    Tick(u8),
    /// The node is ordered to ask for a view of these nodes.
    Ask(u8, Mask),
    /// A client of the node calls.
    Call(u8, CallLine),
    /// A status of the node is asked for.
    Show(u8, What),
    /// The second node is given the k-th packet ever sent to it from the first one, whether it was given before
    /// or not.
    Deliver(u8, u8, u32),
    /// The node is given bytes that are no packet.
    Garbage(u8, List<u8>),
}

// Written out: a drop is one call then, whose proof is made once.
impl Drop for Event {
    fn drop(self) {
        match self {
            Event::Start(_) => {}
            Event::Stop(_) => {}
            Event::Tick(_) => {}
            Event::Ask(_, _) => {}
            Event::Call(_, _x1) => {}
            Event::Show(_, _) => {}
            Event::Deliver(_, _, _) => {}
            Event::Garbage(_, _x1) => {}
        }
    }
}

/// Plain events in order.
pub type Events = List<Event>;
