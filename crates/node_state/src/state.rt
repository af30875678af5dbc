//! The state of a node.
use crate::config::Config;
use crate::group::Groups;
use crate::happened::Records;
use crate::packet::Packets;
use adapter_ring::Ring;
use name_server::Names;
use node_reach::Reach;
use rsct_packet::List;
use session_state::SessionState;
use view_state::Views;

/// The rings of a node's adapters, ascending by network.
pub type Rings = List<Ring>;

/// A node at work: its settings, its views, the names of groups where it is the coordinator, its groups, what it
/// has of its clients, its rings, which nodes it reaches, and what this step has sent and recorded so far. The
/// clients themselves stand beside it.
pub struct Core {
    pub config: Config,
    pub views: Views,
    pub names: Names,
    pub groups: Groups,
    pub sessions: SessionState,
    pub rings: Rings,
    pub reach: Reach,
    pub sends: Packets,
    pub records: Records,
}

// Written out: a drop is one call then, whose proof is made once.
impl Drop for Core {
    fn drop(self) {
        let Core {
            config: _config,
            views: _views,
            names: _names,
            groups: _groups,
            sessions: _sessions,
            rings: _rings,
            reach: _reach,
            sends: _sends,
            records: _records,
        } = self;
    }
}
