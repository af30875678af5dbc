//! The heartbeat ring of one adapter: the nodes of one network that hear one another.
#![tactic(auto)]

mod addresses;
mod agreement;
mod packet;
mod packet_rules;
mod ring;
mod tick;
mod work;
mod worked_rows;

pub use agreement::rings_always_agree;
pub use packet::{RingEvent, RingPacket, RingSend};
pub use ring::{Gathering, Ring, RingOut, RingSet, RingSettings};
pub use worked_rows::{one_of_three_stops, two_nodes_meet};
