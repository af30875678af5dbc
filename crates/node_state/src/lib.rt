//! What a daemon is: its settings, its state, the packets that it sends, the records of what happens, and, in
//! `specs/`, its step.
#![tactic(auto)]

mod call;
mod config;
mod group;
mod happened;
mod packet;
mod state;

pub use call::CallLine;
pub use config::{Config, Mode};
pub use group::{Acked, Decision, Given, GroupRow, Groups, JoinAttrs, Led, Table};
pub use happened::{Happened, Records};
pub use packet::{Body, Packet, Packets, Report};
pub use packet_bodies::{ReportRow, What};
pub use state::{Core, Rings};
