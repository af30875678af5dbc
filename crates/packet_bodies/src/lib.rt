//! The bodies of packets, but for those that carry a group's proposals and entries.
#![tactic(auto)]

mod body;
mod group;
mod reply;
mod writing;

pub use body::{
    Ack, Death, Gone, Leader, Prepare, Query, Refuse, ReportRow, RingMask, What, read_ack,
    read_death, read_gone, read_leader, read_lookup, read_mask_body, read_prepare, read_query,
    read_refuse, read_report, read_ring_body, read_ring_mask, read_view_body,
};
pub use group::{GroupRef, put_group, read_group};
pub use reply::{Reply, put_reply, read_reply};
pub use writing::{
    put_ack, put_death, put_gone, put_leader, put_prepare, put_query, put_refuse, put_report,
    put_ring_mask,
};
