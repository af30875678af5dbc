//! The bottom layer: ids, sets of nodes, names, texts, lists, and what packets are spelled like.
#![tactic(auto)]

mod fronts;
mod ids;
mod list;
mod listed;
mod mask;
mod optional;
mod packet;
mod providers;
mod reading;
mod text;
mod writing;

pub use ids::{Member, NoMemory, ProtoId, ProviderId, RingId, ViewId, risen};
pub use list::List;
pub use listed::{
    Item, Listed, is_listed, put_list, put_providers, read_list, read_listed, read_providers,
    read_some_providers,
};
pub use mask::{MAX_NODES, Mask, NETWORKS, NODES, is_node_number};
pub use optional::{
    put_optional_bytes, put_optional_proto, put_optional_u32, read_optional_bytes,
    read_optional_proto, read_optional_u32,
};
pub use packet::{Head, Packet, is_group_kind, is_head, write_head, write_head2};
pub use providers::{MAX_PROVIDERS, Providers, is_among, is_none_among};
pub use reading::{
    known, read_bytes, read_mask, read_member, read_name, read_node, read_node_or_none, read_part,
    read_proto, read_provider, read_ring, read_u8, read_u16, read_u32, read_u64, read_view,
};
pub use text::{MAX_CLIENT_NAME, MAX_NAME, MAX_TEXT, Name, Text, are_name_bytes, is_name};
pub use writing::{
    put_bytes, put_mask, put_member, put_name, put_proto, put_provider, put_ring, put_u8, put_u16,
    put_u32, put_u64, put_view,
};

/// The members of a view, ascending by node, each with its incarnation.
pub type Members = List<Member>;

/// A datagram on its way: the node that it goes to, the network that it takes (0: none leads there), and its
/// bytes.
#[derive(Drop)]
pub struct Datagram {
    pub node: u8,
    pub network: u8,
    pub bytes: List<u8>,
}

/// Datagrams in the order of sending.
pub type Sends = List<Datagram>;
