//! What a line can say of what its types can hold.
ghost use Rattle.std.specs.Prelude.{◌≡◌};
ghost use Rattle.std.specs.List.{list_all};
ghost use Rattle.rsct_packet.specs.Mask.{is_node};
ghost use Rattle.word_laws.specs.Ranges.{is_u32, is_u16, is_view, is_ring, is_proto, is_provider, is_member, is_value, is_value_option};
ghost use Rattle.record_lines.specs.Fits.{ascend_from, are_members, are_named, are_nodes, fits_text, fits_value, fits_value_option, members_ascend};

use rsct_packet::{
    MAX_TEXT, Member, ProtoId, ProviderId, Providers, RingId, Text, ViewId, is_node_number,
};

/// Can a line say the number? It can say each, by its type.
#[tactic(auto, unfolding(word_laws::specs::Ranges::is_u32))]
pub fn is_u32(number: u32) -> bool
    ensures { result ≡ is_u32 number }
{
    number <= u32::MAX
}

/// The same of 16 bits.
#[tactic(auto, unfolding(word_laws::specs::Ranges::is_u16))]
pub fn is_u16(number: u16) -> bool
    ensures { result ≡ is_u16 number }
{
    number <= u16::MAX
}

/// Can a line say the view?
#[tactic(auto, unfolding(word_laws::specs::Ranges::is_view))]
pub fn is_view(view: ViewId) -> bool
    ensures { result ≡ is_view view }
{
    is_u32(view.number) && is_node_number(view.coord) && is_u32(view.inc)
}

/// Can a line say the ring?
#[tactic(auto, unfolding(word_laws::specs::Ranges::is_ring))]
pub fn is_ring(ring: RingId) -> bool
    ensures { result ≡ is_ring ring }
{
    is_node_number(ring.leader) && is_u32(ring.inc) && is_u32(ring.number)
}

/// Can a line say the protocol?
#[tactic(auto, unfolding(word_laws::specs::Ranges::is_proto))]
pub fn is_proto(proto: ProtoId) -> bool
    ensures { result ≡ is_proto proto }
{
    is_view(proto.view) && is_u32(proto.place)
}

/// Can a line say the provider?
#[tactic(auto, unfolding(word_laws::specs::Ranges::is_provider))]
pub fn is_provider(provider: ProviderId) -> bool
    ensures { result ≡ is_provider provider }
{
    is_node_number(provider.node)
        && is_u32(provider.inc)
        && is_u16(provider.instance)
        && is_u32(provider.join)
}

/// Can a line say the member of a view?
#[tactic(auto, unfolding(word_laws::specs::Ranges::is_member))]
pub fn is_member(member: Member) -> bool
    ensures { result ≡ is_member member }
{
    is_node_number(member.node) && is_u32(member.inc)
}

/// Can a line say each of the providers?
pub fn is_each_provider(providers: &[ProviderId]) -> bool
    ensures { result ≡ list_all is_provider providers.now }
{
    providers.iter().all(|p| is_provider(*p))
}

/// Can a line say the providers?
#[tactic(auto, unfolding(crate::specs::Fits::are_named), using(crate::proofs::FitLaws::named_by_type))]
pub fn are_named(providers: &Providers) -> bool
    ensures { result ≡ are_named providers.now }
{
    is_each_provider(providers.as_slice())
}

/// Does each stand behind a lesser one?
#[tactic(auto, unfolding(crate::specs::Fits::ascend_from))]
fn ascend_from(node: u8, nodes: &[u8]) -> bool
    ensures { result ≡ ascend_from node nodes.now }
{
    match nodes {
        [] => true,
        [first, others @ ..] => node < *first && ascend_from(*first, others),
    }
}

fn is_each_node(nodes: &[u8]) -> bool
    ensures { result ≡ list_all is_node nodes.now }
{
    nodes.iter().all(|n| is_node_number(*n))
}

/// Are these nodes that ascend?
#[tactic(auto, unfolding(crate::specs::Fits::are_nodes))]
pub fn are_nodes(nodes: &[u8]) -> bool
    ensures { result ≡ are_nodes nodes.now }
{
    ascend_from(0, nodes) && is_each_node(nodes)
}

/// Does the node of each stand behind a lesser one?
#[tactic(auto, unfolding(crate::specs::Fits::members_ascend))]
fn members_ascend(node: u8, members: &[Member]) -> bool
    ensures { result ≡ members_ascend node members.now }
{
    match members {
        [] => true,
        [first, others @ ..] => node < first.node && members_ascend(first.node, others),
    }
}

fn is_each_member(members: &[Member]) -> bool
    ensures { result ≡ list_all is_member members.now }
{
    members.iter().all(|m| is_member(*m))
}

/// Are these members of a view, whose nodes ascend?
#[tactic(auto, unfolding(crate::specs::Fits::are_members))]
pub fn are_members(members: &[Member]) -> bool
    ensures { result ≡ are_members members.now }
{
    members_ascend(0, members) && is_each_member(members)
}

/// Can a line say these bytes? It can say each.
#[tactic(auto, unfolding(word_laws::specs::Ranges::is_value))]
pub fn is_value(bytes: &[u8]) -> bool
    ensures { result ≡ is_value bytes.now }
{
    bytes.iter().all(|b| u16::from(*b) < 256)
}

/// Has the text not too many bytes? No text has, by its type.
#[tactic(auto, unfolding(crate::specs::Fits::fits_text))]
pub fn fits_text(text: &Text) -> bool
    ensures { result ≡ fits_text text.now }
{
    text.bytes().len() <= MAX_TEXT
}

/// Can a line say the text?
#[tactic(auto, unfolding(crate::specs::Fits::fits_value))]
pub fn fits_value(text: &Text) -> bool
    ensures { result ≡ fits_value text.now }
{
    fits_text(text) && is_value(text.bytes())
}

/// Can a line say the text, where there is one?
#[tactic(auto, unfolding(crate::specs::Fits::fits_value_option))]
pub fn fits_value_option(text: &Option<Text>) -> bool
    ensures { result ≡ fits_value_option text.now }
{
    match text {
        None => true,
        Some(text) => fits_value(text),
    }
}
