//! Ids that have a spelling.
ghost use Rattle.std.specs.Prelude.{◌≡◌, IsTrue};
ghost use Rattle.rsct_packet.specs.Format.{EachFits, OptionFits};
ghost use Rattle.rsct_packet.specs.Fields.{AreShort, IsMember, IsProto, IsProvider, IsProviders, IsRing, IsSomeProviders, IsMask, IsU32, IsView};

use rsct_packet::{
    MAX_TEXT, Mask, Member, ProtoId, ProviderId, Providers, RingId, Text, ViewId, is_node_number,
};

/// Has the view a spelling?
pub fn is_view(view: ViewId) -> bool
    ensures { IsTrue result → IsView view }
{
    is_node_number(view.coord)
}

/// Has the ring a spelling?
pub fn is_ring(ring: RingId) -> bool
    ensures { IsTrue result → IsRing ring }
{
    is_node_number(ring.leader)
}

/// Has the member a spelling?
pub fn is_member(member: Member) -> bool
    ensures { IsTrue result → IsMember member }
{
    is_node_number(member.node)
}

/// Has the protocol a spelling?
pub fn is_proto(proto: ProtoId) -> bool
    ensures { IsTrue result → IsProto proto }
{
    is_view(proto.view)
}

/// Has the provider a spelling?
pub fn is_provider(provider: ProviderId) -> bool
    ensures { IsTrue result → IsProvider provider }
{
    is_node_number(provider.node)
}

fn is_each_provider(providers: &[ProviderId]) -> bool
    ensures { IsTrue result → EachFits IsProvider providers.now }
{
    providers.iter().all(|p| is_provider(*p))
}

/// Have the providers a spelling?
pub fn are_providers(providers: &Providers) -> bool
    ensures { IsTrue result → IsProviders providers.now }
{
    is_each_provider(providers.as_slice())
}

/// Have the providers a spelling, and is there one?
pub fn are_some_providers(providers: &Providers) -> bool
    ensures { IsTrue result → IsSomeProviders providers.now }
{
    providers.as_slice().len() >= 1 && are_providers(providers)
}

/// Has the number a spelling? Each has, by its type.
pub fn is_number(number: u32) -> bool
    ensures { IsTrue result → IsU32 number }
{
    number <= u32::MAX
}

/// Has the set of nodes a spelling? Each has, by its type.
pub fn is_mask(mask: Mask) -> bool
    ensures { IsTrue result → IsMask mask }
{
    mask == mask
}

/// Have a provider and the number of its request a spelling?
pub fn is_request(provider: ProviderId, request: u32) -> bool
    ensures provider { IsTrue result → IsProvider provider }
    ensures number { IsTrue result → IsU32 request }
{
    is_provider(provider) && is_number(request)
}

/// Have a view and a place of its lists a spelling?
pub fn is_place(view: ViewId, place: u32) -> bool
    ensures view { IsTrue result → IsView view }
    ensures place { IsTrue result → IsU32 place }
{
    is_view(view) && is_number(place)
}

/// Has the text a spelling?
pub fn is_text(text: &Text) -> bool
    ensures { IsTrue result → AreShort text.now }
{
    text.bytes().len() <= MAX_TEXT
}

/// Has the text a spelling, if there is one?
pub fn is_optional_text(text: &Option<Text>) -> bool
    ensures { IsTrue result → OptionFits AreShort text.now }
{
    match text {
        None => true,
        Some(text) => is_text(text),
    }
}
