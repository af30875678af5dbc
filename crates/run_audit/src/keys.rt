//! Keys of what is kept: ids that can be hashed.
ghost use Rattle.std.specs.Prelude.{◌≡◌};
ghost use Rattle.run_audit.specs.Keys.{cast_key, pass_key, provider_key, request_key, stay_key, view_key};

use rsct_packet::{ProtoId, ProviderId, ViewId};

/// A view.
#[derive(Clone, Copy, Debug, PartialEq, Eq, Hash)]
pub struct ViewKey {
    pub number: u32,
    pub coord: u8,
    pub inc: u32,
}

/// A provider.
#[derive(Clone, Copy, Debug, PartialEq, Eq, Hash)]
pub struct ProviderKey {
    pub node: u8,
    pub inc: u32,
    pub instance: u16,
    pub join: u32,
}

/// A provider's vote in a phase of a protocol.
#[derive(Clone, Copy, Debug, PartialEq, Eq, Hash)]
pub struct CastKey {
    pub provider: ProviderKey,
    pub view: ViewKey,
    pub place: u32,
    pub phase: u32,
}

/// A request of a provider.
#[derive(Clone, Copy, Debug, PartialEq, Eq, Hash)]
pub struct RequestKey {
    pub provider: ProviderKey,
    pub request: u32,
}

/// A node's stay in a view.
#[derive(Clone, Copy, Debug, PartialEq, Eq, Hash)]
pub struct StayKey {
    pub node: u8,
    pub view: ViewKey,
}

/// The way from one view into another.
#[derive(Clone, Copy, Debug, PartialEq, Eq, Hash)]
pub struct PassKey {
    pub to: ViewKey,
    pub from: ViewKey,
}

pub fn view_key(view: ViewId) -> ViewKey
    ensures { result ≡ view_key view }
{
    ViewKey {
        number: view.number,
        coord: view.coord,
        inc: view.inc,
    }
}

pub fn provider_key(provider: ProviderId) -> ProviderKey
    ensures { result ≡ provider_key provider }
{
    ProviderKey {
        node: provider.node,
        inc: provider.inc,
        instance: provider.instance,
        join: provider.join,
    }
}

pub fn cast_key(provider: ProviderId, proto: ProtoId, phase: u16) -> CastKey
    ensures { result ≡ cast_key provider proto phase }
{
    CastKey {
        provider: provider_key(provider),
        view: view_key(proto.view),
        place: proto.place,
        phase: u32::from(phase),
    }
}

/// As `cast_key`, of any number.
pub fn phase_key(provider: ProviderId, proto: ProtoId, phase: u32) -> CastKey
    ensures { result ≡ cast_key provider proto phase }
{
    CastKey {
        provider: provider_key(provider),
        view: view_key(proto.view),
        place: proto.place,
        phase,
    }
}

pub fn request_key(provider: ProviderId, request: u32) -> RequestKey
    ensures { result ≡ request_key provider request }
{
    RequestKey {
        provider: provider_key(provider),
        request,
    }
}

pub fn stay_key(node: u8, view: ViewId) -> StayKey
    ensures { result ≡ stay_key node view }
{
    StayKey {
        node,
        view: view_key(view),
    }
}

pub fn pass_key(to: ViewId, from: ViewId) -> PassKey
    ensures { result ≡ pass_key to from }
{
    PassKey {
        to: view_key(to),
        from: view_key(from),
    }
}
