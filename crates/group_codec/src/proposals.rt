//! How proposals are spelled: a byte for the kind, and what the kind has.
ghost use Rattle.std.specs.Prelude.{◌≡◌, ◌++◌, IfOk, OnOk, OnErr};
ghost use Rattle.std.specs.Option.{option_map};
ghost use Rattle.rsct_packet.specs.Reading.{Gives};
ghost use Rattle.std.specs.List.{list_any};
ghost use Rattle.rsct_packet.specs.Format.{IsFoundAt, IsOnlyAt};
ghost use Rattle.rsct_packet.specs.Fields.{u8_text, u32_text, provider_text, IsNode};
ghost use Rattle.proposal_core.specs.ProposalCodec.{same_failure, failures_differ, are_failures, fallen_at, join_at, leave_at, fail_at, expel_at, state_change_at, message_at, attributes_at, reflect_at, proposal_at, proposal_text, IsProposal};
ghost use Rattle.group_codec.specs.InPlace.{proposal_in, proposal_of};

use crate::attrs::{AttrsRef, put_attrs, read_attrs};
use proposal_core::{Failure, Proposal, is_same_failure, text_of};
use rsct_packet::{
    Listed, NoMemory, ProviderId, Providers, ViewId, known, put_bytes, put_list, put_optional_u32,
    put_provider, put_providers, put_u8, put_u32, put_view, read_bytes, read_list,
    read_optional_u32, read_provider, read_some_providers, read_u8, read_u32, read_view,
};
use std::alloc::Global;

/// A proposal as it stands in a datagram.
#[derive(Drop)]
pub enum ProposalRef<'a> {
    Join {
        ps: Listed<'a, ProviderId>,
        attrs: AttrsRef<'a>,
        source_len: Option<u32>,
    },
    Leave {
        provider: ProviderId,
        request: u32,
    },
    Fail {
        out: Listed<'a, Failure>,
    },
    Expel {
        provider: ProviderId,
        request: u32,
        out: Listed<'a, ProviderId>,
    },
    State {
        provider: ProviderId,
        request: u32,
        value: &'a [u8],
    },
    Message {
        provider: ProviderId,
        request: u32,
        bytes: &'a [u8],
    },
    Attributes {
        provider: ProviderId,
        request: u32,
        attrs: AttrsRef<'a>,
    },
    Reflect {
        view: ViewId,
        place: u32,
        value: &'a [u8],
    },
}

/// Is it one of them?
fn is_listed(failures: &Listed<Failure>, failure: &Failure) -> bool
    ensures { result ≡ list_any (λ g. same_failure g failure.now) failures.now }
{
    let mut left = failures.copy();
    while let Some(g) = left.take_first() {
        if is_same_failure(&g, failure) {
            return true;
        }
    }
    false
}

/// Does each differ from those after it?
fn are_apart(failures: &Listed<Failure>) -> bool
    ensures { result ≡ failures_differ failures.now }
{
    let mut left = failures.copy();
    while let Some(f) = left.take_first() {
        if is_listed(&left, &f) {
            return false;
        }
    }
    true
}

fn are_failures(failures: &Listed<Failure>) -> bool
    ensures { result ≡ are_failures failures.now }
{
    failures.len() >= 1 && failures.len() <= 64 && are_apart(failures)
}

/// 1 to 64 pairs of a provider and a cause that differ.
#[tactic(auto, unfolding(proposal_core::specs::ProposalCodec::fallen_at))]
fn read_fallen(bytes: &[u8]) -> Option<(Listed<Failure>, &[u8])>
    ensures { Gives result (fallen_at bytes.now) }
{
    let (out, bytes) = read_list::<Failure>(bytes)?;
    if !are_failures(&out) {
        return None;
    }
    Some((out, bytes))
}

#[tactic(auto, unfolding(proposal_core::specs::ProposalCodec::join_at))]
fn read_join(bytes: &[u8]) -> Option<(ProposalRef<'_>, &[u8])>
    ensures { option_map (λ x. (proposal_in x.0, x.1.now)) result ≡ join_at bytes.now }
{
    let (ps, bytes) = read_some_providers(bytes)?;
    let (attrs, bytes) = read_attrs(bytes)?;
    let (source_len, bytes) = read_optional_u32(bytes)?;
    Some((
        ProposalRef::Join {
            ps,
            attrs,
            source_len,
        },
        bytes,
    ))
}

#[tactic(auto, unfolding(proposal_core::specs::ProposalCodec::leave_at))]
fn read_leave(bytes: &[u8]) -> Option<(ProposalRef<'_>, &[u8])>
    ensures { option_map (λ x. (proposal_in x.0, x.1.now)) result ≡ leave_at bytes.now }
{
    let (provider, bytes) = read_provider(bytes)?;
    let (request, bytes) = read_u32(bytes)?;
    Some((ProposalRef::Leave { provider, request }, bytes))
}

#[tactic(auto, unfolding(proposal_core::specs::ProposalCodec::fail_at))]
fn read_fail(bytes: &[u8]) -> Option<(ProposalRef<'_>, &[u8])>
    ensures { option_map (λ x. (proposal_in x.0, x.1.now)) result ≡ fail_at bytes.now }
{
    let (out, bytes) = read_fallen(bytes)?;
    Some((ProposalRef::Fail { out }, bytes))
}

#[tactic(auto, unfolding(proposal_core::specs::ProposalCodec::expel_at))]
fn read_expel(bytes: &[u8]) -> Option<(ProposalRef<'_>, &[u8])>
    ensures { option_map (λ x. (proposal_in x.0, x.1.now)) result ≡ expel_at bytes.now }
{
    let (provider, bytes) = read_provider(bytes)?;
    let (request, bytes) = read_u32(bytes)?;
    let (out, bytes) = read_some_providers(bytes)?;
    Some((
        ProposalRef::Expel {
            provider,
            request,
            out,
        },
        bytes,
    ))
}

#[tactic(auto, unfolding(proposal_core::specs::ProposalCodec::state_change_at))]
fn read_state_change(bytes: &[u8]) -> Option<(ProposalRef<'_>, &[u8])>
    ensures { option_map (λ x. (proposal_in x.0, x.1.now)) result ≡ state_change_at bytes.now }
{
    let (provider, bytes) = read_provider(bytes)?;
    let (request, bytes) = read_u32(bytes)?;
    let (value, bytes) = read_bytes(bytes)?;
    Some((
        ProposalRef::State {
            provider,
            request,
            value,
        },
        bytes,
    ))
}

#[tactic(auto, unfolding(proposal_core::specs::ProposalCodec::message_at))]
fn read_message(spelling: &[u8]) -> Option<(ProposalRef<'_>, &[u8])>
    ensures { option_map (λ x. (proposal_in x.0, x.1.now)) result ≡ message_at spelling.now }
{
    let (provider, spelling) = read_provider(spelling)?;
    let (request, spelling) = read_u32(spelling)?;
    let (bytes, spelling) = read_bytes(spelling)?;
    Some((
        ProposalRef::Message {
            provider,
            request,
            bytes,
        },
        spelling,
    ))
}

#[tactic(auto, unfolding(proposal_core::specs::ProposalCodec::attributes_at))]
fn read_attributes(bytes: &[u8]) -> Option<(ProposalRef<'_>, &[u8])>
    ensures { option_map (λ x. (proposal_in x.0, x.1.now)) result ≡ attributes_at bytes.now }
{
    let (provider, bytes) = read_provider(bytes)?;
    let (request, bytes) = read_u32(bytes)?;
    let (attrs, bytes) = read_attrs(bytes)?;
    Some((
        ProposalRef::Attributes {
            provider,
            request,
            attrs,
        },
        bytes,
    ))
}

#[tactic(auto, unfolding(proposal_core::specs::ProposalCodec::reflect_at))]
fn read_reflect(bytes: &[u8]) -> Option<(ProposalRef<'_>, &[u8])>
    ensures { option_map (λ x. (proposal_in x.0, x.1.now)) result ≡ reflect_at bytes.now }
{
    let (view, bytes) = read_view(bytes)?;
    let (place, bytes) = read_u32(bytes)?;
    let (value, bytes) = read_bytes(bytes)?;
    Some((ProposalRef::Reflect { view, place, value }, bytes))
}

#[tactic(auto, unfolding(proposal_core::specs::ProposalCodec::proposal_at))]
fn proposal_front(bytes: &[u8]) -> Option<(ProposalRef<'_>, &[u8])>
    ensures { option_map (λ x. (proposal_in x.0, x.1.now)) result ≡ proposal_at bytes.now }
{
    let (kind, bytes) = read_u8(bytes)?;
    match kind {
        1 => read_join(bytes),
        2 => read_leave(bytes),
        3 => read_fail(bytes),
        4 => read_expel(bytes),
        5 => read_state_change(bytes),
        6 => read_message(bytes),
        7 => read_attributes(bytes),
        8 => read_reflect(bytes),
        _ => None,
    }
}

/// A proposal off the front of bytes, with the bytes after it. None exactly where the front is no spelling of a
/// proposal.
#[tactic(auto, using(rsct_packet::proofs::FormatLaws::format_reads, crate::proofs::ProposalFormat::proposal_gives, crate::proofs::ProposalFormat::proposal_format))]
pub fn read_proposal(bytes: &[u8]) -> Option<(ProposalRef<'_>, &[u8])>
    ensures value { option_map (λ x. (proposal_in x.0, x.1.now)) result ≡ proposal_at bytes.now }
    ensures found { IsFoundAt proposal_text IsProposal (proposal_of result) bytes.now }
    ensures only { IsOnlyAt proposal_text IsProposal (proposal_of result) bytes.now }
{
    proposal_front(known(bytes))
}

/// The kind, the provider and the number of its request. Where memory has run out, `out` may keep a part of them.
fn put_request(
    out: &mut Vec<u8>,
    kind: u8,
    provider: ProviderId,
    request: u32,
) -> Result<(), NoMemory>
    requires { IsNode provider.node }
    ensures { OnOk result (out.new.items ≡ out.old.items
        ++ (u8_text kind ++ (provider_text provider ++ u32_text request))) }
{
    put_u8(out, kind)?;
    put_provider(out, provider)?;
    put_u32(out, request)
}

/// Takes the spelling to the end of `out`, which may keep a part of it where memory has run out.
#[tactic(auto, unfolding(proposal_core::specs::ProposalCodec::proposal_text, proposal_core::specs::ProposalCodec::fallen_text), using(crate::proofs::ProposalFormat::some_nodes, crate::proofs::ProposalFormat::fallen_nodes, std::proofs::lemmas::Grind::common_steps))]
fn put_parts(out: &mut Vec<u8>, proposal: &Proposal) -> Result<(), NoMemory>
    requires { IsProposal proposal.now }
    ensures { OnOk result (out.new.items ≡ out.old.items ++ proposal_text proposal.now) }
{
    match proposal {
        Proposal::Join {
            ps,
            attrs,
            source_len,
        } => {
            put_u8(out, 1)?;
            put_providers(out, ps.as_slice())?;
            put_attrs(out, attrs)?;
            put_optional_u32(out, *source_len)
        }
        Proposal::Leave { provider, request } => put_request(out, 2, *provider, *request),
        Proposal::Fail { out: fallen } => {
            put_u8(out, 3)?;
            put_list(out, fallen.as_slice())
        }
        Proposal::Expel {
            provider,
            request,
            out: expelled,
        } => {
            put_request(out, 4, *provider, *request)?;
            put_providers(out, expelled.as_slice())
        }
        Proposal::State {
            provider,
            request,
            value,
        } => {
            put_request(out, 5, *provider, *request)?;
            put_bytes(out, value.bytes())
        }
        Proposal::Message {
            provider,
            request,
            bytes,
        } => {
            put_request(out, 6, *provider, *request)?;
            put_bytes(out, bytes.bytes())
        }
        Proposal::Attributes {
            provider,
            request,
            attrs,
        } => {
            put_request(out, 7, *provider, *request)?;
            put_attrs(out, attrs)
        }
        Proposal::Reflect { view, place, value } => {
            put_u8(out, 8)?;
            put_view(out, *view)?;
            put_u32(out, *place)?;
            put_bytes(out, value.bytes())
        }
    }
}

/// The spelling, in memory of its own.
fn spelled(alloc: Global, proposal: &Proposal) -> Result<Vec<u8>, NoMemory>
    requires { IsProposal proposal.now }
    ensures { IfOk result (λ v. v.items ≡ proposal_text proposal.now) }
{
    let mut out = Vec::new(alloc);
    put_parts(&mut out, proposal)?;
    Ok(out)
}

/// Takes the spelling of a proposal to the end of `out`, and leaves `out` as before where memory has run out.
pub fn put_proposal(alloc: Global, out: &mut Vec<u8>, proposal: &Proposal) -> Result<(), NoMemory>
    requires { IsProposal proposal.now }
    ensures ok { OnOk result (out.new.items ≡ out.old.items ++ proposal_text proposal.now) }
    ensures err { OnErr result (out.new.items ≡ out.old.items) }
{
    let text = spelled(alloc, proposal)?;
    out.extend_from_slice(text.as_slice())?;
    Ok(())
}

impl<'a> ProposalRef<'a> {
    /// A proposal of its own.
    pub fn own(&self, alloc: Global) -> Result<Proposal, NoMemory>
        requires { IsProposal (proposal_in self.now) }
        ensures ok { IfOk result (λ x. x ≡ proposal_in self.now) }
        ensures proposal { IfOk result IsProposal }
    {
        Ok(match self {
            ProposalRef::Join {
                ps,
                attrs,
                source_len,
            } => Proposal::Join {
                ps: Providers::of_listed(alloc, ps)?,
                attrs: attrs.own(alloc)?,
                source_len: *source_len,
            },
            ProposalRef::Leave { provider, request } => Proposal::Leave {
                provider: *provider,
                request: *request,
            },
            ProposalRef::Fail { out } => Proposal::Fail {
                out: out.own(alloc)?,
            },
            ProposalRef::Expel {
                provider,
                request,
                out,
            } => Proposal::Expel {
                provider: *provider,
                request: *request,
                out: Providers::of_listed(alloc, out)?,
            },
            ProposalRef::State {
                provider,
                request,
                value,
            } => Proposal::State {
                provider: *provider,
                request: *request,
                value: text_of(alloc, value)?,
            },
            ProposalRef::Message {
                provider,
                request,
                bytes,
            } => Proposal::Message {
                provider: *provider,
                request: *request,
                bytes: text_of(alloc, bytes)?,
            },
            ProposalRef::Attributes {
                provider,
                request,
                attrs,
            } => Proposal::Attributes {
                provider: *provider,
                request: *request,
                attrs: attrs.own(alloc)?,
            },
            ProposalRef::Reflect { view, place, value } => Proposal::Reflect {
                view: *view,
                place: *place,
                value: text_of(alloc, value)?,
            },
        })
    }
}
