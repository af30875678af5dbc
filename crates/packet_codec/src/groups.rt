//! The bodies of a view's groups.
ghost use Rattle.std.specs.Prelude.{◌≡◌, Option, option_map, option_copied};
ghost use Rattle.rsct_packet.specs.Reading.{Gives};
ghost use Rattle.node_state.specs.Bodies.{body_at, has_phases, request_at, why_at, why_data_at, tell_at, vote_of, vote_at};
ghost use Rattle.packet_bodies.specs.Body.{whole_of};
ghost use Rattle.packet_codec.specs.InPlace.{body_in};
ghost use Rattle.group_codec.specs.InPlace.{proposal_in};

use crate::packet::{BodyRef, PlacedRef, RequestRef, TellRef, VoteRef};
use client_callbacks::Why;
use group_attr::Phases;
use group_codec::{ProposalRef, read_entry, read_phases, read_proposal};
use packet_bodies::{read_ack, read_gone, read_group, read_leader, read_lookup};
use proposal_core::{Entry, Vote};
use rsct_packet::{read_optional_bytes, read_proto, read_provider, read_u8, read_u16, read_u32};

/// What was read, where nothing is left after it.
fn whole<'a>(read: Option<(BodyRef<'a>, &'a [u8])>) -> Option<BodyRef<'a>>
    ensures { option_map body_in result ≡ whole_of
        (option_map (λ x. (body_in x.0, x.1.now)) read.entry) }
{
    let (x, rest) = read?;
    if !rest.is_empty() {
        return None;
    }
    Some(x)
}

#[tactic(auto, unfolding(node_state::specs::Bodies::body_at), using(crate::proofs::WholeLaws::whole_made))]
pub fn lookup_body(bytes: &[u8]) -> Option<BodyRef<'_>>
    ensures { option_map body_in result ≡ body_at 14 bytes.now }
{
    Some(BodyRef::Lookup(read_lookup(bytes)?))
}

#[tactic(auto, unfolding(node_state::specs::Bodies::body_at), using(crate::proofs::WholeLaws::whole_made))]
pub fn leader_body(bytes: &[u8]) -> Option<BodyRef<'_>>
    ensures { option_map body_in result ≡ body_at 15 bytes.now }
{
    Some(BodyRef::Name(read_leader(bytes)?))
}

/// A join's phases are 1, since its attributes say how it is decided.
#[tactic(auto, unfolding(node_state::specs::Bodies::has_phases))]
fn has_phases(phases: Phases, proposal: &ProposalRef<'_>) -> bool
    ensures { result ≡ has_phases phases (proposal_in proposal.now) }
{
    match phases {
        Phases::One => true,
        Phases::Many => !matches!(proposal, ProposalRef::Join { .. }),
    }
}

#[tactic(auto, unfolding(node_state::specs::Bodies::request_at, node_state::specs::Bodies::is_request))]
fn read_request(bytes: &[u8]) -> Option<(BodyRef<'_>, &[u8])>
    ensures { option_map (λ x. (body_in x.0, x.1.now)) result ≡ request_at bytes.now }
{
    let (group, bytes) = read_group(bytes)?;
    let (provider, bytes) = read_provider(bytes)?;
    let (request, bytes) = read_u32(bytes)?;
    let (phases, bytes) = read_phases(bytes)?;
    let (proposal, bytes) = read_proposal(bytes)?;
    if !has_phases(phases, &proposal) {
        return None;
    }
    let body = RequestRef {
        group,
        provider,
        request,
        phases,
        proposal,
    };
    Some((BodyRef::Request(body), bytes))
}

#[tactic(auto, unfolding(node_state::specs::Bodies::body_at))]
pub fn request_body(bytes: &[u8]) -> Option<BodyRef<'_>>
    ensures { option_map body_in result ≡ body_at 16 bytes.now }
{
    whole(read_request(bytes))
}

/// What a refusal's code has behind it.
fn read_why_data(code: u8, spelling: &[u8]) -> Option<(Why, &[u8])>
    ensures { Gives result (why_data_at code spelling.now) }
{
    match code {
        7 => Some((Why::NotAMember, spelling)),
        9 => Some((Why::BadAttributes, spelling)),
        10 => Some((Why::DuplicateInstance, spelling)),
        12 => {
            let (proto, spelling) = read_proto(spelling)?;
            Some((Why::Collide(proto), spelling))
        }
        13 => {
            let (len, spelling) = read_u32(spelling)?;
            Some((Why::NoSource(len), spelling))
        }
        15 => {
            let (places, spelling) = read_u32(spelling)?;
            let (bytes, spelling) = read_u32(spelling)?;
            Some((Why::ListFull(places, bytes), spelling))
        }
        16 => {
            let (n, spelling) = read_u32(spelling)?;
            Some((Why::GroupFull(n), spelling))
        }
        _ => None,
    }
}

#[tactic(auto, unfolding(node_state::specs::Bodies::why_at))]
fn read_why(bytes: &[u8]) -> Option<(Why, &[u8])>
    ensures { Gives result (why_at bytes.now) }
{
    let (code, bytes) = read_u8(bytes)?;
    read_why_data(code, bytes)
}

#[tactic(auto, unfolding(node_state::specs::Bodies::tell_at))]
fn read_tell(bytes: &[u8]) -> Option<(BodyRef<'_>, &[u8])>
    ensures { option_map (λ x. (body_in x.0, x.1.now)) result ≡ tell_at bytes.now }
{
    let (group, bytes) = read_group(bytes)?;
    let (provider, bytes) = read_provider(bytes)?;
    let (request, bytes) = read_u32(bytes)?;
    let (why, bytes) = read_why(bytes)?;
    let body = TellRef {
        group,
        provider,
        request,
        why,
    };
    Some((BodyRef::Tell(body), bytes))
}

#[tactic(auto, unfolding(node_state::specs::Bodies::body_at))]
pub fn tell_body(bytes: &[u8]) -> Option<BodyRef<'_>>
    ensures { option_map body_in result ≡ body_at 17 bytes.now }
{
    whole(read_tell(bytes))
}

#[tactic(auto, unfolding(node_state::specs::Bodies::body_at, node_state::specs::Bodies::entry_at), using(crate::proofs::WholeLaws::whole_made))]
pub fn entry_body(bytes: &[u8]) -> Option<BodyRef<'_>>
    ensures { option_map body_in result ≡ body_at 18 bytes.now }
{
    let (group, bytes) = read_group(bytes)?;
    let (place, bytes) = read_u32(bytes)?;
    let (stable, bytes) = read_u32(bytes)?;
    let entry = read_entry(bytes)?;
    Some(BodyRef::Entry(PlacedRef {
        group,
        place,
        stable,
        entry,
    }))
}

#[tactic(auto, unfolding(node_state::specs::Bodies::body_at), using(crate::proofs::WholeLaws::whole_made))]
pub fn ack_body(bytes: &[u8]) -> Option<BodyRef<'_>>
    ensures { option_map body_in result ≡ body_at 19 bytes.now }
{
    Some(BodyRef::Ack(read_ack(bytes)?))
}

fn vote_of(code: u8) -> Option<Vote>
    ensures { result ≡ vote_of code }
{
    match code {
        1 => Some(Vote::Approve),
        2 => Some(Vote::Continue),
        3 => Some(Vote::Reject),
        _ => None,
    }
}

#[tactic(auto, unfolding(node_state::specs::Bodies::vote_at))]
fn read_vote(bytes: &[u8]) -> Option<(BodyRef<'_>, &[u8])>
    ensures { option_map (λ x. (body_in x.0, x.1.now)) result ≡ vote_at bytes.now }
{
    let (group, bytes) = read_group(bytes)?;
    let (proto, bytes) = read_proto(bytes)?;
    let (phase, bytes) = read_u16(bytes)?;
    let (provider, bytes) = read_provider(bytes)?;
    let (code, bytes) = read_u8(bytes)?;
    let vote = vote_of(code)?;
    let (value, bytes) = read_optional_bytes(bytes)?;
    let (message, bytes) = read_optional_bytes(bytes)?;
    let body = VoteRef {
        group,
        proto,
        phase,
        provider,
        vote,
        value,
        message,
    };
    Some((BodyRef::Vote(body), bytes))
}

#[tactic(auto, unfolding(node_state::specs::Bodies::body_at))]
pub fn vote_body(bytes: &[u8]) -> Option<BodyRef<'_>>
    ensures { option_map body_in result ≡ body_at 20 bytes.now }
{
    whole(read_vote(bytes))
}

#[tactic(auto, unfolding(node_state::specs::Bodies::body_at), using(crate::proofs::WholeLaws::whole_made))]
pub fn gone_body(bytes: &[u8]) -> Option<BodyRef<'_>>
    ensures { option_map body_in result ≡ body_at 21 bytes.now }
{
    Some(BodyRef::Gone(read_gone(bytes)?))
}
