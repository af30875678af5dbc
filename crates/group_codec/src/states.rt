//! How group states are spelled.
ghost use Rattle.std.specs.Prelude.{◌≡◌, ◌++◌, ◌-◌, IfOk, OnOk, OnErr, length, take};
ghost use Rattle.std.specs.Option.{option_map};
ghost use Rattle.std.specs.List.{list_all};
ghost use Rattle.std.specs.Int.{w16};
ghost use Rattle.rsct_packet.specs.Reading.{Gives, number_at, guarded_at, optional_at};
ghost use Rattle.rsct_packet.specs.Format.{IsFoundAt, IsOnlyAt, OptionFits, optional_text};
ghost use Rattle.rsct_packet.specs.Providers.{among, none_among};
ghost use Rattle.proposal_core.specs.Fold.{joiners_fit, joiners_in, present};
ghost use Rattle.proposal_core.specs.StateCodec.{is_phase, running_at, running_text, IsRunning, is_sound, parts_at, state_at, state_text, IsState};
ghost use Rattle.group_codec.specs.InPlace.{running_in, optional_running_in, parts_in};

use crate::attrs::{AttrsRef, put_attrs, read_attrs};
use crate::proposals::{ProposalRef, put_proposal, read_proposal};
use proposal_core::{GroupState, MAX_PHASES, Running, optional_bytes, optional_text_of, text_of};
use rsct_packet::{
    Listed, MAX_PROVIDERS, NoMemory, ProtoId, ProviderId, Providers, is_listed, known, put_bytes,
    put_optional_bytes, put_optional_proto, put_proto, put_providers, put_u8, put_u16, read_bytes,
    read_optional_bytes, read_optional_proto, read_proto, read_providers, read_u8, read_u16,
};
use std::alloc::Global;
use std::marker::Model;

/// A protocol that runs, as it stands in a datagram.
#[derive(Drop)]
pub struct RunningRef<'a> {
    pub proto: ProtoId,
    pub proposal: ProposalRef<'a>,
    pub phase: u16,
    pub proposed: Option<&'a [u8]>,
}

/// The parts of a group state as they stand in a datagram.
#[derive(Drop)]
pub struct StateParts<'a> {
    pub members: Listed<'a, ProviderId>,
    pub value: &'a [u8],
    pub attrs: AttrsRef<'a>,
    pub failed: Listed<'a, ProviderId>,
    pub value_at: Option<ProtoId>,
    pub reflected_at: Option<ProtoId>,
    pub running: Option<RunningRef<'a>>,
}

/// The number of a phase, from 1 to 200.
fn read_phase(bytes: &[u8]) -> Option<(u16, &[u8])>
    ensures { Gives result (guarded_at is_phase (number_at w16) bytes.now) }
{
    let (phase, bytes) = read_u16(bytes)?;
    if phase < 1 || phase > MAX_PHASES {
        return None;
    }
    Some((phase, bytes))
}

#[tactic(auto, unfolding(proposal_core::specs::StateCodec::running_at))]
fn read_running(bytes: &[u8]) -> Option<(RunningRef<'_>, &[u8])>
    ensures { option_map (λ x. (running_in x.0, x.1.now)) result ≡ running_at bytes.now }
{
    let (proto, bytes) = read_proto(bytes)?;
    let (phase, bytes) = read_phase(bytes)?;
    let (proposal, bytes) = read_proposal(bytes)?;
    let (proposed, bytes) = read_optional_bytes(bytes)?;
    Some((
        RunningRef {
            proto,
            proposal,
            phase,
            proposed,
        },
        bytes,
    ))
}

fn read_optional_running(bytes: &[u8]) -> Option<(Option<RunningRef<'_>>, &[u8])>
    ensures { option_map (λ x. (optional_running_in x.0, x.1.now)) result
        ≡ optional_at running_at bytes.now }
{
    let (k, bytes) = read_u8(bytes)?;
    match k {
        0 => Some((None, bytes)),
        1 => {
            let (run, bytes) = read_running(bytes)?;
            Some((Some(run), bytes))
        }
        _ => None,
    }
}

#[tactic(auto, unfolding(proposal_core::specs::StateCodec::parts_at))]
fn read_parts(bytes: &[u8]) -> Option<(StateParts<'_>, &[u8])>
    ensures { option_map (λ x. (parts_in x.0, x.1.now)) result ≡ parts_at bytes.now }
{
    let (members, bytes) = read_providers(bytes)?;
    let (value, bytes) = read_bytes(bytes)?;
    let (attrs, bytes) = read_attrs(bytes)?;
    let (failed, bytes) = read_providers(bytes)?;
    let (value_at, bytes) = read_optional_proto(bytes)?;
    let (reflected_at, bytes) = read_optional_proto(bytes)?;
    let (running, bytes) = read_optional_running(bytes)?;
    Some((
        StateParts {
            members,
            value,
            attrs,
            failed,
            value_at,
            reflected_at,
            running,
        },
        bytes,
    ))
}

/// Is none of them among the others?
fn are_none_listed(providers: &Listed<ProviderId>, others: &Listed<ProviderId>) -> bool
    ensures { result ≡ none_among providers.now others.now }
{
    let mut left = others.copy();
    while let Some(p) = left.take_first() {
        if is_listed(providers, p) {
            return false;
        }
    }
    true
}

fn is_joiner(run: &Option<RunningRef>, provider: ProviderId) -> bool
    ensures { result ≡ among (joiners_in (optional_running_in run.now)) provider }
{
    match run {
        None => false,
        Some(run) => match &run.proposal {
            ProposalRef::Join { ps, .. } => is_listed(ps, provider),
            _ => false,
        },
    }
}

/// Is it a member or a running joiner?
#[tactic(auto, using(proposal_core::proofs::FoldLaws::among_both, std::proofs::lemmas::Grind::common_steps))]
fn is_present(parts: &StateParts, provider: ProviderId) -> bool
    ensures { result ≡ among (present (parts_in parts.now)) provider }
{
    is_listed(&parts.members, provider) || is_joiner(&parts.running, provider)
}

/// Is each of them a member or a running joiner?
fn are_present(parts: &StateParts, providers: &Listed<ProviderId>) -> bool
    ensures { result ≡ list_all (among (present (parts_in parts.now))) providers.now }
{
    let mut left = providers.copy();
    while let Some(p) = left.take_first() {
        if !is_present(parts, p) {
            return false;
        }
    }
    true
}

/// Are the running joiners no members, and with the members at most 64?
#[tactic(auto, unfolding(proposal_core::specs::Fold::joiners_fit, proposal_core::specs::Fold::joiners_fit_at, proposal_core::specs::Fold::can_begin))]
fn do_joiners_fit(parts: &StateParts) -> bool
    ensures { result ≡ joiners_fit (parts_in parts.now) }
{
    match &parts.running {
        None => true,
        Some(run) => match &run.proposal {
            ProposalRef::Join { ps, .. } => {
                are_none_listed(&parts.members, ps)
                    && ps.len() <= MAX_PROVIDERS
                    && parts.members.len() <= MAX_PROVIDERS - ps.len()
            }
            _ => true,
        },
    }
}

#[tactic(auto, unfolding(proposal_core::specs::StateCodec::failed_are_present))]
fn is_sound(parts: &StateParts) -> bool
    ensures { result ≡ is_sound (parts_in parts.now) }
{
    do_joiners_fit(parts) && are_present(parts, &parts.failed)
}

impl<'a> RunningRef<'a> {
    fn own(&self, alloc: Global) -> Result<Running, NoMemory>
        requires { IsRunning (running_in self.now) }
        ensures { IfOk result (λ r. r ≡ running_in self.now) }
    {
        Ok(Running {
            proto: self.proto,
            phase: self.phase,
            proposed: optional_text_of(alloc, self.proposed)?,
            proposal: self.proposal.own(alloc)?,
        })
    }
}

fn own_running(alloc: Global, run: &Option<RunningRef>) -> Result<Option<Running>, NoMemory>
    requires { OptionFits IsRunning (optional_running_in run.now) }
    ensures { IfOk result (λ r. r ≡ optional_running_in run.now) }
{
    match run {
        None => Ok(None),
        Some(run) => Ok(Some(run.own(alloc)?)),
    }
}

impl<'a> StateParts<'a> {
    fn own(&self, alloc: Global) -> Result<GroupState, NoMemory>
        requires { IsState (parts_in self.now) }
        ensures { IfOk result (λ s. s ≡ parts_in self.now) }
    {
        Ok(GroupState {
            members: Providers::of_listed(alloc, &self.members)?,
            value: text_of(alloc, self.value)?,
            attrs: self.attrs.own(alloc)?,
            failed: Providers::of_listed(alloc, &self.failed)?,
            value_at: self.value_at,
            reflected_at: self.reflected_at,
            running: own_running(alloc, &self.running)?,
        })
    }
}

/// A group state as it stands in a datagram, with its whole spelling.
#[derive(Drop)]
pub struct StateRef<'a> {
    parts: StateParts<'a>,
    bytes: &'a [u8],
}

impl<'a> Model for StateRef<'a> {
    ghost use Rattle.proposal_core.specs.declared.group_state.GroupState.{GroupState};
    ghost use Rattle.group_codec.specs.InPlace.{parts_in, IsRead};

    ghost Value = { GroupState };

    ghost view = { λ s. parts_in s.parts };

    ghost invariant = { λ s. IsRead (parts_in s.parts) s.bytes.now };
}

impl<'a> StateRef<'a> {
    /// Its parts.
    pub fn parts(&self) -> &StateParts<'a>
        ensures { parts_in result.now ≡ self.now }
    {
        &self.parts
    }

    /// Its whole spelling.
    pub fn bytes(&self) -> &'a [u8]
        ensures text { result.now ≡ state_text self.now }
        ensures state { IsState self.now }
    {
        self.bytes
    }

    /// A state of its own.
    pub fn own(&self, alloc: Global) -> Result<GroupState, NoMemory>
        ensures ok { IfOk result (λ s. s ≡ self.now) }
        ensures state { IsState self.now }
    {
        self.parts.own(alloc)
    }
}

/// The bytes in front of the rest.
fn front<'a>(bytes: &'a [u8], rest: &[u8]) -> &'a [u8]
    ensures { result.now ≡ take (length bytes.now - length rest.now) bytes.now }
{
    let n = bytes.len().saturating_sub(rest.len());
    &bytes[..n]
}

#[tactic(auto, unfolding(proposal_core::specs::StateCodec::state_at))]
fn state_front(bytes: &[u8]) -> Option<(StateRef<'_>, &[u8])>
    ensures { Gives result (state_at bytes.now) }
{
    let (parts, rest) = read_parts(bytes)?;
    if !is_sound(&parts) {
        return None;
    }
    Some((
        StateRef {
            parts,
            bytes: front(known(bytes), rest),
        },
        rest,
    ))
}

/// A group state off the front of bytes, with the bytes after it. None exactly where the front is no spelling of a
/// state.
#[tactic(auto, using(rsct_packet::proofs::FormatLaws::format_reads, crate::proofs::StateFormat::state_format))]
pub fn read_state(bytes: &[u8]) -> Option<(StateRef<'_>, &[u8])>
    ensures value { Gives result (state_at bytes.now) }
    ensures found { IsFoundAt state_text IsState result bytes.now }
    ensures only { IsOnlyAt state_text IsState result bytes.now }
{
    state_front(known(bytes))
}

#[tactic(auto, unfolding(proposal_core::specs::StateCodec::running_text))]
fn put_running(alloc: Global, out: &mut Vec<u8>, run: &Running) -> Result<(), NoMemory>
    requires { IsRunning run.now }
    ensures { OnOk result (out.new.items ≡ out.old.items ++ running_text run.now) }
{
    put_proto(out, run.proto)?;
    put_u16(out, run.phase)?;
    put_proposal(alloc, out, &run.proposal)?;
    put_optional_bytes(out, optional_bytes(&run.proposed))?;
    Ok(())
}

fn put_optional_running(
    alloc: Global,
    out: &mut Vec<u8>,
    run: &Option<Running>,
) -> Result<(), NoMemory>
    requires { OptionFits IsRunning run.now }
    ensures { OnOk result (out.new.items ≡ out.old.items ++ optional_text running_text run.now) }
{
    match run {
        None => put_u8(out, 0),
        Some(run) => {
            put_u8(out, 1)?;
            put_running(alloc, out, run)
        }
    }
}

/// The spelling, in memory of its own.
#[tactic(auto, unfolding(proposal_core::specs::StateCodec::state_text), using(crate::proofs::ProposalFormat::members_nodes, std::proofs::lemmas::Grind::common_steps))]
fn spelled(alloc: Global, state: &GroupState) -> Result<Vec<u8>, NoMemory>
    requires { IsState state.now }
    ensures { IfOk result (λ v. v.items ≡ state_text state.now) }
{
    let mut out = Vec::new(alloc);
    put_providers(&mut out, state.members.as_slice())?;
    put_bytes(&mut out, state.value.bytes())?;
    put_attrs(&mut out, &state.attrs)?;
    put_providers(&mut out, state.failed.as_slice())?;
    put_optional_proto(&mut out, state.value_at)?;
    put_optional_proto(&mut out, state.reflected_at)?;
    put_optional_running(alloc, &mut out, &state.running)?;
    Ok(out)
}

/// Takes the spelling of a group state to the end of `out`, and leaves `out` as before where memory has run out.
pub fn put_state(alloc: Global, out: &mut Vec<u8>, state: &GroupState) -> Result<(), NoMemory>
    requires { IsState state.now }
    ensures ok { OnOk result (out.new.items ≡ out.old.items ++ state_text state.now) }
    ensures err { OnErr result (out.new.items ≡ out.old.items) }
{
    let text = spelled(alloc, state)?;
    out.extend_from_slice(text.as_slice())?;
    Ok(())
}
