//! The packets of the groups of a view: each is used in its view alone.
ghost use Rattle.std.specs.Prelude.{◌≡◌, IfOk, OnOk, option_copied};
ghost use Rattle.session_clients.specs.Clients.{KeepsScripts};
ghost use Rattle.rsct_packet.specs.Text.{IsName};
ghost use Rattle.rsct_packet.specs.Ids.{is_member};
ghost use Rattle.rsct_packet.specs.Format.{OptionFits};
ghost use Rattle.rsct_packet.specs.Fields.{AreShort};
ghost use Rattle.proposal_core.specs.ProposalCodec.{IsProposal};
ghost use Rattle.group_codec.specs.InPlace.{proposal_in};
ghost use Rattle.proposal_core.specs.EntryCodec.{IsEntry};
ghost use Rattle.group_codec.specs.InPlace.{entry_in};
ghost use Rattle.entry_delivery.specs.Doing.{RuleDoes};
ghost use Rattle.node_groups.specs.Keeps.{Keeps};
ghost use Rattle.group_leading.specs.Working.{AtWork};
ghost use Rattle.node_state.specs.Following.{take_lookup, take_name, take_request, take_tell, take_entry, take_ack, take_vote, take_gone};
ghost use Rattle.node_state.specs.Step.{is_used, used_if};
ghost use Rattle.packet_codec.specs.InPlace.{packet_in};

use client_callbacks::{Callbacks, Filled};
use group_members::{PlacedEntry, take_entry, take_lookup, take_name, take_tell};
use group_requests::{take_ack, take_gone, take_request, take_vote};
use node_sending::{FilledBallot, is_frozen};
use node_state::Core;
use packet_bodies::{Ack, Gone, GroupRef, Leader};
use packet_codec::{PacketRef, PlacedRef, RequestRef, TellRef, VoteRef};
use proposal_core::optional_text_of;
use rsct_packet::{Member, Name, NoMemory, ViewId};
use session_state::Request;
use std::alloc::Global;

/// Is the node a member, in this incarnation?
fn is_member(members: &[Member], node: u8, inc: u32) -> bool
    ensures { result ≡ is_member members.now node inc }
{
    members.iter().any(|m| m.node == node && m.inc == inc)
}

/// Is a packet of this view used?
#[tactic(auto, unfolding(node_state::specs::Step::is_used))]
fn is_used(core: &Core, packet: &PacketRef<'_>, view: ViewId) -> bool
    ensures { result ≡ is_used core.now (packet_in packet.now) view }
{
    view == core.views.view
        && packet.level == core.sessions.level
        && (packet.level == 1 || packet.domain == core.config.domain)
        && !is_frozen(core)
        && is_member(core.views.members.as_slice(), packet.from, packet.inc)
}

/// The name of a packet's group.
fn name_of(alloc: Global, group: &GroupRef<'_>) -> Result<Name, NoMemory>
    requires { IsName group.now.name }
    ensures { IfOk result (λ n. n ≡ group.now.name) }
{
    Name::of_name(alloc, group.name())
}

/// LOOKUP.
#[tactic(auto, unfolding(node_state::specs::Step::used_if), using(node_groups::proofs::KeepLaws::keeps_itself))]
pub fn take_lookup_packet(
    core: &mut Core,
    alloc: Global,
    packet: &PacketRef<'_>,
    group: &GroupRef<'_>,
) -> Result<(), NoMemory>
    requires name { IsName group.now.name }
    ensures rule { OnOk result (core.new ≡ used_if core.old
        (take_lookup core.old packet.now.from group.now.name)
        (is_used core.old (packet_in packet.now) group.now.view)) }
    ensures keeps { OnOk result (Keeps core.old core.new) }
{
    if !is_used(core, packet, group.view()) {
        return Ok(());
    }
    let name = name_of(alloc, group)?;
    take_lookup(core, alloc, packet.from, &name)
}

/// NAME.
pub fn take_name_packet<C: Callbacks>(
    core: &mut Core,
    clients: &mut Vec<C>,
    alloc: Global,
    packet: &PacketRef<'_>,
    leader: &Leader<'_>,
) -> Result<(), NoMemory>
    requires name { IsName leader.now.group.name }
    requires work { AtWork core.old clients.old.items }
    ensures work { OnOk result (AtWork core.new clients.new.items) }
    ensures scripts { OnOk result (KeepsScripts C.script clients.old.items clients.new.items) }
    ensures does { OnOk result (RuleDoes C.script C.stands_for clients.old.items clients.new.items
        core.old core.new (λ f. used_if core.old (take_name core.old leader.now.group.name
        leader.now.leader) (is_used core.old (packet_in packet.now) leader.now.group.view))) }
{
    if !is_used(core, packet, leader.group.view()) {
        return Ok(());
    }
    let name = name_of(alloc, &leader.group)?;
    take_name(core, clients, alloc, &name, leader.leader)
}

/// REQUEST.
pub fn take_request_packet<C: Callbacks>(
    core: &mut Core,
    clients: &mut Vec<C>,
    alloc: Global,
    packet: &PacketRef<'_>,
    body: &RequestRef<'_>,
) -> Result<(), NoMemory>
    requires name { IsName body.now.group.name }
    requires proposal { IsProposal (proposal_in body.now.proposal) }
    requires work { AtWork core.old clients.old.items }
    ensures work { OnOk result (AtWork core.new clients.new.items) }
    ensures scripts { OnOk result (KeepsScripts C.script clients.old.items clients.new.items) }
    ensures does { OnOk result (RuleDoes C.script C.stands_for clients.old.items clients.new.items
        core.old core.new (λ f. used_if core.old (take_request f core.old packet.now.from
        body.now.group.name body.now.provider body.now.request body.now.phases
        (proposal_in body.now.proposal))
        (is_used core.old (packet_in packet.now) body.now.group.view))) }
{
    if !is_used(core, packet, body.group.view()) {
        return Ok(());
    }
    let asked = Request {
        provider: body.provider,
        request: body.request,
        group: name_of(alloc, &body.group)?,
        phases: body.phases,
        proposal: body.proposal.own(alloc)?,
    };
    take_request(core, clients, alloc, packet.from, &asked)
}

/// TELL.
pub fn take_tell_packet<C: Callbacks>(
    core: &mut Core,
    clients: &mut Vec<C>,
    alloc: Global,
    packet: &PacketRef<'_>,
    body: &TellRef<'_>,
) -> Result<(), NoMemory>
    requires work { AtWork core.old clients.old.items }
    ensures work { OnOk result (AtWork core.new clients.new.items) }
    ensures scripts { OnOk result (KeepsScripts C.script clients.old.items clients.new.items) }
    ensures does { OnOk result (RuleDoes C.script C.stands_for clients.old.items clients.new.items
        core.old core.new (λ f. used_if core.old
        (take_tell core.old body.now.provider body.now.request body.now.why)
        (is_used core.old (packet_in packet.now) body.now.group.view))) }
{
    if !is_used(core, packet, body.group.view()) {
        return Ok(());
    }
    take_tell(core, clients, alloc, body.provider, body.request, body.why)
}

/// ENTRY.
pub fn take_entry_packet<C: Callbacks>(
    core: &mut Core,
    clients: &mut Vec<C>,
    alloc: Global,
    packet: &PacketRef<'_>,
    body: &PlacedRef<'_>,
) -> Result<(), NoMemory>
    requires name { IsName body.now.group.name }
    requires entry { IsEntry (entry_in body.now.entry) }
    requires work { AtWork core.old clients.old.items }
    ensures work { OnOk result (AtWork core.new clients.new.items) }
    ensures scripts { OnOk result (KeepsScripts C.script clients.old.items clients.new.items) }
    ensures does { OnOk result (RuleDoes C.script C.stands_for clients.old.items clients.new.items
        core.old core.new (λ f. used_if core.old (take_entry f core.old packet.now.from
        body.now.group.name body.now.place body.now.stable (entry_in body.now.entry))
        (is_used core.old (packet_in packet.now) body.now.group.view))) }
{
    if !is_used(core, packet, body.group.view()) {
        return Ok(());
    }
    let name = name_of(alloc, &body.group)?;
    let own = body.entry.own(alloc)?;
    let placed = PlacedEntry {
        group: &name,
        place: body.place,
        stable: body.stable,
        entry: &own,
    };
    take_entry(core, clients, alloc, packet.from, &placed)
}

/// ACK.
#[tactic(auto, unfolding(node_state::specs::Step::used_if), using(node_groups::proofs::KeepLaws::keeps_itself))]
pub fn take_ack_packet(
    core: &mut Core,
    alloc: Global,
    packet: &PacketRef<'_>,
    ack: &Ack<'_>,
) -> Result<(), NoMemory>
    requires name { IsName ack.now.group.name }
    ensures rule { OnOk result (core.new ≡ used_if core.old
        (take_ack core.old packet.now.from ack.now.group.name ack.now.len)
        (is_used core.old (packet_in packet.now) ack.now.group.view)) }
    ensures keeps { OnOk result (Keeps core.old core.new) }
{
    if !is_used(core, packet, ack.group.view()) {
        return Ok(());
    }
    let name = name_of(alloc, &ack.group)?;
    take_ack(core, alloc, packet.from, &name, ack.len)
}

/// VOTE.
pub fn take_vote_packet<C: Callbacks>(
    core: &mut Core,
    clients: &mut Vec<C>,
    alloc: Global,
    packet: &PacketRef<'_>,
    body: &VoteRef<'_>,
) -> Result<(), NoMemory>
    requires name { IsName body.now.group.name }
    requires value { OptionFits AreShort (option_copied body.now.value) }
    requires message { OptionFits AreShort (option_copied body.now.message) }
    requires work { AtWork core.old clients.old.items }
    ensures work { OnOk result (AtWork core.new clients.new.items) }
    ensures scripts { OnOk result (KeepsScripts C.script clients.old.items clients.new.items) }
    ensures does { OnOk result (RuleDoes C.script C.stands_for clients.old.items clients.new.items
        core.old core.new (λ f. used_if core.old (take_vote f core.old body.now.group.name
        body.now.proto body.now.phase body.now.provider body.now.vote
        (option_copied body.now.value) (option_copied body.now.message))
        (is_used core.old (packet_in packet.now) body.now.group.view))) }
{
    if !is_used(core, packet, body.group.view()) {
        return Ok(());
    }
    let name = name_of(alloc, &body.group)?;
    let filled = Filled {
        vote: body.vote,
        value: optional_text_of(alloc, body.value)?,
        message: optional_text_of(alloc, body.message)?,
    };
    let ballot = FilledBallot {
        group: &name,
        proto: body.proto,
        phase: body.phase,
        provider: body.provider,
        filled: &filled,
    };
    take_vote(core, clients, alloc, &ballot)
}

/// GONE.
pub fn take_gone_packet<C: Callbacks>(
    core: &mut Core,
    clients: &mut Vec<C>,
    alloc: Global,
    packet: &PacketRef<'_>,
    gone: &Gone<'_>,
) -> Result<(), NoMemory>
    requires name { IsName gone.now.group.name }
    requires work { AtWork core.old clients.old.items }
    ensures work { OnOk result (AtWork core.new clients.new.items) }
    ensures scripts { OnOk result (KeepsScripts C.script clients.old.items clients.new.items) }
    ensures does { OnOk result (RuleDoes C.script C.stands_for clients.old.items clients.new.items
        core.old core.new (λ f. used_if core.old (take_gone f core.old gone.now.group.name
        gone.now.provider) (is_used core.old (packet_in packet.now) gone.now.group.view))) }
{
    if !is_used(core, packet, gone.group.view()) {
        return Ok(());
    }
    let name = name_of(alloc, &gone.group)?;
    take_gone(core, clients, alloc, &name, gone.provider)
}
