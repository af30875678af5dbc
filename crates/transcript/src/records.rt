//! The line of each record.
ghost use Rattle.std.specs.Prelude.{◌≡◌, ◌++◌, OnOk, IfOk, codes, decimal};
ghost use Rattle.node_state.specs.declared.happened.Happened.TheVariants as happened;
ghost use Rattle.value_words.specs.Wording.{word, provider_text, providers_text};
ghost use Rattle.entry_words.specs.Wording.{phase_text, vote_text, running_text};
ghost use Rattle.world_model.specs.Text.{state_text, cast_value_text, place_text, client_text, record_text, line_of};

use crate::notes::{put_note, put_state};
use client_callbacks::Told;
use entry_words::{
    kind_of, put_entry, put_fault, put_phase, put_running, put_what_word, put_why, vote_text,
};
use node_state::Happened;
use proposal_core::{Entry, GroupState, Proposal, Vote};
use rsct_packet::{
    List, Mask, Members, Name, NoMemory, ProtoId, ProviderId, Providers, RingId, Text, ViewId,
};
use session_state::GsFault;
use std::alloc::Global;
use value_words::{
    put_counted, put_mask_word, put_members, put_number, put_number_word, put_proto,
    put_provider_word, put_providers_word, put_ring_word, put_text, put_value, put_view_word,
    put_word,
};

#[tactic(auto, unfolding(world_model::specs::Text::cast_value_text))]
fn put_cast_value(out: &mut Vec<u8>, value: &Option<Text>) -> Result<(), NoMemory>
    ensures { OnOk result (out.new.items ≡ out.old.items ++ cast_value_text value.now) }
{
    match value {
        None => Ok(()),
        Some(value) => put_value(out, value.bytes()),
    }
}

/// A place of a group's list in a view.
#[derive(Clone, Copy)]
struct Place<'a> {
    view: ViewId,
    group: &'a Name,
    place: u32,
}

/// The view, the group and the place, each with the space behind it.
#[tactic(auto, unfolding(world_model::specs::Text::place_text))]
fn put_place(out: &mut Vec<u8>, at: &Place<'_>) -> Result<(), NoMemory>
    ensures { OnOk result (out.new.items ≡ out.old.items
        ++ place_text at.now.view at.now.group.now at.now.place) }
{
    put_view_word(out, at.view)?;
    put_word(out, at.group.bytes())?;
    put_number_word(out, at.place)
}

/// The node and the client's name.
#[tactic(auto, unfolding(world_model::specs::Text::client_text))]
fn put_client(out: &mut Vec<u8>, node: u8, client: &[u8]) -> Result<(), NoMemory>
    ensures { OnOk result (out.new.items ≡ out.old.items ++ client_text node client.now) }
{
    put_number(out, u32::from(node))?;
    put_text(out, b".")?;
    put_word(out, client)
}

/// A label, and the node and a space behind it.
fn put_node(out: &mut Vec<u8>, label: &[u8], node: u8) -> Result<(), NoMemory>
    ensures { OnOk result (out.new.items ≡ out.old.items ++ (label.now ++ word (decimal node))) }
{
    put_text(out, label)?;
    put_number_word(out, u32::from(node))
}

/// A label, and behind it the provider and the number of its request, each with a space.
fn put_request(
    out: &mut Vec<u8>,
    label: &[u8],
    provider: ProviderId,
    request: u32,
) -> Result<(), NoMemory>
    ensures { OnOk result (out.new.items ≡ out.old.items
        ++ (label.now ++ word (provider_text provider) ++ word (decimal request))) }
{
    put_text(out, label)?;
    put_provider_word(out, provider)?;
    put_number_word(out, request)
}

/// The record of a ring that is set; and likewise below, one function for each kind of records.
#[tactic(auto, unfolding(world_model::specs::Text::record_text, value_words::specs::Wording::word))]
fn put_ring(
    alloc: Global,
    out: &mut Vec<u8>,
    node: u8,
    network: u8,
    ring: RingId,
    members: Mask,
    neighbour: u8,
) -> Result<(), NoMemory>
    ensures { OnOk result (out.new.items ≡ out.old.items
        ++ record_text (happened.Ring node network ring members neighbour)) }
{
    put_node(out, b"ring ", node)?;
    put_number_word(out, u32::from(network))?;
    put_ring_word(out, ring)?;
    put_mask_word(alloc, out, members)?;
    put_number(out, u32::from(neighbour))
}

#[tactic(auto, unfolding(world_model::specs::Text::record_text, value_words::specs::Wording::word))]
fn put_in_view(out: &mut Vec<u8>, node: u8, view: ViewId, members: &Members) -> Result<(), NoMemory>
    ensures { OnOk result (out.new.items ≡ out.old.items
        ++ record_text (happened.In node view members.now)) }
{
    put_node(out, b"in ", node)?;
    put_view_word(out, view)?;
    put_members(out, members.as_slice())
}

/// What a group begins with in a view: the old view and the length of the list that it comes from, and its state.
#[derive(Clone, Copy)]
struct Base<'a> {
    old: ViewId,
    len: u32,
    state: &'a GroupState,
}

/// The state of a group, as the record of its base ends.
#[tactic(auto, unfolding(value_words::specs::Wording::word))]
fn put_base_state(out: &mut Vec<u8>, state: &GroupState) -> Result<(), NoMemory>
    ensures { OnOk result (out.new.items ≡ out.old.items
        ++ (word (state_text state.now.members state.now.value)
        ++ word (providers_text state.now.failed) ++ running_text state.now.running)) }
{
    put_state(out, state.members.as_slice(), state.value.bytes())?;
    put_text(out, b" ")?;
    put_providers_word(out, state.failed.as_slice())?;
    put_running(out, &state.running)
}

#[tactic(auto, unfolding(world_model::specs::Text::record_text))]
fn put_base(
    out: &mut Vec<u8>,
    node: u8,
    view: ViewId,
    group: &Name,
    base: &Base<'_>,
) -> Result<(), NoMemory>
    ensures { OnOk result (out.new.items ≡ out.old.items
        ++ record_text (happened.Base node view group.now base.now.old base.now.len
        base.now.state.now)) }
{
    put_node(out, b"base ", node)?;
    put_view_word(out, view)?;
    put_word(out, group.bytes())?;
    put_view_word(out, base.old)?;
    put_number_word(out, base.len)?;
    put_base_state(out, base.state)
}

#[tactic(auto, unfolding(world_model::specs::Text::record_text))]
fn put_appended(out: &mut Vec<u8>, node: u8, at: &Place<'_>, entry: &Entry) -> Result<(), NoMemory>
    ensures { OnOk result (out.new.items ≡ out.old.items
        ++ record_text (happened.Put node at.now.view at.now.group.now at.now.place entry.now)) }
{
    put_node(out, b"put ", node)?;
    put_place(out, at)?;
    put_entry(out, entry)
}

#[tactic(auto, unfolding(world_model::specs::Text::record_text))]
fn put_heard(
    out: &mut Vec<u8>,
    provider: ProviderId,
    at: &Place<'_>,
    entry: &Entry,
    members: &Providers,
    value: &Text,
) -> Result<(), NoMemory>
    ensures { OnOk result (out.new.items ≡ out.old.items
        ++ record_text (happened.Heard provider at.now.view at.now.group.now at.now.place entry.now
        members.now value.now)) }
{
    put_text(out, b"heard ")?;
    put_provider_word(out, provider)?;
    put_place(out, at)?;
    put_what_word(out, entry)?;
    put_state(out, members.as_slice(), value.bytes())
}

/// The record of a ballot, which does not show its message.
fn put_ballot(
    out: &mut Vec<u8>,
    provider: ProviderId,
    proto: ProtoId,
    phase: u16,
    vote: Vote,
    value: &Option<Text>,
) -> Result<(), NoMemory>
    ensures { OnOk result (out.new.items ≡ out.old.items
        ++ (codes "cast " ++ word (provider_text provider) ++ phase_text proto phase
        ++ vote_text vote ++ cast_value_text value.now)) }
{
    put_text(out, b"cast ")?;
    put_provider_word(out, provider)?;
    put_phase(out, proto, phase)?;
    put_text(out, vote_text(vote))?;
    put_cast_value(out, value)
}

#[tactic(auto, unfolding(world_model::specs::Text::record_text))]
fn put_asked(
    out: &mut Vec<u8>,
    provider: ProviderId,
    request: u32,
    group: &Name,
    proposal: &Proposal,
) -> Result<(), NoMemory>
    ensures { OnOk result (out.new.items ≡ out.old.items
        ++ record_text (happened.Asked provider request group.now proposal.now)) }
{
    put_request(out, b"asked ", provider, request)?;
    put_word(out, group.bytes())?;
    put_text(out, kind_of(proposal))
}

#[tactic(auto, unfolding(world_model::specs::Text::record_text))]
fn put_noted(
    out: &mut Vec<u8>,
    node: u8,
    client: &List<u8>,
    view: ViewId,
    place: Option<u32>,
    told: &Told,
) -> Result<(), NoMemory>
    ensures { OnOk result (out.new.items ≡ out.old.items
        ++ record_text (happened.Noted node client.now view place told.now)) }
{
    put_text(out, b"noted ")?;
    put_client(out, node, client.as_slice())?;
    put_view_word(out, view)?;
    put_note(out, place, told)
}

#[tactic(auto, unfolding(world_model::specs::Text::record_text))]
fn put_refused(
    out: &mut Vec<u8>,
    node: u8,
    client: &List<u8>,
    fault: GsFault,
) -> Result<(), NoMemory>
    ensures { OnOk result (out.new.items ≡ out.old.items
        ++ record_text (happened.Refused node client.now fault)) }
{
    put_text(out, b"refused ")?;
    put_client(out, node, client.as_slice())?;
    put_fault(out, fault)
}

#[tactic(auto, unfolding(world_model::specs::Text::record_text))]
fn put_record(alloc: Global, out: &mut Vec<u8>, happened: &Happened) -> Result<(), NoMemory>
    ensures { OnOk result (out.new.items ≡ out.old.items ++ record_text happened.now) }
{
    match happened {
        Happened::Up { node, inc } => {
            put_node(out, b"up ", *node)?;
            put_number(out, *inc)
        }
        Happened::Down { node } => put_counted(out, b"down ", u32::from(*node)),
        Happened::Ring {
            node,
            network,
            ring,
            members,
            neighbour,
        } => put_ring(alloc, out, *node, *network, *ring, *members, *neighbour),
        Happened::In {
            node,
            view,
            members,
        } => put_in_view(out, *node, *view, members),
        Happened::Base {
            node,
            view,
            group,
            old,
            len,
            state,
        } => {
            let base = Base {
                old: *old,
                len: *len,
                state,
            };
            put_base(out, *node, *view, group, &base)
        }
        Happened::Put {
            node,
            view,
            group,
            place,
            entry,
        } => {
            let at = Place {
                view: *view,
                group,
                place: *place,
            };
            put_appended(out, *node, &at, entry)
        }
        Happened::Heard {
            provider,
            view,
            group,
            place,
            entry,
            members,
            value,
        } => {
            let at = Place {
                view: *view,
                group,
                place: *place,
            };
            put_heard(out, *provider, &at, entry, members, value)
        }
        Happened::Cast {
            provider,
            proto,
            phase,
            vote,
            value,
            ..
        } => put_ballot(out, *provider, *proto, *phase, *vote, value),
        Happened::Asked {
            provider,
            request,
            group,
            proposal,
        } => put_asked(out, *provider, *request, group, proposal),
        Happened::Told {
            provider,
            request,
            why,
        } => {
            put_request(out, b"told ", *provider, *request)?;
            put_why(out, *why)
        }
        Happened::Noted {
            node,
            client,
            view,
            place,
            told,
        } => put_noted(out, *node, client, *view, *place, told),
        Happened::Refused {
            node,
            client,
            fault,
        } => put_refused(out, *node, client, *fault),
        Happened::Shown { node, line } => {
            put_node(out, b"show ", *node)?;
            put_text(out, line.as_slice())
        }
    }
}

/// The line of a record, at the end.
#[tactic(auto, unfolding(world_model::specs::Text::line_of))]
pub fn put_line(alloc: Global, out: &mut Vec<u8>, happened: &Happened) -> Result<(), NoMemory>
    ensures { OnOk result (out.new.items ≡ out.old.items ++ line_of happened.now) }
{
    put_record(alloc, out, happened)?;
    put_text(out, b"\n")
}

/// The line of a record.
pub fn line_of(alloc: Global, happened: &Happened) -> Result<Vec<u8>, NoMemory>
    ensures { IfOk result (λ b. b.items ≡ line_of happened.now) }
{
    let mut out = Vec::new(alloc);
    put_line(alloc, &mut out, happened)?;
    Ok(out)
}
