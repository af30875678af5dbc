//! Which lines there are: those that say what a record can show.
ghost use Rattle.std.specs.Prelude.{◌≡◌, ◌&&◌};
ghost use Rattle.std.specs.List.{list_any, list_all};
ghost use Rattle.proposal_core.specs.declared.proposal.Failure.{Failure};
ghost use Rattle.rsct_packet.specs.Providers.{same_provider};
ghost use Rattle.word_laws.specs.Ranges.{are_attrs, is_attr_fault, is_closed, is_entry, is_failure, is_fault, is_len_option, is_none_text, is_proposal, is_row, is_source, is_value_option, is_why};
ghost use Rattle.record_lines.specs.Fits.{entry_holds, failures_differ, fits_base, fits_entry, fits_fault, fits_leader, fits_note, fits_open, fits_place, fits_status, fits_waiting, fits_why, is_client, is_network, line_fits, proposal_holds, same_cause, some_differ, text_option_holds};

use crate::line::{BaseLine, Line, Note, OpenPhase, Status};
use crate::ranges::{
    are_members, are_named, are_nodes, fits_text, fits_value, fits_value_option, is_each_provider,
    is_proto, is_provider, is_ring, is_u16, is_u32, is_value, is_view,
};
use client_callbacks::Why;
use group_attr::{AttrFault, Attrs};
use proposal_core::{Cause, Closed, Entry, Failure, Proposal, Row};
use rsct_packet::{MAX_PROVIDERS, Name, Providers, Text, are_name_bytes, is_name, is_node_number};
use session_state::GsFault;
use value_words::is_word;

/// Can a line say the failures?
#[tactic(auto, unfolding(word_laws::specs::Ranges::is_failure))]
fn is_each_failure(failures: &[Failure]) -> bool
    ensures { result ≡ list_all is_failure failures.now }
{
    failures.iter().all(|f| is_provider(f.provider))
}

/// Can a line say the rows?
#[tactic(auto, unfolding(word_laws::specs::Ranges::is_row))]
fn is_each_row(rows: &[Row]) -> bool
    ensures { result ≡ list_all is_row rows.now }
{
    rows.iter().all(|r| is_provider(r.provider))
}

/// Is this a name of a group, where there is one? Each is, by its type.
#[tactic(auto, unfolding(word_laws::specs::Ranges::is_source))]
fn is_source(source: &Option<Name>) -> bool
    ensures { result ≡ is_source source.now }
{
    match source {
        None => true,
        Some(name) => is_name(name.bytes()),
    }
}

/// Can a line say the attributes?
#[tactic(auto, unfolding(word_laws::specs::Ranges::are_attrs))]
fn are_attrs(attrs: &Attrs) -> bool
    ensures { result ≡ are_attrs attrs.now }
{
    is_u16(attrs.limit) && is_u16(attrs.source_limit) && is_source(&attrs.source)
}

/// Can a line say the length, where there is one?
#[tactic(auto, unfolding(word_laws::specs::Ranges::is_len_option))]
fn is_len_option(len: Option<u32>) -> bool
    ensures { result ≡ is_len_option len }
{
    match len {
        None => true,
        Some(len) => is_u32(len),
    }
}

#[tactic(auto, unfolding(crate::specs::Fits::same_cause))]
fn is_same_cause(one: Cause, other: Cause) -> bool
    ensures { result ≡ same_cause one other }
{
    one == other
}

/// Is the provider let go for this cause among these?
fn is_let_go(failures: &[Failure], failure: Failure) -> bool
    ensures { result ≡ list_any (λ (x : Failure). same_provider x.provider failure.provider
        && same_cause x.cause failure.cause) failures.now }
{
    failures.iter().any(|x| x.provider == failure.provider && is_same_cause(x.cause, failure.cause))
}

/// Is each of these another one?
#[tactic(auto, unfolding(crate::specs::Fits::failures_differ))]
fn failures_differ(failures: &[Failure]) -> bool
    ensures { result ≡ failures_differ failures.now }
{
    match failures {
        [] => true,
        [first, others @ ..] => !is_let_go(others, *first) && failures_differ(others),
    }
}

/// Is there one of these that differ?
#[tactic(auto, unfolding(crate::specs::Fits::some_differ), using(crate::proofs::FitLaws::differ_by_type))]
fn some_differ(providers: &Providers) -> bool
    ensures { result ≡ some_differ providers.now }
{
    providers.as_slice().len() >= 1
}

/// Can a line say the parts of the proposal?
#[tactic(auto, unfolding(word_laws::specs::Ranges::is_proposal))]
fn is_proposal(proposal: &Proposal) -> bool
    ensures { result ≡ is_proposal proposal.now }
{
    match proposal {
        Proposal::Join {
            ps,
            attrs,
            source_len,
        } => is_each_provider(ps.as_slice()) && are_attrs(attrs) && is_len_option(*source_len),
        Proposal::Leave { provider, request } => is_provider(*provider) && is_u32(*request),
        Proposal::Fail { out } => is_each_failure(out.as_slice()),
        Proposal::Expel {
            provider,
            request,
            out,
        } => is_provider(*provider) && is_u32(*request) && is_each_provider(out.as_slice()),
        Proposal::State {
            provider,
            request,
            value,
        } => is_provider(*provider) && is_u32(*request) && is_value(value.bytes()),
        Proposal::Message {
            provider,
            request,
            bytes,
        } => is_provider(*provider) && is_u32(*request) && is_value(bytes.bytes()),
        Proposal::Attributes {
            provider,
            request,
            attrs,
        } => is_provider(*provider) && is_u32(*request) && are_attrs(attrs),
        Proposal::Reflect { view, place, value } => {
            is_view(*view) && is_u32(*place) && is_value(value.bytes())
        }
    }
}

/// Does a proposal keep what is asked beside the ranges of its parts?
#[tactic(auto, unfolding(crate::specs::Fits::proposal_holds))]
fn proposal_holds(proposal: &Proposal) -> bool
    ensures { result ≡ proposal_holds proposal.now }
{
    match proposal {
        Proposal::Join { ps, .. } => some_differ(ps),
        Proposal::Leave { .. } => true,
        Proposal::Fail { out } => {
            out.len() >= 1 && out.len() <= MAX_PROVIDERS && failures_differ(out.as_slice())
        }
        Proposal::Expel { out, .. } => some_differ(out),
        Proposal::State { value, .. } => fits_text(value),
        Proposal::Message { bytes, .. } => fits_text(bytes),
        Proposal::Attributes { .. } => true,
        Proposal::Reflect { value, .. } => fits_text(value),
    }
}

/// Is there none?
#[tactic(auto, unfolding(word_laws::specs::Ranges::is_none_text))]
fn is_none_text(text: &Option<Text>) -> bool
    ensures { result ≡ is_none_text text.now }
{
    match text {
        None => true,
        Some(_) => false,
    }
}

/// Can a line say the text, where there is one?
#[tactic(auto, unfolding(word_laws::specs::Ranges::is_value_option))]
fn is_value_option(text: &Option<Text>) -> bool
    ensures { result ≡ is_value_option text.now }
{
    match text {
        None => true,
        Some(text) => is_value(text.bytes()),
    }
}

/// Can a line say what closes a phase?
#[tactic(auto, unfolding(word_laws::specs::Ranges::is_closed))]
fn is_closed(closed: &Closed) -> bool
    ensures { result ≡ is_closed closed.now }
{
    is_proto(closed.proto)
        && is_u16(closed.phase)
        && is_each_row(closed.rows.as_slice())
        && is_value_option(&closed.value)
        && is_none_text(&closed.message)
}

/// Can a line say the parts of the entry?
#[tactic(auto, unfolding(word_laws::specs::Ranges::is_entry))]
fn is_entry(entry: &Entry) -> bool
    ensures { result ≡ is_entry entry.now }
{
    match entry {
        Entry::Once(proposal) => is_proposal(proposal),
        Entry::Begin(proposal) => is_proposal(proposal),
        Entry::Phase(closed) => is_closed(closed),
        Entry::Approve(closed) => is_closed(closed),
        Entry::Reject(closed) => is_closed(closed) && is_none_text(&closed.value),
        Entry::Late { proto, phase, ps } => {
            is_proto(*proto) && is_u16(*phase) && is_each_provider(ps.as_slice())
        }
    }
}

/// Has the text not too many bytes, where there is one?
#[tactic(auto, unfolding(crate::specs::Fits::text_option_holds))]
fn text_option_holds(text: &Option<Text>) -> bool
    ensures { result ≡ text_option_holds text.now }
{
    match text {
        None => true,
        Some(text) => fits_text(text),
    }
}

/// Does an entry keep what is asked beside the ranges of its parts?
#[tactic(auto, unfolding(crate::specs::Fits::entry_holds))]
fn entry_holds(entry: &Entry) -> bool
    ensures { result ≡ entry_holds entry.now }
{
    match entry {
        Entry::Once(proposal) => proposal_holds(proposal),
        Entry::Begin(proposal) => proposal_holds(proposal),
        Entry::Phase(closed) => text_option_holds(&closed.value),
        Entry::Approve(closed) => text_option_holds(&closed.value),
        Entry::Reject(_) => true,
        Entry::Late { ps, .. } => some_differ(ps),
    }
}

/// Can a line say the entry?
#[tactic(auto, unfolding(crate::specs::Fits::fits_entry))]
fn fits_entry(entry: &Entry) -> bool
    ensures { result ≡ fits_entry entry.now }
{
    is_entry(entry) && entry_holds(entry)
}

/// Can a line say what runs?
#[tactic(auto, unfolding(crate::specs::Fits::fits_open))]
fn fits_open(running: Option<OpenPhase>) -> bool
    ensures { result ≡ fits_open running }
{
    match running {
        None => true,
        Some(open) => is_proto(open.proto) && is_u16(open.phase),
    }
}

/// Can a line say the base?
#[tactic(auto, unfolding(crate::specs::Fits::fits_base))]
fn fits_base(base: &BaseLine) -> bool
    ensures { result ≡ fits_base base.now }
{
    is_view(base.old)
        && is_u32(base.len)
        && are_named(&base.members)
        && fits_value(&base.value)
        && are_named(&base.failed)
        && fits_open(base.running)
}

/// Can a line say why a request is refused? 64 groups are kept.
#[tactic(auto, unfolding(crate::specs::Fits::fits_why, crate::specs::Fits::why_holds, word_laws::specs::Ranges::is_why))]
fn fits_why(why: Why) -> bool
    ensures { result ≡ fits_why why }
{
    match why {
        Why::Collide(proto) => is_proto(proto),
        Why::DuplicateInstance => true,
        Why::NoSource(len) => is_u32(len),
        Why::BadAttributes => true,
        Why::NotAMember => true,
        Why::ListFull(places, bytes) => is_u32(places) && is_u32(bytes),
        Why::GroupFull(most) => is_u32(most),
        Why::GroupsFull(most) => is_u32(most) && most == 64,
        Why::Dissolved => true,
    }
}

/// Can a line say the attribute's fault?
#[tactic(auto, unfolding(word_laws::specs::Ranges::is_attr_fault))]
fn is_attr_fault(fault: AttrFault) -> bool
    ensures { result ≡ is_attr_fault fault }
{
    match fault {
        AttrFault::Limit(limit) => limit == 0,
        AttrFault::SourceLimit(limit) => limit == 0,
        AttrFault::Source => true,
    }
}

/// Can a line say why a call is refused? 64 sessions are kept, and where memory runs out a daemon ends.
#[tactic(auto, unfolding(crate::specs::Fits::fits_fault, crate::specs::Fits::fault_holds, word_laws::specs::Ranges::is_fault))]
fn fits_fault(fault: GsFault) -> bool
    ensures { result ≡ fits_fault fault }
{
    match fault {
        GsFault::BadGroupAttributes(fault) => is_attr_fault(fault),
        GsFault::Collide(request) => is_u32(request),
        GsFault::SessionsFull(most) => is_u32(most) && most == 64,
        GsFault::NoMemory => false,
        GsFault::NoInit => true,
        GsFault::Exists => true,
        GsFault::NameTooLong => true,
        GsFault::BadParameter(_) => true,
        GsFault::BadClientToken => true,
        GsFault::BadMemberToken => true,
        GsFault::UnknownGroup => true,
        GsFault::VoteNotExpected => true,
        GsFault::Spent => true,
    }
}

/// Is this the name of a client?
#[tactic(auto, unfolding(crate::specs::Fits::is_client))]
fn is_client(name: &[u8]) -> bool
    ensures { result ≡ is_client name.now }
{
    name.len() >= 1 && name.len() <= 16 && are_name_bytes(name)
}

/// Can a line say the place, where there is one?
#[tactic(auto, unfolding(crate::specs::Fits::fits_place))]
fn fits_place(place: Option<u32>) -> bool
    ensures { result ≡ fits_place place }
{
    match place {
        None => true,
        Some(place) => is_u32(place),
    }
}

/// Can a line say the note? No group has the name that stands for the hosts.
#[tactic(auto, unfolding(crate::specs::Fits::fits_note))]
fn fits_note(note: &Note) -> bool
    ensures { result ≡ fits_note note.now }
{
    match note {
        Note::Group {
            group,
            members,
            value,
        } => {
            !is_word(group.bytes(), b"HostMembership")
                && is_name(group.bytes())
                && are_named(members)
                && fits_value(value)
        }
        Note::Hosts { members } => are_members(members.as_slice()),
    }
}

/// Is this a network?
#[tactic(auto, unfolding(crate::specs::Fits::is_network))]
fn is_network(network: u8) -> bool
    ensures { result ≡ is_network network }
{
    1 <= network && network <= 4
}

/// Can a line say the leader, where it is known?
#[tactic(auto, unfolding(crate::specs::Fits::fits_leader))]
fn fits_leader(leader: Option<u8>) -> bool
    ensures { result ≡ fits_leader leader }
{
    match leader {
        None => true,
        Some(node) => is_node_number(node),
    }
}

/// Can a line say whom a phase waits for, where it is known?
#[tactic(auto, unfolding(crate::specs::Fits::fits_waiting))]
fn fits_waiting(waiting: &Option<Providers>) -> bool
    ensures { result ≡ fits_waiting waiting.now }
{
    match waiting {
        None => true,
        Some(providers) => are_named(providers),
    }
}

/// Can a line say the status?
#[tactic(auto, unfolding(crate::specs::Fits::fits_status))]
fn fits_status(status: &Status) -> bool
    ensures { result ≡ fits_status status.now }
{
    match status {
        Status::Ring {
            network,
            ring,
            members,
            neighbour,
        } => {
            is_network(*network)
                && is_ring(*ring)
                && are_nodes(members.as_slice())
                && is_node_number(*neighbour)
        }
        Status::View { view, members, .. } => is_view(*view) && are_members(members.as_slice()),
        Status::Group {
            group,
            leader,
            len,
            members,
            value,
        } => {
            is_name(group.bytes())
                && fits_leader(*leader)
                && is_u32(*len)
                && are_named(members)
                && fits_value(value)
        }
        Status::Vote {
            group,
            proto,
            phase,
            waiting,
            ..
        } => {
            is_name(group.bytes()) && is_proto(*proto) && is_u16(*phase) && fits_waiting(waiting)
        }
    }
}

impl Line {
    /// Is it a line that there is? Its numbers are in the ranges that a line can say, its lists ascend or differ as those of
    /// a record do.
    #[tactic(auto, unfolding(crate::specs::Fits::line_fits))]
    pub fn fits(&self) -> bool
        ensures { result ≡ line_fits self.now }
    {
        match self {
            Line::Up { node, inc } => is_node_number(*node) && is_u32(*inc),
            Line::Down { node } => is_node_number(*node),
            Line::Ring {
                node,
                network,
                ring,
                members,
                neighbour,
            } => {
                is_node_number(*node)
                    && is_network(*network)
                    && is_ring(*ring)
                    && are_nodes(members.as_slice())
                    && is_node_number(*neighbour)
            }
            Line::In {
                node,
                view,
                members,
            } => is_node_number(*node) && is_view(*view) && are_members(members.as_slice()),
            Line::Base {
                node,
                view,
                group,
                base,
            } => {
                is_node_number(*node) && is_view(*view) && is_name(group.bytes()) && fits_base(base)
            }
            Line::Put {
                node,
                view,
                group,
                place,
                entry,
            } => {
                is_node_number(*node)
                    && is_view(*view)
                    && is_name(group.bytes())
                    && is_u32(*place)
                    && fits_entry(entry)
            }
            Line::Heard {
                provider,
                view,
                group,
                place,
                members,
                value,
                ..
            } => {
                is_provider(*provider)
                    && is_view(*view)
                    && is_name(group.bytes())
                    && is_u32(*place)
                    && are_named(members)
                    && fits_value(value)
            }
            Line::Cast {
                provider,
                proto,
                phase,
                value,
                ..
            } => {
                is_provider(*provider)
                    && is_proto(*proto)
                    && is_u16(*phase)
                    && fits_value_option(value)
            }
            Line::Asked {
                provider,
                request,
                group,
                ..
            } => is_provider(*provider) && is_u32(*request) && is_name(group.bytes()),
            Line::Told {
                provider,
                request,
                why,
            } => is_provider(*provider) && is_u32(*request) && fits_why(*why),
            Line::Noted {
                node,
                client,
                view,
                place,
                note,
            } => {
                is_node_number(*node)
                    && is_client(client.as_slice())
                    && is_view(*view)
                    && fits_place(*place)
                    && fits_note(note)
            }
            Line::Refused {
                node,
                client,
                fault,
            } => is_node_number(*node) && is_client(client.as_slice()) && fits_fault(*fault),
            Line::Show { node, status } => is_node_number(*node) && fits_status(status),
        }
    }
}
