//! Lines, written.
ghost use Rattle.std.specs.Prelude.{◌≡◌, ◌++◌, OnOk, codes, decimal};
ghost use Rattle.value_words.specs.Wording.{word, provider_text, providers_text, ring_text, value_text, view_text};
ghost use Rattle.word_laws.specs.Values.{spaced};
ghost use Rattle.record_lines.specs.declared.line.Line.TheVariants as line;
ghost use Rattle.record_lines.specs.declared.line.Status.TheVariants as shown;
ghost use Rattle.record_lines.specs.Writing.{ballot_text, client_text, kind_name, known_text, line_text, note_words, open_text, place_text, what_name, yes_or_no};

use crate::line::{BaseLine, Line, Note, OpenPhase, Status, What};
use client_callbacks::Why;
use entry_words::{put_entry, put_fault, put_why, vote_text};
use proposal_core::{Entry, Vote};
use rsct_packet::{
    List, Members, Name, NoMemory, ProtoId, ProviderId, Providers, RingId, Text, ViewId,
};
use session_state::GsFault;
use value_words::{
    put_counted, put_escaped, put_members, put_members_word, put_nodes, put_number,
    put_number_word, put_proto, put_proto_word, put_provider_word, put_providers,
    put_providers_word, put_ring_word, put_text, put_value, put_view, put_view_word, put_word,
};
use word_laws::Kind;

/// The word of a kind.
#[tactic(auto, unfolding(crate::specs::Writing::kind_name))]
fn kind_name(kind: Kind) -> &'static [u8]
    ensures { result.now ≡ kind_name kind }
{
    match kind {
        Kind::Join => b"join",
        Kind::Leave => b"leave",
        Kind::Fail => b"fail",
        Kind::Expel => b"expel",
        Kind::State => b"state",
        Kind::Message => b"message",
        Kind::Attributes => b"attrs",
        Kind::Reflect => b"reflect",
    }
}

#[tactic(auto, using(crate::proofs::TextLaws::up_is, std::proofs::lemmas::Grind::common_steps))]
fn put_up(out: &mut Vec<u8>, node: u8, inc: u32) -> Result<(), NoMemory>
    ensures { OnOk result (out.new.items ≡ out.old.items ++ line_text (line.Up node inc)) }
{
    put_text(out, b"up ")?;
    put_number_word(out, u32::from(node))?;
    put_number(out, inc)
}

#[tactic(auto, using(crate::proofs::TextLaws::ring_is, std::proofs::lemmas::Grind::common_steps))]
fn put_ring(
    out: &mut Vec<u8>,
    node: u8,
    network: u8,
    ring: RingId,
    members: &List<u8>,
    neighbour: u8,
) -> Result<(), NoMemory>
    ensures { OnOk result (out.new.items ≡ out.old.items
        ++ line_text (line.Ring node network ring members.now neighbour)) }
{
    put_text(out, b"ring ")?;
    put_number_word(out, u32::from(node))?;
    put_number_word(out, u32::from(network))?;
    put_ring_word(out, ring)?;
    put_nodes(out, members.as_slice())?;
    put_text(out, b" ")?;
    put_number(out, u32::from(neighbour))
}

#[tactic(auto, using(crate::proofs::TextLaws::in_is, std::proofs::lemmas::Grind::common_steps))]
fn put_in(out: &mut Vec<u8>, node: u8, view: ViewId, members: &Members) -> Result<(), NoMemory>
    ensures { OnOk result (out.new.items ≡ out.old.items
        ++ line_text (line.In node view members.now)) }
{
    put_text(out, b"in ")?;
    put_number_word(out, u32::from(node))?;
    put_view_word(out, view)?;
    put_members(out, members.as_slice())
}

/// What runs, `-` for nothing.
#[tactic(auto, unfolding(crate::specs::Writing::open_text))]
fn put_open(out: &mut Vec<u8>, running: Option<OpenPhase>) -> Result<(), NoMemory>
    ensures { OnOk result (out.new.items ≡ out.old.items ++ open_text running) }
{
    match running {
        None => put_text(out, b"-"),
        Some(open) => {
            put_proto(out, open.proto)?;
            put_text(out, b":")?;
            put_number(out, u32::from(open.phase))
        }
    }
}

#[tactic(auto, using(crate::proofs::TextLaws::base_is, std::proofs::lemmas::Grind::common_steps))]
fn put_base(
    out: &mut Vec<u8>,
    node: u8,
    view: ViewId,
    group: &Name,
    base: &BaseLine,
) -> Result<(), NoMemory>
    ensures { OnOk result (out.new.items ≡ out.old.items
        ++ line_text (line.Base node view group.now base.now)) }
{
    put_text(out, b"base ")?;
    put_number_word(out, u32::from(node))?;
    put_view_word(out, view)?;
    put_word(out, group.bytes())?;
    put_view_word(out, base.old)?;
    put_number_word(out, base.len)?;
    put_providers_word(out, base.members.as_slice())?;
    put_value(out, base.value.bytes())?;
    put_text(out, b" ")?;
    put_providers_word(out, base.failed.as_slice())?;
    put_open(out, base.running)
}

#[tactic(auto, using(crate::proofs::TextLaws::put_is, std::proofs::lemmas::Grind::common_steps))]
fn put_put(
    out: &mut Vec<u8>,
    node: u8,
    view: ViewId,
    group: &Name,
    place: u32,
    entry: &Entry,
) -> Result<(), NoMemory>
    ensures { OnOk result (out.new.items ≡ out.old.items
        ++ line_text (line.Put node view group.now place entry.now)) }
{
    put_text(out, b"put ")?;
    put_number_word(out, u32::from(node))?;
    put_view_word(out, view)?;
    put_word(out, group.bytes())?;
    put_number_word(out, place)?;
    put_entry(out, entry)
}

/// What was heard of an entry.
#[tactic(auto, unfolding(crate::specs::Writing::what_name))]
fn put_what(out: &mut Vec<u8>, what: What) -> Result<(), NoMemory>
    ensures { OnOk result (out.new.items ≡ out.old.items ++ what_name what) }
{
    match what {
        What::Once(kind) => {
            put_text(out, b"once-")?;
            put_text(out, kind_name(kind))
        }
        What::Begin(kind) => {
            put_text(out, b"begin-")?;
            put_text(out, kind_name(kind))
        }
        What::Phase => put_text(out, b"phase"),
        What::Approve => put_text(out, b"approve"),
        What::Reject => put_text(out, b"reject"),
        What::Late => put_text(out, b"late"),
    }
}

/// Who heard, and of which place.
fn put_hearer(
    out: &mut Vec<u8>,
    provider: ProviderId,
    view: ViewId,
    group: &Name,
    place: u32,
) -> Result<(), NoMemory>
    ensures { OnOk result (out.new.items ≡ out.old.items
        ++ (codes "heard " ++ word (provider_text provider) ++ word (view_text view)
        ++ word group.now ++ word (decimal place))) }
{
    put_text(out, b"heard ")?;
    put_provider_word(out, provider)?;
    put_view_word(out, view)?;
    put_word(out, group.bytes())?;
    put_number_word(out, place)
}

/// What was heard, and the members and the value after it.
fn put_outcome(
    out: &mut Vec<u8>,
    what: What,
    members: &Providers,
    value: &Text,
) -> Result<(), NoMemory>
    ensures { OnOk result (out.new.items ≡ out.old.items
        ++ (what_name what ++ codes " " ++ word (providers_text members.now)
        ++ value_text value.now)) }
{
    put_what(out, what)?;
    put_text(out, b" ")?;
    put_providers_word(out, members.as_slice())?;
    put_value(out, value.bytes())
}

/// A vote, and its value where it has one.
#[tactic(auto, unfolding(crate::specs::Writing::ballot_text))]
fn put_ballot(out: &mut Vec<u8>, vote: Vote, value: &Option<Text>) -> Result<(), NoMemory>
    ensures { OnOk result (out.new.items ≡ out.old.items ++ ballot_text vote value.now) }
{
    put_text(out, vote_text(vote))?;
    match value {
        None => Ok(()),
        Some(value) => put_value(out, value.bytes()),
    }
}

#[tactic(auto, using(crate::proofs::TextLaws::cast_is, std::proofs::lemmas::Grind::common_steps))]
fn put_cast(
    out: &mut Vec<u8>,
    provider: ProviderId,
    proto: ProtoId,
    phase: u16,
    vote: Vote,
    value: &Option<Text>,
) -> Result<(), NoMemory>
    ensures { OnOk result (out.new.items ≡ out.old.items
        ++ line_text (line.Cast provider proto phase vote value.now)) }
{
    put_text(out, b"cast ")?;
    put_provider_word(out, provider)?;
    put_proto_word(out, proto)?;
    put_number_word(out, u32::from(phase))?;
    put_ballot(out, vote, value)
}

#[tactic(auto, using(crate::proofs::TextLaws::asked_is, std::proofs::lemmas::Grind::common_steps))]
fn put_asked(
    out: &mut Vec<u8>,
    provider: ProviderId,
    request: u32,
    group: &Name,
    kind: Kind,
) -> Result<(), NoMemory>
    ensures { OnOk result (out.new.items ≡ out.old.items
        ++ line_text (line.Asked provider request group.now kind)) }
{
    put_text(out, b"asked ")?;
    put_provider_word(out, provider)?;
    put_number_word(out, request)?;
    put_word(out, group.bytes())?;
    put_text(out, kind_name(kind))
}

#[tactic(auto, using(crate::proofs::TextLaws::told_is, std::proofs::lemmas::Grind::common_steps))]
fn put_told(out: &mut Vec<u8>, provider: ProviderId, request: u32, why: Why) -> Result<(), NoMemory>
    ensures { OnOk result (out.new.items ≡ out.old.items
        ++ line_text (line.Told provider request why)) }
{
    put_text(out, b"told ")?;
    put_provider_word(out, provider)?;
    put_number_word(out, request)?;
    put_why(out, why)
}

/// A node and a client of it.
#[tactic(auto, unfolding(crate::specs::Writing::client_text))]
fn put_client(out: &mut Vec<u8>, node: u8, client: &[u8]) -> Result<(), NoMemory>
    ensures { OnOk result (out.new.items ≡ out.old.items ++ client_text node client.now) }
{
    put_number(out, u32::from(node))?;
    put_text(out, b".")?;
    put_text(out, client)
}

/// A place, `-` for none.
#[tactic(auto, unfolding(crate::specs::Writing::place_text))]
fn put_place(out: &mut Vec<u8>, place: Option<u32>) -> Result<(), NoMemory>
    ensures { OnOk result (out.new.items ≡ out.old.items ++ place_text place) }
{
    match place {
        None => put_text(out, b"-"),
        Some(place) => put_number(out, place),
    }
}

/// Whom a note is for, and in which view.
fn put_told_one(out: &mut Vec<u8>, node: u8, client: &[u8], view: ViewId) -> Result<(), NoMemory>
    ensures { OnOk result (out.new.items ≡ out.old.items
        ++ (codes "noted " ++ client_text node client.now ++ codes " " ++ word (view_text view))) }
{
    put_text(out, b"noted ")?;
    put_client(out, node, client)?;
    put_text(out, b" ")?;
    put_view_word(out, view)
}

/// What a note says.
#[tactic(auto, using(crate::proofs::TextLaws::group_note_is, crate::proofs::TextLaws::hosts_note_is, std::proofs::lemmas::Grind::common_steps))]
fn put_note(out: &mut Vec<u8>, place: Option<u32>, note: &Note) -> Result<(), NoMemory>
    ensures { OnOk result (out.new.items ≡ out.old.items ++ spaced (note_words place note.now)) }
{
    match note {
        Note::Group {
            group,
            members,
            value,
        } => {
            put_word(out, group.bytes())?;
            put_place(out, place)?;
            put_text(out, b" ")?;
            put_providers_word(out, members.as_slice())?;
            put_value(out, value.bytes())
        }
        Note::Hosts { members } => {
            put_word(out, b"HostMembership")?;
            put_place(out, place)?;
            put_text(out, b" ")?;
            put_members_word(out, members.as_slice())?;
            put_text(out, b"=")
        }
    }
}

#[tactic(auto, using(crate::proofs::TextLaws::noted_is, std::proofs::lemmas::Grind::common_steps))]
fn put_noted(
    out: &mut Vec<u8>,
    node: u8,
    client: &[u8],
    view: ViewId,
    place: Option<u32>,
    note: &Note,
) -> Result<(), NoMemory>
    ensures { OnOk result (out.new.items ≡ out.old.items
        ++ line_text (line.Noted node client.now view place note.now)) }
{
    put_told_one(out, node, client, view)?;
    put_note(out, place, note)
}

#[tactic(auto, using(crate::proofs::TextLaws::refused_is, std::proofs::lemmas::Grind::common_steps))]
fn put_refused(out: &mut Vec<u8>, node: u8, client: &[u8], fault: GsFault) -> Result<(), NoMemory>
    ensures { OnOk result (out.new.items ≡ out.old.items
        ++ line_text (line.Refused node client.now fault)) }
{
    put_text(out, b"refused ")?;
    put_client(out, node, client)?;
    put_text(out, b" ")?;
    put_fault(out, fault)
}

#[tactic(auto, unfolding(crate::specs::Writing::yes_or_no))]
fn yes_or_no(is_so: bool) -> &'static [u8]
    ensures { result.now ≡ yes_or_no is_so }
{
    if is_so { b"yes" } else { b"no" }
}

/// The leader, `?` where it is not known.
#[tactic(auto, unfolding(crate::specs::Writing::known_text))]
fn put_leader(out: &mut Vec<u8>, leader: Option<u8>) -> Result<(), NoMemory>
    ensures { OnOk result (out.new.items ≡ out.old.items ++ known_text decimal leader) }
{
    match leader {
        None => put_text(out, b"?"),
        Some(node) => put_number(out, u32::from(node)),
    }
}

/// Whom a phase waits for, `?` where it is not known.
#[tactic(auto, unfolding(crate::specs::Writing::known_text))]
fn put_waiting(out: &mut Vec<u8>, waiting: &Option<Providers>) -> Result<(), NoMemory>
    ensures { OnOk result (out.new.items ≡ out.old.items
        ++ known_text providers_text waiting.now) }
{
    match waiting {
        None => put_text(out, b"?"),
        Some(providers) => put_providers(out, providers.as_slice()),
    }
}

/// The node, and its ring on a network.
fn put_shown_ring(out: &mut Vec<u8>, node: u8, network: u8, ring: RingId) -> Result<(), NoMemory>
    ensures { OnOk result (out.new.items ≡ out.old.items
        ++ (codes "show " ++ word (decimal node) ++ codes "hats " ++ word (decimal network)
        ++ word (ring_text ring))) }
{
    put_text(out, b"show ")?;
    put_number_word(out, u32::from(node))?;
    put_text(out, b"hats ")?;
    put_number_word(out, u32::from(network))?;
    put_ring_word(out, ring)
}

#[tactic(auto, using(crate::proofs::TextLaws::show_ring_is, std::proofs::lemmas::Grind::common_steps))]
fn put_ring_status(
    out: &mut Vec<u8>,
    node: u8,
    network: u8,
    ring: RingId,
    members: &List<u8>,
    neighbour: u8,
) -> Result<(), NoMemory>
    ensures { OnOk result (out.new.items ≡ out.old.items
        ++ line_text (line.Show node (shown.Ring network ring members.now neighbour))) }
{
    put_shown_ring(out, node, network, ring)?;
    put_text(out, b"members=")?;
    put_nodes(out, members.as_slice())?;
    put_text(out, b" neighbour=")?;
    put_number(out, u32::from(neighbour))
}

#[tactic(auto, using(crate::proofs::TextLaws::show_view_is, std::proofs::lemmas::Grind::common_steps))]
fn put_view_status(
    out: &mut Vec<u8>,
    node: u8,
    view: ViewId,
    members: &Members,
    frozen: bool,
) -> Result<(), NoMemory>
    ensures { OnOk result (out.new.items ≡ out.old.items
        ++ line_text (line.Show node (shown.View view members.now frozen))) }
{
    put_text(out, b"show ")?;
    put_number_word(out, u32::from(node))?;
    put_text(out, b"hagsns ")?;
    put_view(out, view)?;
    put_counted(out, b" coord=", u32::from(view.coord))?;
    put_text(out, b" members=")?;
    put_members(out, members.as_slice())?;
    put_text(out, b" frozen=")?;
    put_text(out, yes_or_no(frozen))
}

#[tactic(auto, using(crate::proofs::TextLaws::show_group_is, std::proofs::lemmas::Grind::common_steps))]
fn put_group_status(
    out: &mut Vec<u8>,
    node: u8,
    group: &Name,
    leader: Option<u8>,
    len: u32,
    members: &Providers,
    value: &Text,
) -> Result<(), NoMemory>
    ensures { OnOk result (out.new.items ≡ out.old.items
        ++ line_text (line.Show node
        (shown.Group group.now leader len members.now value.now))) }
{
    put_text(out, b"show ")?;
    put_number_word(out, u32::from(node))?;
    put_text(out, b"hagsgr ")?;
    put_text(out, group.bytes())?;
    put_text(out, b" leader=")?;
    put_leader(out, leader)?;
    put_counted(out, b" len=", len)?;
    put_text(out, b" members=")?;
    put_providers(out, members.as_slice())?;
    put_text(out, b" value=")?;
    put_escaped(out, value.bytes())
}

#[tactic(auto, using(crate::proofs::TextLaws::show_vote_is, std::proofs::lemmas::Grind::common_steps))]
fn put_vote_status(
    out: &mut Vec<u8>,
    node: u8,
    group: &Name,
    proto: ProtoId,
    phase: u16,
    kind: Kind,
    waiting: &Option<Providers>,
) -> Result<(), NoMemory>
    ensures { OnOk result (out.new.items ≡ out.old.items
        ++ line_text (line.Show node
        (shown.Vote group.now proto phase kind waiting.now))) }
{
    put_text(out, b"show ")?;
    put_number_word(out, u32::from(node))?;
    put_text(out, b"hagsvote ")?;
    put_text(out, group.bytes())?;
    put_text(out, b" ")?;
    put_proto(out, proto)?;
    put_counted(out, b" phase=", u32::from(phase))?;
    put_text(out, b" kind=")?;
    put_text(out, kind_name(kind))?;
    put_text(out, b" waiting=")?;
    put_waiting(out, waiting)
}

fn put_show(out: &mut Vec<u8>, node: u8, status: &Status) -> Result<(), NoMemory>
    ensures { OnOk result (out.new.items ≡ out.old.items
        ++ line_text (line.Show node status.now)) }
{
    match status {
        Status::Ring {
            network,
            ring,
            members,
            neighbour,
        } => put_ring_status(out, node, *network, *ring, members, *neighbour),
        Status::View {
            view,
            members,
            frozen,
        } => put_view_status(out, node, *view, members, *frozen),
        Status::Group {
            group,
            leader,
            len,
            members,
            value,
        } => put_group_status(out, node, group, *leader, *len, members, value),
        Status::Vote {
            group,
            proto,
            phase,
            kind,
            waiting,
        } => put_vote_status(out, node, group, *proto, *phase, *kind, waiting),
    }
}

impl Line {
    /// Puts the line at the end of a text, without a line feed. An error is that memory has run out; then what was put of the
    /// line is not said.
    #[tactic(auto, using(crate::proofs::TextLaws::down_is, crate::proofs::TextLaws::heard_is, std::proofs::lemmas::Grind::common_steps))]
    pub fn put(&self, out: &mut Vec<u8>) -> Result<(), NoMemory>
        ensures { OnOk result (out.new.items ≡ out.old.items ++ line_text self.now) }
    {
        match self {
            Line::Up { node, inc } => put_up(out, *node, *inc),
            Line::Down { node } => put_counted(out, b"down ", u32::from(*node)),
            Line::Ring {
                node,
                network,
                ring,
                members,
                neighbour,
            } => put_ring(out, *node, *network, *ring, members, *neighbour),
            Line::In {
                node,
                view,
                members,
            } => put_in(out, *node, *view, members),
            Line::Base {
                node,
                view,
                group,
                base,
            } => put_base(out, *node, *view, group, base),
            Line::Put {
                node,
                view,
                group,
                place,
                entry,
            } => put_put(out, *node, *view, group, *place, entry),
            Line::Heard {
                provider,
                view,
                group,
                place,
                what,
                members,
                value,
            } => {
                put_hearer(out, *provider, *view, group, *place)?;
                put_outcome(out, *what, members, value)
            }
            Line::Cast {
                provider,
                proto,
                phase,
                vote,
                value,
            } => put_cast(out, *provider, *proto, *phase, *vote, value),
            Line::Asked {
                provider,
                request,
                group,
                kind,
            } => put_asked(out, *provider, *request, group, *kind),
            Line::Told {
                provider,
                request,
                why,
            } => put_told(out, *provider, *request, *why),
            Line::Noted {
                node,
                client,
                view,
                place,
                note,
            } => put_noted(out, *node, client.as_slice(), *view, *place, note),
            Line::Refused {
                node,
                client,
                fault,
            } => put_refused(out, *node, client.as_slice(), *fault),
            Line::Show { node, status } => put_show(out, *node, status),
        }
    }
}
