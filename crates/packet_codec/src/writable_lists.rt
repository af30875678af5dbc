//! States, lists and installs that have a spelling.
ghost use Rattle.std.specs.Prelude.{◌≡◌, IsTrue, option_copied};
ghost use Rattle.rsct_packet.specs.Format.{EachFits, OptionFits};
ghost use Rattle.rsct_packet.specs.Fields.{IsMember, IsProto};
ghost use Rattle.proposal_core.specs.StateCodec.{IsRunning, IsState, failed_are_present};
ghost use Rattle.view_state.specs.Codec.{is_after, names_ascend, IsSizedEntry, IsPart, IsParts, views_ascend, is_after_view, IsSource, has_member, comes_from, comes_once, each_comes_once, members_ascend, IsInstall};

use crate::writable_entries::{are_attrs, is_proposal, is_sized_entry};
use crate::writable_ids::{
    are_providers, is_mask, is_member, is_optional_text, is_proto, is_text, is_view,
};
use proposal_core::{Entry, GroupState, MAX_PHASES, Running};
use rsct_packet::{Member, NODES, ProtoId, ViewId};
use view_state::{Install, MAX_PARTS, Part, Source};

/// How long a list is at most.
const LAST_LEN: u128 = 4_294_967_295;

fn is_optional_proto(proto: Option<ProtoId>) -> bool
    ensures { IsTrue result → OptionFits IsProto proto }
{
    match proto {
        None => true,
        Some(proto) => is_proto(proto),
    }
}

/// Has what runs a spelling?
fn is_running(run: &Running) -> bool
    ensures { IsTrue result → IsRunning run.now }
{
    is_proto(run.proto)
        && run.phase >= 1
        && run.phase <= MAX_PHASES
        && is_proposal(&run.proposal)
        && is_optional_text(&run.proposed)
}

fn is_optional_running(run: &Option<Running>) -> bool
    ensures { IsTrue result → OptionFits IsRunning run.now }
{
    match run {
        None => true,
        Some(run) => is_running(run),
    }
}

/// Are the failed members or running joiners?
#[tactic(auto, unfolding(proposal_core::specs::StateCodec::failed_are_present))]
fn are_failed_present(state: &GroupState) -> bool
    ensures { result ≡ failed_are_present state.now }
{
    state.failed.as_slice().iter().all(|p| state.is_present(*p))
}

/// Has the state a spelling?
fn is_state(state: &GroupState) -> bool
    ensures { IsTrue result → IsState state.now }
{
    are_providers(&state.members)
        && is_text(&state.value)
        && are_attrs(&state.attrs)
        && are_providers(&state.failed)
        && is_optional_proto(state.value_at)
        && is_optional_proto(state.reflected_at)
        && is_optional_running(&state.running)
        && state.do_joiners_fit()
        && are_failed_present(state)
}

fn are_entries(entries: &[Entry]) -> bool
    ensures { IsTrue result → EachFits IsSizedEntry entries.now }
{
    entries.iter().all(|e| is_sized_entry(e))
}

/// Has the list a spelling?
fn is_part(part: &Part) -> bool
    ensures { IsTrue result → IsPart part.now }
{
    !part.name.bytes().is_empty()
        && part.len() <= LAST_LEN
        && is_state(&part.state)
        && are_entries(part.entries.as_slice())
}

fn is_each_part(parts: &[Part]) -> bool
    ensures { IsTrue result → EachFits IsPart parts.now }
{
    let mut left = parts;
    while let Some((p, rest)) = left.split_first() {
        if !is_part(p) {
            return false;
        }
        left = rest;
    }
    true
}

fn is_after(last: Option<&[u8]>, name: &[u8]) -> bool
    ensures { result ≡ is_after (option_copied last.entry) name.now }
{
    match last {
        None => true,
        Some(last) => last.cmp(name).is_lt(),
    }
}

/// Do the names ascend?
fn do_names_ascend(parts: &[Part]) -> bool
    ensures { result ≡ names_ascend parts.now }
{
    let mut left = parts;
    let mut last: Option<&[u8]> = None;
    while let Some((p, rest)) = left.split_first() {
        if !is_after(last, p.name.bytes()) {
            return false;
        }
        last = Some(p.name.bytes());
        left = rest;
    }
    true
}

/// Have the lists a spelling?
pub fn are_parts(parts: &[Part]) -> bool
    ensures { IsTrue result → IsParts parts.now }
{
    parts.len() <= MAX_PARTS && is_each_part(parts) && do_names_ascend(parts)
}

fn is_source(source: &Source) -> bool
    ensures { IsTrue result → IsSource source.now }
{
    is_view(source.view) && is_mask(source.nodes) && are_parts(source.parts.as_slice())
}

fn are_sources(sources: &[Source]) -> bool
    ensures { IsTrue result → EachFits IsSource sources.now }
{
    let mut left = sources;
    while let Some((s, rest)) = left.split_first() {
        if !is_source(s) {
            return false;
        }
        left = rest;
    }
    true
}

fn are_members(members: &[Member]) -> bool
    ensures { IsTrue result → EachFits IsMember members.now }
{
    members.iter().all(|m| is_member(*m))
}

/// Do the members' nodes ascend?
fn do_members_ascend(members: &[Member]) -> bool
    ensures { result ≡ members_ascend members.now }
{
    let mut left = members;
    let mut last: u8 = 0;
    while let Some((m, rest)) = left.split_first() {
        if m.node <= last {
            return false;
        }
        last = m.node;
        left = rest;
    }
    true
}

fn is_after_view(last: Option<ViewId>, view: ViewId) -> bool
    ensures { result ≡ is_after_view last view }
{
    match last {
        None => true,
        Some(last) => last < view,
    }
}

/// Do the sources' views ascend?
fn do_views_ascend(sources: &[Source]) -> bool
    ensures { result ≡ views_ascend sources.now }
{
    let mut left = sources;
    let mut last: Option<ViewId> = None;
    while let Some((s, rest)) = left.split_first() {
        if !is_after_view(last, s.view) {
            return false;
        }
        last = Some(s.view);
        left = rest;
    }
    true
}

/// Does the node come from just one of them, or where it is not wanted from none?
fn does_come(wanted: bool, sources: &[Source], node: u8) -> bool
    ensures { result ≡ comes_from wanted sources.now node }
{
    let mut wanted = wanted;
    let mut left = sources;
    while let Some((s, rest)) = left.split_first() {
        if s.nodes.has(node) {
            if !wanted {
                return false;
            }
            wanted = false;
        }
        left = rest;
    }
    !wanted
}

fn has_member(members: &[Member], node: u8) -> bool
    ensures { result ≡ has_member members.now node }
{
    members.iter().any(|m| m.node == node)
}

fn comes_once(members: &[Member], sources: &[Source], node: u8) -> bool
    ensures { result ≡ comes_once members.now sources.now node }
{
    does_come(has_member(members, node), sources, node)
}

#[tactic(auto, unfolding(view_state::specs::Codec::each_comes_once))]
fn does_each_come_once(members: &[Member], sources: &[Source]) -> bool
    ensures { result ≡ each_comes_once members.now sources.now }
{
    NODES.iter().all(|n| comes_once(members, sources, *n))
}

/// Has the install a spelling?
pub fn is_install(install: &Install) -> bool
    ensures { IsTrue result → IsInstall install.now }
{
    let ms = install.members.as_slice();
    let ss = install.sources.as_slice();
    is_view(install.view)
        && ms.len() <= MAX_PARTS
        && are_members(ms)
        && ss.len() <= MAX_PARTS
        && are_sources(ss)
        && do_members_ascend(ms)
        && do_views_ascend(ss)
        && does_each_come_once(ms, ss)
}
