//! How installs are spelled.
ghost use Rattle.std.specs.Prelude.{◌≡◌, ◌++◌, ◌&&◌, [], IfOk, IfSome, OnOk, OnErr, flat_map};
ghost use Rattle.std.specs.Option.{option_map};
ghost use Rattle.rsct_packet.specs.Format.{IsBytes, EachFits};
ghost use Rattle.proposal_core.specs.EntryCodec.{whole};
ghost use Rattle.view_state.specs.Codec.{source_text, IsSource, has_member, views_ascend, each_comes_once, members_ascend, is_in_order, install_at, install_text, IsInstall};
ghost use Rattle.view_state.specs.Tails.{HasTails};
ghost use Rattle.view_exchange.specs.SourcesInPlace.{install_in};
ghost use Rattle.view_exchange.specs.Coming.{have_common, comes_after, each_comes_after};

use crate::sources_in_place::{SourcesRef, is_after_view, read_sources};
use crate::writing::put_parts;
use rsct_packet::{
    Listed, Mask, Member, NODES, NoMemory, ViewId, known, put_list, put_mask, put_u8, put_view,
    read_list, read_view,
};
use std::alloc::Global;
use view_state::{Install, Source};

/// An install in place.
#[derive(Drop)]
pub struct InstallRef<'a> {
    view: ViewId,
    members: Listed<'a, Member>,
    sources: SourcesRef<'a>,
}

fn has_member(members: &Listed<Member>, node: u8) -> bool
    ensures { result ≡ has_member members.now node }
{
    let mut left = members.copy();
    while let Some(member) = left.take_first() {
        if member.node == node {
            return true;
        }
    }
    false
}

/// Do the members' nodes ascend?
fn do_members_ascend(members: &Listed<Member>) -> bool
    ensures { result ≡ members_ascend members.now }
{
    let mut last: u8 = 0;
    let mut left = members.copy();
    while let Some(member) = left.take_first() {
        if member.node <= last {
            return false;
        }
        last = member.node;
    }
    true
}

/// Has a node come that is one of these too?
fn have_common(come: Mask, nodes: Mask) -> bool
    ensures { result ≡ have_common come nodes }
{
    NODES.iter().any(|n| come.has(*n) && nodes.has(*n))
}

/// Has a member come, or another node not?
fn did_come(members: &Listed<Member>, come: Mask, node: u8) -> bool
    ensures { result ≡ comes_after come members.now [] node }
{
    if come.has(node) {
        has_member(members, node)
    } else {
        !has_member(members, node)
    }
}

/// Has each member come, and nobody else?
fn did_each_come(members: &Listed<Member>, come: Mask) -> bool
    ensures { result ≡ each_comes_after come members.now [] }
{
    NODES.iter().all(|n| did_come(members, come, *n))
}

/// Do the sources' views ascend, and does each member come from one of them, and another node from none? Each source
/// is read once.
#[tactic(auto, using(crate::proofs::Coming::nobody_came, crate::proofs::Coming::more_came, crate::proofs::Coming::came_twice))]
fn do_sources_fit(members: &Listed<Member>, sources: &SourcesRef) -> bool
    ensures { result ≡ (views_ascend sources.now && each_comes_once members.now sources.now) }
{
    let mut left = sources.copy();
    let mut last = None;
    let mut come = Mask::empty();
    while let Some(source) = left.take_first() {
        if !is_after_view(last, source.view) {
            return false;
        }
        if have_common(come, source.nodes) {
            return false;
        }
        last = Some(source.view);
        come = come.union(source.nodes);
    }
    did_each_come(members, come)
}

fn is_in_order(install: &InstallRef) -> bool
    ensures { result ≡ is_in_order (install_in install.now) }
{
    do_members_ascend(&install.members) && do_sources_fit(&install.members, &install.sources)
}

#[tactic(auto, unfolding(view_state::specs::Codec::install_at))]
fn whole_install(bytes: &[u8]) -> Option<InstallRef<'_>>
    ensures value { option_map (λ i. install_in i) result ≡ whole (install_at bytes.now) }
    ensures bytes { IsBytes bytes.now }
{
    let (view, bytes) = read_view(known(bytes))?;
    let (members, bytes) = read_list::<Member>(bytes)?;
    let (sources, bytes) = read_sources(bytes)?;
    let install = InstallRef {
        view,
        members,
        sources,
    };
    if !is_in_order(&install) {
        return None;
    }
    if bytes.len() != 0 {
        return None;
    }
    Some(install)
}

impl<'a> InstallRef<'a> {
    /// Takes an install that spans all of the bytes, and copies nothing. None exactly where they spell none.
    pub fn read(bytes: &'a [u8]) -> Option<InstallRef<'a>>
        ensures value { option_map (λ i. install_in i) result ≡ whole (install_at bytes.now) }
        ensures found { IfSome (option_map (λ i. install_in i) result) (λ i. IsInstall i
            × (bytes.now ≡ install_text i)) }
        ensures only { (i : Install) → IsInstall i → bytes.now ≡ install_text i
            → option_map (λ x. install_in x) result ≡ Some i }
    {
        whole_install(bytes)
    }

    /// An install of its own.
    pub fn own(&self, alloc: Global) -> Result<Install, NoMemory>
        ensures { IfOk result (λ i. i ≡ install_in self.now) }
    {
        Ok(Install {
            view: self.view,
            members: self.members.own(alloc)?,
            sources: self.sources.own(alloc)?,
        })
    }
}

#[tactic(auto, unfolding(view_state::specs::Codec::source_text))]
fn put_source(alloc: Global, out: &mut Vec<u8>, source: &Source) -> Result<(), NoMemory>
    requires { IsSource source.now }
    ensures { OnOk result (out.new.items ≡ out.old.items ++ source_text source.now) }
{
    put_view(out, source.view)?;
    put_mask(out, source.nodes)?;
    put_parts(alloc, out, source.parts.as_slice())
}

fn put_each_source(alloc: Global, out: &mut Vec<u8>, sources: &[Source]) -> Result<(), NoMemory>
    requires { EachFits IsSource sources.now }
    ensures { OnOk result (out.new.items ≡ out.old.items ++ flat_map source_text sources.now) }
{
    for source in sources {
        put_source(alloc, out, source)?;
    }
    Ok(())
}

fn read_install_alone(alloc: Global, bytes: &[u8]) -> Result<Option<Install>, NoMemory>
    ensures value { IfOk result (λ o. o ≡ whole (install_at bytes.now)) }
    ensures bytes { IsBytes bytes.now }
{
    match whole_install(bytes) {
        None => Ok(None),
        Some(i) => Ok(Some(i.own(alloc)?)),
    }
}

/// Takes an install that spans all of the bytes. `Ok(None)` exactly where they spell none.
pub fn read_install(alloc: Global, bytes: &[u8]) -> Result<Option<Install>, NoMemory>
    ensures value { IfOk result (λ o. o ≡ whole (install_at bytes.now)) }
    ensures found { IfOk result (λ o. IfSome o (λ i. IsInstall i × (bytes.now ≡ install_text i))) }
    ensures only { (i : Install) → IsInstall i → bytes.now ≡ install_text i
        → IfOk result (λ o. o ≡ Some i) }
    ensures tails { IfOk result (λ o. IfSome o HasTails) }
{
    read_install_alone(alloc, bytes)
}

/// The spelling, in memory of its own.
#[tactic(auto, unfolding(view_state::specs::Codec::install_text), using(crate::proofs::Formats::member_nodes, std::proofs::lemmas::Grind::common_steps))]
fn spelled(alloc: Global, install: &Install) -> Result<Vec<u8>, NoMemory>
    requires { IsInstall install.now }
    ensures { IfOk result (λ v. v.items ≡ install_text install.now) }
{
    let mut out = Vec::new(alloc);
    put_view(&mut out, install.view)?;
    put_list(&mut out, install.members.as_slice())?;
    put_u8(&mut out, install.sources.len() as u8)?;
    put_each_source(alloc, &mut out, install.sources.as_slice())?;
    Ok(out)
}

/// Takes the spelling of an install to the end of `out`, and leaves `out` as before where memory has run out.
pub fn put_install(alloc: Global, out: &mut Vec<u8>, install: &Install) -> Result<(), NoMemory>
    requires { IsInstall install.now }
    ensures ok { OnOk result (out.new.items ≡ out.old.items ++ install_text install.now) }
    ensures err { OnErr result (out.new.items ≡ out.old.items) }
{
    let text = spelled(alloc, install)?;
    out.extend_from_slice(text.as_slice())?;
    Ok(())
}
