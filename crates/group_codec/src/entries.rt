//! How entries are spelled: a byte for the kind, and what the kind has.
ghost use Rattle.std.specs.Prelude.{◌≡◌, ◌++◌, IfOk, IfSome, OnOk, OnErr};
ghost use Rattle.std.specs.Option.{option_map};
ghost use Rattle.rsct_packet.specs.Format.{IsBytes};
ghost use Rattle.proposal_core.specs.EntryCodec.{closed_at, closed_text, IsClosed, once_at, begin_at, phase_at, approve_at, reject_at, late_at, entry_front_at, entry_text, IsEntry, whole};
ghost use Rattle.group_codec.specs.InPlace.{closed_in, entry_in};

use crate::proposals::{ProposalRef, put_proposal, read_proposal};
use proposal_core::{Closed, Entry, Row, optional_bytes, optional_text_of};
use rsct_packet::{
    Listed, NoMemory, ProtoId, ProviderId, Providers, known, put_list, put_optional_bytes,
    put_proto, put_providers, put_u8, put_u16, read_list, read_optional_bytes, read_proto,
    read_some_providers, read_u8, read_u16,
};
use std::alloc::Global;

/// How a phase closed, as it stands in a datagram.
#[derive(Drop)]
pub struct ClosedRef<'a> {
    pub proto: ProtoId,
    pub phase: u16,
    pub rows: Listed<'a, Row>,
    pub value: Option<&'a [u8]>,
    pub message: Option<&'a [u8]>,
}

/// An entry as it stands in a datagram.
#[derive(Drop)]
pub enum EntryRef<'a> {
    Once(ProposalRef<'a>),
    Begin(ProposalRef<'a>),
    Phase(ClosedRef<'a>),
    Approve(ClosedRef<'a>),
    Reject(ClosedRef<'a>),
    Late {
        proto: ProtoId,
        phase: u16,
        ps: Listed<'a, ProviderId>,
    },
}

#[tactic(auto, unfolding(proposal_core::specs::EntryCodec::closed_at))]
fn read_closed(bytes: &[u8]) -> Option<(ClosedRef<'_>, &[u8])>
    ensures { option_map (λ x. (closed_in x.0, x.1.now)) result ≡ closed_at bytes.now }
{
    let (proto, bytes) = read_proto(bytes)?;
    let (phase, bytes) = read_u16(bytes)?;
    let (rows, bytes) = read_list::<Row>(bytes)?;
    let (value, bytes) = read_optional_bytes(bytes)?;
    let (message, bytes) = read_optional_bytes(bytes)?;
    Some((
        ClosedRef {
            proto,
            phase,
            rows,
            value,
            message,
        },
        bytes,
    ))
}

#[tactic(auto, unfolding(proposal_core::specs::EntryCodec::once_at))]
fn read_once(bytes: &[u8]) -> Option<(EntryRef<'_>, &[u8])>
    ensures { option_map (λ x. (entry_in x.0, x.1.now)) result ≡ once_at bytes.now }
{
    let (x, bytes) = read_proposal(bytes)?;
    Some((EntryRef::Once(x), bytes))
}

#[tactic(auto, unfolding(proposal_core::specs::EntryCodec::begin_at))]
fn read_begin(bytes: &[u8]) -> Option<(EntryRef<'_>, &[u8])>
    ensures { option_map (λ x. (entry_in x.0, x.1.now)) result ≡ begin_at bytes.now }
{
    let (x, bytes) = read_proposal(bytes)?;
    Some((EntryRef::Begin(x), bytes))
}

#[tactic(auto, unfolding(proposal_core::specs::EntryCodec::phase_at))]
fn read_phase(bytes: &[u8]) -> Option<(EntryRef<'_>, &[u8])>
    ensures { option_map (λ x. (entry_in x.0, x.1.now)) result ≡ phase_at bytes.now }
{
    let (c, bytes) = read_closed(bytes)?;
    Some((EntryRef::Phase(c), bytes))
}

#[tactic(auto, unfolding(proposal_core::specs::EntryCodec::approve_at))]
fn read_approve(bytes: &[u8]) -> Option<(EntryRef<'_>, &[u8])>
    ensures { option_map (λ x. (entry_in x.0, x.1.now)) result ≡ approve_at bytes.now }
{
    let (c, bytes) = read_closed(bytes)?;
    Some((EntryRef::Approve(c), bytes))
}

/// A rejection has no value.
#[tactic(auto, unfolding(proposal_core::specs::EntryCodec::reject_at))]
fn read_reject(bytes: &[u8]) -> Option<(EntryRef<'_>, &[u8])>
    ensures { option_map (λ x. (entry_in x.0, x.1.now)) result ≡ reject_at bytes.now }
{
    let (c, bytes) = read_closed(bytes)?;
    if c.value.is_some() {
        return None;
    }
    Some((EntryRef::Reject(c), bytes))
}

#[tactic(auto, unfolding(proposal_core::specs::EntryCodec::late_at))]
fn read_late(bytes: &[u8]) -> Option<(EntryRef<'_>, &[u8])>
    ensures { option_map (λ x. (entry_in x.0, x.1.now)) result ≡ late_at bytes.now }
{
    let (proto, bytes) = read_proto(bytes)?;
    let (phase, bytes) = read_u16(bytes)?;
    let (ps, bytes) = read_some_providers(bytes)?;
    Some((EntryRef::Late { proto, phase, ps }, bytes))
}

/// An entry off the front of bytes, with the bytes after it.
#[tactic(auto, unfolding(proposal_core::specs::EntryCodec::entry_front_at))]
fn entry_front(bytes: &[u8]) -> Option<(EntryRef<'_>, &[u8])>
    ensures { option_map (λ x. (entry_in x.0, x.1.now)) result ≡ entry_front_at bytes.now }
{
    let (kind, bytes) = read_u8(bytes)?;
    match kind {
        1 => read_once(bytes),
        2 => read_begin(bytes),
        3 => read_phase(bytes),
        4 => read_approve(bytes),
        5 => read_reject(bytes),
        6 => read_late(bytes),
        _ => None,
    }
}

/// An entry that takes all of the bytes.
fn whole_entry(bytes: &[u8]) -> Option<EntryRef<'_>>
    ensures value { option_map (λ x. entry_in x) result ≡ whole (entry_front_at bytes.now) }
    ensures bytes { IsBytes bytes.now }
{
    let (e, rest) = entry_front(known(bytes))?;
    if rest.len() != 0 {
        return None;
    }
    Some(e)
}

impl<'a> ClosedRef<'a> {
    fn own(&self, alloc: Global) -> Result<Closed, NoMemory>
        requires { IsClosed (closed_in self.now) }
        ensures { IfOk result (λ c. c ≡ closed_in self.now) }
    {
        Ok(Closed {
            proto: self.proto,
            phase: self.phase,
            rows: self.rows.own(alloc)?,
            value: optional_text_of(alloc, self.value)?,
            message: optional_text_of(alloc, self.message)?,
        })
    }
}

impl<'a> EntryRef<'a> {
    /// An entry of its own.
    pub fn own(&self, alloc: Global) -> Result<Entry, NoMemory>
        requires { IsEntry (entry_in self.now) }
        ensures ok { IfOk result (λ e. e ≡ entry_in self.now) }
        ensures entry { IfOk result IsEntry }
    {
        Ok(match self {
            EntryRef::Once(x) => Entry::Once(x.own(alloc)?),
            EntryRef::Begin(x) => Entry::Begin(x.own(alloc)?),
            EntryRef::Phase(c) => Entry::Phase(c.own(alloc)?),
            EntryRef::Approve(c) => Entry::Approve(c.own(alloc)?),
            EntryRef::Reject(c) => Entry::Reject(c.own(alloc)?),
            EntryRef::Late { proto, phase, ps } => Entry::Late {
                proto: *proto,
                phase: *phase,
                ps: Providers::of_listed(alloc, ps)?,
            },
        })
    }
}

#[tactic(auto, unfolding(proposal_core::specs::EntryCodec::closed_text), using(crate::proofs::EntryFormat::row_nodes, std::proofs::lemmas::Grind::common_steps))]
fn put_closed(out: &mut Vec<u8>, closed: &Closed) -> Result<(), NoMemory>
    requires { IsClosed closed.now }
    ensures { OnOk result (out.new.items ≡ out.old.items ++ closed_text closed.now) }
{
    put_proto(out, closed.proto)?;
    put_u16(out, closed.phase)?;
    put_list(out, closed.rows.as_slice())?;
    put_optional_bytes(out, optional_bytes(&closed.value))?;
    put_optional_bytes(out, optional_bytes(&closed.message))?;
    Ok(())
}

/// Takes an entry that spans all of the bytes, and copies nothing. None exactly where they spell none.
#[tactic(auto, using(crate::proofs::EntryFormat::entry_found, crate::proofs::EntryFormat::entry_only))]
pub fn read_entry(bytes: &[u8]) -> Option<EntryRef<'_>>
    ensures value { option_map (λ x. entry_in x) result ≡ whole (entry_front_at bytes.now) }
    ensures found { IfSome (option_map (λ x. entry_in x) result) (λ e. IsEntry e
        × (bytes.now ≡ entry_text e)) }
    ensures only { (e : Entry) → IsEntry e → bytes.now ≡ entry_text e
        → option_map (λ x. entry_in x) result ≡ Some e }
{
    whole_entry(bytes)
}

/// Takes the spelling to the end of `out`, which may keep a part of it where memory has run out.
#[tactic(auto, unfolding(proposal_core::specs::EntryCodec::entry_text), using(crate::proofs::ProposalFormat::some_nodes, std::proofs::lemmas::Grind::common_steps))]
fn put_parts(alloc: Global, out: &mut Vec<u8>, entry: &Entry) -> Result<(), NoMemory>
    requires { IsEntry entry.now }
    ensures { OnOk result (out.new.items ≡ out.old.items ++ entry_text entry.now) }
{
    match entry {
        Entry::Once(x) => {
            put_u8(out, 1)?;
            put_proposal(alloc, out, x)
        }
        Entry::Begin(x) => {
            put_u8(out, 2)?;
            put_proposal(alloc, out, x)
        }
        Entry::Phase(c) => {
            put_u8(out, 3)?;
            put_closed(out, c)
        }
        Entry::Approve(c) => {
            put_u8(out, 4)?;
            put_closed(out, c)
        }
        Entry::Reject(c) => {
            put_u8(out, 5)?;
            put_closed(out, c)
        }
        Entry::Late { proto, phase, ps } => {
            put_u8(out, 6)?;
            put_proto(out, *proto)?;
            put_u16(out, *phase)?;
            put_providers(out, ps.as_slice())
        }
    }
}

/// The spelling, in memory of its own.
fn spelled(alloc: Global, entry: &Entry) -> Result<Vec<u8>, NoMemory>
    requires { IsEntry entry.now }
    ensures { IfOk result (λ v. v.items ≡ entry_text entry.now) }
{
    let mut out = Vec::new(alloc);
    put_parts(alloc, &mut out, entry)?;
    Ok(out)
}

/// Takes the spelling of an entry to the end of `out`, and leaves `out` as before where memory has run out.
pub fn put_entry(alloc: Global, out: &mut Vec<u8>, entry: &Entry) -> Result<(), NoMemory>
    requires { IsEntry entry.now }
    ensures ok { OnOk result (out.new.items ≡ out.old.items ++ entry_text entry.now) }
    ensures err { OnErr result (out.new.items ≡ out.old.items) }
{
    let text = spelled(alloc, entry)?;
    out.extend_from_slice(text.as_slice())?;
    Ok(())
}
