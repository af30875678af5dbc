//! Proposals and entries that have a spelling.
ghost use Rattle.std.specs.Prelude.{◌≡◌, ◌<◌, ◌^◌, IsTrue, length};
ghost use Rattle.std.specs.List.{list_any};
ghost use Rattle.rsct_packet.specs.Format.{EachFits, OptionFits};
ghost use Rattle.rsct_packet.specs.Fields.{IsProto, IsU16, IsU32};
ghost use Rattle.rsct_packet.specs.Text.{IsName};
ghost use Rattle.proposal_core.specs.declared.proposal.Proposal.TheVariants.{Join};
ghost use Rattle.group_attr.specs.Codec.{IsAttrs};
ghost use Rattle.proposal_core.specs.ProposalCodec.{same_failure, failures_differ, are_failures, IsFailure, IsFallen, IsProposal};
ghost use Rattle.view_state.specs.Codec.{IsSizedEntry};
ghost use Rattle.proposal_core.specs.EntryCodec.{IsRow, IsClosed, IsEntry, entry_text};

use crate::writable_ids::{
    are_some_providers, is_optional_text, is_place, is_proto, is_provider, is_request, is_text,
};
use group_attr::Attrs;
use proposal_core::{Closed, Entry, Failure, Proposal, Row};
use rsct_packet::{Name, ProtoId, Providers};

/// How many failures an entry has at most.
const MAX_FAILURES: usize = 64;

/// How many rows a phase has at most.
const MAX_ROWS: usize = 255;

fn is_same_failure(first: Failure, second: Failure) -> bool
    ensures { result ≡ same_failure first second }
{
    first.provider == second.provider && first.cause == second.cause
}

fn is_listed(failure: Failure, failures: &[Failure]) -> bool
    ensures { result ≡ list_any (λ g. same_failure g failure) failures.now }
{
    failures.iter().any(|g| is_same_failure(*g, failure))
}

/// Does each differ from those after it?
fn are_apart(failures: &[Failure]) -> bool
    ensures { result ≡ failures_differ failures.now }
{
    let mut left = failures;
    while let Some((f, rest)) = left.split_first() {
        if is_listed(*f, rest) {
            return false;
        }
        left = rest;
    }
    true
}

fn is_each_failure(failures: &[Failure]) -> bool
    ensures { IsTrue result → EachFits IsFailure failures.now }
{
    failures.iter().all(|f| is_provider(f.provider))
}

/// Are these 1 to 64 failures that differ, each with a spelling?
fn are_fallen(failures: &[Failure]) -> bool
    ensures { IsTrue result → IsFallen failures.now }
{
    failures.len() >= 1
        && failures.len() <= MAX_FAILURES
        && are_apart(failures)
        && is_each_failure(failures)
}

fn is_optional_name(name: &Option<Name>) -> bool
    ensures { IsTrue result → OptionFits IsName name.now }
{
    match name {
        None => true,
        Some(name) => !name.bytes().is_empty(),
    }
}

fn are_limits(limit: u16, source_limit: u16) -> bool
    ensures limit { IsTrue result → limit < 2 ^ 16 }
    ensures source_limit { IsTrue result → source_limit < 2 ^ 16 }
{
    limit <= u16::MAX && source_limit <= u16::MAX
}

/// Have the attributes a spelling?
pub fn are_attrs(attrs: &Attrs) -> bool
    ensures { IsTrue result → IsAttrs attrs.now }
{
    are_limits(attrs.limit, attrs.source_limit) && is_optional_name(&attrs.source)
}

fn is_optional_len(len: Option<u32>) -> bool
    ensures { IsTrue result → OptionFits IsU32 len }
{
    match len {
        None => true,
        Some(len) => len <= u32::MAX,
    }
}

fn is_join(providers: &Providers, attrs: &Attrs, source_len: Option<u32>) -> bool
    ensures { IsTrue result → IsProposal (Join providers.now attrs.now source_len) }
{
    are_some_providers(providers) && are_attrs(attrs) && is_optional_len(source_len)
}

/// Has the proposal a spelling?
pub fn is_proposal(proposal: &Proposal) -> bool
    ensures { IsTrue result → IsProposal proposal.now }
{
    match proposal {
        Proposal::Join {
            ps,
            attrs,
            source_len,
        } => is_join(ps, attrs, *source_len),
        Proposal::Leave { provider, request } => is_request(*provider, *request),
        Proposal::Fail { out } => are_fallen(out.as_slice()),
        Proposal::Expel {
            provider,
            request,
            out,
        } => is_request(*provider, *request) && are_some_providers(out),
        Proposal::State {
            provider,
            request,
            value,
        } => is_request(*provider, *request) && is_text(value),
        Proposal::Message {
            provider,
            request,
            bytes,
        } => is_request(*provider, *request) && is_text(bytes),
        Proposal::Attributes {
            provider,
            request,
            attrs,
        } => is_request(*provider, *request) && are_attrs(attrs),
        Proposal::Reflect { view, place, value } => is_place(*view, *place) && is_text(value),
    }
}

fn is_each_row(rows: &[Row]) -> bool
    ensures { IsTrue result → EachFits IsRow rows.now }
{
    rows.iter().all(|row| is_provider(row.provider))
}

/// Are the rows few enough for a byte to count, each with a spelling?
fn are_rows(rows: &[Row]) -> bool
    ensures few { IsTrue result → length rows.now < 256 }
    ensures each { IsTrue result → EachFits IsRow rows.now }
{
    rows.len() <= MAX_ROWS && is_each_row(rows)
}

fn is_phase(proto: ProtoId, _phase: u16) -> bool
    ensures proto { IsTrue result → IsProto proto }
    ensures phase { IsU16 _phase }
{
    is_proto(proto)
}

/// Has what closed a phase a spelling?
fn is_closed(closed: &Closed) -> bool
    ensures { IsTrue result → IsClosed closed.now }
{
    is_phase(closed.proto, closed.phase)
        && are_rows(closed.rows.as_slice())
        && is_optional_text(&closed.value)
        && is_optional_text(&closed.message)
}

/// Has the entry a spelling?
pub fn is_entry(entry: &Entry) -> bool
    ensures { IsTrue result → IsEntry entry.now }
{
    match entry {
        Entry::Once(x) => is_proposal(x),
        Entry::Begin(x) => is_proposal(x),
        Entry::Phase(c) => is_closed(c),
        Entry::Approve(c) => is_closed(c),
        Entry::Reject(c) => c.value.is_none() && is_closed(c),
        Entry::Late { proto, phase, ps } => is_phase(*proto, *phase) && are_some_providers(ps),
    }
}

/// Has the entry a spelling whose length 32 bits can count?
#[tactic(auto, using(group_codec::proofs::SizeLaws::entry_length))]
pub fn is_sized_entry(entry: &Entry) -> bool
    ensures { IsTrue result → IsSizedEntry entry.now }
{
    entry.len().is_some() && is_entry(entry)
}
