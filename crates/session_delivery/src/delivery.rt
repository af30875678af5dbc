//! What an entry that is handed on changes of the state.
ghost use Rattle.std.specs.Prelude.{◌≡◌, ◌++◌, not, filter, is_some, option_copied, OnOk, IfOk};
ghost use Rattle.std.specs.List.{fold, flat_map};
ghost use Rattle.rsct_packet.specs.Providers.{among};
ghost use Rattle.session_state.specs.State.{is_request, is_kept_in, with_provider, end_request, without_providers, provider_of, outstanding};
ghost use Rattle.session_state.specs.Calls.{SameSessions};
ghost use Rattle.session_state.specs.HandOn.{kept_ended, kept_after, hears, hearers_in, beginners, hearers, taking_part, part_taken, opened_after, open_phases, kept_by, keep_casts, proposal_begun, requests_after, removed_from, heard, is_numbered, is_join, is_join_request, is_dissolved, takes_telling, told_of};

use client_callbacks::Why;
use proposal_core::{Entry, GroupState, Proposal};
use rsct_packet::{List, Name, NoMemory, ProtoId, ProviderId, is_among};
use session_state::{Cast, KeptBallot, NewEntry, Request, SessionState, brought_by};
use std::alloc::Global;

fn drop_requests_of(requests: &mut List<Request>, providers: &[ProviderId])
    ensures { requests.new ≡ filter (λ q. not (among providers.now q.provider)) requests.old }
{
    requests.retain(|q| !is_among(providers, q.provider));
}

fn drop_request(requests: &mut List<Request>, provider: ProviderId, request: u32)
    ensures { requests.new ≡ filter (λ q. not (is_request provider request q)) requests.old }
{
    requests.retain(|q| !(q.provider == provider && q.request == request));
}

fn drop_kept_of(kept: &mut List<KeptBallot>, providers: &[ProviderId])
    ensures { kept.new ≡ filter (λ k. not (among providers.now k.provider)) kept.old }
{
    kept.retain(|k| !is_among(providers, k.provider));
}

fn drop_kept_in(kept: &mut List<KeptBallot>, group: &[u8], proto: ProtoId, phase: u16)
    ensures { kept.new ≡ filter (λ k. not (is_kept_in group.now proto phase k)) kept.old }
{
    kept.retain(|k| !(k.group.bytes() == group && k.proto == proto && k.phase == phase));
}

/// Those whom the entry removes, or whose join it rejects.
#[tactic(auto, unfolding(session_state::specs::HandOn::removed_from, session_state::specs::HandOn::is_present), using(std::proofs::lemmas::List::Elements::filter_more, std::proofs::lemmas::Grind::common_steps))]
fn removed_from(
    alloc: Global,
    after: &GroupState,
    providers: &[ProviderId],
) -> Result<List<ProviderId>, NoMemory>
    ensures { IfOk result (λ l. l ≡ removed_from after.now providers.now) }
{
    let mut gone = List::new(alloc);
    for p in providers {
        if !after.is_present(*p) {
            gone.push(*p)?;
        }
    }
    Ok(gone)
}

/// Keeps the ballots that were cast.
#[tactic(auto, using(std::proofs::lemmas::Grind::common_steps))]
fn keep_casts(
    alloc: Global,
    kept: &mut List<KeptBallot>,
    group: &Name,
    casts: &[Cast],
) -> Result<(), NoMemory>
    ensures { OnOk result (kept.new ≡ kept.old ++ flat_map
        (λ c. kept_by group.now c.provider c.cast) casts.now) }
{
    for c in casts {
        if let Some((proto, phase, ballot)) = &c.cast {
            let k = KeptBallot {
                provider: c.provider,
                group: group.copy(alloc)?,
                proto: *proto,
                phase: *phase,
                ballot: ballot.copy(alloc)?,
            };
            kept.push(k)?;
        }
    }
    Ok(())
}

fn is_dissolved(why: Why) -> bool
    ensures { result ≡ is_dissolved why }
{
    match why {
        Why::Dissolved => true,
        _ => false,
    }
}

fn is_join(proposal: &Proposal) -> bool
    ensures { result ≡ is_join proposal.now }
{
    match proposal {
        Proposal::Join { .. } => true,
        _ => false,
    }
}

/// The outstanding request of a provider.
#[tactic(auto, unfolding(session_state::specs::State::outstanding))]
pub fn outstanding(sessions: &SessionState, provider: ProviderId) -> Option<&Request>
    ensures { option_copied result ≡ outstanding sessions.now provider }
{
    sessions
        .requests
        .as_slice()
        .iter()
        .find(|q| q.provider == provider)
}

/// Drops these providers, their requests and their kept ballots.
#[tactic(auto, unfolding(session_state::specs::State::without_providers))]
pub fn drop_providers(sessions: &mut SessionState, providers: &[ProviderId])
    ensures state { sessions.new ≡ without_providers sessions.old providers.now }
    ensures same { SameSessions sessions.old sessions.new }
{
    sessions.providers.retain_not(providers);
    drop_requests_of(&mut sessions.requests, providers);
    drop_kept_of(&mut sessions.kept, providers);
}

/// Is this the number of the provider's outstanding request?
fn is_outstanding(sessions: &SessionState, provider: ProviderId, request: u32) -> bool
    ensures { result ≡ is_numbered request (outstanding sessions.now provider) }
{
    match outstanding(sessions, provider) {
        None => false,
        Some(q) => q.request == request,
    }
}

/// Is the provider's outstanding request its join?
fn is_joining(sessions: &SessionState, provider: ProviderId) -> bool
    ensures { result ≡ is_join_request (outstanding sessions.now provider) }
{
    match outstanding(sessions, provider) {
        None => false,
        Some(q) => is_join(&q.proposal),
    }
}

/// Is it a provider, joining or joined, of a live session?
#[tactic(auto, unfolding(session_state::specs::State::provider_of))]
pub fn is_live(sessions: &SessionState, provider: ProviderId) -> bool
    ensures { result ≡ is_some (provider_of sessions.now provider) }
{
    sessions.providers.get(provider).is_some()
}

/// Is a telling for the provider: of its outstanding request, or that it is dissolved?
#[tactic(auto, unfolding(session_state::specs::HandOn::takes_telling))]
pub fn takes_telling(sessions: &SessionState, provider: ProviderId, request: u32, why: Why) -> bool
    ensures { result ≡ takes_telling sessions.now provider request why }
{
    is_live(sessions, provider)
        && (is_outstanding(sessions, provider, request) || is_dissolved(why))
}

/// Ends the provider's outstanding request, and drops the provider where that was its join, or where it is
/// dissolved.
#[tactic(auto, unfolding(session_state::specs::HandOn::told_of))]
pub fn take_telling(sessions: &mut SessionState, provider: ProviderId, why: Why)
    ensures state { sessions.new ≡ told_of sessions.old provider why }
    ensures same { SameSessions sessions.old sessions.new }
{
    if is_joining(sessions, provider) || is_dissolved(why) {
        drop_providers(sessions, &[provider]);
    } else {
        drop_requests_of(&mut sessions.requests, &[provider]);
    }
}

#[tactic(auto, unfolding(session_state::specs::State::end_request))]
fn end_request(sessions: &mut SessionState, provider: ProviderId, request: u32)
    ensures state { sessions.new ≡ end_request sessions.old provider request }
    ensures same { SameSessions sessions.old sessions.new }
{
    drop_request(&mut sessions.requests, provider, request);
}

#[tactic(auto, unfolding(session_state::specs::HandOn::kept_ended))]
fn end_kept(sessions: &mut SessionState, group: &[u8], proto: ProtoId, phase: u16)
    ensures state { sessions.new ≡ kept_ended sessions.old group.now proto phase }
    ensures same { SameSessions sessions.old sessions.new }
{
    drop_kept_in(&mut sessions.kept, group, proto, phase);
}

/// An entry that closes a phase ends the kept ballots of that phase of its group.
#[tactic(auto, unfolding(session_state::specs::HandOn::kept_after))]
fn end_closed(sessions: &mut SessionState, group: &[u8], entry: &Entry)
    ensures state { sessions.new ≡ kept_after sessions.old group.now entry.now }
    ensures same { SameSessions sessions.old sessions.new }
{
    match entry {
        Entry::Once(_) => {}
        Entry::Begin(_) => {}
        Entry::Phase(c) => end_kept(sessions, group, c.proto, c.phase),
        Entry::Approve(c) => end_kept(sessions, group, c.proto, c.phase),
        Entry::Reject(c) => end_kept(sessions, group, c.proto, c.phase),
        Entry::Late { .. } => {}
    }
}

/// Is it a local provider of the group that takes part, or that does not?
#[tactic(auto, unfolding(session_state::specs::State::provider_of))]
fn hears(sessions: &SessionState, group: &[u8], part: bool, provider: ProviderId) -> bool
    ensures { result ≡ hears group.now part (provider_of sessions.now provider) }
{
    match sessions.providers.get(provider) {
        None => false,
        Some(x) => {
            if part {
                x.takes_part && x.group.bytes() == group
            } else {
                !x.takes_part && x.group.bytes() == group
            }
        }
    }
}

/// Adds those of the providers that hear.
#[tactic(auto, unfolding(session_state::specs::HandOn::hearers_in), using(std::proofs::lemmas::List::Elements::filter_more, std::proofs::lemmas::Grind::common_steps))]
fn add_hearers(
    sessions: &SessionState,
    group: &[u8],
    part: bool,
    providers: &[ProviderId],
    out: &mut List<ProviderId>,
) -> Result<(), NoMemory>
    ensures { OnOk result
        (out.new ≡ out.old ++ hearers_in sessions.now group.now part providers.now) }
{
    for p in providers {
        if hears(sessions, group, part, *p) {
            out.push(*p)?;
        }
    }
    Ok(())
}

/// The local providers that begin to take part.
#[tactic(auto, unfolding(session_state::specs::HandOn::beginners))]
pub fn beginners(
    sessions: &SessionState,
    alloc: Global,
    group: &[u8],
    entry: &Entry,
) -> Result<List<ProviderId>, NoMemory>
    ensures { IfOk result (λ l. l ≡ beginners sessions.now group.now entry.now) }
{
    let mut out = List::new(alloc);
    add_hearers(sessions, group, false, brought_by(entry), &mut out)?;
    Ok(out)
}

/// The local providers that are handed the entry: members before it, running joiners before it, new ones.
#[tactic(auto, unfolding(session_state::specs::HandOn::hearers))]
pub fn hearers(
    sessions: &SessionState,
    alloc: Global,
    group: &[u8],
    before: &GroupState,
    entry: &Entry,
) -> Result<List<ProviderId>, NoMemory>
    ensures { IfOk result (λ l. l ≡ hearers sessions.now group.now before.now entry.now) }
{
    let mut out = List::new(alloc);
    add_hearers(sessions, group, true, before.members.as_slice(), &mut out)?;
    add_hearers(sessions, group, true, before.joiners(), &mut out)?;
    let mut new = beginners(sessions, alloc, group, entry)?;
    out.append(&mut new)?;
    Ok(out)
}

#[tactic(auto, unfolding(session_state::specs::State::with_provider))]
fn let_take_part(sessions: &mut SessionState, provider: ProviderId)
    ensures state { sessions.new ≡ with_provider sessions.old provider taking_part }
    ensures same { SameSessions sessions.old sessions.new }
{
    sessions.providers.take_part(provider);
}

/// Lets these take part.
#[tactic(auto, unfolding(session_state::specs::HandOn::part_taken), using(std::proofs::lemmas::List::Sums::fold_more))]
fn take_part(sessions: &mut SessionState, providers: &[ProviderId])
    ensures state { sessions.new ≡ part_taken sessions.old providers.now }
    ensures same { SameSessions sessions.old sessions.new }
{
    for p in providers {
        let_take_part(sessions, *p);
    }
}

#[tactic(auto, unfolding(session_state::specs::State::with_provider))]
fn note_for(sessions: &mut SessionState, provider: ProviderId, entry: &NewEntry<'_>)
    ensures state { sessions.new ≡ with_provider sessions.old provider
        (opened_after entry.now.entry.now entry.now.after.now) }
    ensures same { SameSessions sessions.old sessions.new }
{
    sessions.providers.note(provider, entry);
}

/// Opens or closes the phases of those that were handed the entry.
#[tactic(auto, unfolding(session_state::specs::HandOn::open_phases), using(std::proofs::lemmas::List::Sums::fold_more))]
fn open_phases(sessions: &mut SessionState, entry: &NewEntry<'_>, providers: &[ProviderId])
    ensures state { sessions.new
        ≡ open_phases sessions.old entry.now.entry.now entry.now.after.now providers.now }
    ensures same { SameSessions sessions.old sessions.new }
{
    for p in providers {
        note_for(sessions, *p, entry);
    }
}

#[tactic(auto, unfolding(session_state::specs::HandOn::keep_casts))]
fn keep(
    sessions: &mut SessionState,
    alloc: Global,
    group: &Name,
    casts: &[Cast],
) -> Result<(), NoMemory>
    ensures state { OnOk result (sessions.new ≡ keep_casts sessions.old group.now casts.now) }
    ensures same { SameSessions sessions.old sessions.new }
{
    keep_casts(alloc, &mut sessions.kept, group, casts)
}

#[tactic(auto, using(std::proofs::lemmas::List::Sums::fold_more))]
fn end_joins(sessions: &mut SessionState, providers: &[ProviderId])
    ensures state { sessions.new ≡ fold (λ t p. end_request t p p.join) sessions.old providers.now }
    ensures same { SameSessions sessions.old sessions.new }
{
    for p in providers {
        end_request(sessions, *p, p.join);
    }
}

#[tactic(auto, unfolding(session_state::specs::HandOn::proposal_begun))]
fn end_requests_of(sessions: &mut SessionState, proposal: &Proposal)
    ensures state { sessions.new ≡ proposal_begun sessions.old proposal.now }
    ensures same { SameSessions sessions.old sessions.new }
{
    match proposal {
        Proposal::Join { ps, .. } => end_joins(sessions, ps.as_slice()),
        Proposal::Leave { provider, request } => end_request(sessions, *provider, *request),
        Proposal::Fail { .. } => {}
        Proposal::Expel {
            provider,
            request,
            ..
        } => end_request(sessions, *provider, *request),
        Proposal::State {
            provider,
            request,
            ..
        } => end_request(sessions, *provider, *request),
        Proposal::Message {
            provider,
            request,
            ..
        } => end_request(sessions, *provider, *request),
        Proposal::Attributes {
            provider,
            request,
            ..
        } => end_request(sessions, *provider, *request),
        Proposal::Reflect { .. } => {}
    }
}

/// Ends the outstanding requests that a Begin or Once carries.
#[tactic(auto, unfolding(session_state::specs::HandOn::requests_after))]
fn end_requests(sessions: &mut SessionState, entry: &Entry)
    ensures state { sessions.new ≡ requests_after sessions.old entry.now }
    ensures same { SameSessions sessions.old sessions.new }
{
    match entry {
        Entry::Once(x) => end_requests_of(sessions, x),
        Entry::Begin(x) => end_requests_of(sessions, x),
        Entry::Phase(_) => {}
        Entry::Approve(_) => {}
        Entry::Reject(_) => {}
        Entry::Late { .. } => {}
    }
}

/// Takes in that these were handed the entry, of whom some begin to take part, and what was cast.
#[tactic(auto, unfolding(session_state::specs::HandOn::heard))]
pub fn hear(
    sessions: &mut SessionState,
    alloc: Global,
    entry: &NewEntry<'_>,
    providers: &[ProviderId],
    beginning: &[ProviderId],
    casts: &[Cast],
) -> Result<(), NoMemory>
    ensures same { SameSessions sessions.old sessions.new }
    ensures state { OnOk result (sessions.new ≡ heard sessions.old entry.now.group.now
        entry.now.after.now entry.now.entry.now providers.now beginning.now casts.now) }
{
    end_closed(sessions, entry.group.bytes(), entry.entry);
    take_part(sessions, beginning);
    open_phases(sessions, entry, providers);
    keep(sessions, alloc, entry.group, casts)?;
    end_requests(sessions, entry.entry);
    let gone = removed_from(alloc, entry.after, providers)?;
    drop_providers(sessions, gone.as_slice());
    Ok(())
}
