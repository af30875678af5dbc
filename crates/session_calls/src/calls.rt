//! The calls of clients, as far as they change what a node has of them.
ghost use Rattle.std.specs.Prelude.{◌≡◌, ◌++◌, ◌∷◌, [], None, IsTrue, IfOk, OnOk, OnErr, option_copied};
ghost use Rattle.rsct_packet.specs.Text.{IsName};
ghost use Rattle.client_callbacks.specs.Ballots.{is_level};
ghost use Rattle.session_state.specs.Calls.{Answers, SameSessions, left, expelled, state_changed, message_sent, attributes_changed, voted, joined};

use crate::asking::{Asked, ask};
use crate::checks::{check_join, check_session, check_value, is_kept, member};
use client_callbacks::Ballot;
use group_attr::{Attrs, Phases};
use proposal_core::{Proposal, Vote};
use rsct_packet::{Name, NoMemory, ProviderId, Providers};
use session_state::{GsFault, KeptBallot, MemberToken, Provider, Request, SessionState};
use std::alloc::Global;
use subscribe_core::ClientToken;

/// Puts a request with the next number at the end.
pub fn put_request(sessions: &mut SessionState, request: Request) -> Result<(), NoMemory>
    ensures ok { OnOk result (sessions.new ≡ record
        sessions.old {
          last_request = request.request;
          requests = sessions.old.requests
              ++ request ∷ [];
        }) }
    ensures err { OnErr result (sessions.new ≡ sessions.old) }
{
    let number = request.request;
    sessions.requests.push(request)?;
    sessions.last_request = number;
    Ok(())
}

/// Puts a joining provider and its request at the end.
fn put_joiner(
    sessions: &mut SessionState,
    provider: Provider,
    request: Request,
) -> Result<(), NoMemory>
    ensures ok { OnOk result (sessions.new ≡ record
        sessions.old {
          last_request = request.request;
          providers = sessions.old.providers
              ++ provider ∷ [];
          requests = sessions.old.requests ++ request ∷ [];
        }) }
    ensures err { OnErr result (sessions.new ≡ sessions.old) }
{
    let n = sessions.providers.len();
    sessions.providers.push(provider)?;
    match put_request(sessions, request) {
        Ok(()) => Ok(()),
        Err(e) => {
            sessions.providers.truncate(n);
            Err(e)
        }
    }
}

/// The request of a provider that joins the group.
fn join_request(
    alloc: Global,
    provider: ProviderId,
    group: &[u8],
    attrs: Attrs,
) -> Result<Request, NoMemory>
    requires { IsName group.now }
    ensures { IfOk result (λ q. q ≡ record {
      provider = provider;
      request = provider.join;
      group = group.now;
      phases = Phases.One;
      proposal = Proposal.Join (provider ∷ []) attrs None;
    }) }
{
    Ok(Request {
        provider,
        request: provider.join,
        group: Name::of_name(alloc, group)?,
        phases: Phases::One,
        proposal: Proposal::Join {
            ps: Providers::one(alloc, provider)?,
            attrs,
            source_len: None,
        },
    })
}

/// Adds a joining provider of the client, with its join's request.
#[tactic(auto, unfolding(session_state::specs::Calls::joined, session_state::specs::Calls::join_asked))]
pub fn join(
    sessions: &mut SessionState,
    alloc: Global,
    client: ClientToken,
    name: &[u8],
    instance: u16,
    attrs: Attrs,
) -> Result<MemberToken, GsFault>
    ensures answer { Answers result sessions.old sessions.new
        (joined sessions.old client name.now instance attrs) }
    ensures same { SameSessions sessions.old sessions.new }
    ensures token { IfOk result (λ m. m.number ≡ sessions.new.last_request) }
{
    check_join(sessions, client, name, &attrs)?;
    let request = sessions.last_request + 1;
    let provider = ProviderId {
        node: sessions.me,
        inc: sessions.inc,
        instance,
        join: request,
    };
    let group = Name::of_name(alloc, name)?;
    let q = join_request(alloc, provider, name, attrs)?;
    let x = Provider {
        provider,
        client,
        group,
        takes_part: false,
        opened: None,
    };
    put_joiner(sessions, x, q)?;
    Ok(MemberToken { number: request })
}

/// Asks that the provider leaves.
pub fn leave(
    sessions: &mut SessionState,
    alloc: Global,
    token: MemberToken,
    phases: Phases,
) -> Result<(), GsFault>
    ensures answer { Answers result sessions.old sessions.new (left sessions.old token phases) }
    ensures same { SameSessions sessions.old sessions.new }
{
    ask(sessions, alloc, token, phases, Asked::Leave)
}

/// Asks that these are expelled.
pub fn expel(
    sessions: &mut SessionState,
    alloc: Global,
    token: MemberToken,
    phases: Phases,
    out: &[ProviderId],
) -> Result<(), GsFault>
    ensures answer { Answers result sessions.old sessions.new
        (expelled sessions.old token phases out.now) }
    ensures same { SameSessions sessions.old sessions.new }
{
    ask(sessions, alloc, token, phases, Asked::Expel(out))
}

/// Asks that the group's value becomes this one.
pub fn change_state(
    sessions: &mut SessionState,
    alloc: Global,
    token: MemberToken,
    phases: Phases,
    value: &[u8],
) -> Result<(), GsFault>
    ensures answer { Answers result sessions.old sessions.new
        (state_changed sessions.old token phases value.now) }
    ensures same { SameSessions sessions.old sessions.new }
{
    ask(sessions, alloc, token, phases, Asked::State(value))
}

/// Asks that this message is sent to all.
pub fn send_message(
    sessions: &mut SessionState,
    alloc: Global,
    token: MemberToken,
    phases: Phases,
    text: &[u8],
) -> Result<(), GsFault>
    ensures answer { Answers result sessions.old sessions.new
        (message_sent sessions.old token phases text.now) }
    ensures same { SameSessions sessions.old sessions.new }
{
    ask(sessions, alloc, token, phases, Asked::Message(text))
}

/// Asks that the group's attributes become these.
pub fn change_attributes(
    sessions: &mut SessionState,
    alloc: Global,
    token: MemberToken,
    phases: Phases,
    attrs: Attrs,
) -> Result<(), GsFault>
    ensures answer { Answers result sessions.old sessions.new
        (attributes_changed sessions.old token phases attrs) }
    ensures same { SameSessions sessions.old sessions.new }
{
    ask(sessions, alloc, token, phases, Asked::Attributes(attrs))
}

/// Keeps a ballot of the provider.
#[tactic(auto, unfolding(session_state::specs::Calls::voted, session_state::specs::Calls::no_session_fault, session_state::specs::Calls::value_fault, client_callbacks::specs::Ballots::can_fill, client_callbacks::specs::Ballots::filled_with))]
pub fn vote(
    sessions: &mut SessionState,
    alloc: Global,
    token: MemberToken,
    vote: Vote,
    value: Option<&[u8]>,
) -> Result<(), GsFault>
    requires { IsTrue (is_level sessions.old.level) }
    ensures answer { Answers result sessions.old sessions.new
        (voted sessions.old token vote (option_copied value.entry)) }
    ensures same { SameSessions sessions.old sessions.new }
{
    check_session(sessions)?;
    let Some(x) = member(sessions, token) else {
        return Err(GsFault::BadMemberToken);
    };
    check_value(sessions, value)?;
    let Some(o) = x.opened else {
        return Err(GsFault::VoteNotExpected);
    };
    if is_kept(sessions, x.provider, o) {
        return Err(GsFault::VoteNotExpected);
    }
    let mut ballot = Ballot::new(true, sessions.level);
    ballot.set(alloc, vote, value, None)?;
    let kept = KeptBallot {
        provider: x.provider,
        group: x.group.copy(alloc)?,
        proto: o.proto,
        phase: o.phase,
        ballot,
    };
    sessions.kept.push(kept)?;
    Ok(())
}
