//! What a provider asks of its group, and the request that it makes of it.
ghost use Rattle.std.specs.Prelude.{◌≡◌, IfOk};
ghost use Rattle.std.specs.Result.{result_err};
ghost use Rattle.session_state.specs.Calls.{Answers, SameSessions};
ghost use Rattle.session_calls.specs.Asking.{asked_for, parameter_fault, HasRoom, proposal_of};

use crate::calls::put_request;
use crate::checks::{
    check_ask, check_attributes, check_bytes, check_message, check_session, check_targets, member,
};
use group_attr::{Attrs, Phases};
use proposal_core::{Proposal, text_of};
use rsct_packet::{NoMemory, ProviderId, Providers};
use session_state::{GsFault, MemberToken, Request, SessionState};
use std::alloc::Global;

/// What a provider asks: to leave its group, that these are expelled, that the group's value becomes these bytes, that
/// a message is sent to all, or that the group's attributes become these.
#[derive(Drop)]
pub enum Asked<'a> {
    Leave,
    Expel(&'a [ProviderId]),
    State(&'a [u8]),
    Message(&'a [u8]),
    Attributes(Attrs),
}

impl Asked<'_> {
    /// What is asked has no fault, of a provider of this group.
    fn check(&self, sessions: &SessionState, group: &[u8]) -> Result<(), GsFault>
        ensures fault { result_err result ≡ parameter_fault sessions.now group.now self.now }
        ensures room { IfOk result (λ _. HasRoom self.now) }
    {
        match self {
            Asked::Leave => Ok(()),
            Asked::Expel(out) => check_targets(out),
            Asked::State(value) => check_bytes(sessions, value),
            Asked::Message(bytes) => check_message(bytes),
            Asked::Attributes(attrs) => check_attributes(attrs, group),
        }
    }

    /// What is proposed by the provider, under a request number.
    fn proposal(
        self,
        alloc: Global,
        provider: ProviderId,
        request: u32,
    ) -> Result<Proposal, NoMemory>
        requires { HasRoom self }
        ensures { IfOk result (λ proposal. proposal ≡ proposal_of self.entry provider request) }
    {
        Ok(match self {
            Asked::Leave => Proposal::Leave { provider, request },
            Asked::Expel(out) => Proposal::Expel {
                provider,
                request,
                out: Providers::of(alloc, out)?,
            },
            Asked::State(value) => Proposal::State {
                provider,
                request,
                value: text_of(alloc, value)?,
            },
            Asked::Message(bytes) => Proposal::Message {
                provider,
                request,
                bytes: text_of(alloc, bytes)?,
            },
            Asked::Attributes(attrs) => Proposal::Attributes {
                provider,
                request,
                attrs,
            },
        })
    }
}

/// Puts what the provider of a token asks as its request, under the next number. Who may ask: the provider of a live
/// session, where what it asks has no fault and none of its requests is outstanding.
#[tactic(auto, unfolding(session_state::specs::Calls::ask_fault, session_state::specs::Calls::asked, session_state::specs::Calls::no_session_fault), using(crate::proofs::AskingLaws::asked_as, std::proofs::lemmas::Grind::common_steps))]
pub fn ask(
    sessions: &mut SessionState,
    alloc: Global,
    token: MemberToken,
    phases: Phases,
    asked: Asked<'_>,
) -> Result<(), GsFault>
    ensures answer { Answers result sessions.old sessions.new
        (asked_for sessions.old token phases asked.entry) }
    ensures same { SameSessions sessions.old sessions.new }
{
    check_session(sessions)?;
    let Some(asker) = member(sessions, token) else {
        return Err(GsFault::BadMemberToken);
    };
    asked.check(sessions, asker.group.bytes())?;
    check_ask(sessions, asker.provider)?;
    let provider = asker.provider;
    let group = asker.group.copy(alloc)?;
    let request = sessions.last_request + 1;
    let proposal = asked.proposal(alloc, provider, request)?;
    put_request(
        sessions,
        Request {
            provider,
            request,
            group,
            phases,
            proposal,
        },
    )?;
    Ok(())
}
