//! The rule on requests that begin.
ghost use Rattle.std.specs.Prelude.{◌≡◌, ◌+◌, ◌==◌, ◌&&◌, ◌∷◌, [], List, ℕ, Some, find, is_none, length, map, not, option_copied, IfOk, OnOk};
ghost use Rattle.std.specs.List.{list_any};
ghost use Rattle.std.specs.Map.{lookup};
ghost use Rattle.rsct_packet.specs.declared.ids.ProviderId.{ProviderId};
ghost use Rattle.rsct_packet.specs.declared.ids.ViewId.{ViewId};
ghost use Rattle.client_callbacks.specs.declared.told.Why.{Why};
ghost use Rattle.word_laws.specs.declared.kind.Kind.TheVariants as kinds;
ghost use Rattle.record_lines.specs.declared.line.Line.{Line};
ghost use Rattle.record_lines.specs.declared.line.Line.TheVariants as line;
ghost use Rattle.run_audit.specs.declared.broken.Rule.TheVariants as rule;
ghost use Rattle.run_audit.specs.declared.keys.RequestKey.{RequestKey};
ghost use Rattle.run_audit.specs.Keys.{request_key, same_request_key};
ghost use Rattle.run_audit.specs.Kept.{fault_of, or_new};
ghost use Rattle.run_audit.specs.Requests.{AreRequests, begins, fault_by, or_number};
ghost use Rattle.run_audit.specs.Table.{carried_by, is_undue, or_no, proposal_in, requests_of, undue_in};

use crate::asked::Asked;
use crate::broken::{Fault, Rule};
use crate::first_lines::FirstLines;
use crate::keys::request_key;
use proposal_core::{Entry, Proposal};
use rsct_packet::{NoMemory, ProviderId};
use std::alloc::Global;
use word_laws::Kind;

/// What an entry proposes, where it begins something.
#[tactic(auto, unfolding(crate::specs::Table::proposal_in))]
fn proposal_in(entry: &Entry) -> Option<&Proposal>
    ensures { option_copied result ≡ proposal_in entry.now }
{
    match entry {
        Entry::Once(proposal) => Some(proposal),
        Entry::Begin(proposal) => Some(proposal),
        _ => None,
    }
}

/// The first of two numbers that is there.
#[tactic(auto, unfolding(crate::specs::Table::or_no))]
pub fn or_number(first: Option<u32>, second: Option<u32>) -> Option<u32>
    ensures { result ≡ or_no first second }
{
    match first {
        None => second,
        Some(number) => Some(number),
    }
}

/// The first of two requests that is there.
fn or_request(
    first: Option<(ProviderId, u32)>,
    second: Option<(ProviderId, u32)>,
) -> Option<(ProviderId, u32)>
    ensures { result ≡ or_new first second }
{
    match first {
        None => second,
        Some(request) => Some(request),
    }
}

/// Is the provider one of another node?
fn is_other(provider: ProviderId, node: u8) -> bool
    ensures { result ≡ not (provider.node == node) }
{
    provider.node != node
}

/// May a request not begin at its own node: was it not asked, was it told, or has it begun?
fn is_barred(asked: bool, told: Option<u32>, begun: Option<u32>) -> bool
    ensures { result ≡ not (asked && (is_none told && is_none begun)) }
{
    !(asked && told.is_none() && begun.is_none())
}

/// Notes that a request begins at this node, where its provider is one of the node's own.
fn note_request(
    begun: &mut FirstLines,
    node: u8,
    provider: ProviderId,
    request: u32,
    number: u32,
) -> Result<(), NoMemory>
    ensures { OnOk result ((q : RequestKey) → lookup (same_request_key q) begun.new
        ≡ or_number (list_any (begins node q) ((provider, request) ∷ [])) number
        (lookup (same_request_key q) begun.old)) }
{
    if is_other(provider, node) {
        return Ok(());
    }
    begun.note(request_key(provider, request), number)?;
    Ok(())
}

/// Notes the joins of these.
fn note_joins(
    begun: &mut FirstLines,
    node: u8,
    providers: &[ProviderId],
    number: u32,
) -> Result<(), NoMemory>
    ensures { OnOk result ((q : RequestKey) → lookup (same_request_key q) begun.new
        ≡ or_number (list_any (begins node q)
        (map (λ (p : ProviderId). (p, p.join)) providers.now)) number
        (lookup (same_request_key q) begun.old)) }
{
    match providers {
        [] => Ok(()),
        [first, rest @ ..] => {
            note_request(begun, node, *first, first.join, number)?;
            note_joins(begun, node, rest, number)?;
            Ok(())
        }
    }
}

/// Notes the requests that a proposal carries.
#[tactic(auto, unfolding(crate::specs::Table::requests_of))]
fn note_proposal(
    begun: &mut FirstLines,
    node: u8,
    proposal: &Proposal,
    number: u32,
) -> Result<(), NoMemory>
    ensures { OnOk result ((q : RequestKey) → lookup (same_request_key q) begun.new
        ≡ or_number (list_any (begins node q) (requests_of proposal.now)) number
        (lookup (same_request_key q) begun.old)) }
{
    match proposal {
        Proposal::Join { ps, .. } => note_joins(begun, node, ps.as_slice(), number),
        Proposal::Fail { .. } => Ok(()),
        Proposal::Reflect { .. } => Ok(()),
        Proposal::Leave { provider, request }
        | Proposal::Expel {
            provider,
            request,
            ..
        }
        | Proposal::State {
            provider,
            request,
            ..
        }
        | Proposal::Message {
            provider,
            request,
            ..
        }
        | Proposal::Attributes {
            provider,
            request,
            ..
        } => note_request(begun, node, *provider, *request, number),
    }
}

/// Notes the requests that an entry carries.
fn note_entry(begun: &mut FirstLines, node: u8, entry: &Entry, number: u32) -> Result<(), NoMemory>
    ensures { OnOk result ((q : RequestKey) → lookup (same_request_key q) begun.new
        ≡ or_number (list_any (begins node q) (carried_by (proposal_in entry.now))) number
        (lookup (same_request_key q) begun.old)) }
{
    match proposal_in(entry) {
        None => Ok(()),
        Some(proposal) => note_proposal(begun, node, proposal, number),
    }
}

/// What was asked, what was told, and what has begun at the nodes of their providers.
#[derive(Drop)]
pub struct Requests {
    asked: Asked,
    told: FirstLines,
    begun: FirstLines,
}

impl Requests {
    /// Of no lines.
    pub fn new(alloc: Global) -> Requests
        ensures { AreRequests [] result }
    {
        Requests {
            asked: Asked::new(alloc),
            told: FirstLines::new(alloc),
            begun: FirstLines::new(alloc),
        }
    }

    /// May this request of a provider of the node not begin in the group?
    fn is_undue(
        &self,
        alloc: Global,
        node: u8,
        group: &[u8],
        kind: Kind,
        provider: ProviderId,
        request: u32,
    ) -> Result<bool, NoMemory>
        ensures { IfOk result (λ b. (ls : List Line) → AreRequests ls self.now
            → b ≡ is_undue node group.now kind ls (provider, request)) }
    {
        if is_other(provider, node) {
            return Ok(false);
        }
        let asked = self.asked.contains(alloc, provider, request, group, kind)?;
        let key = request_key(provider, request);
        Ok(is_barred(asked, self.told.line(key), self.begun.line(key)))
    }

    /// The request, if it may not begin.
    fn undue_request(
        &self,
        alloc: Global,
        node: u8,
        group: &[u8],
        kind: Kind,
        provider: ProviderId,
        request: u32,
    ) -> Result<Option<(ProviderId, u32)>, NoMemory>
        ensures { IfOk result (λ x. (ls : List Line) → AreRequests ls self.now
            → x ≡ find (is_undue node group.now kind ls) ((provider, request) ∷ [])) }
    {
        let undue = self.is_undue(alloc, node, group, kind, provider, request)?;
        if undue {
            Ok(Some((provider, request)))
        } else {
            Ok(None)
        }
    }

    /// The first of these joins that may not begin.
    fn undue_join(
        &self,
        alloc: Global,
        node: u8,
        group: &[u8],
        providers: &[ProviderId],
    ) -> Result<Option<(ProviderId, u32)>, NoMemory>
        ensures { IfOk result (λ x. (ls : List Line) → AreRequests ls self.now
            → x ≡ find (is_undue node group.now kinds.Join ls)
            (map (λ (p : ProviderId). (p, p.join)) providers.now)) }
    {
        match providers {
            [] => Ok(None),
            [first, rest @ ..] => {
                let here = self.undue_request(alloc, node, group, Kind::Join, *first, first.join)?;
                let later = self.undue_join(alloc, node, group, rest)?;
                Ok(or_request(here, later))
            }
        }
    }

    /// The first request of the proposal that may not begin.
    #[tactic(auto, unfolding(crate::specs::Table::undue_in, crate::specs::Table::requests_of, word_laws::specs::Entries::kind_of))]
    fn undue(
        &self,
        alloc: Global,
        node: u8,
        group: &[u8],
        proposal: &Proposal,
    ) -> Result<Option<(ProviderId, u32)>, NoMemory>
        ensures { IfOk result (λ x. (ls : List Line) → AreRequests ls self.now
            → x ≡ undue_in node group.now ls (Some proposal.now)) }
    {
        match proposal {
            Proposal::Join { ps, .. } => self.undue_join(alloc, node, group, ps.as_slice()),
            Proposal::Leave { provider, request } => {
                self.undue_request(alloc, node, group, Kind::Leave, *provider, *request)
            }
            Proposal::Fail { .. } => Ok(None),
            Proposal::Expel {
                provider,
                request,
                ..
            } => self.undue_request(alloc, node, group, Kind::Expel, *provider, *request),
            Proposal::State {
                provider,
                request,
                ..
            } => self.undue_request(alloc, node, group, Kind::State, *provider, *request),
            Proposal::Message {
                provider,
                request,
                ..
            } => self.undue_request(alloc, node, group, Kind::Message, *provider, *request),
            Proposal::Attributes {
                provider,
                request,
                ..
            } => self.undue_request(alloc, node, group, Kind::Attributes, *provider, *request),
            Proposal::Reflect { .. } => Ok(None),
        }
    }

    /// The number of the line that told the request, else of the put that began it.
    fn line(&self, provider: ProviderId, request: u32) -> Option<u32>
        ensures { result ≡ or_no
            (lookup (same_request_key (request_key provider request)) self.now.told)
            (lookup (same_request_key (request_key provider request)) self.now.begun) }
    {
        let key = request_key(provider, request);
        or_number(self.told.line(key), self.begun.line(key))
    }

    /// The fault of a request that may not begin, where there is one.
    #[tactic(auto, unfolding(crate::specs::Requests::fault_by))]
    fn fault_by(&self, undue: Option<(ProviderId, u32)>) -> Option<Fault>
        ensures { result ≡ fault_by self.now undue }
    {
        match undue {
            None => None,
            Some((provider, request)) => Some(Fault {
                rule: Rule::Once,
                with_line: self.line(provider, request),
            }),
        }
    }

    /// What the table says of the rule on requests that begin: nothing where a put of the entry keeps it.
    pub fn fault(
        &self,
        alloc: Global,
        node: u8,
        group: &[u8],
        entry: &Entry,
    ) -> Result<Option<Fault>, NoMemory>
        ensures { IfOk result (λ x. (ls : List Line) (v : ViewId) (i : ℕ)
            → AreRequests ls self.now
            → x ≡ fault_of rule.Once (line.Put node v group.now i entry.now) ls) }
    {
        match proposal_in(entry) {
            None => Ok(None),
            Some(proposal) => {
                let undue = self.undue(alloc, node, group, proposal)?;
                Ok(self.fault_by(undue))
            }
        }
    }

    /// The line of this number asks for it.
    pub fn note_asked(
        &mut self,
        alloc: Global,
        provider: ProviderId,
        request: u32,
        group: &[u8],
        kind: Kind,
        number: u32,
    ) -> Result<(), NoMemory>
        ensures { OnOk result ((ls : List Line) → AreRequests ls self.old
            → AreRequests (line.Asked provider request group.now kind ∷ ls) self.new) }
    {
        self.asked
            .note(alloc, provider, request, group, kind, number)?;
        Ok(())
    }

    /// The line of this number tells it.
    pub fn note_told(
        &mut self,
        provider: ProviderId,
        request: u32,
        number: u32,
    ) -> Result<(), NoMemory>
        ensures { OnOk result ((ls : List Line) (why : Why) → AreRequests ls self.old
            → number ≡ length ls + 1
            → AreRequests (line.Told provider request why ∷ ls) self.new) }
    {
        self.told.note(request_key(provider, request), number)?;
        Ok(())
    }

    /// In the line of this number the node puts the entry.
    pub fn note_put(&mut self, node: u8, entry: &Entry, number: u32) -> Result<(), NoMemory>
        ensures { OnOk result ((ls : List Line) (v : ViewId) (g : List ℕ) (i : ℕ)
            → AreRequests ls self.old → number ≡ length ls + 1
            → AreRequests (line.Put node v g i entry.now ∷ ls) self.new) }
    {
        note_entry(&mut self.begun, node, entry, number)?;
        Ok(())
    }
}
