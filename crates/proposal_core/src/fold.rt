//! What entries make of a group's state. What an entry brings is copied and room is taken before the state
//! changes, so that want of memory leaves it as it was.
ghost use Rattle.std.specs.Prelude.{◌≡◌, ◌∷◌, [], ◌<◌, length, IfOk, IfSome, OnOk, OnErr, IsTrue, take};
ghost use Rattle.rsct_packet.specs.Providers.{without_all};
ghost use Rattle.proposal_core.specs.Fold.{fallen_of, without, can_begin, runs, fits, joiners_fit, effect, first_value, begun, take_value, approve, take_rejection, reject, next_phase, apply, replace_proposed, first_attrs, take_attrs, advance, apply_once};

use crate::entry::{Closed, Entry};
use crate::group_state::{GroupState, Running};
use crate::proposal::{Failure, Proposal};
use crate::texts::copy_text;
use group_attr::Attrs;
use rsct_packet::{
    MAX_PROVIDERS, NoMemory, ProtoId, ProviderId, Providers, Text, ViewId, is_none_among,
};
use std::alloc::Global;

/// How many phases a protocol has at most.
pub const MAX_PHASES: u16 = 200;

/// Whether this protocol and phase run.
#[tactic(auto, unfolding(crate::specs::Fold::runs))]
fn is_running(proto: ProtoId, phase: u16, running: &Option<Running>) -> bool
    ensures { result ≡ runs proto phase running.now }
{
    match running {
        None => false,
        Some(run) => phase == run.phase && proto == run.proto,
    }
}

/// Takes those who failed off a list.
pub fn take_off_fallen(providers: &mut Providers, out: &[Failure])
    ensures { providers.new ≡ without_all providers.old (fallen_of out.now) }
{
    for f in out {
        providers.retain_not(&[f.provider]);
    }
}

/// The value that a protocol proposes from its beginning.
#[tactic(auto, unfolding(crate::specs::Fold::first_value))]
fn first_value(alloc: Global, proposal: &Proposal) -> Result<Option<Text>, NoMemory>
    ensures { IfOk result (λ t. t ≡ first_value proposal.now) }
{
    match proposal {
        Proposal::State { value, .. } => Ok(Some(value.copy(alloc)?)),
        _ => Ok(None),
    }
}

/// The value that an entry brings, or else the proposed one.
#[tactic(auto, unfolding(crate::specs::Fold::replace_proposed))]
fn newer(value: Option<Text>, old: Option<Text>) -> Option<Text>
    ensures { result ≡ replace_proposed value old }
{
    match value {
        None => old,
        Some(value) => Some(value),
    }
}

/// A value that an entry brings replaces the proposed one.
#[tactic(auto, unfolding(crate::specs::Fold::replace_proposed))]
fn replace_proposed(proposed: &mut Option<Text>, value: Option<Text>)
    ensures { proposed.new ≡ replace_proposed value proposed.old }
{
    if let Some(value) = value {
        *proposed = Some(value);
    }
}

impl GroupState {
    /// Can this begin where nothing runs? A join can where its providers are no members and leave at most 64.
    #[tactic(auto, unfolding(crate::specs::Fold::can_begin))]
    fn can_begin(&self, proposal: &Proposal) -> bool
        ensures { result ≡ can_begin self.now proposal.now }
    {
        match proposal {
            Proposal::Join { ps, .. } => {
                is_none_among(self.members.as_slice(), ps.as_slice())
                    && self.members.len() + ps.len() <= MAX_PROVIDERS
            }
            _ => true,
        }
    }

    /// Can this entry come next?
    #[tactic(auto, unfolding(crate::specs::Fold::fits))]
    pub fn fits(&self, entry: &Entry) -> bool
        ensures { result ≡ fits self.now entry.now }
    {
        match entry {
            Entry::Once(x) => self.running.is_none() && self.can_begin(x),
            Entry::Begin(x) => self.running.is_none() && self.can_begin(x),
            Entry::Phase(c) => {
                is_running(c.proto, c.phase, &self.running) && c.phase < MAX_PHASES
            }
            Entry::Approve(c) => is_running(c.proto, c.phase, &self.running),
            Entry::Reject(c) => is_running(c.proto, c.phase, &self.running),
            Entry::Late { proto, phase, .. } => is_running(*proto, *phase, &self.running),
        }
    }

    /// Takes these off the members and the failed.
    #[tactic(auto, unfolding(crate::specs::Fold::without))]
    fn take_off(&mut self, providers: &[ProviderId])
        ensures { self.new ≡ without self.old providers.now }
    {
        self.members.retain_not(providers);
        self.failed.retain_not(providers);
    }

    /// Takes those who failed off the members and the failed.
    #[tactic(auto, unfolding(crate::specs::Fold::without))]
    fn take_off_failures(&mut self, out: &[Failure])
        ensures { self.new ≡ without self.old (fallen_of out.now) }
    {
        take_off_fallen(&mut self.members, out);
        take_off_fallen(&mut self.failed, out);
    }

    /// What an approved protocol does.
    #[tactic(auto, unfolding(crate::specs::Fold::effect, crate::specs::Fold::can_begin))]
    fn take_effect(&mut self, alloc: Global, proposal: &Proposal) -> Result<(), NoMemory>
        requires { IsTrue (can_begin self.old proposal.now) }
        ensures ok { OnOk result (self.new ≡ effect self.old proposal.now) }
        ensures err { OnErr result (self.new ≡ self.old) }
    {
        match proposal {
            Proposal::Join { ps, .. } => self.members.extend(ps)?,
            Proposal::Leave { provider, .. } => self.take_off(&[*provider]),
            Proposal::Fail { out } => self.take_off_failures(out.as_slice()),
            Proposal::Expel { out, .. } => self.take_off(out.as_slice()),
            Proposal::State { .. } => {}
            Proposal::Message { .. } => {}
            Proposal::Attributes { attrs, .. } => self.attrs = attrs.copy(alloc)?,
            Proposal::Reflect { view, place, .. } => {
                self.reflected_at = Some(ProtoId {
                    view: *view,
                    place: *place,
                });
            }
        }
        Ok(())
    }

    /// The attributes that the first join brings.
    #[tactic(auto, unfolding(crate::specs::Fold::first_attrs))]
    fn first_attrs(&self, alloc: Global, proposal: &Proposal) -> Result<Option<Attrs>, NoMemory>
        ensures { IfOk result (λ a. a ≡ first_attrs self.now proposal.now) }
    {
        match proposal {
            Proposal::Join { attrs, .. } => {
                if self.members.len() == 0 {
                    Ok(Some(attrs.copy(alloc)?))
                } else {
                    Ok(None)
                }
            }
            _ => Ok(None),
        }
    }

    #[tactic(auto, unfolding(crate::specs::Fold::take_attrs))]
    fn take_attrs(&mut self, attrs: Option<Attrs>)
        ensures { self.new ≡ take_attrs self.old attrs }
    {
        if let Some(attrs) = attrs {
            self.attrs = attrs;
        }
    }

    /// An approved value becomes the group's.
    #[tactic(auto, unfolding(crate::specs::Fold::take_value))]
    fn take_value(&mut self, view: ViewId, place: u32, value: Option<Text>)
        ensures { self.new ≡ take_value self.old view place value }
    {
        if let Some(value) = value {
            self.value = value;
            self.value_at = Some(ProtoId { view, place });
        }
    }

    #[tactic(auto, unfolding(crate::specs::Fold::begun))]
    fn begin(
        &mut self,
        alloc: Global,
        view: ViewId,
        place: u32,
        proposal: &Proposal,
    ) -> Result<(), NoMemory>
        ensures ok { OnOk result (self.new ≡ begun self.old view place proposal.now) }
        ensures err { OnErr result (self.new ≡ self.old) }
    {
        let proposed = first_value(alloc, proposal)?;
        let own = proposal.copy(alloc)?;
        let attrs = self.first_attrs(alloc, proposal)?;
        self.take_attrs(attrs);
        self.running = Some(Running {
            proto: ProtoId { view, place },
            proposal: own,
            phase: 1,
            proposed,
        });
        Ok(())
    }

    /// Begins and approves at once.
    #[tactic(auto, unfolding(crate::specs::Fold::apply_once))]
    fn apply_once(
        &mut self,
        alloc: Global,
        view: ViewId,
        place: u32,
        proposal: &Proposal,
    ) -> Result<(), NoMemory>
        requires { IsTrue (can_begin self.old proposal.now) }
        ensures ok { OnOk result (self.new ≡ apply_once self.old view place proposal.now) }
        ensures err { OnErr result (self.new ≡ self.old) }
    {
        let value = first_value(alloc, proposal)?;
        let attrs = self.first_attrs(alloc, proposal)?;
        self.take_effect(alloc, proposal)?;
        self.take_attrs(attrs);
        self.take_value(view, place, value);
        Ok(())
    }

    #[tactic(auto, unfolding(crate::specs::Fold::next_phase))]
    fn next_phase(&mut self, alloc: Global, value: &Option<Text>) -> Result<(), NoMemory>
        requires { IfSome self.old.running (λ r. r.phase < 200) }
        ensures ok { OnOk result (self.new ≡ next_phase self.old value.now self.old.running) }
        ensures err { OnErr result (self.new ≡ self.old) }
    {
        let value = copy_text(alloc, value)?;
        if let Some(run) = &mut self.running {
            run.advance(value);
        }
        Ok(())
    }

    #[tactic(auto, unfolding(crate::specs::Fold::approve, crate::specs::Fold::joiners_fit, crate::specs::Fold::joiners_fit_at, crate::specs::Fold::can_begin))]
    fn approve(
        &mut self,
        alloc: Global,
        view: ViewId,
        place: u32,
        value: &Option<Text>,
    ) -> Result<(), NoMemory>
        requires { IsTrue (joiners_fit self.old) }
        ensures ok { OnOk result
            (self.new ≡ approve self.old view place value.now self.old.running) }
        ensures err { OnErr result (self.new ≡ self.old) }
    {
        let value = copy_text(alloc, value)?;
        let Some(run) = self.running.take() else {
            return Ok(());
        };
        if let Err(e) = self.take_effect(alloc, &run.proposal) {
            self.running = Some(run);
            return Err(e);
        }
        self.take_value(view, place, newer(value, run.into_proposed()));
        Ok(())
    }

    /// What a rejected protocol does.
    #[tactic(auto, unfolding(crate::specs::Fold::take_rejection))]
    fn take_rejection(&mut self, proposal: &Proposal)
        ensures { self.new ≡ take_rejection self.old proposal.now }
    {
        match proposal {
            Proposal::Join { ps, .. } => self.failed.retain_not(ps.as_slice()),
            Proposal::Fail { out } => {
                self.take_off_failures(out.as_slice());
            }
            Proposal::Reflect { view, place, .. } => {
                self.reflected_at = Some(ProtoId {
                    view: *view,
                    place: *place,
                });
            }
            _ => {}
        }
    }

    #[tactic(auto, unfolding(crate::specs::Fold::reject))]
    fn reject(&mut self)
        ensures { self.new ≡ reject self.old self.old.running }
    {
        if let Some(run) = self.running.take() {
            self.take_rejection(&run.proposal);
        }
    }

    #[tactic(auto, unfolding(crate::specs::Fold::apply, crate::specs::Fold::fits, crate::specs::Fold::runs), using(crate::proofs::FoldLaws::once_is_applied, std::proofs::lemmas::Grind::common_steps))]
    fn take_entry(
        &mut self,
        alloc: Global,
        view: ViewId,
        place: u32,
        entry: &Entry,
    ) -> Result<(), NoMemory>
        requires fits { IsTrue (fits self.old entry.now) }
        requires joiners { IsTrue (joiners_fit self.old) }
        ensures ok { OnOk result (self.new ≡ apply self.old view place entry.now) }
        ensures err { OnErr result (self.new ≡ self.old) }
    {
        match entry {
            Entry::Once(x) => self.apply_once(alloc, view, place, x),
            Entry::Begin(x) => self.begin(alloc, view, place, x),
            Entry::Phase(c) => self.next_phase(alloc, &c.value),
            Entry::Approve(c) => self.approve(alloc, view, place, &c.value),
            Entry::Reject(_) => {
                self.reject();
                Ok(())
            }
            Entry::Late { .. } => Ok(()),
        }
    }

    /// Takes an entry that fits. Of the state it copies nothing; it copies the text, the attributes or the
    /// proposal that the entry brings. Want of memory leaves the state as it was.
    #[tactic(auto, using(crate::proofs::FoldLaws::joiners_fit_after, std::proofs::lemmas::Grind::common_steps))]
    pub fn apply(
        &mut self,
        alloc: Global,
        view: ViewId,
        place: u32,
        entry: &Entry,
    ) -> Result<(), NoMemory>
        requires fits { IsTrue (fits self.old entry.now) }
        requires joiners { IsTrue (joiners_fit self.old) }
        ensures ok { OnOk result (self.new ≡ apply self.old view place entry.now) }
        ensures joiners { OnOk result (IsTrue (joiners_fit self.new)) }
        ensures err { OnErr result (self.new ≡ self.old) }
    {
        self.take_entry(alloc, view, place, entry)
    }
}

impl Running {
    /// The next phase opens; a value replaces the proposed one.
    #[tactic(auto, unfolding(crate::specs::Fold::advance))]
    fn advance(&mut self, value: Option<Text>)
        requires { self.old.phase < 200 }
        ensures { self.new ≡ advance value self.old }
    {
        self.phase += 1;
        replace_proposed(&mut self.proposed, value);
    }
}
