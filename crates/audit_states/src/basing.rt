//! The rule on bases.
ghost use Rattle.std.specs.Prelude.{◌≡◌, ◌&&◌, List, nat_le, option_copied, IfOk};
ghost use Rattle.std.specs.Option.{option_map};
ghost use Rattle.std.specs.Str.{bytes_eq};
ghost use Rattle.rsct_packet.specs.Providers.{same_provider};
ghost use Rattle.proposal_core.specs.Fold.{present};
ghost use Rattle.word_laws.specs.Values.{spaced};
ghost use Rattle.record_lines.specs.declared.line.Line.{Line};
ghost use Rattle.record_lines.specs.declared.line.Line.TheVariants as line;
ghost use Rattle.record_lines.specs.Writing.{base_words};
ghost use Rattle.run_audit.specs.declared.broken.Rule.TheVariants as rule;
ghost use Rattle.audit_states.specs.Basing.{fallen_by, is_base_there, is_entered_by, lives_by, shows_by};
ghost use Rattle.run_audit.specs.Kept.{Keep, fault_of};
ghost use Rattle.run_audit.specs.Past.{listed};
ghost use Rattle.audit_states.specs.Comings.{AreComings};
ghost use Rattle.audit_states.specs.States.{AllFit, AreListStates};
ghost use Rattle.run_audit.specs.Based.{AreBased};
ghost use Rattle.run_audit.specs.Views.{AreStays, AreViews};
ghost use Rattle.run_audit.specs.Table.{all_same, base_holds};

use crate::comings::Comings;
use crate::list_bases::ListBase;
use crate::list_states::ListStates;
use record_lines::BaseLine;
use rsct_packet::{List, Member, NoMemory, ProviderId, ViewId};
use run_audit::{Based, Fault, Rule, State, Stays, Views, is_at, is_member, is_same_provider};
use std::alloc::Global;
use value_words::is_word;

/// Are these the same providers, in one order?
#[tactic(auto, unfolding(run_audit::specs::Table::all_same))]
fn are_same(providers: &[ProviderId], others: &[ProviderId]) -> bool
    ensures { result ≡ all_same same_provider providers.now others.now }
{
    match providers {
        [] => match others {
            [] => true,
            [_, ..] => false,
        },
        [first, left @ ..] => match others {
            [] => false,
            [second, right @ ..] => is_same_provider(*first, *second) && are_same(left, right),
        },
    }
}

/// Where a node comes from into a view, and who lives there.
#[derive(Clone, Copy)]
struct Coming<'a> {
    comings: &'a Comings,
    members: &'a [Member],
    view: ViewId,
    old: ViewId,
}

impl Coming<'_> {
    /// Does the provider live in the view: is its node a member in its incarnation, and came from the old one?
    #[tactic(auto, unfolding(crate::specs::Basing::lives_by))]
    fn lives(&self, provider: ProviderId) -> bool
        ensures { result ≡ lives_by self.now.comings.now self.now.members.now self.now.view
            self.now.old provider }
    {
        is_member(self.members, provider.node, provider.inc)
            && is_at(
                self.old,
                self.comings.from(provider.node, provider.inc, self.view),
            )
    }

    /// Did some member come from the old view?
    #[tactic(auto, unfolding(crate::specs::Basing::is_entered_by))]
    fn is_entered(&self) -> bool
        ensures { result ≡ is_entered_by self.now.comings.now self.now.members.now self.now.view
            self.now.old }
    {
        self.members.iter().any(|m| is_at(self.old, self.comings.from(m.node, m.inc, self.view)))
    }

    /// Those of these who do not live in the view.
    #[tactic(auto, unfolding(crate::specs::Basing::fallen_by))]
    fn fallen(&self, alloc: Global, providers: &[ProviderId]) -> Result<Vec<ProviderId>, NoMemory>
        ensures { IfOk result (λ ps. ps.items ≡ fallen_by self.now.comings.now
            self.now.members.now self.now.view self.now.old providers.now) }
    {
        Ok(
            providers
                .iter()
                .copied()
                .filter(|p| !self.lives(*p))
                .collect(alloc)?,
        )
    }

    /// Those of the state's members and joiners who do not live in the view.
    fn fallen_of(&self, alloc: Global, state: &State) -> Result<Vec<ProviderId>, NoMemory>
        ensures { IfOk result (λ ps. ps.items ≡ fallen_by self.now.comings.now
            self.now.members.now self.now.view self.now.old (present state.now)) }
    {
        let mut fallen = self.fallen(alloc, state.members())?;
        let joiners = self.fallen(alloc, state.joiners())?;
        fallen.extend_from_slice(joiners.as_slice())?;
        Ok(fallen)
    }
}

/// Has the base the state's members?
fn has_members(base: &BaseLine, state: &State) -> bool
    ensures { result ≡ all_same same_provider base.now.members state.now.members }
{
    are_same(base.members.as_slice(), state.members())
}

/// Has the base the state's value?
fn has_value(base: &BaseLine, state: &State) -> bool
    ensures { result ≡ bytes_eq base.now.value state.now.value }
{
    is_word(base.value.bytes(), state.value())
}

/// Are these the failed of the base?
fn has_failed(base: &BaseLine, failed: &[ProviderId]) -> bool
    ensures { result ≡ all_same same_provider base.now.failed failed.now }
{
    are_same(base.failed.as_slice(), failed)
}

/// Do all of these hold?
fn are_shown(members: bool, value: bool, running: bool, failed: bool) -> bool
    ensures { result ≡ (members && (value && (running && failed))) }
{
    members && value && running && failed
}

/// Is what the base shows this state?
fn shows(
    alloc: Global,
    coming: &Coming<'_>,
    base: &BaseLine,
    state: &State,
) -> Result<bool, NoMemory>
    ensures { IfOk result (λ b. coming.now.old ≡ base.now.old
        → b ≡ shows_by coming.now.comings.now coming.now.members.now coming.now.view base.now
        state.now) }
{
    let fallen = coming.fallen_of(alloc, state)?;
    let members = has_members(base, state);
    let value = has_value(base, state);
    let running = state.is_open(base.running);
    let failed = has_failed(base, fallen.as_slice());
    Ok(are_shown(members, value, running, failed))
}

/// Are these the words of the list's base, where it has one?
#[tactic(auto, unfolding(crate::specs::Basing::is_base_there))]
fn is_base_there(text: &[u8], base: Option<&ListBase>) -> bool
    ensures { result ≡ is_base_there text.now (option_copied base.entry) }
{
    match base {
        None => true,
        Some(base) => is_word(text, base.text.as_slice()),
    }
}

/// Has the list as many entries?
fn reaches(len: u32, entries: usize) -> bool
    ensures { result ≡ nat_le len entries }
{
    len as usize <= entries
}

/// Do all of these hold?
fn are_all(at: bool, entered: bool, reached: bool, shown: bool, like_first: bool) -> bool
    ensures { result ≡ (at && (entered && (reached && (shown && like_first)))) }
{
    at && entered && reached && shown && like_first
}

/// The members of a view, or none.
#[tactic(auto, unfolding(run_audit::specs::Past::listed))]
fn listed(members: Option<&[Member]>) -> &[Member]
    ensures { result.now ≡ listed (option_map (λ x. x.now) members.entry) }
{
    match members {
        None => &[],
        Some(members) => members,
    }
}

/// What tells whether a base line keeps the rule on bases: where nodes come from, the states of lists, the members of views,
/// where nodes are, and the first base lines.
#[derive(Clone, Copy)]
pub struct Basing<'a> {
    pub comings: &'a Comings,
    pub states: &'a ListStates,
    pub views: &'a Views,
    pub stays: &'a Stays,
    pub based: &'a Based,
}

impl Basing<'_> {
    /// Does the base line of these words keep the rule on bases?
    fn keeps(
        &self,
        alloc: Global,
        node: u8,
        view: ViewId,
        group: &[u8],
        base: &BaseLine,
        text: &[u8],
    ) -> Result<bool, NoMemory>
        ensures { IfOk result (λ b. (ls : List Line) → AreComings ls self.now.comings.now
            → AreListStates ls self.now.states.now → AreViews ls self.now.views.now
            → AreStays ls self.now.stays.now → AllFit ls → Keep rule.Life ls
            → Keep rule.In ls → text.now ≡ spaced (base_words base.now)
            → b ≡ base_holds node view group.now base.now ls) }
    {
        let coming = Coming {
            comings: self.comings,
            members: listed(self.views.members(view)),
            view,
            old: base.old,
        };
        let entries = self.states.entries(alloc, base.old, group)?;
        let cut = self.states.cut(alloc, group, base)?;
        let shown = shows(alloc, &coming, base, &cut)?;
        let first = self.states.first_base(alloc, view, group)?;
        let at = is_at(view, self.stays.view(node));
        let entered = coming.is_entered();
        let reached = reaches(base.len, entries.len());
        let like_first = is_base_there(text, first);
        Ok(are_all(at, entered, reached, shown, like_first))
    }

    /// What the table says of the rule on bases: nothing where the base line of these words keeps it.
    pub fn fault(
        &self,
        alloc: Global,
        node: u8,
        view: ViewId,
        group: &[u8],
        base: &BaseLine,
        text: &[u8],
    ) -> Result<Option<Fault>, NoMemory>
        ensures { IfOk result (λ x. (ls : List Line) → AreComings ls self.now.comings.now
            → AreListStates ls self.now.states.now → AreViews ls self.now.views.now
            → AreStays ls self.now.stays.now → AreBased ls self.now.based.now → AllFit ls
            → Keep rule.Life ls → Keep rule.In ls → text.now ≡ spaced (base_words base.now)
            → x ≡ fault_of rule.Base (line.Base node view group.now base.now) ls) }
    {
        let with_line = self.based.first_line(alloc, view, group)?;
        let kept = self.keeps(alloc, node, view, group, base, text)?;
        if kept {
            Ok(None)
        } else {
            Ok(Some(Fault {
                rule: Rule::Base,
                with_line,
            }))
        }
    }
}
