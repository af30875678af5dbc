//! What is read of what the leader of a group keeps.
ghost use Rattle.std.specs.Prelude.{◌≡◌, ◌≤◌, length, find, IfOk, option_copied};
ghost use Rattle.rsct_packet.specs.Providers.{among};
ghost use Rattle.node_state.specs.State.{led_of, decision_of};
ghost use Rattle.node_groups.specs.Places.{are_attrs_of, led_or_nothing};

use crate::places::row_of;
use crate::tables::decision_on;
use node_state::{Core, Decision, JoinAttrs, Led};
use rsct_packet::{List, NoMemory, ProviderId, is_among};
use std::alloc::Global;
use vote_phases::Tally;

/// What the node keeps of a group as its leader, where the group has a row.
#[tactic(auto, unfolding(node_state::specs::State::led_of, node_state::specs::State::row_of))]
pub fn led_of<'a>(core: &'a Core, group: &[u8]) -> Option<&'a Led>
    ensures { led_or_nothing (option_copied result) ≡ led_of core.now group.now }
{
    match row_of(&core.groups, group) {
        None => None,
        Some(row) => Some(&row.led),
    }
}

/// The tally of the phase that runs in the group.
pub fn tally_of<'a>(core: &'a Core, group: &[u8]) -> Option<&'a Tally>
    ensures { option_copied result ≡ (led_of core.now group.now).tally }
{
    match led_of(core, group) {
        None => None,
        Some(led) => led.tally.as_ref(),
    }
}

/// The last decision on a requester.
#[tactic(auto, unfolding(node_state::specs::State::decision_of))]
pub fn decision_of(core: &Core, group: &[u8], provider: ProviderId) -> Option<Decision>
    ensures { result ≡ decision_of (led_of core.now group.now) provider }
{
    match led_of(core, group) {
        None => None,
        Some(led) => decision_on(&led.decided, provider).copied(),
    }
}

/// Is the provider gone?
pub fn is_gone(core: &Core, group: &[u8], provider: ProviderId) -> bool
    ensures { result ≡ among (led_of core.now group.now).gone provider }
{
    match led_of(core, group) {
        None => false,
        Some(led) => is_among(led.gone.as_slice(), provider),
    }
}

/// Who of the group is gone.
pub fn gone_of(core: &Core, alloc: Global, group: &[u8]) -> Result<List<ProviderId>, NoMemory>
    ensures { IfOk result (λ l. l ≡ (led_of core.now group.now).gone) }
{
    match led_of(core, group) {
        None => Ok(List::new(alloc)),
        Some(led) => List::of(alloc, led.gone.as_slice()),
    }
}

/// How many joins wait.
pub fn waiting_joins(core: &Core, group: &[u8]) -> usize
    ensures value { result ≡ length (led_of core.now group.now).waiting.joins }
    ensures few { result ≤ 64 }
{
    match led_of(core, group) {
        None => 0,
        Some(led) => led.waiting.joins(),
    }
}

/// How many failures wait.
pub fn waiting_failures(core: &Core, group: &[u8]) -> usize
    ensures value { result ≡ length (led_of core.now group.now).waiting.failures }
    ensures few { result ≤ 64 }
{
    match led_of(core, group) {
        None => 0,
        Some(led) => led.waiting.failures(),
    }
}

/// The attributes that a provider's waiting join asked for, where they are kept.
pub fn join_attrs_of<'a>(
    core: &'a Core,
    group: &[u8],
    provider: ProviderId,
) -> Option<&'a JoinAttrs>
    ensures { option_copied result
        ≡ find (are_attrs_of provider) (led_of core.now group.now).join_attrs }
{
    match led_of(core, group) {
        None => None,
        Some(led) => led
            .join_attrs
            .as_slice()
            .iter()
            .find(|j| j.provider == provider),
    }
}
