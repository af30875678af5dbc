//! The joins that wait in a group.
ghost use Rattle.std.specs.Prelude.{◌≡◌, ◌++◌, [], OnOk};
ghost use Rattle.std.specs.List.{position};
ghost use Rattle.rsct_packet.specs.Lists.{drop_where};
ghost use Rattle.batch_rules.specs.Waiting.{has_instance, waits_join};
ghost use Rattle.batch_rules.specs.Next.{added_as};
ghost use Rattle.batch_rules.specs.declared.waiting.Added.TheVariants.{Queued};
ghost use Rattle.node_state.specs.State.{led_of};
ghost use Rattle.node_state.specs.Deciding.{keep_attrs};
ghost use Rattle.node_groups.specs.Places.{are_attrs_of};

use batch_rules::Waiting;
use group_attr::Attrs;
use node_groups::led_of;
use node_state::{Core, GroupRow, JoinAttrs};
use rsct_packet::{List, NoMemory, ProviderId};
use std::alloc::Global;

/// Has one that is present, or one whose join waits in the group, the node and the instance number of the provider?
#[tactic(auto, using(crate::proofs::QueueLaws::here_or_waits))]
pub(crate) fn is_duplicate(
    core: &Core,
    group: &[u8],
    provider: ProviderId,
    present: &[ProviderId],
) -> bool
    ensures { result
        ≡ has_instance (present.now ++ (led_of core.now group.now).waiting.joins) provider }
{
    match led_of(core, group) {
        None => Waiting::new().is_duplicate(provider, present),
        Some(led) => led.waiting.is_duplicate(provider, present),
    }
}

/// Where the attributes of the provider's join are kept.
fn attrs_place(kept: &[JoinAttrs], provider: ProviderId) -> Option<usize>
    ensures { result ≡ position (are_attrs_of provider) kept.now }
{
    kept.iter().position(|j| j.provider == provider)
}

/// The attributes of the provider's join are no longer kept.
#[tactic(auto, using(rsct_packet::proofs::SearchLaws::place_is_position, rsct_packet::proofs::SearchLaws::place_is_in, rsct_packet::proofs::SearchLaws::removed_where, rsct_packet::proofs::SearchLaws::removed_nowhere, std::proofs::lemmas::Grind::common_steps))]
fn forget_attrs(kept: &mut List<JoinAttrs>, provider: ProviderId)
    ensures { kept.new ≡ drop_where (are_attrs_of provider) kept.old }
{
    if let Some(i) = attrs_place(kept.as_slice(), provider) {
        kept.remove(i);
    }
}

/// The attributes of a join are kept, in place of those of the provider's last one, where it is decided in an
/// empty idle group.
#[tactic(auto, unfolding(node_state::specs::Deciding::keep_attrs))]
fn keep_attrs(
    kept: &mut List<JoinAttrs>,
    alloc: Global,
    provider: ProviderId,
    attrs: &Attrs,
    idle: bool,
) -> Result<(), NoMemory>
    ensures { OnOk result (kept.new ≡ keep_attrs kept.old provider attrs.now idle) }
{
    forget_attrs(kept, provider);
    if idle {
        let own = attrs.copy(alloc)?;
        kept.push(JoinAttrs {
            provider,
            attrs: own,
        })?;
    }
    Ok(())
}

/// A join that is no duplicate, and for which there is room, waits in the group of a row.
#[tactic(auto, using(std::proofs::lemmas::Grind::common_steps))]
pub(crate) fn queue_join(
    row: &mut GroupRow,
    alloc: Global,
    provider: ProviderId,
    attrs: &Attrs,
    idle: bool,
) -> Result<(), NoMemory>
    requires free { added_as provider [] row.old.led.waiting ≡ Queued }
    ensures { OnOk result (row.new ≡ record (row.old) {
      led = record
          (row.old.led) {
            waiting = waits_join provider row.old.led.waiting;
            join_attrs = keep_attrs
                row.old.led.join_attrs provider attrs.now idle;
          };
    }) }
{
    keep_attrs(&mut row.led.join_attrs, alloc, provider, attrs, idle)?;
    row.led.waiting.add_join(provider, &[]);
    Ok(())
}
