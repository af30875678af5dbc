//! Parts of the queue.
ghost use Rattle.std.specs.Prelude.{◌≡◌};
ghost use Rattle.std.specs.List.{list_any};
ghost use Rattle.rsct_packet.specs.Providers.{without};
ghost use Rattle.batch_rules.specs.Waiting.{has_instance, same_instance, is_failure_of, batches_joins, batches_failures, chosen_of, left_of};

use crate::waiting::MAX_WAITING;
use arrayvec::ArrayVec;
use group_attr::Batch;
use proposal_core::Failure;
use rsct_packet::ProviderId;

/// Do they have the same node and instance number?
fn are_same_instance(first: &ProviderId, second: ProviderId) -> bool
    ensures { result ≡ same_instance first.now second }
{
    first.node == second.node && first.instance == second.instance
}

/// Has one of them the node and the instance number?
pub(crate) fn is_instance_among(providers: &[ProviderId], provider: ProviderId) -> bool
    ensures { result ≡ has_instance providers.now provider }
{
    providers.iter().any(|q| are_same_instance(q, provider))
}

/// Does the provider wait as a failure?
pub(crate) fn is_failing(failures: &[Failure], provider: ProviderId) -> bool
    ensures { result ≡ list_any (is_failure_of provider) failures.now }
{
    failures.iter().any(|f| f.provider == provider)
}

/// Takes the provider out.
pub(crate) fn remove_join(joins: &mut ArrayVec<ProviderId, MAX_WAITING>, provider: ProviderId)
    ensures { joins.new.items ≡ without joins.old.items provider }
{
    joins.retain(|q| *q != provider);
}

pub(crate) fn batches_joins(batch: Batch) -> bool
    ensures { result ≡ batches_joins batch }
{
    matches!(batch, Batch::Joins | Batch::Both)
}

pub(crate) fn batches_failures(batch: Batch) -> bool
    ensures { result ≡ batches_failures batch }
{
    matches!(batch, Batch::Failures | Batch::Both)
}

/// Takes all of them, or the oldest one, if there is one.
pub(crate) fn take_next<T: Default + Drop>(
    items: &mut ArrayVec<T, MAX_WAITING>,
    all: bool,
) -> ArrayVec<T, MAX_WAITING>
    ensures taken { result.items ≡ chosen_of all items.old.items }
    ensures left { items.new.items ≡ left_of all items.old.items }
{
    if all {
        return items.take();
    }
    let mut oldest = ArrayVec::new();
    if !items.is_empty() {
        oldest.push(items.remove(0));
    }
    oldest
}
