//! Calls that begin and end a session.
ghost use Rattle.std.specs.Prelude.{◌≡◌, ◌≤◌, OnOk, IfOk, length, filter};
ghost use Rattle.std.specs.List.{fold};
ghost use Rattle.session_state.specs.Calls.{inited, removed_at};
ghost use Rattle.session_state.specs.State.{client_token, client_place, is_client_of};
ghost use Rattle.node_state.specs.declared.call.CallLine.TheVariants as call;
ghost use Rattle.node_state.specs.Calls.{changed, send_gone, send_all_gone, take_call};
ghost use Rattle.node_groups.specs.Keeps.{Stays};
ghost use Rattle.group_leading.specs.Working.{AtWork};
ghost use Rattle.node_calls.specs.Calling.{clients_with};

use crate::answers::refuse;
use client_callbacks::Callbacks;
use node_groups::leader_of;
use node_sending::{is_frozen, send_if_known};
use node_state::{Body, Core};
use rsct_packet::{List, NoMemory};
use session_calls::{client_token, close_session, open_session};
use session_state::Provider;
use std::alloc::Global;
use subscribe_core::ClientToken;

/// A client begins its session, with the object that is handed its notices; or it is refused.
pub fn take_init<C: Callbacks>(
    core: &mut Core,
    clients: &mut Vec<C>,
    alloc: Global,
    name: &[u8],
    client: C,
) -> Result<(), NoMemory>
    requires work { AtWork core.old clients.old.items }
    ensures work { OnOk result (AtWork core.new clients.new.items) }
    ensures rule { OnOk result (core.new ≡ changed core.old name.now
        (inited core.old.sessions name.now)) }
    ensures clients { OnOk result (clients.new.items
        ≡ clients_with client clients.old.items (inited core.old.sessions name.now)) }
    ensures records { OnOk result (length core.old.records ≤ length core.new.records) }
{
    match open_session(&mut core.sessions, clients, alloc, name, client) {
        Ok(_) => Ok(()),
        Err(fault) => refuse(core, alloc, name, fault),
    }
}

fn copy_provider(alloc: Global, provider: &Provider) -> Result<Provider, NoMemory>
    ensures { IfOk result (λ y. y ≡ provider.now) }
{
    Ok(Provider {
        provider: provider.provider,
        client: provider.client,
        group: provider.group.copy(alloc)?,
        takes_part: provider.takes_part,
        opened: provider.opened,
    })
}

/// The providers of a client, in the order of their joins.
#[tactic(auto, using(std::proofs::lemmas::List::Elements::filter_more, std::proofs::lemmas::Grind::common_steps))]
fn providers_of(
    alloc: Global,
    rows: &[Provider],
    client: ClientToken,
) -> Result<List<Provider>, NoMemory>
    ensures { IfOk result (λ l. l ≡ filter (is_client_of client) rows.now) }
{
    let mut out = List::new(alloc);
    for x in rows {
        if x.client == client {
            out.push(copy_provider(alloc, x)?)?;
        }
    }
    Ok(out)
}

/// Tells the leader of a provider's group that the provider is gone.
#[tactic(auto, unfolding(node_state::specs::Calls::send_gone), using(crate::proofs::CallLaws::gone_keeps))]
fn send_gone(core: &mut Core, alloc: Global, provider: &Provider) -> Result<(), NoMemory>
    ensures rule { OnOk result (core.new ≡ send_gone core.old provider.now) }
    ensures keeps { OnOk result (Stays core.old core.new) }
{
    let leader = leader_of(core, provider.group.bytes());
    let gone = Body::Gone {
        view: core.views.view,
        name: provider.group.copy(alloc)?,
        provider: provider.provider,
    };
    send_if_known(core, leader, gone)
}

/// Tells it of each of these.
#[tactic(auto, using(std::proofs::lemmas::List::Sums::fold_more, node_groups::proofs::KeepLaws::stays_itself, node_groups::proofs::KeepLaws::stays_then))]
fn send_each_gone(core: &mut Core, alloc: Global, ended: &[Provider]) -> Result<(), NoMemory>
    ensures rule { OnOk result (core.new ≡ fold send_gone core.old ended.now) }
    ensures keeps { OnOk result (Stays core.old core.new) }
{
    for x in ended {
        send_gone(core, alloc, x)?;
    }
    Ok(())
}

/// Tells it of each of these, where the node is not frozen.
#[tactic(auto, unfolding(node_state::specs::Calls::send_all_gone), using(node_groups::proofs::KeepLaws::stays_itself))]
fn send_all_gone(core: &mut Core, alloc: Global, ended: &[Provider]) -> Result<(), NoMemory>
    ensures rule { OnOk result (core.new ≡ send_all_gone core.old ended.now) }
    ensures keeps { OnOk result (Stays core.old core.new) }
{
    if is_frozen(core) {
        return Ok(());
    }
    send_each_gone(core, alloc, ended)
}

/// A client says goodbye: its session ends with its object, and GONE is sent for each of its providers; or it is
/// refused.
pub fn take_goodbye<C: Callbacks>(
    core: &mut Core,
    clients: &mut Vec<C>,
    alloc: Global,
    client: &[u8],
) -> Result<(), NoMemory>
    requires work { AtWork core.old clients.old.items }
    ensures work { OnOk result (AtWork core.new clients.new.items) }
    ensures rule { OnOk result (core.new ≡ take_call core.old (call.Goodbye client.now)) }
    ensures clients { OnOk result (clients.new.items
        ≡ removed_at (client_place core.old.sessions (client_token core.old.sessions client.now))
        clients.old.items) }
    ensures records { OnOk result (length core.old.records ≤ length core.new.records) }
{
    let t = client_token(&core.sessions, client);
    let ended = providers_of(alloc, core.sessions.providers.as_slice(), t)?;
    match close_session(&mut core.sessions, clients, t) {
        Ok(()) => send_all_gone(core, alloc, ended.as_slice()),
        Err(fault) => refuse(core, alloc, client, fault),
    }
}
