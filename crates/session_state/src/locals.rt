//! The table of local providers.
ghost use Rattle.std.specs.Prelude.{◌≡◌, ◌++◌, ◌∷◌, ◌<◌, [], length, not, find, filter, take, OnOk, OnErr, IfSome, option_copied};
ghost use Rattle.std.specs.List.{position};
ghost use Rattle.rsct_packet.specs.Providers.{among};
ghost use Rattle.rsct_packet.specs.Search.{edit_where};
ghost use Rattle.session_state.specs.State.{is_provider, is_client_of};
ghost use Rattle.session_state.specs.HandOn.{taking_part, opened_after};

use crate::new_entry::{NewEntry, is_late, running_phase};
use crate::state::Provider;
use rsct_packet::{NoMemory, ProviderId, is_among};
use std::alloc::Global;
use std::marker::Model;
use subscribe_core::ClientToken;

/// The providers of a node's clients, in the order of their joins.
#[derive(Drop)]
pub struct Locals {
    rows: Vec<Provider>,
}

impl Model for Locals {
    ghost use Rattle.std.specs.Prelude.{List};
    ghost use Rattle.session_state.specs.declared.state.Provider.{Provider};

    ghost Value = { List Provider };

    ghost view = { λ l. l.rows.items };
}

fn place(rows: &[Provider], provider: ProviderId) -> Option<usize>
    ensures value { result ≡ position (is_provider provider) rows.now }
    ensures within { IfSome result (λ i. i < length rows.now) }
{
    rows.iter().position(|row| row.provider == provider)
}

/// The provider takes part.
fn let_take_part(row: &mut Provider)
    ensures { row.new ≡ taking_part row.old }
{
    row.takes_part = true;
}

/// The phase that is open for the provider after an entry.
#[tactic(auto, unfolding(crate::specs::HandOn::opened_after))]
fn note_entry(row: &mut Provider, entry: &NewEntry<'_>)
    ensures { row.new ≡ opened_after entry.now.entry.now entry.now.after.now row.old }
{
    if is_late(entry.entry) {
        return;
    }
    row.opened = if entry.asks(row.provider) {
        running_phase(&entry.after.running)
    } else {
        None
    };
}

fn keep_all_but(rows: &mut Vec<Provider>, providers: &[ProviderId])
    ensures { rows.new.items ≡ filter (λ x. not (among providers.now x.provider)) rows.old.items }
{
    rows.retain(|x| !is_among(providers, x.provider));
}

fn keep_others(rows: &mut Vec<Provider>, client: ClientToken)
    ensures { rows.new.items ≡ filter (λ x. not (is_client_of client x)) rows.old.items }
{
    rows.retain(|x| x.client != client);
}

impl Locals {
    pub fn new(alloc: Global) -> Locals
        ensures { result ≡ [] }
    {
        Locals {
            rows: Vec::new(alloc),
        }
    }

    pub fn as_slice(&self) -> &[Provider]
        ensures { result.now ≡ self.now }
    {
        self.rows.as_slice()
    }

    pub fn len(&self) -> usize
        ensures { result ≡ length self.now }
    {
        self.rows.len()
    }

    /// The provider of this id.
    pub fn get(&self, provider: ProviderId) -> Option<&Provider>
        ensures { option_copied result ≡ find (is_provider provider) self.now }
    {
        self.rows.iter().find(|x| x.provider == provider)
    }

    pub fn push(&mut self, provider: Provider) -> Result<(), NoMemory>
        ensures ok { OnOk result (self.new ≡ self.old ++ provider ∷ []) }
        ensures err { OnErr result (self.new ≡ self.old) }
    {
        self.rows.push(provider)?;
        Ok(())
    }

    /// Keeps the first `len`.
    pub fn truncate(&mut self, len: usize)
        ensures { self.new ≡ take len self.old }
    {
        self.rows.truncate(len);
    }

    /// Lets a provider take part.
    #[tactic(auto, using(rsct_packet::proofs::SearchLaws::place_is_position, rsct_packet::proofs::SearchLaws::set_is_edit, rsct_packet::proofs::SearchLaws::missing_edit, std::proofs::lemmas::Grind::common_steps))]
    pub fn take_part(&mut self, provider: ProviderId)
        ensures { self.new ≡ edit_where (is_provider provider) taking_part self.old }
    {
        if let Some(i) = place(self.rows.as_slice(), provider) {
            let_take_part(&mut self.rows[i]);
        }
    }

    /// Opens or closes the phase of a provider that was handed an entry.
    #[tactic(auto, using(rsct_packet::proofs::SearchLaws::place_is_position, rsct_packet::proofs::SearchLaws::set_is_edit, rsct_packet::proofs::SearchLaws::missing_edit, std::proofs::lemmas::Grind::common_steps))]
    pub fn note(&mut self, provider: ProviderId, entry: &NewEntry<'_>)
        ensures { self.new ≡ edit_where (is_provider provider)
            (opened_after entry.now.entry.now entry.now.after.now) self.old }
    {
        if let Some(i) = place(self.rows.as_slice(), provider) {
            note_entry(&mut self.rows[i], entry);
        }
    }

    /// Takes these off.
    pub fn retain_not(&mut self, providers: &[ProviderId])
        ensures { self.new ≡ filter (λ x. not (among providers.now x.provider)) self.old }
    {
        keep_all_but(&mut self.rows, providers);
    }

    /// Takes those of a client off.
    pub fn retain_not_of(&mut self, client: ClientToken)
        ensures { self.new ≡ filter (λ x. not (is_client_of client x)) self.old }
    {
        keep_others(&mut self.rows, client);
    }
}
