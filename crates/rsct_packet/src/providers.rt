//! Lists of providers.
ghost use Rattle.std.specs.Prelude.{◌≡◌, ◌≤◌, ◌+◌, ◌++◌, ◌∷◌, [], length, IfOk, OnOk, OnErr, ◌<◌, IsTrue, slice_get, option_copied, filter, not};
ghost use Rattle.std.specs.List.{list_any, list_all};
ghost use Rattle.rsct_packet.specs.Providers.{same_provider, among, none_among, AreProviders, without, without_all};

use crate::ids::{NoMemory, ProviderId};
use crate::listed::Listed;
use std::alloc::Global;
use std::marker::Model;

pub const MAX_PROVIDERS: usize = 64;

/// At most 64 providers that differ.
#[derive(Drop)]
pub struct Providers {
    items: Vec<ProviderId>,
}

impl Model for Providers {
    ghost use Rattle.std.specs.Prelude.{List};
    ghost use Rattle.rsct_packet.specs.declared.ids.ProviderId.{ProviderId};
    ghost use Rattle.rsct_packet.specs.Providers.{AreProviders};

    ghost Value = { List ProviderId };

    ghost view = { λ l. l.items.items };

    ghost invariant = { λ l. AreProviders l.items.items };
}

/// Is it among them?
pub fn is_among(providers: &[ProviderId], provider: ProviderId) -> bool
    ensures { result ≡ among providers.now provider }
{
    providers.iter().any(|q| *q == provider)
}

/// Is none of them among the others?
pub fn is_none_among(providers: &[ProviderId], others: &[ProviderId]) -> bool
    ensures { result ≡ none_among providers.now others.now }
{
    others.iter().all(|p| !is_among(providers, *p))
}

fn all_but(
    alloc: Global,
    providers: &[ProviderId],
    provider: ProviderId,
) -> Result<Vec<ProviderId>, NoMemory>
    ensures { IfOk result (λ v. v.items ≡ without providers.now provider) }
{
    Ok(
        providers
            .iter()
            .copied()
            .filter(|q| *q != provider)
            .collect(alloc)?,
    )
}

fn all_but_some(
    alloc: Global,
    providers: &[ProviderId],
    others: &[ProviderId],
) -> Result<Vec<ProviderId>, NoMemory>
    ensures { IfOk result (λ v. v.items ≡ without_all providers.now others.now) }
{
    Ok(
        providers
            .iter()
            .copied()
            .filter(|q| !is_among(others, *q))
            .collect(alloc)?,
    )
}

fn joined(
    alloc: Global,
    providers: &[ProviderId],
    others: &[ProviderId],
) -> Result<Vec<ProviderId>, NoMemory>
    ensures { IfOk result (λ v. v.items ≡ providers.now ++ others.now) }
{
    let mut v = Vec::from_slice(alloc, providers)?;
    v.extend_from_slice(others)?;
    Ok(v)
}

fn keep_all_but(items: &mut Vec<ProviderId>, providers: &[ProviderId])
    ensures { items.new.items ≡ without_all items.old.items providers.now }
{
    items.retain(|q| !is_among(providers, *q));
}

impl Providers {
    pub fn new(alloc: Global) -> Providers
        ensures { result ≡ [] }
    {
        Providers {
            items: Vec::new(alloc),
        }
    }

    pub fn one(alloc: Global, provider: ProviderId) -> Result<Providers, NoMemory>
        ensures { IfOk result (λ v. v ≡ provider ∷ []) }
    {
        let mut items = Vec::new(alloc);
        items.push(provider)?;
        Ok(Providers { items })
    }

    /// Those that a datagram lists.
    pub fn of_listed(alloc: Global, providers: &Listed<ProviderId>) -> Result<Providers, NoMemory>
        requires { AreProviders providers.now }
        ensures { IfOk result (λ v. v ≡ providers.now) }
    {
        let list = providers.own(alloc)?;
        Ok(Providers {
            items: list.into_items(),
        })
    }

    /// The list of these.
    pub fn of(alloc: Global, providers: &[ProviderId]) -> Result<Providers, NoMemory>
        requires { AreProviders providers.now }
        ensures { IfOk result (λ v. v ≡ providers.now) }
    {
        Ok(Providers {
            items: Vec::from_slice(alloc, providers)?,
        })
    }

    pub fn len(&self) -> usize
        ensures value { result ≡ length self.now }
        ensures few { result ≤ 64 }
    {
        self.items.len()
    }

    pub fn get(&self, place: usize) -> Option<&ProviderId>
        ensures { option_copied result ≡ slice_get self.now place }
    {
        self.items.get(place)
    }

    pub fn as_slice(&self) -> &[ProviderId]
        ensures value { result.now ≡ self.now }
        ensures providers { AreProviders self.now }
    {
        self.items.as_slice()
    }

    pub fn copy(&self, alloc: Global) -> Result<Providers, NoMemory>
        ensures { IfOk result (λ v. v ≡ self.now) }
    {
        Ok(Providers {
            items: Vec::from_slice(alloc, self.items.as_slice())?,
        })
    }

    /// All but one.
    pub fn without(&self, alloc: Global, provider: ProviderId) -> Result<Providers, NoMemory>
        ensures { IfOk result (λ v. v ≡ without self.now provider) }
    {
        Ok(Providers {
            items: all_but(alloc, self.items.as_slice(), provider)?,
        })
    }

    /// With others at the end.
    pub fn with(&self, alloc: Global, providers: &Providers) -> Result<Providers, NoMemory>
        requires room { length self.now + length providers.now ≤ 64 }
        requires apart { IsTrue (none_among self.now providers.now) }
        ensures { IfOk result (λ v. v ≡ self.now ++ providers.now) }
    {
        Ok(Providers {
            items: joined(alloc, self.items.as_slice(), providers.items.as_slice())?,
        })
    }

    /// All but some.
    pub fn without_all(
        &self,
        alloc: Global,
        providers: &[ProviderId],
    ) -> Result<Providers, NoMemory>
        ensures { IfOk result (λ v. v ≡ without_all self.now providers.now) }
    {
        Ok(Providers {
            items: all_but_some(alloc, self.items.as_slice(), providers)?,
        })
    }

    /// Takes one to the end, in place.
    pub fn push(&mut self, provider: ProviderId) -> Result<(), NoMemory>
        requires room { length self.old < 64 }
        requires apart { IsTrue (not (among self.old provider)) }
        ensures ok { OnOk result (self.new ≡ self.old ++ provider ∷ []) }
        ensures err { OnErr result (self.new ≡ self.old) }
    {
        self.items.push(provider)?;
        Ok(())
    }

    /// Takes others to the end, in place.
    pub fn extend(&mut self, providers: &Providers) -> Result<(), NoMemory>
        requires room { length self.old + length providers.now ≤ 64 }
        requires apart { IsTrue (none_among self.old providers.now) }
        ensures ok { OnOk result (self.new ≡ self.old ++ providers.now) }
        ensures err { OnErr result (self.new ≡ self.old) }
    {
        self.items.extend_from_slice(providers.items.as_slice())?;
        Ok(())
    }

    /// Takes these off, in place.
    pub fn retain_not(&mut self, providers: &[ProviderId])
        ensures { self.new ≡ without_all self.old providers.now }
    {
        keep_all_but(&mut self.items, providers);
    }
}
