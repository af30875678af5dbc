//! Lists that stand in a datagram.
ghost use Rattle.std.specs.Prelude.{◌≡◌, ◌∷◌, [], List as Listing, ℕ, Option, length, IfNone, IfSome, IfOk, OnOk, OnErr, ◌++◌, ◌<◌, take};
ghost use Rattle.rsct_packet.specs.Fields.{IsNode, IsProvider, IsMember, providers_at, some_providers_at, IsProviders, IsSomeProviders, providers_text, provider_at, provider_text, member_at, member_text};
ghost use Rattle.rsct_packet.specs.Format.{EachFits, AreMany, AreFew, counted_text, IsFormat, IsFoundAt, IsOnlyAt};
ghost use Rattle.std.specs.Prelude.{flat_map};
ghost use Rattle.std.specs.Int.{w8};
ghost use Rattle.rsct_packet.specs.Reading.{Gives, many_at, counted_at};
ghost use Rattle.rsct_packet.specs.Providers.{among, differ, are_providers};

use crate::fronts::u8_at;
use crate::ids::{Member, NoMemory, ProviderId};
use crate::list::List;
use crate::providers::MAX_PROVIDERS;
use crate::reading::{known, read_member, read_provider};
use crate::writing::{put_member, put_provider, put_u8};
use std::alloc::Global;
use std::marker::{Model, PhantomData};

/// What lists hold: values that are read off the front of bytes, and written.
pub trait Item: Sized + Drop {
    ghost read_at: { Listing ℕ → Option (Self × Listing ℕ) };

    ghost text: { Self → Listing ℕ };

    ghost fits: { Self → Type 0 };

    ghost can_put: { Self → Type 0 };

    fn read(bytes: &[u8]) -> Option<(Self, &[u8])>
        ensures value { Gives result (read_at bytes.now) }
        ensures found { IsFoundAt text fits result bytes.now }
        ensures only { IsOnlyAt text fits result bytes.now };

    fn put(&self, out: &mut Vec<u8>) -> Result<(), NoMemory>
        requires { can_put self.now }
        ensures ok { OnOk result (out.new.items ≡ out.old.items ++ text self.now) }
        ensures err { OnErr result (out.new.items ≡ out.old.items) };

    /// What is read is spelled so, and what is spelled so is read: a law, which does nothing.
    fn format_law()
        ensures { IsFormat read_at text fits };
}

impl Item for ProviderId {
    ghost read_at = { provider_at };

    ghost text = { provider_text };

    ghost fits = { IsProvider };

    ghost can_put = { λ x. IsNode x.node };

    fn read(bytes: &[u8]) -> Option<(ProviderId, &[u8])> {
        read_provider(bytes)
    }

    fn put(&self, out: &mut Vec<u8>) -> Result<(), NoMemory> {
        put_provider(out, *self)
    }

    #[tactic(auto, using(crate::proofs::FieldLaws::provider_format))]
    fn format_law() {}
}

impl Item for Member {
    ghost read_at = { member_at };

    ghost text = { member_text };

    ghost fits = { IsMember };

    ghost can_put = { λ x. IsNode x.node };

    fn read(bytes: &[u8]) -> Option<(Member, &[u8])> {
        read_member(bytes)
    }

    fn put(&self, out: &mut Vec<u8>) -> Result<(), NoMemory> {
        put_member(out, *self)
    }

    #[tactic(auto, using(crate::proofs::FieldLaws::member_format))]
    fn format_law() {}
}

/// A list in place: the datagram's part that spells its items.
#[derive(Drop)]
pub struct Listed<'a, T: Item> {
    count: usize,
    bytes: &'a [u8],
    kind: PhantomData<T>,
}

impl<'a, T: Item> Model for Listed<'a, T> {
    ghost use Rattle.std.specs.Prelude.{List, IsSome};
    ghost use Rattle.rsct_packet.specs.Reading.{many_at};
    ghost use Rattle.rsct_packet.specs.Listed.{items_in};

    ghost Value = { List T };

    ghost view = { λ s. items_in (many_at T.read_at s.count s.bytes.now) };

    ghost invariant = { λ s. IsSome (many_at T.read_at s.count s.bytes.now) };
}

#[tactic(auto, using(crate::proofs::ListedLaws::skip_search))]
fn many_at<'a, T: Item>(count: usize, bytes: &'a [u8]) -> Option<(Listed<'a, T>, &'a [u8])>
    ensures { Gives result (many_at T.read_at count bytes.now) }
{
    let mut rest = bytes;
    for _i in 0..count {
        match T::read(rest) {
            None => return None,
            Some((_item, after)) => rest = after,
        }
    }
    Some((
        Listed {
            count,
            bytes,
            kind: PhantomData,
        },
        rest,
    ))
}

/// So many items, left where they stand.
#[tactic(auto, using(crate::proofs::FormatLaws::format_reads, crate::proofs::FormatLaws::many_format))]
pub fn read_listed<'a, T: Item>(count: usize, bytes: &'a [u8]) -> Option<(Listed<'a, T>, &'a [u8])>
    ensures value { Gives result (many_at T.read_at count bytes.now) }
    ensures found { IsFoundAt (flat_map T.text) (AreMany count T.fits) result bytes.now }
    ensures only { IsOnlyAt (flat_map T.text) (AreMany count T.fits) result bytes.now }
{
    T::format_law();
    many_at(count, known(bytes))
}

impl<'a, T: Item> Listed<'a, T> {
    pub fn len(&self) -> usize
        ensures { result ≡ length self.now }
    {
        self.count
    }

    /// The same list.
    pub fn copy(&self) -> Listed<'a, T>
        ensures { result ≡ self.now }
    {
        Listed {
            count: self.count,
            bytes: self.bytes,
            kind: PhantomData,
        }
    }

    /// Takes the first one off.
    pub fn take_first(&mut self) -> Option<T>
        ensures none { IfNone result ((self.old ≡ []) × (self.new ≡ [])) }
        ensures some { IfSome result (λ x. self.old ≡ x ∷ self.new) }
    {
        if self.count == 0 {
            return None;
        }
        let (item, rest) = T::read(self.bytes)?;
        self.count -= 1;
        self.bytes = rest;
        Some(item)
    }

    /// A list of its own with the same items.
    pub fn own(&self, alloc: Global) -> Result<List<T>, NoMemory>
        ensures { IfOk result (λ l. l ≡ self.now) }
    {
        let mut out = List::new(alloc);
        let mut left = self.copy();
        while let Some(x) = left.take_first() {
            out.push(x)?;
        }
        Ok(out)
    }
}

/// All of them, one after another. Where memory has run out, what was there before still stands in front.
fn put_each<T: Item>(out: &mut Vec<u8>, items: &[T]) -> Result<(), NoMemory>
    requires { EachFits T.can_put items.now }
    ensures ok { OnOk result (out.new.items ≡ out.old.items ++ flat_map T.text items.now) }
    ensures err { OnErr result (take (length out.old.items) out.new.items ≡ out.old.items) }
{
    for x in items {
        x.put(out)?;
    }
    Ok(())
}

fn counted_at<'a, T: Item>(bytes: &'a [u8]) -> Option<(Listed<'a, T>, &'a [u8])>
    ensures { Gives result (counted_at w8 T.read_at bytes.now) }
{
    let (n, bytes) = u8_at(bytes)?;
    many_at(n as usize, bytes)
}

/// A count of one byte and so many items, left where they stand.
#[tactic(auto, using(crate::proofs::FormatLaws::format_reads, crate::proofs::FormatLaws::few_format))]
pub fn read_list<'a, T: Item>(bytes: &'a [u8]) -> Option<(Listed<'a, T>, &'a [u8])>
    ensures value { Gives result (counted_at w8 T.read_at bytes.now) }
    ensures found { IsFoundAt (counted_text w8 T.text) (AreFew T.fits) result bytes.now }
    ensures only { IsOnlyAt (counted_text w8 T.text) (AreFew T.fits) result bytes.now }
{
    T::format_law();
    counted_at(known(bytes))
}

/// A count of one byte and the items.
pub fn put_list<T: Item>(out: &mut Vec<u8>, items: &[T]) -> Result<(), NoMemory>
    requires few { length items.now < 256 }
    requires each { EachFits T.can_put items.now }
    ensures ok { OnOk result (out.new.items ≡ out.old.items ++ counted_text w8 T.text items.now) }
    ensures err { OnErr result (out.new.items ≡ out.old.items) }
{
    let before = out.len();
    put_u8(out, items.len() as u8)?;
    if put_each(out, items).is_err() {
        out.truncate(before);
        return Err(NoMemory);
    }
    Ok(())
}

/// Does each differ from those after it?
fn are_apart(providers: &Listed<ProviderId>) -> bool
    ensures { result ≡ differ providers.now }
{
    let mut left = providers.copy();
    while let Some(p) = left.take_first() {
        if is_listed(&left, p) {
            return false;
        }
    }
    true
}

/// Is it one of them?
pub fn is_listed(providers: &Listed<ProviderId>, provider: ProviderId) -> bool
    ensures { result ≡ among providers.now provider }
{
    let mut left = providers.copy();
    while let Some(q) = left.take_first() {
        if q == provider {
            return true;
        }
    }
    false
}

fn are_providers(providers: &Listed<ProviderId>) -> bool
    ensures { result ≡ are_providers providers.now }
{
    providers.len() <= MAX_PROVIDERS && are_apart(providers)
}

#[tactic(auto, unfolding(crate::specs::Fields::providers_at))]
fn providers_alone(bytes: &[u8]) -> Option<(Listed<ProviderId>, &[u8])>
    ensures { Gives result (providers_at bytes.now) }
{
    let (ps, bytes) = counted_at::<ProviderId>(bytes)?;
    if !are_providers(&ps) {
        return None;
    }
    Some((ps, bytes))
}

/// At most 64 providers that differ, left where they stand.
#[tactic(auto, using(crate::proofs::FormatLaws::format_reads, crate::proofs::FieldLaws::providers_format))]
pub fn read_providers(bytes: &[u8]) -> Option<(Listed<ProviderId>, &[u8])>
    ensures value { Gives result (providers_at bytes.now) }
    ensures found { IsFoundAt providers_text IsProviders result bytes.now }
    ensures only { IsOnlyAt providers_text IsProviders result bytes.now }
{
    providers_alone(known(bytes))
}

#[tactic(auto, unfolding(crate::specs::Fields::some_providers_at))]
fn some_providers_alone(bytes: &[u8]) -> Option<(Listed<ProviderId>, &[u8])>
    ensures { Gives result (some_providers_at bytes.now) }
{
    let (ps, bytes) = providers_alone(bytes)?;
    if ps.len() < 1 {
        return None;
    }
    Some((ps, bytes))
}

/// 1 to 64 providers that differ, left where they stand.
#[tactic(auto, using(crate::proofs::FormatLaws::format_reads, crate::proofs::FieldLaws::some_providers_format))]
pub fn read_some_providers(bytes: &[u8]) -> Option<(Listed<ProviderId>, &[u8])>
    ensures value { Gives result (some_providers_at bytes.now) }
    ensures found { IsFoundAt providers_text IsSomeProviders result bytes.now }
    ensures only { IsOnlyAt providers_text IsSomeProviders result bytes.now }
{
    some_providers_alone(known(bytes))
}

/// A count of one byte and the providers.
#[tactic(auto, unfolding(crate::specs::Fields::providers_text))]
pub fn put_providers(out: &mut Vec<u8>, providers: &[ProviderId]) -> Result<(), NoMemory>
    requires few { length providers.now < 256 }
    requires each { EachFits (λ p. IsNode p.node) providers.now }
    ensures ok { OnOk result (out.new.items ≡ out.old.items ++ providers_text providers.now) }
    ensures err { OnErr result (out.new.items ≡ out.old.items) }
{
    put_list(out, providers)
}
