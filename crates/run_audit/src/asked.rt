//! What was asked.
ghost use Rattle.std.specs.Prelude.{◌≡◌, ◌∷◌, [], List, ℕ, is_some, IfOk, OnOk};
ghost use Rattle.std.specs.List.{list_any};
ghost use Rattle.std.specs.Map.{lookup};
ghost use Rattle.record_lines.specs.declared.line.Line.{Line};
ghost use Rattle.record_lines.specs.declared.line.Line.TheVariants as line;
ghost use Rattle.run_audit.specs.Keys.{request_key};
ghost use Rattle.run_audit.specs.Requests.{AreAsked, is_asked_key, kind_number};
ghost use Rattle.run_audit.specs.Table.{is_asked_of};

use crate::keys::{RequestKey, request_key};
use indexmap::IndexMap;
use rsct_packet::{NoMemory, ProviderId};
use std::alloc::Global;
use std::marker::Model;
use word_laws::Kind;

/// A request, the group in which it is asked, and the number of its kind.
#[derive(PartialEq, Eq, Hash, Drop)]
pub struct AskedKey {
    pub request: RequestKey,
    pub group: Vec<u8>,
    pub kind: u8,
}

/// A number for each kind.
#[tactic(auto, unfolding(crate::specs::Requests::kind_number))]
pub fn kind_number(kind: Kind) -> u8
    ensures { result ≡ kind_number kind }
{
    match kind {
        Kind::Join => 0,
        Kind::Leave => 1,
        Kind::Fail => 2,
        Kind::Expel => 3,
        Kind::State => 4,
        Kind::Message => 5,
        Kind::Attributes => 6,
        Kind::Reflect => 7,
    }
}

fn asked_key(
    alloc: Global,
    provider: ProviderId,
    request: u32,
    group: &[u8],
    kind: Kind,
) -> Result<AskedKey, NoMemory>
    ensures request { IfOk result (λ k. k.request ≡ request_key provider request) }
    ensures group { IfOk result (λ k. k.group.items ≡ group.now) }
    ensures number { IfOk result (λ k. k.kind ≡ kind_number kind) }
{
    let group = Vec::from_slice(alloc, group)?;
    Ok(AskedKey {
        request: request_key(provider, request),
        group,
        kind: kind_number(kind),
    })
}

/// The requests that were asked, with their groups and kinds, each with the number of a line.
#[derive(Drop)]
pub struct Asked {
    by_key: IndexMap<AskedKey, u32>,
}

impl Model for Asked {
    ghost use Rattle.std.specs.Prelude.{ℕ, List};
    ghost use Rattle.run_audit.specs.declared.asked.AskedKey.{AskedKey};

    ghost Value = { List (AskedKey × ℕ) };

    ghost view = { λ s. s.by_key.entries };
}

impl Asked {
    /// Of no lines.
    pub fn new(alloc: Global) -> Asked
        ensures { AreAsked [] result }
    {
        Asked {
            by_key: IndexMap::new(alloc),
        }
    }

    /// Was the request asked in the group, of this kind?
    pub fn contains(
        &self,
        alloc: Global,
        provider: ProviderId,
        request: u32,
        group: &[u8],
        kind: Kind,
    ) -> Result<bool, NoMemory>
        ensures { IfOk result (λ b. (ls : List Line) → AreAsked ls self.now
            → b ≡ list_any (is_asked_of provider request group.now kind) ls) }
    {
        let key = asked_key(alloc, provider, request, group, kind)?;
        Ok(self.by_key.contains_key(&key))
    }

    /// The line of this number asks it.
    pub fn note(
        &mut self,
        alloc: Global,
        provider: ProviderId,
        request: u32,
        group: &[u8],
        kind: Kind,
        number: u32,
    ) -> Result<(), NoMemory>
        ensures { OnOk result ((ls : List Line) → AreAsked ls self.old
            → AreAsked (line.Asked provider request group.now kind ∷ ls) self.new) }
    {
        let key = asked_key(alloc, provider, request, group, kind)?;
        self.by_key.insert(key, number)?;
        Ok(())
    }
}
