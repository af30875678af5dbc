//! The sources of an install as they stand in a datagram.
ghost use Rattle.std.specs.Prelude.{◌≡◌, ◌++◌, ◌∷◌, [], IfOk, IfNone, IfSome, option_copied};
ghost use Rattle.std.specs.Option.{option_map};
ghost use Rattle.std.specs.Int.{w8};
ghost use Rattle.rsct_packet.specs.Reading.{Gives, many_at, counted_at};
ghost use Rattle.rsct_packet.specs.Ids.{view_lt};
ghost use Rattle.view_state.specs.Codec.{source_at_front, is_after_view};
ghost use Rattle.view_exchange.specs.SourcesInPlace.{source_in};

use crate::in_place::{PartsRef, read_parts};
use rsct_packet::{List, Mask, NoMemory, ViewId, read_mask, read_u8, read_view};
use std::alloc::Global;
use std::marker::Model;
use view_state::{Source, Sources};

/// A source in place.
#[derive(Drop)]
pub struct SourceRef<'a> {
    pub view: ViewId,
    pub nodes: Mask,
    pub parts: PartsRef<'a>,
}

/// Sources in place.
#[derive(Drop)]
pub struct SourcesRef<'a> {
    count: usize,
    bytes: &'a [u8],
}

impl<'a> Model for SourcesRef<'a> {
    ghost use Rattle.std.specs.Prelude.{List, IsSome};
    ghost use Rattle.rsct_packet.specs.Reading.{many_at};
    ghost use Rattle.rsct_packet.specs.Listed.{items_in};
    ghost use Rattle.view_state.specs.declared.install.Source.{Source};
    ghost use Rattle.view_state.specs.Codec.{source_at_front};

    ghost Value = { List Source };

    ghost view = { λ s. items_in (many_at source_at_front s.count s.bytes.now) };

    ghost invariant = { λ s. IsSome (many_at source_at_front s.count s.bytes.now) };
}

#[tactic(auto, unfolding(view_state::specs::Codec::source_at_front))]
fn read_source(bytes: &[u8]) -> Option<(SourceRef<'_>, &[u8])>
    ensures { option_map (λ x. (source_in x.0, x.1.now)) result ≡ source_at_front bytes.now }
{
    let (view, bytes) = read_view(bytes)?;
    let (nodes, bytes) = read_mask(bytes)?;
    let (parts, bytes) = read_parts(bytes)?;
    Some((SourceRef { view, nodes, parts }, bytes))
}

/// So many sources, left where they stand.
#[tactic(auto, using(rsct_packet::proofs::ListedLaws::skip_search))]
fn read_so_many(count: usize, bytes: &[u8]) -> Option<(SourcesRef<'_>, &[u8])>
    ensures { Gives result (many_at source_at_front count bytes.now) }
{
    let mut rest = bytes;
    for _i in 0..count {
        match read_source(rest) {
            None => return None,
            Some((_source, after)) => rest = after,
        }
    }
    Some((SourcesRef { count, bytes }, rest))
}

/// A count of one byte and the sources, left where they stand.
pub fn read_sources(bytes: &[u8]) -> Option<(SourcesRef<'_>, &[u8])>
    ensures { Gives result (counted_at w8 source_at_front bytes.now) }
{
    let (n, bytes) = read_u8(bytes)?;
    read_so_many(n as usize, bytes)
}

impl<'a> SourceRef<'a> {
    fn own(&self, alloc: Global) -> Result<Source, NoMemory>
        ensures { IfOk result (λ s. s ≡ source_in self.now) }
    {
        Ok(Source {
            view: self.view,
            nodes: self.nodes,
            parts: self.parts.own(alloc)?,
        })
    }
}

impl<'a> SourcesRef<'a> {
    pub(crate) fn copy(&self) -> SourcesRef<'a>
        ensures { result ≡ self.now }
    {
        SourcesRef {
            count: self.count,
            bytes: self.bytes,
        }
    }

    pub(crate) fn take_first(&mut self) -> Option<SourceRef<'a>>
        ensures none { IfNone result ((self.old ≡ []) × (self.new ≡ [])) }
        ensures some { IfSome result (λ s. self.old ≡ source_in s ∷ self.new) }
    {
        if self.count == 0 {
            return None;
        }
        let (source, rest) = read_source(self.bytes)?;
        self.count -= 1;
        self.bytes = rest;
        Some(source)
    }

    /// Sources of their own.
    pub fn own(&self, alloc: Global) -> Result<Sources, NoMemory>
        ensures { IfOk result (λ l. l ≡ self.now) }
    {
        let mut out = List::new(alloc);
        let mut left = self.copy();
        while let Some(x) = left.take_first() {
            out.push(x.own(alloc)?)?;
        }
        Ok(out)
    }
}

/// Does the view come after the last one, if there was one?
pub(crate) fn is_after_view(last: Option<ViewId>, view: ViewId) -> bool
    ensures { result ≡ is_after_view last view }
{
    match last {
        None => true,
        Some(last) => is_earlier(last, view),
    }
}

/// Is the first view less?
pub fn is_earlier(first: ViewId, second: ViewId) -> bool
    ensures { result ≡ view_lt first second }
{
    first < second
}
