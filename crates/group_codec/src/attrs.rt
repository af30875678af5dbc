//! How attributes are spelled: phases (1, 2), batch (0 to 3), default vote (1 approve, 3 reject), limit,
//! source phases, source limit, the byte 0 for a merge that dissolves, and the source's name or the byte 0.
ghost use Rattle.std.specs.Prelude.{◌≡◌, ◌++◌, IfOk, OnOk, OnErr, option_copied};
ghost use Rattle.std.specs.Option.{option_map};
ghost use Rattle.rsct_packet.specs.Reading.{Gives};
ghost use Rattle.rsct_packet.specs.Format.{IsFoundAt, IsOnlyAt, OptionFits};
ghost use Rattle.rsct_packet.specs.Text.{IsName};
ghost use Rattle.group_attr.specs.Agree.{batch_number};
ghost use Rattle.group_attr.specs.Codec.{phases_number, default_number, source_text, phases_at, batch_at, default_at, dissolve_at, source_at, attrs_at, attrs_text, IsAttrs};
ghost use Rattle.group_codec.specs.InPlace.{attrs_in, attrs_of};

use group_attr::{Attrs, Batch, DefaultVote, Phases};
use rsct_packet::{Name, NoMemory, is_name, known, put_name, put_u8, read_part, read_u8, read_u16};
use std::alloc::Global;

/// Attributes as they stand in a datagram.
#[derive(Clone, Copy)]
pub struct AttrsRef<'a> {
    pub phases: Phases,
    pub batch: Batch,
    pub default_vote: DefaultVote,
    pub limit: u16,
    pub source: Option<&'a [u8]>,
    pub source_phases: Phases,
    pub source_limit: u16,
}

/// One byte: 1 for one phase, 2 for several; `None` where the front is neither.
#[tactic(auto, unfolding(group_attr::specs::Codec::phases_at))]
pub fn read_phases(bytes: &[u8]) -> Option<(Phases, &[u8])>
    ensures { Gives result (phases_at bytes.now) }
{
    let (n, bytes) = read_u8(bytes)?;
    match n {
        1 => Some((Phases::One, bytes)),
        2 => Some((Phases::Many, bytes)),
        _ => None,
    }
}

#[tactic(auto, unfolding(group_attr::specs::Codec::batch_at))]
fn read_batch(bytes: &[u8]) -> Option<(Batch, &[u8])>
    ensures { Gives result (batch_at bytes.now) }
{
    let (n, bytes) = read_u8(bytes)?;
    match n {
        0 => Some((Batch::Neither, bytes)),
        1 => Some((Batch::Joins, bytes)),
        2 => Some((Batch::Failures, bytes)),
        3 => Some((Batch::Both, bytes)),
        _ => None,
    }
}

#[tactic(auto, unfolding(group_attr::specs::Codec::default_at))]
fn read_default(bytes: &[u8]) -> Option<(DefaultVote, &[u8])>
    ensures { Gives result (default_at bytes.now) }
{
    let (n, bytes) = read_u8(bytes)?;
    match n {
        1 => Some((DefaultVote::Approve, bytes)),
        3 => Some((DefaultVote::Reject, bytes)),
        _ => None,
    }
}

/// The byte for a merge that dissolves.
#[tactic(auto, unfolding(group_attr::specs::Codec::dissolve_at))]
fn read_dissolve(bytes: &[u8]) -> Option<((), &[u8])>
    ensures { Gives result (dissolve_at bytes.now) }
{
    let (n, bytes) = read_u8(bytes)?;
    if n != 0 {
        return None;
    }
    Some(((), bytes))
}

/// The byte 0 for no source, or its name.
#[tactic(auto, unfolding(group_attr::specs::Codec::source_at))]
fn read_source(bytes: &[u8]) -> Option<(Option<&[u8]>, &[u8])>
    ensures { option_map (λ x. (option_copied x.0, x.1.now)) result ≡ source_at bytes.now }
{
    let (n, bytes) = read_u8(bytes)?;
    if n == 0 {
        return Some((None, bytes));
    }
    let (name, bytes) = read_part(n as usize, bytes)?;
    if !is_name(name) {
        return None;
    }
    Some((Some(name), bytes))
}

#[tactic(auto, unfolding(group_attr::specs::Codec::attrs_at))]
fn attrs_front(bytes: &[u8]) -> Option<(AttrsRef<'_>, &[u8])>
    ensures { option_map (λ x. (attrs_in x.0, x.1.now)) result ≡ attrs_at bytes.now }
{
    let (phases, bytes) = read_phases(bytes)?;
    let (batch, bytes) = read_batch(bytes)?;
    let (default_vote, bytes) = read_default(bytes)?;
    let (limit, bytes) = read_u16(bytes)?;
    let (source_phases, bytes) = read_phases(bytes)?;
    let (source_limit, bytes) = read_u16(bytes)?;
    let ((), bytes) = read_dissolve(bytes)?;
    let (source, bytes) = read_source(bytes)?;
    let attrs = AttrsRef {
        phases,
        batch,
        default_vote,
        limit,
        source,
        source_phases,
        source_limit,
    };
    Some((attrs, bytes))
}

/// Attributes off the front of bytes, with the bytes after them. None exactly where the front is no spelling of
/// attributes.
#[tactic(auto, using(rsct_packet::proofs::FormatLaws::format_reads, crate::proofs::AttrFormat::attrs_gives, crate::proofs::AttrFormat::attrs_format))]
pub fn read_attrs(bytes: &[u8]) -> Option<(AttrsRef<'_>, &[u8])>
    ensures value { option_map (λ x. (attrs_in x.0, x.1.now)) result ≡ attrs_at bytes.now }
    ensures found { IsFoundAt attrs_text IsAttrs (attrs_of result) bytes.now }
    ensures only { IsOnlyAt attrs_text IsAttrs (attrs_of result) bytes.now }
{
    attrs_front(known(bytes))
}

/// The byte of a number of phases: 1 for one, 2 for several.
pub fn phases_number(phases: Phases) -> u8
    ensures { result ≡ phases_number phases }
{
    match phases {
        Phases::One => 1,
        Phases::Many => 2,
    }
}

fn batch_number(batch: Batch) -> u8
    ensures { result ≡ batch_number batch }
{
    match batch {
        Batch::Neither => 0,
        Batch::Joins => 1,
        Batch::Failures => 2,
        Batch::Both => 3,
    }
}

fn default_number(vote: DefaultVote) -> u8
    ensures { result ≡ default_number vote }
{
    match vote {
        DefaultVote::Approve => 1,
        DefaultVote::Reject => 3,
    }
}

#[tactic(auto, unfolding(group_attr::specs::Codec::source_text, rsct_packet::specs::Fields::name_text))]
fn put_source(out: &mut Vec<u8>, source: &Option<Name>) -> Result<(), NoMemory>
    ensures ok { OnOk result (out.new.items ≡ out.old.items ++ source_text source.now) }
    ensures err { OnErr result (out.new.items ≡ out.old.items) }
{
    match source {
        None => put_u8(out, 0),
        Some(name) => put_name(out, name.bytes()),
    }
}

/// Takes the spelling of attributes to the end of `out`, and leaves `out` as before where memory has run out.
#[tactic(auto, unfolding(group_attr::specs::Codec::attrs_text, rsct_packet::specs::Fields::u16_text))]
pub fn put_attrs(out: &mut Vec<u8>, attrs: &Attrs) -> Result<(), NoMemory>
    ensures ok { OnOk result (out.new.items ≡ out.old.items ++ attrs_text attrs.now) }
    ensures err { OnErr result (out.new.items ≡ out.old.items) }
{
    let before = out.len();
    let [a, b] = attrs.limit.to_be_bytes();
    let [c, d] = attrs.source_limit.to_be_bytes();
    out.extend_from_slice(&[
        phases_number(attrs.phases),
        batch_number(attrs.batch),
        default_number(attrs.default_vote),
        a,
        b,
        phases_number(attrs.source_phases),
        c,
        d,
        0,
    ])?;
    if let Err(e) = put_source(out, &attrs.source) {
        out.truncate(before);
        return Err(e);
    }
    Ok(())
}

impl<'a> AttrsRef<'a> {
    /// Attributes of their own. The source must be a group name, as it is in all that was read.
    pub fn own(&self, alloc: Global) -> Result<Attrs, NoMemory>
        requires { OptionFits IsName (option_copied self.now.source) }
        ensures { IfOk result (λ a. a ≡ attrs_in self.now) }
    {
        let source = match self.source {
            None => None,
            Some(name) => Name::of(alloc, name)?,
        };
        Ok(Attrs {
            phases: self.phases,
            batch: self.batch,
            default_vote: self.default_vote,
            limit: self.limit,
            source,
            source_phases: self.source_phases,
            source_limit: self.source_limit,
        })
    }
}
