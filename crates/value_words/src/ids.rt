//! Ids: numbers joined by dots.
ghost use Rattle.std.specs.Prelude.{◌≡◌, ◌++◌, ◌∷◌, ◌<◌, [], OnOk, IfSome, IfNone, None, Some};
ghost use Rattle.value_words.specs.Counted.{four_of};
ghost use Rattle.value_words.specs.Wording.{word, view_text, provider_text, ring_text, proto_text, member_text, joined};
ghost use Rattle.value_words.specs.Words.{split_on, provider_word};

use crate::numbers::{
    node_word, number_word, put_number, put_number_dot, put_number_word, short_word,
};
use crate::words::cut_at;
use crate::writing::put_text;
use rsct_packet::{Member, NoMemory, ProtoId, ProviderId, RingId, ViewId};

#[tactic(auto, unfolding(crate::specs::Wording::view_text))]
pub fn put_view(out: &mut Vec<u8>, view: ViewId) -> Result<(), NoMemory>
    ensures { OnOk result (out.new.items ≡ out.old.items ++ view_text view) }
{
    put_number_dot(out, view.number)?;
    put_number_dot(out, u32::from(view.coord))?;
    put_number(out, view.inc)
}

#[tactic(auto, unfolding(crate::specs::Wording::word))]
pub fn put_view_word(out: &mut Vec<u8>, view: ViewId) -> Result<(), NoMemory>
    ensures { OnOk result (out.new.items ≡ out.old.items ++ word (view_text view)) }
{
    put_view(out, view)?;
    put_text(out, b" ")
}

#[tactic(auto, unfolding(crate::specs::Wording::provider_text))]
pub fn put_provider(out: &mut Vec<u8>, provider: ProviderId) -> Result<(), NoMemory>
    ensures { OnOk result (out.new.items ≡ out.old.items ++ provider_text provider) }
{
    put_number_dot(out, u32::from(provider.node))?;
    put_number_dot(out, provider.inc)?;
    put_number_dot(out, u32::from(provider.instance))?;
    put_number(out, provider.join)
}

#[tactic(auto, unfolding(crate::specs::Wording::word))]
pub fn put_provider_word(out: &mut Vec<u8>, provider: ProviderId) -> Result<(), NoMemory>
    ensures { OnOk result (out.new.items ≡ out.old.items ++ word (provider_text provider)) }
{
    put_provider(out, provider)?;
    put_text(out, b" ")
}

#[tactic(auto, unfolding(crate::specs::Wording::ring_text, crate::specs::Wording::word))]
pub fn put_ring_word(out: &mut Vec<u8>, ring: RingId) -> Result<(), NoMemory>
    ensures { OnOk result (out.new.items ≡ out.old.items ++ word (ring_text ring)) }
{
    put_number_dot(out, u32::from(ring.leader))?;
    put_number_dot(out, ring.inc)?;
    put_number_word(out, ring.number)
}

#[tactic(auto, unfolding(crate::specs::Wording::proto_text))]
pub fn put_proto(out: &mut Vec<u8>, proto: ProtoId) -> Result<(), NoMemory>
    ensures { OnOk result (out.new.items ≡ out.old.items ++ proto_text proto) }
{
    put_view(out, proto.view)?;
    put_text(out, b"/")?;
    put_number(out, proto.place)
}

#[tactic(auto, unfolding(crate::specs::Wording::word))]
pub fn put_proto_word(out: &mut Vec<u8>, proto: ProtoId) -> Result<(), NoMemory>
    ensures { OnOk result (out.new.items ≡ out.old.items ++ word (proto_text proto)) }
{
    put_proto(out, proto)?;
    put_text(out, b" ")
}

#[tactic(auto, unfolding(crate::specs::Wording::member_text))]
pub fn put_member(out: &mut Vec<u8>, member: Member) -> Result<(), NoMemory>
    ensures { OnOk result (out.new.items ≡ out.old.items ++ member_text member) }
{
    put_number_dot(out, u32::from(member.node))?;
    put_number(out, member.inc)
}

/// What stands between three dots.
#[derive(Clone, Copy)]
pub struct Four<'a> {
    pub first: &'a [u8],
    pub second: &'a [u8],
    pub third: &'a [u8],
    pub fourth: &'a [u8],
}

/// The word in four parts, where it has three dots.
pub fn four_parts(word: &[u8]) -> Option<Four<'_>>
    ensures found { IfSome result (λ x. split_on 46 word.now
        ≡ x.first.now ∷ x.second.now ∷ x.third.now ∷ x.fourth.now ∷ []) }
    ensures missing { IfNone result (four_of (split_on 46 word.now) ≡ None) }
{
    let (first, left) = cut_at(b'.', word)?;
    let (second, left) = cut_at(b'.', left)?;
    let (third, fourth) = cut_at(b'.', left)?;
    if cut_at(b'.', fourth).is_some() {
        return None;
    }
    Some(Four {
        first,
        second,
        third,
        fourth,
    })
}

/// The provider: its node, the node's incarnation, the instance and the number of the join, joined by dots.
#[tactic(auto, unfolding(crate::specs::Words::provider_word, crate::specs::Words::provider_of, crate::specs::Answers::bind_opens), using(crate::proofs::FourLaws::not_provider))]
pub fn provider_word(word: &[u8]) -> Option<ProviderId>
    ensures { result ≡ provider_word word.now }
{
    let parts = four_parts(word)?;
    let node = node_word(parts.first)?;
    let inc = number_word(0, u32::MAX, parts.second)?;
    let instance = short_word(0, u16::MAX, parts.third)?;
    let join = number_word(0, u32::MAX, parts.fourth)?;
    Some(ProviderId {
        node,
        inc,
        instance,
        join,
    })
}
