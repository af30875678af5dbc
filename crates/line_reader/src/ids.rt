//! Ids and numbers, read from their words.
ghost use Rattle.std.specs.Prelude.{◌≡◌, ◌∷◌, [], IfSome, IfNone, None};
ghost use Rattle.value_words.specs.Counted.{two_of, three_of};
ghost use Rattle.value_words.specs.Words.{split_on};
ghost use Rattle.word_laws.specs.Values.{u32_word, u16_word, view_word, ring_word, proto_word, member_word};

use rsct_packet::{Member, ProtoId, RingId, ViewId};
use value_words::{cut_at, node_word, number_word, short_word};

/// A number of 32 bits.
#[tactic(auto, unfolding(word_laws::specs::Values::u32_word))]
pub fn u32_word(word: &[u8]) -> Option<u32>
    ensures { result ≡ u32_word word.now }
{
    number_word(0, u32::MAX, word)
}

/// A number of 16 bits.
#[tactic(auto, unfolding(word_laws::specs::Values::u16_word))]
pub fn u16_word(word: &[u8]) -> Option<u16>
    ensures { result ≡ u16_word word.now }
{
    short_word(0, u16::MAX, word)
}

/// What stands on both sides of a mark, where it stands there once.
#[tactic(auto, using(crate::proofs::PartLaws::one_is_not_two, crate::proofs::PartLaws::more_than_two, crate::proofs::PartLaws::just_two))]
pub fn two_parts(mark: u8, word: &[u8]) -> Option<(&[u8], &[u8])>
    ensures found { IfSome result (λ x. split_on mark word.now ≡ x.0.now ∷ x.1.now ∷ []) }
    ensures missing { IfNone result (two_of (split_on mark word.now) ≡ None) }
{
    match cut_at(mark, word) {
        None => None,
        Some((first, second)) => match cut_at(mark, second) {
            None => Some((first, second)),
            Some(_) => None,
        },
    }
}

/// What stands between two dots.
#[derive(Clone, Copy)]
pub struct Three<'a> {
    pub first: &'a [u8],
    pub second: &'a [u8],
    pub third: &'a [u8],
}

/// The word in three parts, where it has two dots.
#[tactic(auto, using(crate::proofs::PartLaws::one_is_not_three, crate::proofs::PartLaws::two_are_not_three, crate::proofs::PartLaws::just_three))]
fn three_parts(word: &[u8]) -> Option<Three<'_>>
    ensures found { IfSome result (λ x. split_on 46 word.now
        ≡ x.first.now ∷ x.second.now ∷ x.third.now ∷ []) }
    ensures missing { IfNone result (three_of (split_on 46 word.now) ≡ None) }
{
    match cut_at(b'.', word) {
        None => None,
        Some((first, left)) => match two_parts(b'.', left) {
            None => None,
            Some((second, third)) => Some(Three {
                first,
                second,
                third,
            }),
        },
    }
}

/// A view: its number, its coordinator and the coordinator's incarnation, joined by dots.
#[tactic(auto, unfolding(word_laws::specs::Values::view_word, word_laws::specs::Values::view_of, value_words::specs::Answers::bind_opens), using(crate::proofs::PartLaws::not_view))]
pub fn view_word(word: &[u8]) -> Option<ViewId>
    ensures { result ≡ view_word word.now }
{
    let parts = three_parts(word)?;
    let number = u32_word(parts.first)?;
    let coord = node_word(parts.second)?;
    let inc = u32_word(parts.third)?;
    Some(ViewId { number, coord, inc })
}

/// A ring: its leader, the leader's incarnation and the ring's number, joined by dots.
#[tactic(auto, unfolding(word_laws::specs::Values::ring_word, word_laws::specs::Values::ring_of, value_words::specs::Answers::bind_opens), using(crate::proofs::PartLaws::not_ring))]
pub fn ring_word(word: &[u8]) -> Option<RingId>
    ensures { result ≡ ring_word word.now }
{
    let parts = three_parts(word)?;
    let leader = node_word(parts.first)?;
    let inc = u32_word(parts.second)?;
    let number = u32_word(parts.third)?;
    Some(RingId {
        leader,
        inc,
        number,
    })
}

/// A protocol: its view and its place, with a `/` between them.
#[tactic(auto, unfolding(word_laws::specs::Values::proto_word, word_laws::specs::Values::two_word, word_laws::specs::Values::both_of, value_words::specs::Answers::bind_opens), using(crate::proofs::PartLaws::not_both))]
pub fn proto_word(word: &[u8]) -> Option<ProtoId>
    ensures { result ≡ proto_word word.now }
{
    let (first, second) = two_parts(b'/', word)?;
    let view = view_word(first)?;
    let place = u32_word(second)?;
    Some(ProtoId { view, place })
}

/// A member of a view: a node and its incarnation.
#[tactic(auto, unfolding(word_laws::specs::Values::member_word, word_laws::specs::Values::two_word, word_laws::specs::Values::both_of, value_words::specs::Answers::bind_opens), using(crate::proofs::PartLaws::not_both))]
pub fn member_word(word: &[u8]) -> Option<Member>
    ensures { result ≡ member_word word.now }
{
    let (first, second) = two_parts(b'.', word)?;
    let node = node_word(first)?;
    let inc = u32_word(second)?;
    Some(Member { node, inc })
}
