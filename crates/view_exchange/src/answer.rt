//! What a node that is asked for a view answers.
ghost use Rattle.std.specs.Prelude.{◌≡◌, ◌++◌, IfSome, OnOk, OnErr, IfOk};
ghost use Rattle.std.specs.Option.{option_map};
ghost use Rattle.rsct_packet.specs.Fields.{IsNode};
ghost use Rattle.rsct_packet.specs.Format.{IsBytes};
ghost use Rattle.proposal_core.specs.EntryCodec.{whole};
ghost use Rattle.view_state.specs.Codec.{Brought, answer_at, answer_text, IsAnswer, IsParts};
ghost use Rattle.view_exchange.specs.InPlace.{brought_in};

use crate::in_place::{PartsRef, read_parts};
use crate::writing::put_parts;
use rsct_packet::{NoMemory, ViewId, known, put_view, read_view};
use std::alloc::Global;
use view_state::Part;

/// An answer as it stands in a datagram: the view that its node comes from, and the node's lists in name order.
#[derive(Drop)]
pub struct AnswerRef<'a> {
    pub view: ViewId,
    pub parts: PartsRef<'a>,
}

#[tactic(auto, unfolding(view_state::specs::Codec::answer_at))]
fn whole_answer(bytes: &[u8]) -> Option<AnswerRef<'_>>
    ensures value { option_map (λ a. brought_in a) result ≡ whole (answer_at bytes.now) }
    ensures bytes { IsBytes bytes.now }
{
    let (view, bytes) = read_view(known(bytes))?;
    let (parts, bytes) = read_parts(bytes)?;
    if bytes.len() != 0 {
        return None;
    }
    Some(AnswerRef { view, parts })
}

impl<'a> AnswerRef<'a> {
    /// Takes an answer that spans all of the bytes, and copies nothing. None exactly where they spell none.
    pub fn read(bytes: &'a [u8]) -> Option<AnswerRef<'a>>
        ensures value { option_map (λ a. brought_in a) result ≡ whole (answer_at bytes.now) }
        ensures found { IfSome (option_map (λ a. brought_in a) result) (λ a. IsAnswer a
            × (bytes.now ≡ answer_text a)) }
        ensures only { (a : Brought) → IsAnswer a → bytes.now ≡ answer_text a
            → option_map (λ x. brought_in x) result ≡ Some a }
    {
        whole_answer(bytes)
    }

    /// The group parts, to be taken one after another in place.
    pub fn parts(&self) -> PartsRef<'a>
        ensures { result ≡ self.now.parts }
    {
        self.parts.copy()
    }
}

/// The spelling, in memory of its own.
#[tactic(auto, unfolding(view_state::specs::Codec::answer_text))]
fn spelled(alloc: Global, view: ViewId, parts: &[Part]) -> Result<Vec<u8>, NoMemory>
    requires coord { IsNode view.coord }
    requires parts { IsParts parts.now }
    ensures { IfOk result (λ v. v.items ≡ answer_text (record { view = view; parts = parts.now })) }
{
    let mut out = Vec::new(alloc);
    put_view(&mut out, view)?;
    put_parts(alloc, &mut out, parts)?;
    Ok(out)
}

/// Takes the spelling of an answer, of a node that comes from this view with these lists, to the end of `out`, and
/// leaves `out` as before where memory has run out.
pub fn put_answer(
    alloc: Global,
    out: &mut Vec<u8>,
    view: ViewId,
    parts: &[Part],
) -> Result<(), NoMemory>
    requires coord { IsNode view.coord }
    requires parts { IsParts parts.now }
    ensures ok { OnOk result (out.new.items ≡ out.old.items
        ++ answer_text (record { view = view; parts = parts.now })) }
    ensures err { OnErr result (out.new.items ≡ out.old.items) }
{
    let text = spelled(alloc, view, parts)?;
    out.extend_from_slice(text.as_slice())?;
    Ok(())
}
