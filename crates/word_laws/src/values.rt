//! Numbers, ids, values and lists of them.
ghost use Rattle.std.specs.Prelude.{◌≡◌, ◌≤◌, ◌<◌, ◌^◌, ℕ, List, Option, Some, true, decimal};
ghost use Rattle.std.specs.List.{list_all};
ghost use Rattle.rsct_packet.specs.declared.ids.Member.{Member};
ghost use Rattle.rsct_packet.specs.declared.ids.ProtoId.{ProtoId};
ghost use Rattle.rsct_packet.specs.declared.ids.ProviderId.{ProviderId};
ghost use Rattle.rsct_packet.specs.declared.ids.RingId.{RingId};
ghost use Rattle.rsct_packet.specs.declared.ids.ViewId.{ViewId};
ghost use Rattle.rsct_packet.specs.Mask.{is_node};
ghost use Rattle.value_words.specs.Escapes.{text_of};
ghost use Rattle.value_words.specs.Wording.{view_text, provider_text, ring_text, proto_text, member_text, nodes_text, members_text, providers_text, escaped, value_text};
ghost use Rattle.value_words.specs.Words.{number_word, node_word, provider_word};
ghost use Rattle.entry_words.specs.Wording.{value_option_text};
ghost use Rattle.word_laws.specs.Ranges.{is_view, is_ring, is_proto, is_provider, is_member, is_value, is_value_option};
ghost use Rattle.word_laws.specs.Values.{view_word, ring_word, proto_word, member_word, list_word, value_word, value_or_none};

/// A number is read from its digits in any range that it is in, of up to 64 bits.
#[tactic(auto, using(crate::proofs::Pieces::number_read))]
pub fn numbers_are_read_back()
    ensures { (low high n : ℕ) → low ≤ n → n ≤ high → high < 2 ^ 64
        → number_word low high (decimal n) ≡ Some n }
{}

/// The id of a view.
#[tactic(auto, using(crate::proofs::ValueLaws::view_read))]
pub fn views_are_read_back()
    ensures { (v : ViewId) → is_view v ≡ true → view_word (view_text v) ≡ Some v }
{}

/// The id of a ring.
#[tactic(auto, using(crate::proofs::ValueLaws::ring_read))]
pub fn rings_are_read_back()
    ensures { (r : RingId) → is_ring r ≡ true → ring_word (ring_text r) ≡ Some r }
{}

/// The id of a protocol.
#[tactic(auto, using(crate::proofs::ValueLaws::proto_read))]
pub fn protocols_are_read_back()
    ensures { (p : ProtoId) → is_proto p ≡ true → proto_word (proto_text p) ≡ Some p }
{}

/// The id of a provider, and a list of them.
#[tactic(auto, using(crate::proofs::ValueLaws::provider_read, crate::proofs::ValueLaws::providers_read))]
pub fn providers_are_read_back()
    ensures one { (p : ProviderId) → is_provider p ≡ true
        → provider_word (provider_text p) ≡ Some p }
    ensures list { (ps : List ProviderId) → list_all is_provider ps ≡ true
        → list_word provider_word (providers_text ps) ≡ Some ps }
{}

/// The members of a view.
#[tactic(auto, using(crate::proofs::ValueLaws::members_read))]
pub fn members_are_read_back()
    ensures { (ms : List Member) → list_all is_member ms ≡ true
        → list_word member_word (members_text ms) ≡ Some ms }
{}

/// The nodes of a ring.
#[tactic(auto, using(crate::proofs::ValueLaws::nodes_read))]
pub fn lists_are_read_back()
    ensures { (ns : List ℕ) → list_all is_node ns ≡ true
        → list_word node_word (nodes_text ns) ≡ Some ns }
{}

/// The bytes of a value, whatever they are; a value in a line; and one that may be missing.
#[tactic(auto, using(crate::proofs::ValueLaws::value_bytes_read, crate::proofs::ValueLaws::value_read, crate::proofs::ValueLaws::value_option_read))]
pub fn values_are_read_back()
    ensures bytes { (bytes : List ℕ) → is_value bytes ≡ true
        → text_of (escaped bytes) ≡ Some bytes }
    ensures value { (bytes : List ℕ) → is_value bytes ≡ true
        → value_word (value_text bytes) ≡ Some bytes }
    ensures option { (value : Option (List ℕ)) → is_value_option value ≡ true
        → value_or_none (value_option_text value) ≡ Some value }
{}
