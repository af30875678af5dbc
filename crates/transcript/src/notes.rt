//! What a subscribed client is handed.
ghost use Rattle.std.specs.Prelude.{◌≡◌, ◌++◌, OnOk};
ghost use Rattle.value_words.specs.Wording.{word};
ghost use Rattle.world_model.specs.Text.{place_option_text, state_text, note_text};

use client_callbacks::Told;
use rsct_packet::{NoMemory, ProviderId};
use value_words::{
    put_members, put_number_word, put_providers_word, put_text, put_value, put_word,
};

/// Members and value.
#[tactic(auto, unfolding(world_model::specs::Text::state_text))]
pub fn put_state(out: &mut Vec<u8>, members: &[ProviderId], value: &[u8]) -> Result<(), NoMemory>
    ensures { OnOk result (out.new.items ≡ out.old.items ++ state_text members.now value.now) }
{
    put_providers_word(out, members)?;
    put_value(out, value)
}

/// A place and a space, `-` for none.
#[tactic(auto, unfolding(world_model::specs::Text::place_option_text, value_words::specs::Wording::word))]
fn put_place_option(out: &mut Vec<u8>, place: Option<u32>) -> Result<(), NoMemory>
    ensures { OnOk result (out.new.items ≡ out.old.items ++ word (place_option_text place)) }
{
    match place {
        None => put_text(out, b"- "),
        Some(i) => put_number_word(out, i),
    }
}

/// A note from its group on.
#[tactic(auto, unfolding(world_model::specs::Text::note_text, value_words::specs::Wording::word))]
pub fn put_note(out: &mut Vec<u8>, place: Option<u32>, told: &Told) -> Result<(), NoMemory>
    ensures { OnOk result (out.new.items ≡ out.old.items ++ note_text place told.now) }
{
    match told {
        Told::Note {
            group,
            members,
            value,
        } => {
            put_word(out, group.bytes())?;
            put_place_option(out, place)?;
            put_state(out, members.as_slice(), value.bytes())
        }
        Told::Hosts { nodes, .. } => {
            put_text(out, b"HostMembership ")?;
            put_place_option(out, place)?;
            put_members(out, nodes.as_slice())?;
            put_text(out, b" ")?;
            put_text(out, b"=")
        }
        Told::Refused { .. } => Ok(()),
    }
}
